// Items of a store, read from left to right.
ghost use Rattle.std.specs.Prelude.{◌≡◌, ◌+◌, ◌≤◌, ◌<◌, ◌++◌, ◌∷◌, [], false, IfOk, IfErr, OnOk, length};
ghost use Rattle.std.specs.List.{list_any};
ghost use Rattle.std.specs.Str.{bytes_eq};
ghost use Rattle.readers.specs.Reading.{Gives};
ghost use Rattle.store_readers.specs.Into.{read_into, pushed};
ghost use Rattle.store_readers.specs.Reading.{rows_at};
ghost use Rattle.small_dbs.specs.Adding.{AreNew, names_in};
ghost use Rattle.proof_store.specs.Reading as spec;

use kernel_lang::Entry;
use qbs_base::{Db, Name, Table, copy_text};
use readers::ReadError;
use schema::Schema;
use small_dbs::SmallDb;
use std::alloc::Global;
use store_readers::{entry, known, put_rows};
use text_readers::{is_over_at, word};

// How many items a store has at most.
const MOST_ITEMS: u32 = 256;

/// An empty table of this name, behind the others.
fn add_table(alloc: Global, name: &Name, db: &mut Db) -> Result<u32, ReadError>
    requires few { length db.old < 64 }
    requires fresh { list_any (λ own. bytes_eq own name.now) (names_in db.old) ≡ false }
    ensures number { IfOk result (λ n. n ≡ length db.old) }
    ensures ok { OnOk result (db.new ≡ db.old ++ (name.now, []) ∷ []) }
    ensures err { IfErr result (λ e. e ≡ ReadError.Memory) }
{
    let Ok(name) = copy_text(alloc, name) else {
        return Err(ReadError::Memory);
    };
    match db.add_table(name) {
        Ok(number) => Ok(number),
        Err(_) => Err(ReadError::Memory),
    }
}

/// A table with the rows of its lines, behind the others.
fn put_table<'a>(
    alloc: Global,
    table: &Table,
    db: &mut Db,
    bytes: &'a [u8],
) -> Result<&'a [u8], ReadError>
    requires few { length db.old < 64 }
    requires fresh { list_any (λ own. bytes_eq own table.now.name) (names_in db.old) ≡ false }
    ensures { Gives (λ x. (db.new, x.now)) result (spec.table_put db.old table.now.name (rows_at (length db.old) table.now.columns bytes.now)) }
{
    let number = add_table(alloc, &table.name, &mut *db)?;
    put_rows(alloc, number, table.columns.as_slice(), db, bytes)
}

/// The tables of a schema from here on, behind those that are there.
fn put_tables<'a>(
    alloc: Global,
    tables: &[Table],
    db: &mut Db,
    bytes: &'a [u8],
) -> Result<&'a [u8], ReadError>
    requires few { length db.old + length tables.now ≤ 64 }
    requires fresh { AreNew (names_in db.old) tables.now }
    ensures { Gives (λ x. (db.new, x.now)) result (read_into pushed db.old (spec.tables_at (length db.old) tables.now bytes.now)) }
{
    match tables.split_first() {
        None => Ok(bytes),
        Some((table, further)) => {
            let rest = put_table(alloc, table, &mut *db, bytes)?;
            put_tables(alloc, further, db, rest)
        }
    }
}

/// The tables of a schema.
fn tables<'a>(alloc: Global, schema: &Schema, bytes: &'a [u8]) -> Result<(Db, &'a [u8]), ReadError>
    ensures { Gives (λ x. (x.0, x.1.now)) result (spec.tables_at 0 schema.now bytes.now) }
{
    let mut db = Db::new(alloc);
    let rest = put_tables(alloc, schema.tables(), &mut db, bytes)?;
    Ok((db, rest))
}

/// Entry values and known lists.
#[tactic(auto, unfolding(crate::specs::Reading::given_at))]
fn given(alloc: Global, bytes: &[u8]) -> Result<(Entry, &[u8]), ReadError>
    ensures { Gives (λ x. (x.0, x.1.now)) result (spec.given_at bytes.now) }
{
    let (values, rest) = entry(alloc, bytes)?;
    let (known, rest) = known(alloc, rest)?;
    Ok((Entry { values, known }, rest))
}

/// An item, behind those that are there.
#[tactic(auto, unfolding(crate::specs::Reading::item_at))]
fn put_item<'a>(
    alloc: Global,
    schema: &Schema,
    items: &mut Vec<SmallDb>,
    bytes: &'a [u8],
) -> Result<&'a [u8], ReadError>
    ensures { Gives (λ x. (items.new.items, x.now)) result (spec.item_put items.old.items (spec.item_at schema.now bytes.now)) }
{
    let rest = word(b"base\n", bytes)?;
    let (db, rest) = tables(alloc, schema, rest)?;
    let (entry, rest) = given(alloc, rest)?;
    items.push(SmallDb { db, entry })?;
    Ok(rest)
}

/// Items up to the end of the store, no more than it may have.
fn items<'a>(
    alloc: Global,
    schema: &Schema,
    bytes: &'a [u8],
) -> Result<(Vec<SmallDb>, &'a [u8]), ReadError>
    ensures { Gives (λ x. (x.0.items, x.1.now)) result (spec.items_at schema.now bytes.now) }
{
    let mut items = Vec::new(alloc);
    let mut rest = bytes;
    for _ in 0..MOST_ITEMS {
        if is_over_at(b'e', rest) {
            break;
        }
        rest = put_item(alloc, schema, &mut items, rest)?;
    }
    Ok((items, rest))
}

/// The items of a store, and what stands behind its last line.
#[tactic(auto, unfolding(crate::specs::Reading::store_at))]
pub fn store<'a>(
    alloc: Global,
    schema: &Schema,
    bytes: &'a [u8],
) -> Result<(Vec<SmallDb>, &'a [u8]), ReadError>
    ensures { Gives (λ x. (x.0.items, x.1.now)) result (spec.store_at schema.now bytes.now) }
{
    let rest = word(b"qbs store 1\n", bytes)?;
    let (items, rest) = items(alloc, schema, rest)?;
    let rest = word(b"end\n", rest)?;
    Ok((items, rest))
}
