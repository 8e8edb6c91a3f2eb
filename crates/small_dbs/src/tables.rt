// The tables of a small database.
ghost use Rattle.std.specs.Prelude.{◌≡◌, ◌++◌, ◌+◌, ◌*◌, ◌%◌, ◌<◌, ◌≤◌, ◌∷◌, [], false, IfOk, OnOk, length};
ghost use Rattle.std.specs.Str.{bytes_eq};
ghost use Rattle.std.specs.List.{AllByRecursion, list_any};
ghost use Rattle.schema.specs.Rules.{AreColumns};
ghost use Rattle.small_dbs.specs.Adding.{AreNew, names_in, with_rows};
ghost use Rattle.small_dbs.specs.Chosen as spec;
ghost use Rattle.small_dbs.specs.Held.{held};

use crate::cells::row;
use crate::choice::Values;
use qbs_base::{Column, Db, NoMemory, Table, copy_text};
use schema::Schema;
use std::alloc::Global;

// Puts rows into the table with that number, as many as are asked for, each five places behind the
// last.
fn put_rows(
    alloc: Global,
    values: &Values,
    k: usize,
    table: u32,
    columns: &[Column],
    count: usize,
    db: &mut Db,
) -> Result<(), NoMemory>
    requires few { k + 5 * count + length columns.now ≤ 1000 }
    requires there { table < length db.old }
    ensures { OnOk result (db.new ≡ with_rows db.old table (spec.rows (held values.now) k table columns.now count)) }
{
    if count == 0 {
        return Ok(());
    }
    db.put_row(table, row(alloc, values, k, table, columns)?)?;
    put_rows(alloc, values, k + 5, table, columns, count - 1, db)
}

// Adds a table with its rows.
fn add_table(
    alloc: Global,
    values: &Values,
    d: usize,
    number: usize,
    table: &Table,
    db: &mut Db,
) -> Result<(), NoMemory>
    requires next { number ≡ length db.old }
    requires few { number < 64 }
    requires low { d < 8 }
    requires fresh { list_any (λ name. bytes_eq name table.now.name) (names_in db.old) ≡ false }
    requires columns { length table.now.columns ≤ 32 }
    ensures { OnOk result (db.new ≡ db.old ++ (table.now.name, spec.rows (held values.now) (d + 3 * number) number table.now.columns (d % 4)) ∷ []) }
{
    let at = db.add_table(copy_text(alloc, &table.name)?)?;
    put_rows(
        alloc,
        values,
        d + 3 * number,
        at,
        table.columns.as_slice(),
        d % 4,
        db,
    )
}

fn add_tables(
    alloc: Global,
    values: &Values,
    d: usize,
    number: usize,
    tables: &[Table],
    db: &mut Db,
) -> Result<(), NoMemory>
    requires next { number ≡ length db.old }
    requires few { number + length tables.now ≤ 64 }
    requires low { d < 8 }
    requires fresh { AreNew (names_in db.old) tables.now }
    requires columns { AllByRecursion (λ t. AreColumns t.columns) tables.now }
    ensures { OnOk result (db.new ≡ db.old ++ spec.tables (held values.now) d number tables.now) }
{
    match tables.split_first() {
        None => Ok(()),
        Some((table, rest)) => {
            add_table(alloc, values, d, number, table, &mut *db)?;
            add_tables(alloc, values, d, number + 1, rest, db)
        }
    }
}

/// The tables of small database number d.
pub fn small_db(alloc: Global, values: &Values, d: usize, schema: &Schema) -> Result<Db, NoMemory>
    requires { d < 8 }
    ensures { IfOk result (λ db. db ≡ spec.tables (held values.now) d 0 schema.now) }
{
    let mut db = Db::new(alloc);
    add_tables(alloc, values, d, 0, schema.tables(), &mut db)?;
    Ok(db)
}
