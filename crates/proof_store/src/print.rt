// The text of a bank.
ghost use Rattle.std.specs.Prelude.{◌≡◌, ◌++◌, ◌≤◌, IfOk, OnOk, length, string_bytes};
ghost use Rattle.std.specs.List.{AllByRecursion, flat_map};
ghost use Rattle.store_parts.specs.Texts.{table_text};
ghost use Rattle.proof_store.specs.Grammar.{HasStore, IsItemOf};
ghost use Rattle.proof_store.specs.Printing.{text_at};
ghost use Rattle.proof_store.specs.Texts.{item_text, store_text};

use crate::bank::Bank;
use qbs_base::{Db, NoMemory, Text};
use schema::Schema;
use small_dbs::SmallDb;
use std::alloc::{AllocError, Global};
use store_parts::{push_entry, push_known, push_rows};

/// Appends the table with this number, where there is one.
fn push_table(out: &mut String, number: u32, db: &Db) -> Result<(), AllocError>
    ensures { OnOk result (string_bytes out.new ≡ string_bytes out.old ++ text_at db.now number) }
{
    match db.rows(number) {
        Some(rows) => push_rows(out, rows),
        None => Ok(()),
    }
}

/// Appends the tables of a database that has no more than so many.
#[tactic(auto, using(crate::proofs::Printed::all_written))]
fn push_tables(out: &mut String, count: u32, db: &Db) -> Result<(), AllocError>
    requires { length db.now ≤ count }
    ensures { OnOk result (string_bytes out.new ≡ string_bytes out.old ++ flat_map table_text db.now) }
{
    for number in 0..count {
        push_table(out, number, db)?;
    }
    Ok(())
}

fn push_item(out: &mut String, count: u32, item: &SmallDb) -> Result<(), AllocError>
    requires { length item.now.db ≤ count }
    ensures { OnOk result (string_bytes out.new ≡ string_bytes out.old ++ item_text item.now) }
{
    out.push_str("base\n")?;
    push_tables(out, count, &item.db)?;
    push_entry(out, &item.entry.values)?;
    push_known(out, &item.entry.known)
}

fn push_items(out: &mut String, count: u32, items: &[SmallDb]) -> Result<(), AllocError>
    requires { AllByRecursion (λ s. length s.db ≤ count) items.now }
    ensures { OnOk result (string_bytes out.new ≡ string_bytes out.old ++ flat_map item_text items.now) }
{
    for item in items {
        push_item(out, count, item)?;
    }
    Ok(())
}

/// How many tables a schema has.
fn count(schema: &Schema) -> u32
    ensures { result ≡ length schema.now }
{
    schema.tables().len() as u32
}

/// The text of a bank whose items have databases of the schema and known lists of one type each: `read_store` reads it back. Only want of
/// memory is an error.
pub fn print_store(alloc: Global, schema: &Schema, bank: &Bank) -> Result<Text, NoMemory>
    requires { AllByRecursion (IsItemOf schema.now) bank.now }
    ensures exact { IfOk result (λ t. t ≡ store_text bank.now) }
    ensures back { IfOk result (λ t. HasStore schema.now t bank.now) }
{
    let mut out = String::new(alloc);
    out.push_str("qbs store 1\n")?;
    push_items(&mut out, count(schema), bank.items())?;
    out.push_str("end\n")?;
    Ok(Text::from_string(out))
}
