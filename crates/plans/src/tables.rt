// The tables of a schema, from files of a folder.
ghost use Rattle.std.specs.Prelude.{◌≡◌, ◌<◌, ◌≤◌, length, IfOk, OnOk, string_bytes};
ghost use Rattle.qbs_base.specs.Values.{IsDatabaseOf};
ghost use Rattle.deliveries.specs.Plan.{given};
ghost use Rattle.deliveries.specs.Reads.{looks, OnlyReads};
ghost use Rattle.plans.specs.Tables.{table_file as file_of, table_files, IsFresh, Reads, Loads, LoadsNext, with_rows_at};

use crate::lines::data_refused;
use deliveries::fetch::Stop;
use deliveries::named::fetch_named;
use files_sinks::Files;
use qbs_base::{Bytes, Db, Fail, Items, NoMemory, Rows, Table, Text, Texts};
use schema::Schema;
use schema_text::load_table;
use std::alloc::{AllocError, Global};

/// The texts of tables.
pub type TableTexts = Items<Bytes>;

fn file_text(alloc: Global, folder: &Text, table: &Table) -> Result<String, AllocError>
    ensures { IfOk result (λ s. string_bytes s ≡ file_of folder.now table.now.name) }
{
    let folder = folder.as_str();
    let name = table.name.as_str();
    let text = format!(in alloc; "{folder}/{name}.csv")?;
    Ok(text)
}

// The file of a table in a folder.
fn table_file(alloc: Global, folder: &Text, table: &Table) -> Result<Text, NoMemory>
    ensures { IfOk result (λ text. text ≡ file_of folder.now table.now.name) }
{
    Ok(Text::from_string(file_text(alloc, folder, table)?))
}

// The files of tables in a folder, in their order.
fn file_names(alloc: Global, folder: &Text, tables: &[Table]) -> Result<Texts, NoMemory>
    ensures { IfOk result (λ names. names ≡ table_files folder.now tables.now) }
{
    let mut names = Texts::new(alloc);
    for table in tables {
        names.push(table_file(alloc, folder, table)?)?;
    }
    Ok(names)
}

/// Reads the files of tables in order, behind the texts that are there. All together have `left` bytes at
/// most.
pub fn fetch_tables<F: Files>(
    tables: &[Table],
    alloc: Global,
    files: &mut F,
    folder: &Text,
    left: u64,
    texts: &mut TableTexts,
) -> Result<(), Stop>
    ensures same { F.told files.new ≡ F.told files.old }
    ensures later { F.faults files.old ≤ F.faults files.new }
    ensures only { OnlyReads (looks F.told F.faults F.may_fail F.by_read) (table_files folder.now tables.now) files.old files.new }
    ensures read { Reads (given F.told F.faults F.may_fail files.old files.new) folder.now tables.now left texts.old texts.new result }
{
    let names = file_names(alloc, folder, tables)?;
    fetch_named(alloc, files, names.as_slice(), left, "tables", texts)
}

// Puts rows into the table with that number.
fn put_rows(db: &mut Db, table: u32, rows: Rows) -> Result<(), NoMemory>
    requires { table < length db.old }
    ensures { OnOk result (db.new ≡ with_rows_at db.old table rows) }
{
    for row in rows.into_vec() {
        db.put_row(table, row)?;
    }
    Ok(())
}

// Adds the table with the next number, with the rows that its text has.
fn load_next(
    alloc: Global,
    schema: &Schema,
    number: u32,
    text: &[u8],
    db: &mut Db,
) -> Result<(), Stop>
    requires within { number < length schema.now }
    requires next { number ≡ length db.old }
    requires fresh { IsFresh schema.now number db.old }
    ensures { LoadsNext schema.now number text.now db.old db.new result }
{
    let table = &schema.tables()[number as usize];
    match load_table(alloc, schema, number, text) {
        Ok(rows) => {
            let number = db.add_table(table.name.clone()?)?;
            put_rows(db, number, rows)?;
            Ok(())
        }
        Err(Fail::Fault(fault)) => Err(data_refused(alloc, &table.name, &fault)),
        Err(Fail::NoMemory) => Err(Stop::Memory),
    }
}

/// The database that the texts of a schema's tables have, or the refusal of the first table whose text
/// isn't one.
pub fn load_tables(alloc: Global, schema: &Schema, texts: &[Bytes]) -> Result<Db, Stop>
    requires { length texts.now ≡ length schema.now }
    ensures loaded { Loads schema.now texts.now result }
    ensures database { IfOk result (λ db. IsDatabaseOf schema.now db) }
{
    let mut db = Db::new(alloc);
    for number in 0..schema.tables().len() {
        load_next(
            alloc,
            schema,
            number as u32,
            texts[number].as_slice(),
            &mut db,
        )?;
    }
    Ok(db)
}
