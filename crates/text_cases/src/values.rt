// Printed values, and the tables of a database.
ghost use Rattle.std.specs.Prelude.{◌≡◌, []};

use crate::answers::number_of;
use crate::escapes::put_line;
use crate::places::{field, text_of};
use qbs_base::{Cells, Db, Kind, Names, NoMemory, Row, Rows, Scalar, Text, Value, print_value};
use std::alloc::{AllocError, Global};

fn is_true(word: &[u8]) -> bool {
    word == b"true".as_slice()
}

// The row of the three fields from this one on: a number, a text and a truth value.
fn row(alloc: Global, fields: &[Vec<u8>], start: usize) -> Result<Row, NoMemory> {
    let number = number_of(alloc, field(fields, start))?;
    let active = is_true(field(fields, start.wrapping_add(2)));
    let mut cells = Cells::new(alloc);
    cells.push(Scalar::Long(number))?;
    cells.push(Scalar::Text(text_of(alloc, field(fields, start.wrapping_add(1)))?))?;
    cells.push(Scalar::Bool(active))?;
    Ok(Row {
        kind: Kind::Table(0),
        cells,
    })
}

// ---- Values

fn value_of(alloc: Global, kind: &str, fields: &[Vec<u8>]) -> Result<Value, NoMemory> {
    match kind {
        "one" => Ok(Value::One(Scalar::Long(number_of(alloc, field(fields, 0))?))),
        "whole" => Ok(Value::Whole(row(alloc, fields, 0)?)),
        _ => {
            let mut rows = Rows::new(alloc);
            rows.push(row(alloc, fields, 0)?)?;
            Ok(Value::Many(rows))
        }
    }
}

fn put_printed(out: &mut String, alloc: Global, value: &Value) -> Result<(), NoMemory> {
    let mut names = Names::new(alloc);
    names.push(Text::from_str(alloc, "User")?)?;
    let text = print_value(alloc, &names, value)?;
    Ok(put_line(out, text.as_str())?)
}

/// Appends what is printed of a number, of a row of the table `User`, or of a list of one row.
pub fn put_value(
    out: &mut String,
    alloc: Global,
    kind: &str,
    fields: &[Vec<u8>],
) -> Result<(), NoMemory> {
    match value_of(alloc, kind, fields) {
        Ok(value) => put_printed(out, alloc, &value),
        Err(NoMemory) => Err(NoMemory),
    }
}

// ---- Databases

fn put_count(out: &mut String, db: &Db, table: u32) -> Result<(), AllocError> {
    match db.rows(table) {
        Some(rows) => {
            let count = rows.len();
            write!(out, "table {table}: {count} rows\n")
        }
        None => write!(out, "table {table}: none\n"),
    }
}

fn put_known(out: &mut String, db: &Db, name: &Text) -> Result<(), AllocError> {
    let known = db.table(name).is_some();
    out.push_str(name.as_str())?;
    out.push_str(if known { ": there\n" } else { ": none\n" })
}

fn put_name(out: &mut String, db: &Db, table: u32) -> Result<(), AllocError> {
    write!(out, "table {table} is ")?;
    match db.name(table) {
        Some(name) => out.push_str(name.as_str()),
        None => out.push_str("none"),
    }
}

// What is said of the first two tables, and of the table of another name.
fn put_tables(out: &mut String, db: &Db, other: &Text) -> Result<(), NoMemory> {
    put_count(out, db, 0)?;
    put_count(out, db, 1)?;
    put_known(out, db, other)?;
    Ok(put_name(out, db, 0)?)
}

// Adds a table with its rows, three fields each. The number that the table gets is appended.
fn put_table(
    out: &mut String,
    alloc: Global,
    db: &mut Db,
    name: Text,
    fields: &[Vec<u8>],
) -> Result<(), NoMemory>
    requires { db.old ≡ [] }
{
    let table = db.add_table(name)?;
    write!(out, "added as {table}\n")?;
    for number in 0..fields.len() / 3 {
        if db.rows(0).is_some() {
            db.put_row(0, row(alloc, fields, number.wrapping_mul(3))?)?;
        }
    }
    Ok(())
}

fn put_named(
    out: &mut String,
    alloc: Global,
    db: &mut Db,
    fields: &[Vec<u8>],
) -> Result<(), NoMemory>
    requires { db.old ≡ [] }
{
    let [name, other, rows @ ..] = fields else {
        return Ok(());
    };
    put_table(out, alloc, db, text_of(alloc, name)?, rows)?;
    put_tables(out, db, &text_of(alloc, other)?)
}

/// Appends what a database says of its one table, which has the name in the first field, and of the name in the second. Behind these
/// stand the table's rows, three fields each.
pub fn put_database(out: &mut String, alloc: Global, fields: &[Vec<u8>]) -> Result<(), NoMemory> {
    let mut db = Db::new(alloc);
    put_named(out, alloc, &mut db, fields)
}
