// The answers of queries over a table of one column.
ghost use Rattle.std.specs.Prelude.{◌≡◌, []};
ghost use Rattle.sql_ast.specs.Reading.{query};
ghost use Rattle.sql_exec.specs.Answered.{IsAnswerable};

use crate::places::text_of;
use qbs_base::{Cells, Db, Kind, NoMemory, Row, Scalar, Scalars, Text};
use sql_ast::Query;
use sql_exec::{Answer, answer};
use std::alloc::Global;

// A row of the table with that number, of a number each column.
fn row(alloc: Global, table: u32, numbers: &[i64]) -> Result<Row, NoMemory> {
    let mut cells = Cells::new(alloc);
    for number in numbers {
        cells.push(Scalar::Long(*number))?;
    }
    Ok(Row {
        kind: Kind::Table(table),
        cells,
    })
}

/// Appends a row to the table with that number, of a number each column. Where there is no such table, nothing is done.
pub fn put_row(db: &mut Db, alloc: Global, table: u32, numbers: &[i64]) -> Result<(), NoMemory> {
    if db.rows(table).is_some() {
        db.put_row(table, row(alloc, table, numbers)?)?;
    }
    Ok(())
}

/// The number of these digits, and 0 where they are none.
pub fn number_of(alloc: Global, digits: &[u8]) -> Result<i64, NoMemory> {
    let text = text_of(alloc, digits)?;
    match text.as_str().parse::<i64>() {
        Ok(number) => Ok(number),
        Err(_) => Ok(0),
    }
}

// Adds one table of one column.
fn put_numbers(db: &mut Db, alloc: Global, numbers: &[Vec<u8>]) -> Result<(), NoMemory>
    requires { db.old ≡ [] }
{
    db.add_table(Text::from_string(String::new(alloc)))?;
    for digits in numbers {
        let number = number_of(alloc, digits)?;
        put_row(db, alloc, 0, &[number])?;
    }
    Ok(())
}

fn put_cell(out: &mut String, cell: &Scalar) -> Result<(), NoMemory> {
    match cell {
        Scalar::Long(number) => Ok(write!(out, "{number}")?),
        _ => Ok(out.push_str("no number")?),
    }
}

fn put_rows(out: &mut String, rows: &[Row]) -> Result<(), NoMemory> {
    out.push_str("rows")?;
    for row in rows {
        for cell in row.cells.as_slice() {
            out.push_str(" ")?;
            put_cell(out, cell)?;
        }
    }
    Ok(())
}

fn put_found(out: &mut String, found: &Answer) -> Result<(), NoMemory> {
    match found {
        Answer::Rows(rows) => put_rows(out, rows.as_slice()),
        Answer::One(cell) => put_cell(out, cell),
        Answer::SumTooLarge => Ok(out.push_str("sum too large")?),
    }
}

fn put_over(out: &mut String, alloc: Global, q: &Query, db: &Db) -> Result<(), NoMemory>
    requires { IsAnswerable (query q.now) }
{
    let found = answer(alloc, q, db, &Scalars::new(alloc));
    match found {
        Ok(found) => put_found(out, &found),
        Err(NoMemory) => Err(NoMemory),
    }
}

/// Appends the answer of a query over a table of these numbers.
pub fn put_answer(
    out: &mut String,
    alloc: Global,
    q: &Query,
    numbers: &[Vec<u8>],
) -> Result<(), NoMemory>
    requires { IsAnswerable (query q.now) }
{
    let mut db = Db::new(alloc);
    match put_numbers(&mut db, alloc, numbers) {
        Ok(_) => put_over(out, alloc, q, &db),
        Err(NoMemory) => Err(NoMemory),
    }
}
