// Texts of schemas and of tables.
use crate::escapes::put_line;
use crate::places::{field, put_span};
use crate::repeats::source_of;
use qbs_base::{Column, Fail, NoMemory, Scalar, Table, Ty};
use schema::Schema;
use schema_text::{load_table, parse_schema};
use std::alloc::{AllocError, Global};

fn put_column(out: &mut String, column: &Column) -> Result<(), AllocError> {
    out.push_str(column.name.as_str())?;
    out.push_str(match column.ty {
        Ty::Long => " Long",
        Ty::Bool => " Bool",
        Ty::Text => " Text",
    })?;
    put_marks(out, column)
}

fn put_marks(out: &mut String, column: &Column) -> Result<(), AllocError> {
    if column.not_null {
        out.push_str(" NOT NULL")?;
    }
    if column.primary {
        out.push_str(" PRIMARY KEY")?;
    }
    Ok(())
}

fn put_table(out: &mut String, table: &Table) -> Result<(), AllocError> {
    let mut gap = "";
    out.push_str(table.name.as_str())?;
    out.push_str("(")?;
    for column in table.columns.as_slice() {
        out.push_str(gap)?;
        put_column(out, column)?;
        gap = ", ";
    }
    out.push_str(")")
}

fn put_tables(out: &mut String, tables: &[Table]) -> Result<(), AllocError> {
    let mut gap = "";
    for table in tables {
        out.push_str(gap)?;
        put_table(out, table)?;
        gap = " ";
    }
    Ok(())
}

fn put_schema(out: &mut String, alloc: Global, text: &[u8]) -> Result<(), NoMemory> {
    match parse_schema(alloc, text) {
        Ok(schema) => Ok(put_tables(out, schema.tables())?),
        Err(Fail::Fault(fault)) => {
            let rule = fault.rule;
            write!(out, "{rule:?} ")?;
            Ok(put_span(out, &fault.at)?)
        }
        Err(Fail::NoMemory) => Err(NoMemory),
    }
}

fn put_cell(out: &mut String, cell: &Scalar) -> Result<(), AllocError> {
    match cell {
        Scalar::Long(number) => write!(out, "{number}"),
        Scalar::Bool(truth) => write!(out, "{truth}"),
        Scalar::Text(text) => put_line(out, text.as_str()),
    }
}

fn put_row(out: &mut String, cells: &[Scalar]) -> Result<(), AllocError> {
    let mut gap = "";
    out.push_str("(")?;
    for cell in cells {
        out.push_str(gap)?;
        put_cell(out, cell)?;
        gap = ", ";
    }
    out.push_str(")")
}

// The rows of the first table of a schema.
fn put_rows(out: &mut String, alloc: Global, schema: &Schema, text: &[u8]) -> Result<(), NoMemory> {
    if schema.tables().is_empty() {
        return Ok(());
    }
    match load_table(alloc, schema, 0, text) {
        Ok(rows) => {
            for row in rows.as_slice() {
                put_row(out, row.cells.as_slice())?;
            }
            Ok(())
        }
        Err(Fail::Fault(fault)) => {
            let rule = fault.rule;
            let row = fault.row;
            Ok(write!(out, "{rule:?} at row {row}")?)
        }
        Err(Fail::NoMemory) => Err(NoMemory),
    }
}

// The rows of a text under a schema of one table.
fn put_loaded(out: &mut String, alloc: Global, schema: &[u8], text: &[u8]) -> Result<(), NoMemory> {
    match parse_schema(alloc, schema) {
        Ok(schema) => put_rows(out, alloc, &schema, text),
        Err(_) => Err(NoMemory),
    }
}

// The rows of a table of one column, of which some stand as often as is said.
fn put_tall(out: &mut String, alloc: Global, fields: &[Vec<u8>]) -> Result<(), NoMemory> {
    let text = source_of(alloc, fields)?;
    put_loaded(out, alloc, b"CREATE TABLE T (x BIGINT);", text.as_slice())
}

/// Appends the tables of a schema or the rows of a table, or the fault of their text.
pub fn put_answer(
    out: &mut String,
    alloc: Global,
    kind: &str,
    fields: &[Vec<u8>],
) -> Result<(), NoMemory> {
    let text = field(fields, 0);
    match kind {
        "schema" => put_schema(out, alloc, text),
        "tall" => put_tall(out, alloc, fields),
        _ => put_loaded(
            out,
            alloc,
            b"CREATE TABLE T (n BIGINT, b BOOLEAN, s TEXT);",
            text,
        ),
    }
}
