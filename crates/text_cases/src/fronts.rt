// Fronts of the text of a schema, and tables and columns by name.
use crate::places::{field, text_of};
use qbs_base::{Fail, NoMemory};
use schema::{Schema, SchemaFault, SchemaRule};
use schema_text::parse_schema;
use std::alloc::{AllocError, Global};

fn mark_of_fault(fault: &SchemaFault, len: usize) -> &str {
    if fault.at.end == len as u64 && fault.rule == SchemaRule::BadToken {
        "."
    } else {
        "?"
    }
}

fn put_mark(out: &mut String, alloc: Global, front: &[u8]) -> Result<(), NoMemory> {
    match parse_schema(alloc, front) {
        Ok(_) => Ok(out.push_str("s")?),
        Err(Fail::Fault(fault)) => Ok(out.push_str(mark_of_fault(&fault, front.len()))?),
        Err(Fail::NoMemory) => Err(NoMemory),
    }
}

/// Appends a mark for each front of a text, by its length: `s` where it is a schema, `.` where it fails at its last
/// token or behind it, and `?` else.
pub fn put_fronts(out: &mut String, alloc: Global, fields: &[Vec<u8>]) -> Result<(), NoMemory> {
    let text = field(fields, 0);
    for len in 0..text.len() {
        put_mark(out, alloc, &text[..len])?;
    }
    Ok(())
}

fn put_number(out: &mut String, what: &str, number: Option<u32>) -> Result<(), AllocError> {
    match number {
        Some(number) => write!(out, "{what} {number}"),
        None => write!(out, "no {what}"),
    }
}

// The number of a table, and that of a column in it.
fn put_numbers(
    out: &mut String,
    alloc: Global,
    schema: &Schema,
    fields: &[Vec<u8>],
) -> Result<(), NoMemory> {
    let table = schema.table(&text_of(alloc, field(fields, 1))?);
    let column = schema.column(table.unwrap_or(9), &text_of(alloc, field(fields, 2))?);
    put_number(out, "table", table)?;
    out.push_str(", ")?;
    Ok(put_number(out, "column", column)?)
}

/// Appends the numbers of the table and of the column of these names, which stand behind the text of their schema.
pub fn put_names(out: &mut String, alloc: Global, fields: &[Vec<u8>]) -> Result<(), NoMemory> {
    match parse_schema(alloc, field(fields, 0)) {
        Ok(schema) => put_numbers(out, alloc, &schema, fields),
        Err(_) => Err(NoMemory),
    }
}
