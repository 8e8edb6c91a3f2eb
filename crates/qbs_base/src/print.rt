// The lines of a value.
ghost use Rattle.std.specs.Prelude.{◌≡◌, ◌++◌, IfOk, OnOk, length, codes, slice_get, string_bytes};
ghost use Rattle.std.specs.Fmt.{decimal};
ghost use Rattle.std.specs.List.{flat_map};
ghost use Rattle.qbs_base.specs.Printed.{further_cell, cells_text, name_text, row_text, row_line, value_text};

use crate::literal::push_scalar;
use crate::{Kind, Names, NoMemory, Row, Scalar, Text, Value};
use itoa::Buffer;
use std::alloc::{AllocError, Global};

fn push_further_cells(out: &mut String, cells: &[Scalar]) -> Result<(), AllocError>
    ensures { OnOk result (string_bytes out.new ≡ string_bytes out.old ++ flat_map further_cell cells.now) }
{
    for cell in cells {
        out.push_str(", ")?;
        push_scalar(out, cell)?;
    }
    Ok(())
}

fn push_cells(out: &mut String, cells: &[Scalar]) -> Result<(), AllocError>
    ensures { OnOk result (string_bytes out.new ≡ string_bytes out.old ++ cells_text cells.now) }
{
    match cells {
        [] => Ok(()),
        [first, rest @ ..] => {
            push_scalar(out, first)?;
            push_further_cells(out, rest)
        }
    }
}

fn push_name(out: &mut String, tables: &[Text], number: u32) -> Result<(), AllocError>
    ensures { OnOk result (string_bytes out.new ≡ string_bytes out.old ++ name_text (slice_get tables.now number)) }
{
    match tables.get(number as usize) {
        Some(name) => out.push_str(name.as_str()),
        None => Ok(()),
    }
}

fn push_row(out: &mut String, tables: &[Text], row: &Row) -> Result<(), AllocError>
    ensures { OnOk result (string_bytes out.new ≡ string_bytes out.old ++ row_text tables.now row.now) }
{
    match row.kind {
        Kind::Plain => push_cells(out, row.cells.as_slice()),
        Kind::Table(number) => {
            push_name(out, tables, number)?;
            out.push_str("(")?;
            push_cells(out, row.cells.as_slice())?;
            out.push_str(")")
        }
    }
}

fn push_row_line(out: &mut String, tables: &[Text], row: &Row) -> Result<(), AllocError>
    ensures { OnOk result (string_bytes out.new ≡ string_bytes out.old ++ row_line tables.now row.now) }
{
    push_row(out, tables, row)?;
    out.push_str("\n")
}

fn push_rows(out: &mut String, tables: &[Text], rows: &[Row]) -> Result<(), AllocError>
    ensures { OnOk result (string_bytes out.new ≡ string_bytes out.old ++ flat_map (row_line tables.now) rows.now) }
{
    for row in rows {
        push_row_line(out, tables, row)?;
    }
    Ok(())
}

fn push_list(out: &mut String, tables: &[Text], rows: &[Row]) -> Result<(), AllocError>
    ensures { OnOk result (
        string_bytes out.new
        ≡ string_bytes out.old ++ (codes "list " ++ decimal (length rows.now) ++ codes "\n" ++ flat_map (row_line tables.now) rows.now)) }
{
    let mut buffer = Buffer::new();
    out.push_str("list ")?;
    out.push_str(buffer.format(rows.len()))?;
    out.push_str("\n")?;
    push_rows(out, tables, rows)
}

fn push_value(out: &mut String, tables: &[Text], value: &Value) -> Result<(), AllocError>
    ensures { OnOk result (string_bytes out.new ≡ string_bytes out.old ++ value_text tables.now value.now) }
{
    match value {
        Value::One(scalar) => {
            push_scalar(out, scalar)?;
            out.push_str("\n")
        }
        Value::Whole(row) => push_row_line(out, tables, row),
        Value::Many(rows) => push_list(out, tables, rows.as_slice()),
    }
}

/// The lines of a value, each ended by a line feed: a scalar, a row as `TABLE(V, V)`, or `list N` and
/// a line for each of the N rows. `tables` are the names of the tables by their numbers. A row of
/// kind `Plain` is shown as its cells.
pub fn print_value(alloc: Global, tables: &Names, value: &Value) -> Result<Text, NoMemory>
    ensures { IfOk result (λ text. text ≡ value_text tables.now value.now) }
{
    let mut out = String::new(alloc);
    push_value(&mut out, tables.as_slice(), value)?;
    Ok(Text::from_string(out))
}
