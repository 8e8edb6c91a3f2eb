// The texts of tables, entry values and known lists.
ghost use Rattle.std.specs.Prelude.{◌≡◌, ◌++◌, OnOk, length, string_bytes};
ghost use Rattle.std.specs.Fmt.{decimal};
ghost use Rattle.std.specs.List.{flat_map};
ghost use Rattle.store_parts.specs.Texts.{value_text, values_text, row_text, rows_text, entry_text, list_text, known_text};

use itoa::Buffer;
use qbs_base::{Row, Rows, Scalar, ScalarLists, Scalars, push_scalar};
use std::alloc::AllocError;

fn push_count(out: &mut String, count: usize) -> Result<(), AllocError>
    ensures { OnOk result (string_bytes out.new ≡ string_bytes out.old ++ decimal count) }
{
    let mut buffer = Buffer::new();
    out.push_str(buffer.format(count as u64))
}

fn push_each(out: &mut String, values: &[Scalar]) -> Result<(), AllocError>
    ensures { OnOk result (string_bytes out.new ≡ string_bytes out.old ++ flat_map value_text values.now) }
{
    for x in values {
        out.push_str(" ")?;
        push_scalar(out, x)?;
    }
    Ok(())
}

fn push_values(out: &mut String, values: &[Scalar]) -> Result<(), AllocError>
    ensures { OnOk result (string_bytes out.new ≡ string_bytes out.old ++ values_text values.now) }
{
    push_count(out, values.len())?;
    push_each(out, values)?;
    out.push_str("\n")
}

fn push_row(out: &mut String, row: &Row) -> Result<(), AllocError>
    ensures { OnOk result (string_bytes out.new ≡ string_bytes out.old ++ row_text row.now) }
{
    out.push_str("row")?;
    push_each(out, row.cells.as_slice())?;
    out.push_str("\n")
}

fn push_each_row(out: &mut String, rows: &[Row]) -> Result<(), AllocError>
    ensures { OnOk result (string_bytes out.new ≡ string_bytes out.old ++ flat_map row_text rows.now) }
{
    for row in rows {
        push_row(out, row)?;
    }
    Ok(())
}

/// Appends the lines of a table with these rows: how many there are, and a line for each.
pub fn push_rows(out: &mut String, rows: &Rows) -> Result<(), AllocError>
    ensures { OnOk result (string_bytes out.new ≡ string_bytes out.old ++ rows_text rows.now) }
{
    out.push_str("table ")?;
    push_count(out, rows.len())?;
    out.push_str("\n")?;
    push_each_row(out, rows.as_slice())
}

/// Appends the line of entry values: how many there are, and each behind a space.
pub fn push_entry(out: &mut String, values: &Scalars) -> Result<(), AllocError>
    ensures { OnOk result (string_bytes out.new ≡ string_bytes out.old ++ entry_text values.now) }
{
    out.push_str("entry ")?;
    push_values(out, values.as_slice())
}

fn push_list(out: &mut String, values: &Scalars) -> Result<(), AllocError>
    ensures { OnOk result (string_bytes out.new ≡ string_bytes out.old ++ list_text values.now) }
{
    out.push_str("list ")?;
    push_values(out, values.as_slice())
}

fn push_lists(out: &mut String, lists: &[Scalars]) -> Result<(), AllocError>
    ensures { OnOk result (string_bytes out.new ≡ string_bytes out.old ++ flat_map list_text lists.now) }
{
    for values in lists {
        push_list(out, values)?;
    }
    Ok(())
}

/// Appends the lines of known lists: how many there are, and a line for each.
pub fn push_known(out: &mut String, known: &ScalarLists) -> Result<(), AllocError>
    ensures { OnOk result (string_bytes out.new ≡ string_bytes out.old ++ known_text known.now) }
{
    out.push_str("known ")?;
    push_count(out, known.len())?;
    out.push_str("\n")?;
    push_lists(out, known.as_slice())
}
