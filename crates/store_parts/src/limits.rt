// The limits of tables, entry values and known lists.
ghost use Rattle.std.specs.Prelude.{◌≡◌};
ghost use Rattle.std.specs.List.{list_all};
ghost use Rattle.std.specs.Str.{is_utf8};
ghost use Rattle.qbs_base.specs.Values.{fits_long};
ghost use Rattle.store_parts.specs.Limits as spec;

use qbs_base::{Row, Rows, Scalar, ScalarLists, Scalars, Text};

const MOST_MEMBERS: usize = 64;

// Each number of the code has 64 bits.
fn is_long(n: i64) -> bool
    ensures { result ≡ fits_long n }
{
    true
}

// Each text of the code is UTF-8.
fn is_text(text: &Text) -> bool
    ensures { result ≡ is_utf8 text.now }
{
    let _ = text.as_str();
    true
}

fn is_written(x: &Scalar) -> bool
    ensures { result ≡ spec.is_written x.now }
{
    match x {
        Scalar::Long(n) => is_long(*n),
        Scalar::Bool(_) => true,
        Scalar::Text(text) => is_text(text),
    }
}

fn are_all_written(values: &[Scalar]) -> bool
    ensures { result ≡ list_all spec.is_written values.now }
{
    for x in values {
        if !is_written(x) {
            return false;
        }
    }
    true
}

fn are_cells_written(row: &Row) -> bool
    ensures { result ≡ list_all spec.is_written row.now.cells }
{
    are_all_written(row.cells.as_slice())
}

fn are_rows_written(rows: &[Row]) -> bool
    ensures { result ≡ list_all (λ r. list_all spec.is_written r.cells) rows.now }
{
    for row in rows {
        if !are_cells_written(row) {
            return false;
        }
    }
    true
}

/// Whether the rows of a table are no more than 64.
pub fn are_small_rows(rows: &Rows) -> bool
    ensures { result ≡ spec.are_small_rows rows.now }
{
    rows.len() <= MOST_MEMBERS && are_rows_written(rows.as_slice())
}

/// Whether entry values or the members of a known list are no more than 64.
pub fn are_written(values: &Scalars) -> bool
    ensures { result ≡ spec.are_written values.now }
{
    values.len() <= MOST_MEMBERS && are_all_written(values.as_slice())
}

fn are_lists_written(lists: &[Scalars]) -> bool
    ensures { result ≡ list_all spec.are_written lists.now }
{
    for values in lists {
        if !are_written(values) {
            return false;
        }
    }
    true
}

/// Whether known lists are no more than 64, each with no more than 64 members.
pub fn are_small_lists(known: &ScalarLists) -> bool
    ensures { result ≡ spec.are_small_lists known.now }
{
    known.len() <= MOST_MEMBERS && are_lists_written(known.as_slice())
}
