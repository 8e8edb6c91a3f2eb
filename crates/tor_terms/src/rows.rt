// Whether rows are the same, and the row that stands for a scalar.
ghost use Rattle.std.specs.Prelude.{◌≡◌, IfOk, option_copied, None};
ghost use Rattle.std.specs.List.{list_any};
ghost use Rattle.qbs_base.specs.Scalar.{same_cells as same_cells_of};
ghost use Rattle.tor_terms.specs.Value as spec;

use crate::compared::same_cell;
use qbs_base::{Items, Kind, NoMemory, Row, Scalar};
use std::alloc::Global;

/// The row that stands for a scalar, or for none.
pub fn plain_row(alloc: Global, x: Option<&Scalar>) -> Result<Row, NoMemory>
    ensures { IfOk result (λ r. r ≡ spec.plain_row (option_copied x.entry)) }
{
    let mut cells = Items::new(alloc);
    if let Some(x) = x {
        cells.push(x.clone()?)?;
    }
    Ok(Row {
        kind: Kind::Plain,
        cells,
    })
}

fn same_cells(xs: &[Scalar], ys: &[Scalar]) -> bool
    ensures { result ≡ same_cells_of xs.now ys.now }
{
    let mut rest = ys;
    for x in xs {
        match rest.split_first() {
            Some((y, others)) => {
                if !same_cell(x, y) {
                    return false;
                }
                rest = others;
            }
            None => return false,
        }
    }
    rest.is_empty()
}

fn same_kind(k: Kind, l: Kind) -> bool
    ensures { result ≡ spec.same_kind k l }
{
    match (k, l) {
        (Kind::Plain, Kind::Plain) => true,
        (Kind::Table(m), Kind::Table(n)) => m == n,
        _ => false,
    }
}

/// Whether two rows are the same.
pub fn same_row(r: &Row, s: &Row) -> bool
    ensures { result ≡ spec.same_row r.now s.now }
{
    same_kind(r.kind, s.kind) && same_cells(r.cells.as_slice(), s.cells.as_slice())
}

/// Whether a row is the one that stands for no scalar.
pub fn is_no_cell(row: &Row) -> bool
    ensures { result ≡ spec.same_row row.now (spec.plain_row None) }
{
    same_kind(row.kind, Kind::Plain) && same_cells(row.cells.as_slice(), &[])
}

/// Whether a row is among these.
pub fn has_row(rows: &[Row], r: &Row) -> bool
    ensures { result ≡ list_any (spec.same_row r.now) rows.now }
{
    for s in rows {
        if same_row(r, s) {
            return true;
        }
    }
    false
}
