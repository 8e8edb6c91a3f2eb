// Rows: their cells, and which are members of a list.
ghost use Rattle.std.specs.Prelude.{◌≡◌, ◌<◌, ℤ, IfOk, Some, length, slice_get, option_copied, option_map};
ghost use Rattle.std.specs.List.{list_any};
ghost use Rattle.qbs_base.specs.Columns.{column_number};
ghost use Rattle.qbs_base.specs.Scalar as scalars;
ghost use Rattle.java_mean.specs.Expression as meant;
ghost use Rattle.java_steps.specs.Held.{rows_in, value_in};

use crate::held::{Held, List};
use crate::operators::same;
use qbs_base::{Column, Kind, Name, NoMemory, Row, Scalar, columns_at, copy_row, copy_scalar};
use schema::Schema;
use std::alloc::Global;

fn columns_of(schema: &Schema, kind: Kind) -> &[Column]
    ensures { result.now ≡ meant.columns_of schema.now kind }
{
    match kind {
        Kind::Plain => &[],
        Kind::Table(n) => columns_at(schema.tables(), n),
    }
}

fn column_number(columns: &[Column], name: &Name) -> Option<usize>
    ensures { result ≡ column_number columns.now name.now }
{
    columns.iter().position(|column| column.name == *name)
}

fn cell_at(cells: &[Scalar], n: Option<usize>) -> Option<&Scalar>
    ensures { option_copied result ≡ meant.cell_at cells.now n }
{
    match n {
        None => None,
        Some(n) => cells.get(n),
    }
}

/// The cell of a row in the column with this name.
pub fn cell<'a>(schema: &Schema, row: &'a Row, name: &Name) -> Option<&'a Scalar>
    ensures { option_copied result ≡ meant.cell schema.now row.now name.now }
{
    let number = column_number(columns_of(schema, row.kind), name);
    cell_at(row.cells.as_slice(), number)
}

/// A member of a list as a value.
pub fn element<'a>(alloc: Global, row: &Row) -> Result<Held<'a>, NoMemory>
    ensures { IfOk result (λ h. value_in h ≡ meant.element row.now) }
{
    if let Kind::Plain = row.kind {
        if let [x] = row.cells.as_slice() {
            return Ok(Held::One(copy_scalar(alloc, x)?));
        }
    }
    Ok(Held::Whole(copy_row(alloc, row)?))
}

/// Whether both are lists of the same scalars.
pub fn same_cells(a: &[Scalar], b: &[Scalar]) -> bool
    ensures { result ≡ scalars.same_cells a.now b.now }
{
    if a.len() != b.len() {
        return false;
    }
    for (i, x) in a.iter().enumerate() {
        if !same(x, &b[i]) {
            return false;
        }
    }
    true
}

// Whether a row with these cells is one of these.
fn is_among(rows: &[Row], cells: &[Scalar]) -> bool
    ensures { result ≡ list_any (λ b. scalars.same_cells cells.now b.cells) rows.now }
{
    for row in rows {
        if same_cells(cells, row.cells.as_slice()) {
            return true;
        }
    }
    false
}

/// Whether a row with these cells is a member of a list. In a list or set that knows its members it is
/// looked up, and no row is walked over.
pub fn has_member(alloc: Global, list: &List, cells: &[Scalar]) -> Result<bool, NoMemory>
    ensures { IfOk result (λ found. found ≡ list_any (λ b. scalars.same_cells cells.now b.cells) (rows_in list.now)) }
{
    match list {
        List::Lent(rows) => Ok(is_among(rows, cells)),
        List::Shared(rows) => Ok(is_among(rows.as_slice(), cells)),
        List::Indexed(members) => members.contains(alloc, cells),
    }
}

/// The row at a place of a list.
pub fn row_at(rows: &[Row], n: i64) -> Option<&Row>
    ensures { option_copied result ≡ meant.nth rows.now n }
{
    if n < 0 {
        return None;
    }
    rows.get(n as usize)
}

// A row that is lent, as a value.
fn lent_element<'a>(alloc: Global, row: &'a Row) -> Result<Held<'a>, NoMemory>
    ensures { IfOk result (λ h. value_in h ≡ meant.element row.now) }
{
    if let Kind::Plain = row.kind {
        if let [x] = row.cells.as_slice() {
            return Ok(Held::One(copy_scalar(alloc, x)?));
        }
    }
    Ok(Held::Lent(row))
}

#[tactic(auto, using(crate::proofs::Columns::value_there))]
fn lent_member<'a>(alloc: Global, rows: &'a [Row], i: usize) -> Result<Held<'a>, NoMemory>
    requires { i < length rows.now }
    ensures { IfOk result (λ h. Some (value_in h) ≡ option_map meant.element (slice_get rows.now i)) }
{
    lent_element(alloc, &rows[i])
}

#[tactic(auto, using(crate::proofs::Columns::value_there))]
fn copied_member<'a>(alloc: Global, rows: &[Row], i: usize) -> Result<Held<'a>, NoMemory>
    requires { i < length rows.now }
    ensures { IfOk result (λ h. Some (value_in h) ≡ option_map meant.element (slice_get rows.now i)) }
{
    element(alloc, &rows[i])
}

/// The member at a place of a list, as a value. A row that the database lends isn't copied.
#[inline(never)]
pub fn member<'a>(alloc: Global, list: &List<'a>, i: usize) -> Result<Held<'a>, NoMemory>
    requires { i < length (rows_in list.now) }
    ensures { IfOk result (λ h. Some (value_in h) ≡ option_map meant.element (slice_get (rows_in list.now) i)) }
{
    match list {
        List::Lent(rows) => lent_member(alloc, rows, i),
        List::Shared(rows) => copied_member(alloc, rows.as_slice(), i),
        List::Indexed(members) => copied_member(alloc, members.as_slice(), i),
    }
}
