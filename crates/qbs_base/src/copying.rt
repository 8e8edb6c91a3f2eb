// Copies of texts, scalars and rows.
ghost use Rattle.std.specs.Prelude.{◌≡◌, IfOk};

use crate::{Cells, Name, Names, NoMemory, Row, Rows, Scalar, Text};
use std::alloc::Global;

/// The same text. It fails only by want of memory, as all copies here.
pub fn copy_text(alloc: Global, text: &Text) -> Result<Text, NoMemory>
    ensures { IfOk result (λ t. t ≡ text.now) }
{
    Ok(Text::from_str(alloc, text.as_str())?)
}

/// The same names in order.
pub fn copy_names(alloc: Global, names: &[Name]) -> Result<Names, NoMemory>
    ensures { IfOk result (λ c. c ≡ names.now) }
{
    let mut copies = Vec::with_capacity(alloc, names.len())?;
    for name in names {
        copies.push(copy_text(alloc, name)?)?;
    }
    Ok(Names::from_vec(copies))
}

/// The same scalar.
pub fn copy_scalar(alloc: Global, scalar: &Scalar) -> Result<Scalar, NoMemory>
    ensures { IfOk result (λ s. s ≡ scalar.now) }
{
    match scalar {
        Scalar::Long(n) => Ok(Scalar::Long(*n)),
        Scalar::Bool(b) => Ok(Scalar::Bool(*b)),
        Scalar::Text(text) => Ok(Scalar::Text(copy_text(alloc, text)?)),
    }
}

/// The same cells in order.
pub fn copy_cells(alloc: Global, cells: &[Scalar]) -> Result<Cells, NoMemory>
    ensures { IfOk result (λ v. v ≡ cells.now) }
{
    let mut copies = Vec::with_capacity(alloc, cells.len())?;
    for cell in cells {
        copies.push(copy_scalar(alloc, cell)?)?;
    }
    Ok(Cells::from_vec(copies))
}

/// The same row, of the same table.
pub fn copy_row(alloc: Global, row: &Row) -> Result<Row, NoMemory>
    ensures { IfOk result (λ r. r ≡ row.now) }
{
    Ok(Row {
        kind: row.kind,
        cells: copy_cells(alloc, row.cells.as_slice())?,
    })
}

/// The same rows in order.
pub fn copy_rows(alloc: Global, rows: &[Row]) -> Result<Rows, NoMemory>
    ensures { IfOk result (λ v. v ≡ rows.now) }
{
    let mut copies = Vec::with_capacity(alloc, rows.len())?;
    for row in rows {
        copies.push(copy_row(alloc, row)?)?;
    }
    Ok(Rows::from_vec(copies))
}
