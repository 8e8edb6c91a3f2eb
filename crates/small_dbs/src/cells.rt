// Rows whose cells stand at places in lists of values.
ghost use Rattle.std.specs.Prelude.{◌≡◌, ◌++◌, ◌∷◌, ◌+◌, ◌≤◌, [], IfOk, OnOk, length};
ghost use Rattle.small_dbs.specs.Chosen as spec;
ghost use Rattle.small_dbs.specs.Held.{held};

use crate::choice::Values;
use kernel_steps::push_copy;
use qbs_base::{Cells, Column, Items, Kind, NoMemory, Row, Scalar, Scalars, Ty};
use std::alloc::Global;

/// The values of a type.
pub fn of_type(values: &Values, ty: Ty) -> &[Scalar]
    ensures { result.now ≡ held values.now ty }
{
    match ty {
        Ty::Long => values.longs.as_slice(),
        Ty::Bool => values.bools.as_slice(),
        Ty::Text => values.texts.as_slice(),
    }
}

/// Pushes the value at a place, counted round the list.
pub fn push_value(
    alloc: Global,
    values: &[Scalar],
    k: usize,
    all: &mut Scalars,
) -> Result<(), NoMemory>
    ensures { OnOk result (all.new ≡ all.old ++ spec.value_at values.now k ∷ []) }
{
    if values.is_empty() {
        return all.push(Scalar::Bool(false));
    }
    push_copy(alloc, &values[k % values.len()], all)
}

fn push_cells(
    alloc: Global,
    values: &Values,
    k: usize,
    columns: &[Column],
    all: &mut Cells,
) -> Result<(), NoMemory>
    requires { k + length columns.now ≤ 1000 }
    ensures { OnOk result (all.new ≡ all.old ++ spec.cells (held values.now) k columns.now) }
{
    match columns.split_first() {
        None => Ok(()),
        Some((column, rest)) => {
            push_value(alloc, of_type(values, column.ty), k, &mut *all)?;
            push_cells(alloc, values, k + 1, rest, all)
        }
    }
}

/// A row of a table, with the value at that place in its first cell.
pub fn row(
    alloc: Global,
    values: &Values,
    k: usize,
    table: u32,
    columns: &[Column],
) -> Result<Row, NoMemory>
    requires { k + length columns.now ≤ 1000 }
    ensures { IfOk result (λ r. r ≡ spec.row (held values.now) k table columns.now) }
{
    let mut cells = Items::new(alloc);
    push_cells(alloc, values, k, columns, &mut cells)?;
    Ok(Row {
        kind: Kind::Table(table),
        cells,
    })
}
