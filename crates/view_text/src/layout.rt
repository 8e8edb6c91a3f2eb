// Cells laid out.
ghost use Rattle.std.specs.Prelude.{◌≡◌, IfOk};
ghost use Rattle.view_text.specs.Layout.{laid_out};

use crate::before::{Before, push_cell};
use qbs_base::{Bytes, NoMemory};
use std::alloc::Global;
use view_items::Cell;

/// The text of cells: each statement on a line, four spaces a level, and a line feed at the end. The time that it takes
/// grows with the length of the text alone.
pub fn lay_out(alloc: Global, cells: &[Cell]) -> Result<Bytes, NoMemory>
    ensures { IfOk result (λ text. text ≡ laid_out cells.now) }
{
    let mut out = Vec::new(alloc);
    let mut before = Before::FIRST;
    for cell in cells {
        before = push_cell(&mut out, before, cell.bytes.as_slice())?;
    }
    out.push(b'\n')?;
    Ok(Bytes::from_vec(out))
}
