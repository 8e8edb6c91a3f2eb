// Where cells stand in their text.
ghost use Rattle.std.specs.Prelude.{◌≡◌, IfOk, List, true, false};
ghost use Rattle.std.specs.List.Sorted.{IsPartitionPoint};
ghost use Rattle.view_items.specs.declared.cell.Cell.{Cell};
ghost use Rattle.view_text.specs.Layout as specs;

use crate::before::{Before, push_cell};
use qbs_base::{Bytes, Items, NoMemory};
use std::alloc::Global;
use view_items::Cell;

/// The bytes of a text from the number `from` up to `to`, counted from 0.
#[derive(Clone, Copy)]
pub struct Stretch {
    pub from: usize,
    pub to: usize,
}

pub type Stretches = Items<Stretch>;

/// The text of cells, and for each cell the bytes where it stands there.
#[derive(Drop)]
pub struct LaidOut {
    pub text: Bytes,
    pub stretches: Stretches,
}

/// The text of cells, with the places at which they stand in it. The time that it takes grows with the length of the
/// text alone.
pub fn lay_out_placed(alloc: Global, cells: &[Cell]) -> Result<LaidOut, NoMemory>
    ensures text { IfOk result (λ laid. laid.text ≡ specs.laid_out cells.now) }
    ensures stretches { IfOk result (λ laid. laid.stretches ≡ specs.stretches_of cells.now) }
{
    let mut out = Vec::new(alloc);
    let mut stretches = Stretches::new(alloc);
    let mut before = Before::FIRST;
    for cell in cells {
        let bytes = cell.bytes.as_slice();
        before = push_cell(&mut out, before, bytes)?;
        let to = out.len();
        let from = to - bytes.len();
        stretches.push(Stretch { from, to })?;
    }
    out.push(b'\n')?;
    Ok(LaidOut {
        text: Bytes::from_vec(out),
        stretches,
    })
}

/// How many stretches have ended before a byte.
fn ended_before(stretches: &[Stretch], byte: usize) -> usize
    ensures { (cells : List Cell) → stretches.now ≡ specs.stretches_of cells → IsPartitionPoint (λ s. specs.has_ended byte s ≡ true) (λ s. specs.has_ended byte s ≡ false) stretches.now result }
{
    stretches.partition_point(|s| s.to <= byte)
}

/// The number of the cell in which a byte of the text lies, by the table that `lay_out_placed` made with it: none where it
/// is white space, or behind the text. The time that it takes grows with the logarithm of the number of cells.
pub fn cell_at(stretches: &[Stretch], byte: usize) -> Option<usize>
    ensures { (cells : List Cell) → stretches.now ≡ specs.stretches_of cells → result ≡ specs.cell_at cells byte }
{
    let number = ended_before(stretches, byte);
    match stretches.get(number) {
        None => None,
        Some(s) => { if s.from <= byte { Some(number) } else { None } }
    }
}
