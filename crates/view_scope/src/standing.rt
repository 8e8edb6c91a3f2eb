// The statements of a method's blocks, each with its block.
ghost use Rattle.std.specs.Prelude.{◌≡◌, ◌++◌, OnOk, IfOk};
ghost use Rattle.view_scope.specs.Standing as specs;

use qbs_base::{Items, NoMemory};
use std::alloc::Global;
use view_items::Item;
use view_shapes::{Stretch, blocks_of, end_of};

/// A statement, and the block that it stands in.
#[derive(Clone, Copy, PartialEq, Eq)]
pub struct Standing {
    pub block: Stretch,
    pub statement: Stretch,
}

/// Adds the statements of a block.
fn add_standing(
    list: &mut Items<Standing>,
    items: &[Item],
    closings: &[usize],
    block: Stretch,
) -> Result<(), NoMemory>
    ensures { OnOk result (list.new ≡ list.old ++ specs.standing_in items.now closings.now block) }
{
    let mut number = block.from;
    for _ in 0..items.len() {
        let Some(next) = end_of(items, closings, number) else {
            return Ok(());
        };
        list.push(Standing {
            block,
            statement: Stretch {
                from: number,
                to: next,
            },
        })?;
        number = next;
    }
    Ok(())
}

/// The statements of the blocks of a body, each with its block, in the order of the text of blocks. It is made once for a method and lent to
/// what asks about places in it. Time goes with the number of items and how deep they stand. It fails only by want of memory.
pub fn standing_of(
    alloc: Global,
    items: &[Item],
    closings: &[usize],
    body: Stretch,
) -> Result<Items<Standing>, NoMemory>
    ensures { IfOk result (λ list. list ≡ specs.standing_of items.now closings.now body) }
{
    let blocks = blocks_of(alloc, items, closings, body)?;
    let mut list = Items::new(alloc);
    for block in blocks.as_slice() {
        add_standing(&mut list, items, closings, *block)?;
    }
    Ok(list)
}
