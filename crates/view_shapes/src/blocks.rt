// The blocks of a method's body whose statements run where they stand.
ghost use Rattle.std.specs.Prelude.{◌≡◌, ◌<◌, ◌≤◌, ◌^◌, ◌++◌, List, OnOk, IfOk, IfSome, length};
ghost use Rattle.std.specs.List.{flat_map};
ghost use Rattle.view_shapes.specs.Blocks as specs;

use crate::Stretch;
use crate::finding::{behind, closing_at, is_over, is_sign, is_word, step_over};
use crate::statements::{Form, brace_of, end_of, end_within, form_of, head, is_clause};
use qbs_base::{Items, NoMemory};
use std::alloc::Global;
use view_items::Item;

/// Adds the block of the brace with this number.
fn add_block(
    blocks: &mut Items<Stretch>,
    items: &[Item],
    closings: &[usize],
    number: usize,
) -> Result<(), NoMemory>
    ensures { OnOk result (blocks.new ≡ blocks.old ++ specs.block_at items.now closings.now number) }
{
    match closing_at(items, closings, number) {
        None => Ok(()),
        Some(closing) => blocks.push(Stretch {
            from: number + 1,
            to: closing,
        }),
    }
}

/// The number of the clause behind the block of a brace.
fn next_clause(items: &[Item], closings: &[usize], brace: usize) -> Option<usize>
    ensures value { result ≡ specs.next_clause items.now closings.now brace }
    ensures within { IfSome result (λ k. k ≤ length items.now) }
{
    let next = behind(items, closings, brace)?;
    if is_clause(items, next) {
        Some(next)
    } else {
        None
    }
}

/// Adds the blocks of a `try` and of its clauses.
fn add_try_blocks(
    blocks: &mut Items<Stretch>,
    items: &[Item],
    closings: &[usize],
    first: usize,
) -> Result<(), NoMemory>
    requires { first < 2 ^ 63 }
    ensures { OnOk result (blocks.new ≡ blocks.old ++ specs.try_blocks (length items.now) items.now closings.now first) }
{
    let mut number = first;
    for _ in 0..items.len() {
        let Some(brace) = brace_of(items, closings, number) else {
            return Ok(());
        };
        add_block(blocks, items, closings, brace)?;
        let Some(next) = next_clause(items, closings, brace) else {
            return Ok(());
        };
        number = next;
    }
    Ok(())
}

fn is_case_block(items: &[Item], number: usize) -> bool
    ensures { result ≡ specs.is_case_block items.now number }
{
    is_sign("{", items, number) && number > 0 && is_sign(":", items, number - 1)
}

/// Adds the block of the item, if it is one directly behind a colon.
fn add_case_block(
    blocks: &mut Items<Stretch>,
    items: &[Item],
    closings: &[usize],
    number: usize,
) -> Result<(), NoMemory>
    ensures { OnOk result (blocks.new ≡ blocks.old ++ specs.case_block items.now closings.now number) }
{
    if is_case_block(items, number) {
        add_block(blocks, items, closings, number)
    } else {
        Ok(())
    }
}

/// Adds the blocks directly behind a colon, from a number of a switch on.
fn add_case_blocks(
    blocks: &mut Items<Stretch>,
    items: &[Item],
    closings: &[usize],
    first: usize,
) -> Result<(), NoMemory>
    ensures { OnOk result (blocks.new ≡ blocks.old ++ specs.case_blocks (length items.now) items.now closings.now first) }
{
    let mut number = first;
    for _ in 0..items.len() {
        if is_over(items, number) {
            return Ok(());
        }
        add_case_block(blocks, items, closings, number)?;
        let Some(next) = step_over(items, closings, number) else {
            return Ok(());
        };
        number = next;
    }
    Ok(())
}

/// Adds the outermost blocks of the statement that begins at a number, if at most so many stand inside one another without brackets.
#[tactic(auto, unfolding(crate::specs::Blocks::blocks_within))]
fn add_inner(
    levels: usize,
    blocks: &mut Items<Stretch>,
    items: &[Item],
    closings: &[usize],
    number: usize,
) -> Result<(), NoMemory>
    ensures { OnOk result (blocks.new ≡ blocks.old ++ specs.blocks_within levels items.now closings.now number) }
{
    if levels == 0 || is_over(items, number) {
        return Ok(());
    }
    match form_of(items, closings, number) {
        Form::Braces => add_block(blocks, items, closings, number),
        Form::If => match head(items, closings, number) {
            None => Ok(()),
            Some(body) => {
                add_inner(levels - 1, blocks, items, closings, body)?;
                match end_within(levels - 1, items, closings, body) {
                    Some(next) if is_word("else", items, next) => {
                        add_inner(levels - 1, blocks, items, closings, next + 1)
                    }
                    _ => Ok(()),
                }
            }
        },
        Form::Headed => match head(items, closings, number) {
            None => Ok(()),
            Some(body) => add_inner(levels - 1, blocks, items, closings, body),
        },
        Form::Do => add_inner(levels - 1, blocks, items, closings, number + 1),
        Form::Switch => match head(items, closings, number) {
            None => Ok(()),
            Some(brace) => add_case_blocks(blocks, items, closings, brace + 1),
        },
        Form::Try => add_try_blocks(blocks, items, closings, number),
        Form::Label => add_inner(levels - 1, blocks, items, closings, number + 2),
        Form::Local | Form::Simple => Ok(()),
    }
}

/// The outermost blocks of the statement that begins at a number, in the order of the text: its own braces, or those of its bodies and
/// clauses, and of a `switch` the braces directly behind a colon. Blocks of lambdas and classes, and behind an arrow, are none. It fails
/// only by want of memory.
pub fn inner_blocks(
    alloc: Global,
    items: &[Item],
    closings: &[usize],
    number: usize,
) -> Result<Items<Stretch>, NoMemory>
    ensures { IfOk result (λ list. list ≡ specs.inner_blocks items.now closings.now number) }
{
    let mut blocks = Items::new(alloc);
    add_inner(65, &mut blocks, items, closings, number)?;
    Ok(blocks)
}

/// Adds a block, and all blocks of its statements.
#[cycle(all_blocks)]
fn add_all(
    alloc: Global,
    levels: usize,
    blocks: &mut Items<Stretch>,
    items: &[Item],
    closings: &[usize],
    block: Stretch,
) -> Result<(), NoMemory>
    ensures { OnOk result (blocks.new ≡ blocks.old ++ specs.blocks_under levels items.now closings.now block) }
{
    if levels == 0 {
        return Ok(());
    }
    blocks.push(block)?;
    let mut number = block.from;
    for _ in 0..items.len() {
        let Some(next) = end_of(items, closings, number) else {
            return Ok(());
        };
        add_below(alloc, levels - 1, blocks, items, closings, number)?;
        number = next;
    }
    Ok(())
}

/// Adds all blocks of the statement that begins at a number.
#[cycle(all_blocks)]
fn add_below(
    alloc: Global,
    levels: usize,
    blocks: &mut Items<Stretch>,
    items: &[Item],
    closings: &[usize],
    number: usize,
) -> Result<(), NoMemory>
    ensures { OnOk result (blocks.new ≡ blocks.old ++ flat_map (specs.blocks_under levels items.now closings.now) (specs.inner_blocks items.now closings.now number)) }
{
    let inner = inner_blocks(alloc, items, closings, number)?;
    for block in inner.as_slice() {
        add_all(alloc, levels, blocks, items, closings, *block)?;
    }
    Ok(())
}

/// The blocks of a body in which at most 64 brackets are open at an item, in the order of the text, the body first. Time goes with the number
/// of items and how deep they stand. It fails only by want of memory.
pub fn blocks_of(
    alloc: Global,
    items: &[Item],
    closings: &[usize],
    body: Stretch,
) -> Result<Items<Stretch>, NoMemory>
    ensures { IfOk result (λ list. list ≡ specs.blocks_of items.now closings.now body) }
{
    let mut blocks = Items::new(alloc);
    add_all(alloc, 65, &mut blocks, items, closings, body)?;
    Ok(blocks)
}
