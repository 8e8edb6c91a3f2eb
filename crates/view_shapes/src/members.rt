// The class of a file, and the members of its body.
ghost use Rattle.std.specs.Prelude.{◌≡◌, ◌<◌, ◌≤◌, ◌^◌, IfSome, IfOk, length};
ghost use Rattle.view_shapes.specs.Members as specs;

use crate::finding::{Sought, behind, closing_at, found, is_name, is_over, is_sign, step_over};
use qbs_base::{Items, NoMemory};
use std::alloc::Global;
use view_items::Item;

/// Items that stand one behind the other: the number of the first one, and that behind the last one.
#[derive(Clone, Copy, PartialEq, Eq)]
pub struct Stretch {
    pub from: usize,
    pub to: usize,
}

/// Where a class stands: the number of its name, and those of its body from the first item to the closing brace.
#[derive(Clone, Copy, PartialEq, Eq)]
pub struct ClassPlace {
    pub name: usize,
    pub from: usize,
    pub to: usize,
}

/// The class whose word stands at a number.
fn class_at(items: &[Item], closings: &[usize], number: usize) -> Option<ClassPlace>
    requires { number < 2 ^ 63 }
    ensures value { result ≡ specs.class_at items.now closings.now number }
    ensures within { IfSome result (λ c. (c.from ≤ c.to) × (c.to < length items.now)) }
{
    if !is_name(items, number + 1) || is_sign("<", items, number + 2) {
        return None;
    }
    let brace = found(Sought::Brace, items, closings, number + 2)?;
    let closing = closing_at(items, closings, brace)?;
    Some(ClassPlace {
        name: number + 1,
        from: brace + 1,
        to: closing,
    })
}

/// The first class of a file outside of all brackets, if a name stands behind its word and no `<` behind that. Whether the name is a
/// plain one isn't looked at.
#[tactic(auto, unfolding(crate::specs::Members::class_of))]
pub fn class_of(items: &[Item], closings: &[usize]) -> Option<ClassPlace>
    ensures value { result ≡ specs.class_of items.now closings.now }
    ensures within { IfSome result (λ c. (c.from ≤ c.to) × (c.to < length items.now)) }
{
    let class = found(Sought::Class, items, closings, 0)?;
    class_at(items, closings, class)
}

/// Whether the item is a brace that ends a member with its closing one.
fn is_body(valued: bool, items: &[Item], number: usize) -> bool
    ensures { result ≡ specs.is_body valued items.now number }
{
    is_sign("{", items, number) && !valued
}

/// Whether `=` stands before the next item.
fn is_valued(valued: bool, items: &[Item], number: usize) -> bool
    ensures { result ≡ specs.is_valued valued items.now number }
{
    valued || is_sign("=", items, number)
}

/// The number behind the member that begins at a number. A brace ends one, but not behind `=`.
#[tactic(auto, using(crate::proofs::Parts::member_semicolon, crate::proofs::Parts::member_brace, crate::proofs::Parts::member_over, crate::proofs::Parts::member_stuck, crate::proofs::Parts::member_next, crate::proofs::Parts::member_end_none))]
pub fn member_end(items: &[Item], closings: &[usize], first: usize) -> Option<usize>
    ensures value { result ≡ specs.member_end items.now closings.now first }
    ensures within { IfSome result (λ m. m ≤ length items.now) }
{
    let mut number = first;
    let mut valued = false;
    for _ in 0..items.len() {
        if is_sign(";", items, number) {
            return Some(number + 1);
        }
        if is_body(valued, items, number) {
            return behind(items, closings, number);
        }
        if is_over(items, number) {
            return None;
        }
        valued = is_valued(valued, items, number);
        number = step_over(items, closings, number)?;
    }
    None
}

/// The members that stand one behind the other from a number on, as from that of the first item of a class's body. It fails only by want
/// of memory.
pub fn members_of(
    alloc: Global,
    items: &[Item],
    closings: &[usize],
    first: usize,
) -> Result<Items<Stretch>, NoMemory>
    ensures { IfOk result (λ list. list ≡ specs.members_of items.now closings.now first) }
{
    let mut list = Items::new(alloc);
    let mut number = first;
    for _ in 0..items.len() {
        let Some(next) = member_end(items, closings, number) else {
            return Ok(list);
        };
        list.push(Stretch {
            from: number,
            to: next,
        })?;
        number = next;
    }
    Ok(list)
}
