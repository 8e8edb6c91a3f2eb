// Patterns: expressions that bind tightly, up to the semicolon behind them.
ghost use Rattle.std.specs.Prelude.{◌≡◌, ◌<◌, ◌≤◌, ◌+◌, ◌^◌, IfOk, IfSome, length};
ghost use Rattle.view_map.specs.Patterns as specs;
ghost use Rattle.view_map.specs.Reading.{Gives};

use crate::fault::MapFault;
use crate::model::PatternItem;
use crate::reading::unexpected;
use crate::words::{is_literal_kind, is_name_kind, is_spelled};
use qbs_base::{Bytes, Fail, Items, NoMemory};
use std::alloc::Global;
use view_items::Item;

/// What may stand next in a pattern, outside of brackets.
#[derive(Clone, Copy, PartialEq, Eq)]
pub enum Expected {
    /// An operand: nothing stands before.
    Operand,
    /// An operand, or what follows one: a parenthesis stands before, at the front.
    Cast,
    /// A name: `new` or a dot stands before.
    Name,
    /// What follows an operand.
    Rest,
}

/// What may stand next in a pattern, and how many brackets are open.
#[derive(Clone, Copy, PartialEq, Eq)]
pub struct Shape {
    pub expected: Expected,
    pub depth: usize,
}

pub fn is_open(item: &Item) -> bool
    ensures { result ≡ specs.is_open item.now }
{
    is_spelled("(", item) || is_spelled("[", item) || is_spelled("{", item)
}

pub fn is_close(item: &Item) -> bool
    ensures { result ≡ specs.is_close item.now }
{
    is_spelled(")", item) || is_spelled("]", item) || is_spelled("}", item)
}

fn takes_operand(expected: Expected) -> bool
    ensures { result ≡ specs.takes_operand expected }
{
    matches!(expected, Expected::Operand | Expected::Cast)
}

fn follows_operand(expected: Expected) -> bool
    ensures { result ≡ specs.follows_operand expected }
{
    matches!(expected, Expected::Cast | Expected::Rest)
}

fn behind_parenthesis(expected: Expected) -> Option<Expected>
    ensures { result ≡ specs.behind_parenthesis expected }
{
    match expected {
        Expected::Operand => Some(Expected::Cast),
        Expected::Cast => Some(Expected::Cast),
        Expected::Rest => Some(Expected::Rest),
        Expected::Name => None,
    }
}

fn behind_name(expected: Expected, item: &Item) -> Option<Expected>
    ensures { result ≡ specs.behind_name expected item.now }
{
    match expected {
        Expected::Name => Some(Expected::Rest),
        Expected::Rest => None,
        Expected::Operand | Expected::Cast => {
            if is_spelled("new", item) {
                Some(Expected::Name)
            } else {
                Some(Expected::Rest)
            }
        }
    }
}

fn shape_of(expected: Expected, depth: usize) -> Shape
    ensures { result ≡ specs.shape expected depth }
{
    Shape { expected, depth }
}

fn shape_if(holds: bool, expected: Expected) -> Option<Shape>
    ensures { result ≡ specs.shape_if holds expected }
{
    if holds {
        Some(shape_of(expected, 0))
    } else {
        None
    }
}

fn is_brace(item: &Item) -> bool
    ensures { result ≡ specs.is_brace item.now }
{
    is_spelled("{", item) || is_spelled("}", item)
}

/// What may stand behind an item outside of brackets, where the item may stand here.
#[tactic(auto, unfolding(crate::specs::Patterns::behind_outside))]
fn behind_outside(template: bool, expected: Expected, item: &Item) -> Option<Shape>
    ensures value { result ≡ specs.behind_outside template expected item.now }
    ensures depth { IfSome result (λ s. s.depth ≤ 1) }
{
    if is_name_kind(item.kind) {
        Some(shape_of(behind_name(expected, item)?, 0))
    } else if is_literal_kind(item.kind) {
        shape_if(takes_operand(expected), Expected::Rest)
    } else if is_spelled("(", item) {
        Some(shape_of(behind_parenthesis(expected)?, 1))
    } else if is_spelled(".", item) {
        shape_if(follows_operand(expected), Expected::Name)
    } else {
        shape_if(
            is_brace(item) && template && follows_operand(expected),
            Expected::Rest,
        )
    }
}

fn depth_behind(depth: usize, item: &Item) -> usize
    requires { depth < 2 ^ 63 }
    ensures value { result ≡ specs.depth_behind depth item.now }
    ensures depth { result ≤ depth + 1 }
{
    if is_open(item) {
        depth + 1
    } else if is_close(item) {
        depth.saturating_sub(1)
    } else {
        depth
    }
}

/// What may stand behind an item, where the item may stand here.
fn behind_item(template: bool, before: Shape, item: &Item) -> Option<Shape>
    requires { before.depth < 2 ^ 63 }
    ensures value { result ≡ specs.behind_item template before item.now }
    ensures depth { IfSome result (λ s. s.depth ≤ before.depth + 1) }
{
    if before.depth == 0 {
        behind_outside(template, before.expected, item)
    } else {
        Some(shape_of(before.expected, depth_behind(before.depth, item)))
    }
}

fn ends_pattern(before: Shape, item: &Item) -> bool
    ensures { result ≡ specs.ends_pattern before item.now }
{
    before.depth == 0 && follows_operand(before.expected) && is_spelled(";", item)
}

/// How many items a pattern has.
#[tactic(auto, unfolding(crate::specs::Patterns::pattern_len))]
fn pattern_len(template: bool, end: usize, items: &[Item]) -> Result<usize, Fail<MapFault>>
    ensures value { Gives (λ n. n) result (specs.pattern_len template specs.at_front end items.now) }
    ensures within { IfOk result (λ n. n ≤ length items.now) }
{
    let mut before = shape_of(Expected::Operand, 0);
    let mut rest = items;
    let mut len = 0;
    while let [item, after @ ..] = rest {
        if ends_pattern(before, item) {
            return Ok(len);
        }
        match behind_item(template, before, item) {
            None => return Err(unexpected(end, rest)),
            Some(next) => before = next,
        }
        len += 1;
        rest = after;
    }
    Err(unexpected(end, rest))
}

/// The items of a pattern, and what stands behind it.
#[tactic(auto, unfolding(crate::specs::Patterns::pattern_at))]
pub fn pattern(
    template: bool,
    end: usize,
    items: &[Item],
) -> Result<(&[Item], &[Item]), Fail<MapFault>>
    ensures { Gives (λ x. (x.0.now, x.1.now)) result (specs.pattern_at template end items.now) }
{
    let len = pattern_len(template, end, items)?;
    Ok(items.split_at(len))
}

pub fn copied(alloc: Global, bytes: &[u8]) -> Result<Bytes, NoMemory>
    ensures { IfOk result (λ b. b ≡ bytes.now) }
{
    Ok(Bytes::from_vec(bytes.to_vec(alloc)?))
}

/// An item without its place.
pub fn pattern_item(alloc: Global, item: &Item) -> Result<PatternItem, NoMemory>
    ensures { IfOk result (λ i. i ≡ specs.pattern_item item.now) }
{
    Ok(PatternItem {
        kind: item.kind,
        bytes: copied(alloc, item.bytes.as_slice())?,
    })
}

/// Items without their places.
pub fn pattern_items(alloc: Global, items: &[Item]) -> Result<Items<PatternItem>, NoMemory>
    ensures { IfOk result (λ is. is ≡ specs.pattern_items items.now) }
{
    let mut list = Items::new(alloc);
    for item in items {
        list.push(pattern_item(alloc, item)?)?;
    }
    Ok(list)
}
