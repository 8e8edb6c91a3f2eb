// Brackets, and where each is closed.
ghost use Rattle.std.specs.Prelude.{◌≡◌, ◌<◌, ◌≤◌, ◌+◌, ◌^◌, List, [], ◌∷◌, reverse, IfOk, OnOk, length, Some, None, Bool, if◌then◌else◌};
ghost use Rattle.view_items.specs.Brackets as specs;

use crate::{Item, ItemKind};
use qbs_base::{Items, NoMemory};
use std::alloc::Global;

/// The byte of a sign of one byte, else 0.
pub fn sign_of(item: &Item) -> u8
    ensures { result ≡ specs.sign_of item.now }
{
    match (item.kind, item.bytes.as_slice()) {
        (ItemKind::Sign, [byte]) => *byte,
        _ => 0,
    }
}

/// `(`, `[` and `{`.
pub fn opens(byte: u8) -> bool
    ensures { result ≡ specs.opens byte }
{
    byte == b'(' || byte == b'[' || byte == b'{'
}

/// `)`, `]` and `}`.
pub fn closes(byte: u8) -> bool
    ensures { result ≡ specs.closes byte }
{
    byte == b')' || byte == b']' || byte == b'}'
}

fn is_pair(opening: u8, closing: u8) -> bool
    ensures { result ≡ specs.is_pair opening closing }
{
    (opening == b'(' && closing == b')')
        || (opening == b'[' && closing == b']')
        || (opening == b'{' && closing == b'}')
}

/// Of the items from a number on, from the last one to the first: the closing brackets that wait for what opens them, and the numbers
/// of the closing brackets. Both stand the other way round.
#[derive(Drop)]
struct Closer {
    waiting: Vec<(usize, u8)>,
    numbers: Vec<usize>,
}

impl Closer {
    /// With an item before. It is false where an opening bracket has no closing one of its kind.
    fn take(&mut self, number: usize, byte: u8) -> Result<bool, NoMemory>
        ensures { IfOk result (λ fits. specs.with_item number byte (reverse self.old.waiting.items, reverse self.old.numbers.items) ≡ (if fits then Some (reverse self.new.waiting.items, reverse self.new.numbers.items) else None)) }
    {
        let mut closing = number;
        if closes(byte) {
            self.waiting.push((number, byte))?;
        } else if opens(byte) {
            match self.waiting.pop() {
                Some((last, kind)) if is_pair(byte, kind) => closing = last,
                _ => return Ok(false),
            }
        }
        self.numbers.push(closing)?;
        Ok(true)
    }
}

/// The numbers, if nothing waits.
fn finished(closer: Closer) -> Option<Items<usize>>
    ensures { result ≡ specs.all_closed (reverse closer.waiting.items, reverse closer.numbers.items) }
{
    if !closer.waiting.is_empty() {
        return None;
    }
    let mut numbers = closer.numbers;
    numbers.reverse();
    Some(Items::from_vec(numbers))
}

/// For each item the number of its closing bracket, if it opens one, else its own number; none where `(`, `[`, `{` and their closing
/// ones don't match. Time goes with the number of items. It fails only by want of memory.
pub fn closings(alloc: Global, items: &[Item]) -> Result<Option<Items<usize>>, NoMemory>
    ensures { IfOk result (λ o. o ≡ specs.closings_of items.now) }
{
    let mut closer = Closer {
        waiting: Vec::new(alloc),
        numbers: Vec::new(alloc),
    };
    let mut number = items.len();
    while number > 0 {
        number -= 1;
        if !closer.take(number, sign_of(&items[number]))? {
            return Ok(None);
        }
    }
    Ok(finished(closer))
}

/// The open brackets behind an item, the innermost last.
fn note_open(opened: &mut Vec<usize>, number: usize, byte: u8) -> Result<(), NoMemory>
    ensures { OnOk result (reverse opened.new.items ≡ specs.open_after number byte (reverse opened.old.items)) }
{
    if opens(byte) {
        opened.push(number)?;
    } else if closes(byte) {
        let _ = opened.pop();
    }
    Ok(())
}

/// For each item the number of the innermost bracket that is open at it, so that a closing bracket has that of its opening one; or else
/// its own number. Time goes with the number of items. It fails only by want of memory.
pub fn rounds(alloc: Global, items: &[Item]) -> Result<Items<usize>, NoMemory>
    ensures { IfOk result (λ ns. ns ≡ specs.rounds_of items.now) }
{
    let mut opened = Vec::new(alloc);
    let mut numbers = Items::new(alloc);
    for number in 0..items.len() {
        numbers.push(last_or(number, opened.as_slice()))?;
        note_open(&mut opened, number, sign_of(&items[number]))?;
    }
    Ok(numbers)
}

/// The last of numbers, or another where there is none.
fn last_or(other: usize, numbers: &[usize]) -> usize
    ensures { result ≡ specs.first_or other (reverse numbers.now) }
{
    match numbers {
        [] => other,
        [.., last] => *last,
    }
}

/// How many brackets are open behind an item.
fn depth_after(depth: usize, byte: u8) -> usize
    requires { depth < 2 ^ 63 }
    ensures value { result ≡ specs.depth_after depth byte }
    ensures within { result ≤ depth + 1 }
{
    if opens(byte) {
        depth + 1
    } else if closes(byte) {
        depth.saturating_sub(1)
    } else {
        depth
    }
}

/// The items from a number up to another.
fn stretch(items: &[Item], from: usize, to: usize) -> &[Item]
    ensures { result.now ≡ specs.stretch from to items.now }
{
    let rest = &items[from.min(items.len())..];
    &rest[..to.saturating_sub(from).min(rest.len())]
}

/// Whether no item from a number up to another has more than 64 brackets open at it that are opened there.
#[tactic(auto, unfolding(crate::specs::Brackets::is_shallow_at))]
pub fn is_shallow(items: &[Item], from: usize, to: usize) -> bool
    ensures { result ≡ specs.is_shallow items.now from to }
{
    let mut depth = 0;
    for item in stretch(items, from, to) {
        if depth > 64 {
            return false;
        }
        depth = depth_after(depth, sign_of(item));
    }
    true
}
