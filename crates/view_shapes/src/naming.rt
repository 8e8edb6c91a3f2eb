// Where a name is mentioned, and where it may be set.
ghost use Rattle.std.specs.Prelude.{◌≡◌, ◌<◌, ◌+◌, ◌^◌, ◌++◌, OnOk, IfOk, IsTrue, length};
ghost use Rattle.view_shapes.specs.Mentions as specs;

use crate::finding::{has_name, is_one_of_signs, is_sign};
use qbs_base::{Items, NoMemory};
use std::alloc::Global;
use view_items::Item;

/// Whether the item with this number is the name, and no dot stands before it.
pub fn is_mention(items: &[Item], name: &[u8], number: usize) -> bool
    ensures value { result ≡ specs.is_mention items.now name.now number }
    ensures within { IsTrue result → number < length items.now }
{
    has_name(items, name, number) && !(number > 0 && is_sign(".", items, number - 1))
}

/// Adds a number, if so.
fn add_if(numbers: &mut Items<usize>, wanted: bool, number: usize) -> Result<(), NoMemory>
    ensures { OnOk result (numbers.new ≡ numbers.old ++ specs.one_if wanted number) }
{
    if wanted { numbers.push(number) } else { Ok(()) }
}

/// The numbers from one up to another at which a name is mentioned. It fails only by want of memory.
pub fn mentions(
    alloc: Global,
    items: &[Item],
    name: &[u8],
    from: usize,
    to: usize,
) -> Result<Items<usize>, NoMemory>
    ensures { IfOk result (λ ns. ns ≡ specs.mentions items.now name.now from to) }
{
    let mut numbers = Items::new(alloc);
    for number in from..to {
        add_if(&mut numbers, is_mention(items, name, number), number)?;
    }
    Ok(numbers)
}

/// Whether a name is mentioned from a number up to another.
#[tactic(auto, using(crate::proofs::Numbers::any_here, crate::proofs::Numbers::any_next, crate::proofs::Numbers::any_end))]
pub fn is_named(items: &[Item], name: &[u8], from: usize, to: usize) -> bool
    ensures { result ≡ specs.is_named items.now name.now from to }
{
    for number in from..to {
        if is_mention(items, name, number) {
            return true;
        }
    }
    false
}

const COUNTING_SIGNS: [&str; 2] = ["++", "--"];

const SETTING_SIGNS: [&str; 14] = [
    "=", "+=", "-=", "*=", "/=", "%=", "&=", "|=", "^=", "<<=", ">>=", ">>>=", "++", "--",
];

/// Whether the items from a number to another stand directly beside a sign that sets.
fn is_beside(items: &[Item], first: usize, last: usize) -> bool
    requires { last < 2 ^ 63 }
    ensures { result ≡ specs.is_beside items.now first last }
{
    is_one_of_signs(&SETTING_SIGNS, items, last + 1)
        || (first > 0 && is_one_of_signs(&COUNTING_SIGNS, items, first - 1))
}

/// Whether a parenthesis stands before the items from a number to another, and one behind.
fn is_wrapped(items: &[Item], first: usize, last: usize) -> bool
    requires { last < 2 ^ 63 }
    ensures value { result ≡ specs.is_wrapped items.now first last }
    ensures within { IsTrue result → (0 < first) × (last + 1 < length items.now) }
{
    first > 0 && is_sign("(", items, first - 1) && is_sign(")", items, last + 1)
}

/// Whether what the item with this number names may be set there: it stands, alone or in parentheses, beside a sign that sets.
#[tactic(auto, using(crate::proofs::Round::set_beside, crate::proofs::Round::set_not, crate::proofs::Round::set_next, crate::proofs::Round::set_end))]
pub fn is_set_at(items: &[Item], number: usize) -> bool
    requires { number < 2 ^ 63 }
    ensures { result ≡ specs.is_set_at items.now number }
{
    let mut first = number;
    let mut last = number;
    for _ in 0..items.len() {
        if is_beside(items, first, last) {
            return true;
        }
        if !is_wrapped(items, first, last) {
            return false;
        }
        first -= 1;
        last += 1;
    }
    false
}

/// Whether a name may be set from a number up to another.
#[tactic(auto, using(crate::proofs::Numbers::any_here, crate::proofs::Numbers::any_next, crate::proofs::Numbers::any_end))]
pub fn may_be_set(items: &[Item], name: &[u8], from: usize, to: usize) -> bool
    ensures { result ≡ specs.may_be_set items.now name.now from to }
{
    for number in from..to {
        if is_mention(items, name, number) && is_set_at(items, number) {
            return true;
        }
    }
    false
}
