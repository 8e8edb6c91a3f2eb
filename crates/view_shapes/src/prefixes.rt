// What stands before types: annotations and modifiers.
ghost use Rattle.std.specs.Prelude.{◌≡◌, ◌<◌, ◌≤◌, map, ◌⊎◌, IfSome, IsTrue, length};
ghost use Rattle.view_shapes.specs.Prefixes as specs;

use crate::finding::{closing_at, is_name, is_one_of_words, is_sign};
use crate::uses::is_keyword;
use view_items::Item;

/// The number behind names with dots between them.
#[tactic(auto, unfolding(crate::specs::Prefixes::dotted_end))]
pub fn dotted_end(items: &[Item], first: usize) -> Option<usize>
    ensures value { result ≡ specs.dotted_end (length items.now) items.now first }
    ensures within { IfSome result (λ m. m ≤ length items.now) }
{
    let mut number = first;
    let mut left = items.len();
    while left > 0 {
        left -= 1;
        if !is_name(items, number) {
            return None;
        }
        if !is_sign(".", items, number + 1) {
            return Some(number + 1);
        }
        number += 2;
    }
    None
}

/// The number behind the parentheses of an annotation, if it has any.
fn past_parentheses(items: &[Item], closings: &[usize], number: usize) -> Option<usize>
    requires { number ≤ length items.now }
    ensures value { result ≡ specs.past_parentheses items.now closings.now number }
    ensures within { IfSome result (λ m. m ≤ length items.now) }
{
    if is_sign("(", items, number) {
        let closing = closing_at(items, closings, number)?;
        Some(closing + 1)
    } else {
        Some(number)
    }
}

/// The number behind an annotation.
fn annotation_end(items: &[Item], closings: &[usize], number: usize) -> Option<usize>
    requires { number < length items.now }
    ensures value { result ≡ specs.annotation_end items.now closings.now number }
    ensures within { IfSome result (λ m. m ≤ length items.now) }
{
    let next = dotted_end(items, number + 1)?;
    past_parentheses(items, closings, next)
}

/// The number behind annotations and these modifiers in any order.
#[tactic(auto, using(crate::proofs::Prefixed::prefix_end_stuck, crate::proofs::Prefixed::prefix_end_past, crate::proofs::Prefixed::prefix_end_next, crate::proofs::Prefixed::prefix_end_over, crate::proofs::Prefixed::prefix_end_end))]
pub fn prefix_end(
    modifiers: &[&str],
    items: &[Item],
    closings: &[usize],
    first: usize,
) -> Option<usize>
    ensures value { result ≡ specs.prefix_end (map (λ m. m.now) modifiers.now) (length items.now) items.now closings.now first }
    ensures within { IfSome result (λ m. (m ≤ length items.now) ⊎ (m ≡ first)) }
{
    let mut number = first;
    let mut left = items.len();
    while left > 0 {
        left -= 1;
        if is_sign("@", items, number) {
            number = annotation_end(items, closings, number)?;
        } else if is_one_of_words(modifiers, items, number) {
            number += 1;
        } else {
            return Some(number);
        }
    }
    None
}

/// The number behind annotations and `final`, before the type of a variable.
pub fn variable_prefix_end(items: &[Item], closings: &[usize], number: usize) -> Option<usize>
    ensures { result ≡ specs.variable_prefix_end items.now closings.now number }
{
    prefix_end(&["final"], items, closings, number)
}

/// Whether the item with this number is a name that no keyword is.
pub fn is_plain_name(items: &[Item], number: usize) -> bool
    ensures value { result ≡ specs.is_plain_name items.now number }
    ensures within { IsTrue result → number < length items.now }
{
    is_name(items, number) && !is_keyword(items, number)
}
