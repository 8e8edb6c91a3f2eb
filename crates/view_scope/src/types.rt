// Where types of Java end, whatever they are.
ghost use Rattle.std.specs.Prelude.{◌≡◌, ◌<◌, ◌≤◌, ◌+◌, ◌^◌, IfSome, IsTrue, length};
ghost use Rattle.view_scope.specs.JavaTypes as specs;

use view_items::Item;
use view_shapes::{is_name, is_one_of_signs, is_sign};

fn is_in_arguments(items: &[Item], number: usize) -> bool
    ensures value { result ≡ specs.is_in_arguments items.now number }
    ensures within { IsTrue result → number < length items.now }
{
    is_name(items, number) || is_one_of_signs(&[",", ".", "?", "&", "[", "]"], items, number)
}

/// The number behind the `>` that closes the `<` at a number.
#[tactic(auto, using(crate::proofs::Arguments::arguments_end_more, crate::proofs::Arguments::arguments_end_last, crate::proofs::Arguments::arguments_end_closed, crate::proofs::Arguments::arguments_end_next, crate::proofs::Arguments::arguments_end_stuck, crate::proofs::Arguments::arguments_end_end))]
fn arguments_end(items: &[Item], first: usize) -> Option<usize>
    requires { first ≤ length items.now }
    ensures value { result ≡ specs.arguments_end (length items.now) 0 items.now first }
    ensures within { IfSome result (λ m. m ≤ length items.now) }
{
    let mut number = first;
    let mut depth: usize = 0;
    let mut left = items.len();
    while left > 0 {
        left -= 1;
        if is_sign("<", items, number) {
            depth += 1;
        } else if is_sign(">", items, number) {
            if depth == 1 {
                return Some(number + 1);
            }
            depth = depth.saturating_sub(1);
        } else if !is_in_arguments(items, number) {
            return None;
        }
        number += 1;
    }
    None
}

/// Whether a dot and a name stand there, or the brackets of an array.
fn is_part(items: &[Item], number: usize) -> bool
    requires { number < 2 ^ 63 }
    ensures value { result ≡ specs.is_part items.now number }
    ensures within { IsTrue result → number + 1 < length items.now }
{
    (is_sign(".", items, number) && is_name(items, number + 1))
        || (is_sign("[", items, number) && is_sign("]", items, number + 1))
}

/// The number behind the type whose first name stands before a number.
#[tactic(auto, using(crate::proofs::Arguments::type_rest_stuck, crate::proofs::Arguments::type_rest_next, crate::proofs::Arguments::type_rest_part, crate::proofs::Arguments::type_rest_over, crate::proofs::Arguments::type_rest_end))]
fn type_rest(items: &[Item], first: usize) -> Option<usize>
    requires { first ≤ length items.now }
    ensures value { result ≡ specs.type_rest (length items.now) items.now first }
    ensures within { IfSome result (λ m. m ≤ length items.now + 1) }
{
    let mut number = first;
    let mut left = items.len();
    while left > 0 {
        left -= 1;
        if is_sign("<", items, number) {
            number = arguments_end(items, number)?;
        } else if is_part(items, number) {
            number += 2;
        } else {
            return Some(number);
        }
    }
    None
}

/// The number behind the type that begins at a number: names with dots, with arguments and the brackets of arrays.
pub fn java_type_end(items: &[Item], first: usize) -> Option<usize>
    ensures value { result ≡ specs.java_type_end items.now first }
    ensures within { IfSome result (λ m. m ≤ length items.now + 1) }
{
    if is_name(items, first) {
        type_rest(items, first + 1)
    } else {
        None
    }
}
