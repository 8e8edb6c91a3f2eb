// Where a method tests variables for null.
ghost use Rattle.std.specs.Prelude.{◌≡◌, ◌<◌, ◌≤◌, ◌+◌, ◌^◌, ◌++◌, ◌||◌, OnOk, IfOk, IfSome, IsTrue, length, codes, Some, None, slice_get};
ghost use Rattle.view_scope.specs.Nulls as specs;

use qbs_base::{Items, NoMemory};
use std::alloc::Global;
use view_items::Item;
use view_shapes::{
    Stretch, closing_at, is_called, is_mention, is_name, is_one_of_signs, is_one_of_words, is_sign,
    is_word,
};

/// Whether an operand of `==` or `!=` doesn't go over the item.
fn bounds(items: &[Item], number: usize) -> bool
    ensures { result ≡ specs.bounds items.now number }
{
    is_one_of_signs(
        &["&&", "||", "==", "!=", ":", ";", "=", "->", "}"],
        items,
        number,
    ) || is_one_of_words(
        &["return", "case", "throw", "else", "assert"],
        items,
        number,
    )
}

/// Whether two items stand directly in one bracket.
fn stand_together(rounds: &[usize], one: usize, other: usize) -> bool
    ensures { result ≡ specs.stand_together rounds.now one other }
{
    match rounds.get(one) {
        None => false,
        Some(a) => is_around(rounds, *a, other),
    }
}

/// Whether the bracket that is opening at one item is the innermost one round another.
pub fn is_around(rounds: &[usize], opening: usize, number: usize) -> bool
    ensures { result ≡ specs.is_around rounds.now opening number }
{
    match rounds.get(number) {
        None => false,
        Some(round) => opening == *round,
    }
}

fn is_before_operand(items: &[Item], rounds: &[usize], operator: usize, number: usize) -> bool
    ensures { result ≡ specs.is_before_operand items.now rounds.now operator number }
{
    is_around(rounds, number, operator)
        || (stand_together(rounds, number, operator) && bounds(items, number))
}

/// The first item of the operand that ends before an operator.
#[tactic(auto, using(crate::proofs::Operands::operand_from_over, crate::proofs::Operands::operand_from_next, crate::proofs::Operands::operand_from_end))]
fn operand_from(items: &[Item], rounds: &[usize], operator: usize) -> usize
    ensures { result ≡ specs.operand_from operator items.now rounds.now operator }
{
    let mut number = operator;
    while number > 0 {
        if is_before_operand(items, rounds, operator, number - 1) {
            return number;
        }
        number -= 1;
    }
    0
}

fn is_behind_operand(items: &[Item], rounds: &[usize], operator: usize, number: usize) -> bool
    ensures { result ≡ specs.is_behind_operand items.now rounds.now operator number }
{
    stand_together(rounds, number, operator)
        && (bounds(items, number) || is_one_of_signs(&[")", "]"], items, number))
}

/// The number behind the operand that goes on at a number.
#[tactic(auto, using(crate::proofs::Operands::operand_to_over, crate::proofs::Operands::operand_to_next, crate::proofs::Operands::operand_to_end))]
fn operand_to(items: &[Item], rounds: &[usize], operator: usize, first: usize) -> usize
    requires { first ≤ length items.now }
    ensures { result ≡ specs.operand_to (length items.now) items.now rounds.now operator first }
{
    let mut number = first;
    let mut left = items.len();
    while left > 0 {
        left -= 1;
        if is_behind_operand(items, rounds, operator, number) {
            return number;
        }
        number += 1;
    }
    number
}

fn is_equality(items: &[Item], number: usize) -> bool
    ensures value { result ≡ specs.is_equality items.now number }
    ensures within { IsTrue result → number < length items.now }
{
    is_one_of_signs(&["==", "!="], items, number)
}

fn is_wrapped(items: &[Item], from: usize, to: usize) -> bool
    ensures value { result ≡ specs.is_wrapped items.now from to }
    ensures within { IsTrue result → (0 < from) × (to < length items.now) }
{
    from > 0 && is_sign("(", items, from - 1) && is_sign(")", items, to)
}

/// What stands from one number up to another, with all parentheses directly round it.
#[tactic(auto, unfolding(crate::specs::Nulls::out_of_parentheses))]
fn out_of_parentheses(items: &[Item], first: usize, end: usize) -> Stretch
    requires { end ≤ length items.now }
    ensures value { result ≡ specs.out_of_parentheses (length items.now) items.now first end }
    ensures within { result.to ≤ length items.now }
{
    let mut from = first;
    let mut to = end;
    let mut left = items.len();
    while left > 0 {
        left -= 1;
        if !is_wrapped(items, from, to) {
            return Stretch { from, to };
        }
        from -= 1;
        to += 1;
    }
    Stretch { from, to }
}

fn is_null(items: &[Item], number: usize) -> bool
    ensures value { result ≡ specs.is_null items.now number }
    ensures within { IsTrue result → number < length items.now }
{
    is_word("null", items, number)
}

/// What stands round the `null` with this number: that alone, or it in parentheses.
fn null_at(items: &[Item], number: usize) -> Stretch
    requires { number < length items.now }
    ensures value { result ≡ specs.null_at items.now number }
    ensures within { result.to ≤ length items.now }
{
    out_of_parentheses(items, number, number + 1)
}

fn compared_before(items: &[Item], rounds: &[usize], s: Stretch) -> Option<Stretch>
    ensures { result ≡ specs.compared_before items.now rounds.now s }
{
    if s.from > 0 && is_equality(items, s.from - 1) {
        Some(Stretch {
            from: operand_from(items, rounds, s.from - 1),
            to: s.from - 1,
        })
    } else {
        None
    }
}

fn compared_behind(items: &[Item], rounds: &[usize], s: Stretch) -> Option<Stretch>
    ensures { result ≡ specs.compared_behind items.now rounds.now s }
{
    if is_equality(items, s.to) {
        Some(Stretch {
            from: s.to + 1,
            to: operand_to(items, rounds, s.to, s.to + 1),
        })
    } else {
        None
    }
}

/// Where it begins what ends with the item with this number: that item, or what is in parentheses.
fn ended_from(items: &[Item], rounds: &[usize], number: usize) -> usize
    ensures { result ≡ specs.ended_from items.now rounds.now number }
{
    if !is_sign(")", items, number) {
        return number;
    }
    match rounds.get(number) {
        None => number,
        Some(round) => *round,
    }
}

/// What ends a statement, or begins or ends a block in it.
fn ends_statement(items: &[Item], number: usize) -> bool
    ensures { result ≡ specs.ends_statement items.now number }
{
    is_one_of_signs(&[";", "{", "}"], items, number)
}

fn is_equality_round(items: &[Item], s: Stretch) -> bool
    ensures { result ≡ specs.is_equality_round items.now s }
{
    (s.from > 0 && is_equality(items, s.from - 1)) || is_equality(items, s.to)
}

/// Whether `null` stands at a number, and isn't compared with something.
fn is_given_null(items: &[Item], number: usize) -> bool
    ensures { result ≡ specs.is_given_null items.now number }
{
    is_null(items, number) && !is_equality_round(items, null_at(items, number))
}

fn gives_null_from(items: &[Item], number: usize, null_behind: bool) -> bool
    ensures { result ≡ specs.gives_null_from items.now number null_behind }
{
    is_given_null(items, number) || (!ends_statement(items, number) && null_behind)
}

fn opens_at(items: &[Item], number: usize) -> bool
    ensures { result ≡ specs.opens_at items.now number }
{
    is_one_of_signs(&["(", "[", "{"], items, number)
}

fn closes_at(items: &[Item], number: usize) -> bool
    ensures { result ≡ specs.closes_at items.now number }
{
    is_one_of_signs(&[")", "]", "}"], items, number)
}

fn at_least_one(number: usize) -> usize
    ensures { result ≡ specs.at_least_one number }
{
    if number == 0 { 1 } else { number }
}

/// How many brackets have to be open at an item, where it's so many behind it.
fn least_before(items: &[Item], number: usize, least: usize) -> usize
    requires { least + 1 < 2 ^ 64 }
    ensures { result ≡ specs.least_before items.now number least }
{
    if opens_at(items, number) {
        least.saturating_sub(1)
    } else if closes_at(items, number) {
        least + 1
    } else if is_sign(";", items, number) {
        at_least_one(least)
    } else {
        least
    }
}

/// How many brackets of a statement have to be open at an item, at the least, for a `null` to stand behind it in that statement.
fn least_from(items: &[Item], number: usize, least: Option<usize>) -> Option<usize>
    requires { IfSome least (λ n. n + 1 < 2 ^ 64) }
    ensures { result ≡ specs.least_from items.now number least }
{
    if is_given_null(items, number) {
        return Some(0);
    }
    Some(least_before(items, number, least?))
}

/// Whether a `null` stands behind an item in its statement, where so many brackets have to be open for that, or before any block.
fn is_behind(null_behind: bool, least: Option<usize>) -> bool
    ensures { result ≡ (null_behind || specs.are_enough least 0) }
{
    null_behind || least == Some(0)
}

/// The variable that is set at a number, where a `null` stands behind it in the same statement.
fn set_at(items: &[Item], rounds: &[usize], number: usize, null_behind: bool) -> Option<Stretch>
    ensures { result ≡ specs.set_at items.now rounds.now number null_behind }
{
    if null_behind && (is_sign("=", items, number) && number > 0) {
        Some(Stretch {
            from: ended_from(items, rounds, number - 1),
            to: number,
        })
    } else {
        None
    }
}

fn is_null_in(items: &[Item], rounds: &[usize], opening: usize, number: usize) -> bool
    ensures { result ≡ specs.is_null_in items.now rounds.now opening number }
{
    is_null(items, number) && is_around(rounds, opening, null_at(items, number).from)
}

/// Whether `null` stands, from a number up to another, directly in the parentheses that are opening at one.
#[tactic(auto, using(view_shapes::proofs::Numbers::any_here, view_shapes::proofs::Numbers::any_next, view_shapes::proofs::Numbers::any_end))]
fn holds_null(items: &[Item], rounds: &[usize], opening: usize, from: usize, to: usize) -> bool
    ensures { result ≡ specs.holds_null items.now rounds.now opening from to }
{
    for number in from..to {
        if is_null_in(items, rounds, opening, number) {
            return true;
        }
    }
    false
}

fn ends_called(items: &[Item], number: usize) -> bool
    ensures { result ≡ specs.ends_called items.now number }
{
    is_called(items, number) || is_sign(">", items, number)
}

/// The arguments of a call, where `null` is one of them.
fn tested_arguments(
    items: &[Item],
    closings: &[usize],
    rounds: &[usize],
    number: usize,
) -> Option<Stretch>
    ensures { result ≡ specs.tested_arguments items.now closings.now rounds.now number }
{
    if !(is_sign("(", items, number) && number > 0 && ends_called(items, number - 1)) {
        return None;
    }
    let close = closing_at(items, closings, number)?;
    if holds_null(items, rounds, number, number + 1, close) {
        Some(Stretch {
            from: number + 1,
            to: close,
        })
    } else {
        None
    }
}

const TESTING_CALLS: [&str; 17] = [
    "isNull",
    "nonNull",
    "ofNullable",
    "isEmpty",
    "isBlank",
    "isNotEmpty",
    "isNotBlank",
    "hasText",
    "hasLength",
    "isNullOrEmpty",
    "requireNonNullElse",
    "requireNonNullElseGet",
    "defaultString",
    "defaultIfNull",
    "defaultIfBlank",
    "defaultIfEmpty",
    "firstNonNull",
];

fn ends_argument(items: &[Item], rounds: &[usize], opening: usize, number: usize) -> bool
    ensures { result ≡ specs.ends_argument items.now rounds.now opening number }
{
    is_around(rounds, opening, number) && is_one_of_signs(&[",", ")"], items, number)
}

/// The number behind the argument that goes on at a number, in the parenthesis that is opening at one.
#[tactic(auto, using(crate::proofs::Operands::argument_to_over, crate::proofs::Operands::argument_to_next, crate::proofs::Operands::argument_to_end))]
fn argument_to(items: &[Item], rounds: &[usize], opening: usize, first: usize) -> usize
    requires { first ≤ length items.now }
    ensures { result ≡ specs.argument_to (length items.now) items.now rounds.now opening first }
{
    let mut number = first;
    let mut left = items.len();
    while left > 0 {
        left -= 1;
        if ends_argument(items, rounds, opening, number) {
            return number;
        }
        number += 1;
    }
    number
}

/// What stands from one number up to another without casts before it and parentheses round it.
#[tactic(auto, using(crate::proofs::Operands::bare_other, crate::proofs::Operands::bare_stuck, crate::proofs::Operands::bare_inside, crate::proofs::Operands::bare_behind_cast, crate::proofs::Operands::bare_end))]
fn bare(items: &[Item], closings: &[usize], first: usize, end: usize) -> Stretch
    requires { first ≤ length items.now }
    ensures value { result ≡ specs.bare (length items.now) items.now closings.now first end }
    ensures within { result.from ≤ length items.now }
{
    let mut from = first;
    let mut to = end;
    let mut left = items.len();
    while left > 0 {
        left -= 1;
        if !is_sign("(", items, from) {
            return Stretch { from, to };
        }
        match closing_at(items, closings, from) {
            None => return Stretch { from, to },
            Some(close) => {
                if close + 1 == to {
                    from += 1;
                    to = close;
                } else {
                    from = close + 1;
                }
            }
        }
    }
    Stretch { from, to }
}

fn one_item(s: Stretch) -> Option<Stretch>
    requires { s.from < 2 ^ 63 }
    ensures { result ≡ specs.one_item s }
{
    if s.from + 1 == s.to { Some(s) } else { None }
}

/// Whether a call of this name may test its first argument.
fn may_test(items: &[Item], number: usize) -> bool
    ensures { result ≡ specs.may_test items.now number }
{
    is_one_of_words(&TESTING_CALLS, items, number) || is_word("toString", items, number)
}

fn is_testing_call(items: &[Item], number: usize, to: usize) -> bool
    ensures { result ≡ specs.is_testing_call items.now number to }
{
    !is_word("toString", items, number) || is_sign(",", items, to)
}

fn tested_up_to(items: &[Item], closings: &[usize], number: usize, to: usize) -> Option<Stretch>
    requires { number + 2 ≤ length items.now }
    ensures { result ≡ specs.tested_up_to items.now closings.now number to }
{
    if is_testing_call(items, number, to) {
        one_item(bare(items, closings, number + 2, to))
    } else {
        None
    }
}

/// The first argument of a call that tests it, which is one item, behind casts or in parentheses.
fn tested_first(
    items: &[Item],
    closings: &[usize],
    rounds: &[usize],
    number: usize,
) -> Option<Stretch>
    requires { number < length items.now }
    ensures { result ≡ specs.tested_first items.now closings.now rounds.now number }
{
    if is_sign("(", items, number + 1) && may_test(items, number) {
        let to = argument_to(items, rounds, number + 1, number + 2);
        tested_up_to(items, closings, number, to)
    } else {
        None
    }
}

const CALLS_TESTING_ALL: [&str; 13] = [
    "isAnyBlank",
    "isNoneBlank",
    "isAllBlank",
    "isAnyEmpty",
    "isNoneEmpty",
    "isAllEmpty",
    "firstNonBlank",
    "firstNonEmpty",
    "firstNonNull",
    "allNotNull",
    "anyNull",
    "allNull",
    "anyNotNull",
];

/// The arguments of a call that tests all of them.
fn tested_all(items: &[Item], closings: &[usize], number: usize) -> Option<Stretch>
    requires { number < length items.now }
    ensures { result ≡ specs.tested_all items.now closings.now number }
{
    if !(is_sign("(", items, number + 1) && is_one_of_words(&CALLS_TESTING_ALL, items, number)) {
        return None;
    }
    let close = closing_at(items, closings, number + 1)?;
    Some(Stretch {
        from: number + 2,
        to: close,
    })
}

fn tested_class(items: &[Item], rounds: &[usize], number: usize) -> Option<Stretch>
    ensures { result ≡ specs.tested_class items.now rounds.now number }
{
    if is_word("instanceof", items, number) && number > 0 {
        Some(Stretch {
            from: ended_from(items, rounds, number - 1),
            to: number,
        })
    } else {
        None
    }
}

/// What a `switch` asks, whose braces are opening at a number.
fn asked_before(items: &[Item], rounds: &[usize], brace: usize) -> Option<Stretch>
    ensures { result ≡ specs.asked_before items.now rounds.now brace }
{
    if brace > 0 && is_sign(")", items, brace - 1) {
        Some(Stretch {
            from: ended_from(items, rounds, brace - 1),
            to: brace,
        })
    } else {
        None
    }
}

/// What a `switch` asks of which a `case` is `null`.
fn asked(items: &[Item], rounds: &[usize], s: Stretch) -> Option<Stretch>
    ensures { result ≡ specs.asked items.now rounds.now s }
{
    if !(s.from > 0 && is_word("case", items, s.from - 1)) {
        return None;
    }
    asked_before(items, rounds, *rounds.get(s.from)?)
}

fn add_some(list: &mut Items<Stretch>, stretch: Option<Stretch>) -> Result<(), NoMemory>
    ensures { OnOk result (list.new ≡ list.old ++ specs.listed stretch) }
{
    match stretch {
        None => Ok(()),
        Some(stretch) => list.push(stretch),
    }
}

fn add_by_null(
    list: &mut Items<Stretch>,
    items: &[Item],
    rounds: &[usize],
    s: Stretch,
) -> Result<(), NoMemory>
    ensures { OnOk result (list.new ≡ list.old ++ specs.tested_by_null items.now rounds.now s) }
{
    add_some(list, compared_before(items, rounds, s))?;
    add_some(list, compared_behind(items, rounds, s))?;
    add_some(list, asked(items, rounds, s))
}

fn add_by_name(
    list: &mut Items<Stretch>,
    items: &[Item],
    closings: &[usize],
    rounds: &[usize],
    number: usize,
) -> Result<(), NoMemory>
    requires { number < length items.now }
    ensures { OnOk result (list.new ≡ list.old ++ specs.tested_by_name items.now closings.now rounds.now number) }
{
    add_some(list, tested_first(items, closings, rounds, number))?;
    add_some(list, tested_all(items, closings, number))?;
    add_some(list, tested_class(items, rounds, number))
}

/// Adds what is tested by the item with this number.
fn add_tested(
    list: &mut Items<Stretch>,
    items: &[Item],
    closings: &[usize],
    rounds: &[usize],
    number: usize,
) -> Result<(), NoMemory>
    ensures { OnOk result (list.new ≡ list.old ++ specs.tested_at items.now closings.now rounds.now number) }
{
    if is_null(items, number) {
        add_by_null(list, items, rounds, null_at(items, number))
    } else if is_name(items, number) {
        add_by_name(list, items, closings, rounds, number)
    } else {
        add_some(list, tested_arguments(items, closings, rounds, number))
    }
}

fn add_all_tested(
    list: &mut Items<Stretch>,
    items: &[Item],
    closings: &[usize],
    rounds: &[usize],
    from: usize,
    to: usize,
) -> Result<(), NoMemory>
    ensures { OnOk result (list.new ≡ list.old ++ specs.all_tested items.now closings.now rounds.now from to) }
{
    for number in from..to {
        add_tested(list, items, closings, rounds, number)?;
    }
    Ok(())
}

/// Adds the variables that are set in statements that give null, going from the last item to the first, so that each item is looked at once.
#[tactic(auto, using(crate::proofs::Sets::least_fits, crate::proofs::Sets::set_all))]
fn add_set(
    list: &mut Items<Stretch>,
    items: &[Item],
    rounds: &[usize],
    from: usize,
    to: usize,
) -> Result<(), NoMemory>
    ensures { OnOk result (list.new ≡ list.old ++ specs.all_set items.now rounds.now from to) }
{
    let mut null_behind = false;
    let mut least = None;
    let mut left = to.saturating_sub(from);
    while left > 0 {
        left -= 1;
        let number = from + left;
        let is_null_behind = is_behind(null_behind, least);
        add_some(list, set_at(items, rounds, number, is_null_behind))?;
        null_behind = gives_null_from(items, number, null_behind);
        least = least_from(items, number, least);
    }
    Ok(())
}

/// The stretches of a method's body, from a number up to another, in which each variable that is named is tested for null or set to it. Time
/// goes with the number of items and how deep they stand. It fails only by want of memory.
pub fn tested_in(
    alloc: Global,
    items: &[Item],
    closings: &[usize],
    rounds: &[usize],
    from: usize,
    to: usize,
) -> Result<Items<Stretch>, NoMemory>
    ensures { IfOk result (λ list. list ≡ specs.tested_in items.now closings.now rounds.now from to) }
{
    let mut list = Items::new(alloc);
    add_all_tested(&mut list, items, closings, rounds, from, to)?;
    add_set(&mut list, items, rounds, from, to)?;
    Ok(list)
}

/// Whether the variable is named there, and not what it gives.
fn is_compared(items: &[Item], name: &[u8], number: usize) -> bool
    ensures { result ≡ specs.is_compared items.now name.now number }
{
    is_mention(items, name, number) && !is_sign(".", items, number + 1)
}

#[tactic(auto, using(view_shapes::proofs::Numbers::any_here, view_shapes::proofs::Numbers::any_next, view_shapes::proofs::Numbers::any_end))]
fn is_compared_in(items: &[Item], name: &[u8], from: usize, to: usize) -> bool
    ensures { result ≡ specs.is_compared_in items.now name.now from to }
{
    for number in from..to {
        if is_compared(items, name, number) {
            return true;
        }
    }
    false
}

fn is_named_in(items: &[Item], name: &[u8], s: Stretch) -> bool
    ensures { result ≡ specs.is_named_in items.now name.now s }
{
    is_compared_in(items, name, s.from, s.to)
}

/// Whether a variable is tested for null, where these are the stretches in which variables are. Time goes with their items.
pub fn is_tested(items: &[Item], tested: &[Stretch], name: &[u8]) -> bool
    ensures { result ≡ specs.is_tested_by items.now tested.now name.now }
{
    tested.iter().any(|s| is_named_in(items, name, *s))
}
