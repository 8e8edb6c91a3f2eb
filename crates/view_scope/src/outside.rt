// Which variables are in sight at a place of a method's body, and with what types.
ghost use Rattle.std.specs.Prelude.{◌≡◌, ◌+◌, ◌<◌, ◌≤◌, ◌^◌, IfSome, IsTrue, length, map, option_copied, option_map};
ghost use Rattle.view_rules.specs.Setting.{within_of};
ghost use Rattle.view_scope.specs.Outside as specs;

use crate::Standing;
use crate::guards::{is_before_end_of, is_in_body, stands_before};
use view_items::Item;
use view_rules::{
    JavaType, Sighted, Spelled, Within, bytes_at, fetch_at, find_sighted, is_element, same_type,
    type_at,
};
use view_shapes::{
    Method, Parameter, closing_at, is_name, is_one_of_signs, is_sign, is_word, variable_prefix_end,
};

fn spells(spelled: Option<Spelled>, java: JavaType, name: usize) -> bool
    ensures { result ≡ specs.spells spelled java name }
{
    match spelled {
        None => false,
        Some(s) => same_type(s.java, java) && s.to == name,
    }
}

/// Whether a type stands at a number, and directly behind it the name that stands at another.
fn is_typed(w: &Within, java: JavaType, number: usize, name: usize) -> bool
    ensures { result ≡ specs.is_typed (within_of w.now) java number name }
{
    spells(type_at(w, number), java, name)
}

fn is_parameter_at(w: &Within, java: JavaType, at: usize, p: Parameter) -> bool
    ensures { result ≡ specs.is_parameter_at (within_of w.now) java at p }
{
    p.name == at && is_typed(w, java, p.ty, at)
}

fn is_parameter(w: &Within, parameters: &[Parameter], java: JavaType, at: usize) -> bool
    ensures { result ≡ specs.is_parameter (within_of w.now) parameters.now java at }
{
    parameters.iter().any(|p| is_parameter_at(w, java, at, *p))
}

fn is_typed_from(w: &Within, java: JavaType, at: usize, first: Option<usize>) -> bool
    ensures { result ≡ specs.is_typed_from (within_of w.now) java at first }
{
    match first {
        None => false,
        Some(first) => is_typed(w, java, first, at),
    }
}

/// What may stand behind the name of a variable that a statement declares, or the head of a `for`.
fn may_follow(items: &[Item], head: bool, number: usize) -> bool
    ensures { result ≡ specs.may_follow items.now head number }
{
    is_one_of_signs(&["=", ";", ","], items, number) || (head && is_sign(":", items, number))
}

/// Whether the items from a number on declare the variable whose name stands at another, the first one if they declare several.
fn declares_at(
    w: &Within,
    closings: &[usize],
    head: bool,
    java: JavaType,
    at: usize,
    number: usize,
) -> bool
    ensures { result ≡ specs.declares_at (within_of w.now) closings.now head java at number }
{
    at < w.items.len()
        && may_follow(w.items, head, at + 1)
        && is_typed_from(w, java, at, variable_prefix_end(w.items, closings, number))
}

fn is_declared_by(
    w: &Within,
    closings: &[usize],
    place: usize,
    java: JavaType,
    at: usize,
    s: Standing,
) -> bool
    ensures { result ≡ specs.is_declared_by (within_of w.now) closings.now place java at s }
{
    stands_before(place, s) && declares_at(w, closings, false, java, at, s.statement.from)
}

/// Whether a place is in the statement that stands behind the parentheses that are opening at a number.
fn is_in_headed(items: &[Item], closings: &[usize], place: usize, opening: usize) -> bool
    ensures { result ≡ specs.is_in_headed items.now closings.now place opening }
{
    match closing_at(items, closings, opening) {
        None => false,
        Some(close) => is_in_body(items, closings, place, close),
    }
}

/// Whether what is seen up to a parenthesis is a list of what has this type.
fn is_list_of(java: JavaType, close: usize, seen: Option<(usize, JavaType)>) -> bool
    ensures { result ≡ specs.is_list_of java close seen }
{
    match seen {
        None => false,
        Some((end, rows)) => end == close && is_element(rows, java),
    }
}

fn is_fetched_by(w: &Within, java: JavaType, from: usize, close: usize, number: u32) -> bool
    ensures { result ≡ specs.is_fetched_by (within_of w.now) java from close number }
{
    is_list_of(java, close, fetch_at(w, number, from, from))
}

fn is_fetched_among(w: &Within, java: JavaType, from: usize, close: usize, numbers: &[u32]) -> bool
    ensures { result ≡ specs.is_fetched_among (within_of w.now) java from close numbers.now }
{
    numbers
        .iter()
        .any(|n| is_fetched_by(w, java, from, close, *n))
}

/// Whether a fetch pattern that may be read stands from a number up to the closing parenthesis.
fn is_fetched_up_to(w: &Within, java: JavaType, from: usize, close: Option<usize>) -> bool
    ensures { result ≡ specs.is_fetched_up_to (within_of w.now) java from close }
{
    match close {
        None => false,
        Some(close) => is_fetched_among(w, java, from, close, w.fetches),
    }
}

/// Whether `var`, the name and a fetch pattern stand in the head whose parenthesis is opening at a number.
fn walks_fetch(
    w: &Within,
    closings: &[usize],
    java: JavaType,
    at: usize,
    opening: usize,
    first: Option<usize>,
) -> bool
    ensures { result ≡ specs.walks_fetch (within_of w.now) closings.now java at opening first }
{
    match first {
        None => false,
        Some(first) => {
            is_word("var", w.items, first)
                && first + 1 == at
                && is_sign(":", w.items, first + 2)
                && is_fetched_up_to(w, java, first + 3, closing_at(w.items, closings, opening))
        }
    }
}

/// Whether the head of a `for`, whose parenthesis is opening at a number, declares the variable.
fn declares_in_head(
    w: &Within,
    closings: &[usize],
    java: JavaType,
    at: usize,
    opening: usize,
) -> bool
    requires { opening < length w.now.items.now }
    ensures { result ≡ specs.declares_in_head (within_of w.now) closings.now java at opening }
{
    declares_at(w, closings, true, java, at, opening + 1)
        || walks_fetch(
            w,
            closings,
            java,
            at,
            opening,
            variable_prefix_end(w.items, closings, opening + 1),
        )
}

/// Whether the head of the `for` at a number declares the variable, and the place is in its statement.
fn is_headed_by(
    w: &Within,
    closings: &[usize],
    place: usize,
    java: JavaType,
    at: usize,
    number: usize,
) -> bool
    ensures { result ≡ specs.is_headed_by (within_of w.now) closings.now place java at number }
{
    is_word("for", w.items, number)
        && is_sign("(", w.items, number + 1)
        && declares_in_head(w, closings, java, at, number + 1)
        && is_in_headed(w.items, closings, place, number + 1)
}

#[tactic(auto, using(view_shapes::proofs::Numbers::any_here, view_shapes::proofs::Numbers::any_next, view_shapes::proofs::Numbers::any_end))]
fn is_in_head(
    w: &Within,
    closings: &[usize],
    place: usize,
    java: JavaType,
    at: usize,
    from: usize,
) -> bool
    ensures { result ≡ specs.is_in_head (within_of w.now) closings.now place java at from }
{
    for number in from..place {
        if is_headed_by(w, closings, place, java, at, number) {
            return true;
        }
    }
    false
}

#[tactic(auto)]
fn is_declared_before(
    w: &Within,
    closings: &[usize],
    standing: &[Standing],
    place: usize,
    java: JavaType,
    at: usize,
) -> bool
    ensures { result ≡ specs.is_declared_before (within_of w.now) closings.now standing.now place java at }
{
    for s in standing {
        if is_declared_by(w, closings, place, java, at, *s) {
            return true;
        }
    }
    false
}

/// Whether the variable whose name stands at a number is in sight at a place of a method's body, with this type: it is a parameter, or a
/// statement before the place in the same block, or in one round it, declares it, or the head of a `for` round the place, that by `var` too
/// where it walks a fetch; of several variables of one statement the first one. `standing` are the statements of the method's body. Time goes with the items of the body and how deep
/// they stand.
pub fn is_in_sight_at(
    w: &Within,
    closings: &[usize],
    standing: &[Standing],
    method: &Method,
    place: usize,
    java: JavaType,
    at: usize,
) -> bool
    ensures { result ≡ specs.is_in_sight_by (within_of w.now) closings.now standing.now method.now place java at }
{
    is_parameter(w, method.parameters.as_slice(), java, at)
        || is_declared_before(w, closings, standing, place, java, at)
        || is_in_head(w, closings, place, java, at, method.from)
}

// ---- Rows in sight

fn is_of_rows(java: JavaType) -> bool
    ensures { result ≡ specs.is_of_rows java }
{
    match java {
        JavaType::Row(_) | JavaType::Rows(_) => true,
        JavaType::Scalar(_) | JavaType::Scalars(_) | JavaType::Distinct(_) => false,
    }
}

fn has_type(java: JavaType, v: Option<&Sighted>) -> bool
    ensures { result ≡ specs.has_type java (option_copied v.entry) }
{
    match v {
        Some(v) => same_type(v.java, java),
        None => false,
    }
}

/// Whether a variable is among these with its type, if it is one of rows.
fn is_known(w: &Within, variables: &[Sighted], s: Spelled) -> bool
    ensures { result ≡ specs.is_known (within_of w.now) variables.now s }
{
    !is_of_rows(s.java) || has_type(s.java, find_sighted(variables, bytes_at(w, s.to)))
}

fn is_parameter_known(w: &Within, variables: &[Sighted], p: Parameter) -> bool
    ensures { result ≡ specs.is_parameter_known (within_of w.now) variables.now p }
{
    match type_at(w, p.ty) {
        Some(s) => !(s.to == p.name) || is_known(w, variables, s),
        None => true,
    }
}

fn are_parameters_known(w: &Within, variables: &[Sighted], parameters: &[Parameter]) -> bool
    ensures { result ≡ specs.are_parameters_known (within_of w.now) variables.now parameters.now }
{
    parameters
        .iter()
        .all(|p| is_parameter_known(w, variables, *p))
}

fn is_spelled_known(w: &Within, variables: &[Sighted], head: bool, spelled: Option<Spelled>) -> bool
    ensures { result ≡ specs.is_spelled_known (within_of w.now) variables.now head spelled }
{
    match spelled {
        Some(s) => { !is_followed(w, head, s.to) || is_known(w, variables, s) }
        None => true,
    }
}

/// Whether a name stands at a number, and behind it what may follow that of a variable.
fn is_followed(w: &Within, head: bool, number: usize) -> bool
    ensures { result ≡ specs.is_followed (within_of w.now) head number }
{
    is_name(w.items, number) && may_follow(w.items, head, number + 1)
}

fn is_declared_known(
    w: &Within,
    closings: &[usize],
    variables: &[Sighted],
    head: bool,
    number: usize,
) -> bool
    ensures { result ≡ specs.is_declared_known (within_of w.now) closings.now variables.now head number }
{
    match variable_prefix_end(w.items, closings, number) {
        Some(first) => is_spelled_known(w, variables, head, type_at(w, first)),
        None => true,
    }
}

fn is_standing_known(
    w: &Within,
    closings: &[usize],
    variables: &[Sighted],
    place: usize,
    s: Standing,
) -> bool
    ensures { result ≡ specs.is_standing_known (within_of w.now) closings.now variables.now place s }
{
    !stands_before(place, s) || is_declared_known(w, closings, variables, false, s.statement.from)
}

fn are_standing_known(
    w: &Within,
    closings: &[usize],
    variables: &[Sighted],
    place: usize,
    standing: &[Standing],
) -> bool
    ensures { result ≡ specs.are_standing_known (within_of w.now) closings.now variables.now place standing.now }
{
    for s in standing {
        if !is_standing_known(w, closings, variables, place, *s) {
            return false;
        }
    }
    true
}

fn begins_for(items: &[Item], number: usize) -> bool
    ensures value { result ≡ specs.begins_for items.now number }
    ensures within { IsTrue result → number + 1 < length items.now }
{
    is_word("for", items, number) && is_sign("(", items, number + 1)
}

fn is_head_known(
    w: &Within,
    closings: &[usize],
    variables: &[Sighted],
    place: usize,
    number: usize,
) -> bool
    ensures { result ≡ specs.is_head_known (within_of w.now) closings.now variables.now place number }
{
    if begins_for(w.items, number) && is_in_headed(w.items, closings, place, number + 1) {
        is_declared_known(w, closings, variables, true, number + 2)
    } else {
        true
    }
}

#[tactic(auto, using(view_shapes::proofs::Numbers::all_but, view_shapes::proofs::Numbers::all_next, view_shapes::proofs::Numbers::all_end))]
fn are_heads_known(
    w: &Within,
    closings: &[usize],
    variables: &[Sighted],
    from: usize,
    place: usize,
) -> bool
    ensures { result ≡ specs.are_heads_known (within_of w.now) closings.now variables.now from place }
{
    for number in from..place {
        if !is_head_known(w, closings, variables, place, number) {
            return false;
        }
    }
    true
}

/// Whether each variable of a row or of a list of rows that is in sight at a place of a method's body is among these with its type: its
/// parameters, what statements before the place declare in the same block or in one round it, of several variables of one the first, and what
/// the heads of `for` round it do. Time goes with the items of the body and how deep they stand, and with these variables for each that is
/// found.
pub fn are_rows_known(
    w: &Within,
    closings: &[usize],
    standing: &[Standing],
    method: &Method,
    place: usize,
    variables: &[Sighted],
) -> bool
    ensures { result ≡ specs.are_rows_known (within_of w.now) closings.now standing.now method.now place variables.now }
{
    are_parameters_known(w, variables, method.parameters.as_slice())
        && (are_standing_known(w, closings, variables, place, standing)
            && are_heads_known(w, closings, variables, method.from, place))
}

fn is_tried_by(items: &[Item], closings: &[usize], place: usize, number: usize) -> bool
    ensures { result ≡ specs.is_tried_by items.now closings.now place number }
{
    is_word("try", items, number) && is_before_end_of(items, closings, place, number)
}

/// Whether a `try` stands round a place, from a number on.
#[tactic(auto, using(view_shapes::proofs::Numbers::any_here, view_shapes::proofs::Numbers::any_next, view_shapes::proofs::Numbers::any_end))]
fn is_tried_from(items: &[Item], closings: &[usize], from: usize, place: usize) -> bool
    ensures { result ≡ specs.is_tried_from items.now closings.now from place }
{
    for number in from..place {
        if is_tried_by(items, closings, place, number) {
            return true;
        }
    }
    false
}

/// Whether a `try` stands round a place of a method's body, whose `catch` may see a fault. Time goes with the items before the place.
pub fn is_inside_try(items: &[Item], closings: &[usize], method: &Method, place: usize) -> bool
    ensures { result ≡ specs.is_inside_try items.now closings.now method.now place }
{
    is_tried_from(items, closings, method.from, place)
}
