// What makes sure that a variable isn't null where a slice begins.
ghost use Rattle.std.specs.Prelude.{◌≡◌, ◌<◌, ◌≤◌, ◌+◌, ◌^◌, IfSome, IsTrue, length, slice_get};
ghost use Rattle.view_scope.specs.Guards as specs;
ghost use Rattle.view_scope.specs.Guards.{part_operator, part_sign};

use crate::Standing;
use crate::nulls::is_around;
use view_items::Item;
use view_shapes::{
    Stretch, closing_at, end_of, has_name, is_one_of_signs, is_one_of_words, is_sign, is_word,
    may_be_set,
};

/// What joins the parts of a condition, and the sign of a test: parts that hold only all together say what isn't null.
fn operator_of(all: bool) -> &'static str
    ensures { result.now ≡ part_operator all }
{
    if all { "&&" } else { "||" }
}

fn sign_of_test(all: bool) -> &'static str
    ensures { result.now ≡ part_sign all }
{
    if all { "!=" } else { "==" }
}

/// Whether the items from a number on are a test of the variable by a sign, with `null` behind or in front.
fn is_test(items: &[Item], sign: &str, name: &[u8], number: usize) -> bool
    requires { number < 2 ^ 62 }
    ensures { result ≡ specs.is_test items.now sign.now name.now number }
{
    is_sign(sign, items, number + 1)
        && ((has_name(items, name, number) && is_word("null", items, number + 2))
            || (is_word("null", items, number) && has_name(items, name, number + 2)))
}

/// Whether the item is the operator, or one of the parentheses.
fn is_edge(
    items: &[Item],
    rounds: &[usize],
    opening: usize,
    close: usize,
    operator: &str,
    number: usize,
) -> bool
    ensures { result ≡ specs.is_edge items.now rounds.now opening close operator.now number }
{
    number == opening
        || number == close
        || (is_sign(operator, items, number) && is_around(rounds, opening, number))
}

/// Whether the test is one of the parts of the condition that the operator joins.
fn is_part(
    items: &[Item],
    rounds: &[usize],
    opening: usize,
    close: usize,
    operator: &str,
    sign: &str,
    name: &[u8],
    number: usize,
) -> bool
    requires { (0 < number) × (number < 2 ^ 62) }
    ensures { result ≡ specs.is_part items.now rounds.now opening close operator.now sign.now name.now number }
{
    is_test(items, sign, name, number)
        && is_edge(items, rounds, opening, close, operator, number - 1)
        && is_edge(items, rounds, opening, close, operator, number + 3)
}

fn is_part_of(
    items: &[Item],
    rounds: &[usize],
    all: bool,
    opening: usize,
    close: usize,
    name: &[u8],
    number: usize,
) -> bool
    requires { (0 < number) × (number < 2 ^ 62) }
    ensures { result ≡ specs.is_part_of items.now rounds.now all opening close name.now number }
{
    is_part(
        items,
        rounds,
        opening,
        close,
        operator_of(all),
        sign_of_test(all),
        name,
        number,
    )
}

/// Whether one of the parts from a number up to the closing parenthesis is a test of the variable.
#[tactic(auto, using(view_shapes::proofs::Numbers::any_here, view_shapes::proofs::Numbers::any_next, view_shapes::proofs::Numbers::any_end))]
fn has_part(
    items: &[Item],
    rounds: &[usize],
    all: bool,
    opening: usize,
    name: &[u8],
    from: usize,
    close: usize,
) -> bool
    requires { (0 < from) × (close < length items.now) }
    ensures { result ≡ specs.has_part items.now rounds.now all opening name.now from close }
{
    for number in from..close {
        if is_part_of(items, rounds, all, opening, close, name, number) {
            return true;
        }
    }
    false
}

/// Whether the item is a sign directly in the parentheses that binds less tightly than the parts.
fn is_loose_sign(items: &[Item], rounds: &[usize], all: bool, opening: usize, number: usize) -> bool
    ensures { result ≡ specs.is_loose_sign items.now rounds.now all opening number }
{
    (is_one_of_signs(&["?", "->", "&=", "|=", "^="], items, number)
        || (all && is_sign("||", items, number)))
        && is_around(rounds, opening, number)
}

#[tactic(auto, using(view_shapes::proofs::Numbers::any_here, view_shapes::proofs::Numbers::any_next, view_shapes::proofs::Numbers::any_end))]
fn has_loose(items: &[Item], rounds: &[usize], all: bool, opening: usize, close: usize) -> bool
    ensures { result ≡ specs.has_loose items.now rounds.now all opening close }
{
    for number in opening..close {
        if is_loose_sign(items, rounds, all, opening, number) {
            return true;
        }
    }
    false
}

/// Whether the variable isn't null where the condition in these parentheses doesn't hold.
fn fails_unless_null(
    items: &[Item],
    rounds: &[usize],
    opening: usize,
    close: usize,
    name: &[u8],
) -> bool
    requires { (opening < close) × (close < length items.now) }
    ensures { result ≡ specs.fails_unless_null items.now rounds.now opening close name.now }
{
    !has_loose(items, rounds, false, opening, close)
        && has_part(items, rounds, false, opening, name, opening + 1, close)
}

/// Whether the variable isn't null where the condition in these parentheses holds.
fn holds_unless_null(
    items: &[Item],
    rounds: &[usize],
    opening: usize,
    close: usize,
    name: &[u8],
) -> bool
    requires { (opening < close) × (close < length items.now) }
    ensures { result ≡ specs.holds_unless_null items.now rounds.now opening close name.now }
{
    !has_loose(items, rounds, true, opening, close)
        && has_part(items, rounds, true, opening, name, opening + 1, close)
}

fn leaves(items: &[Item], number: usize) -> bool
    ensures { result ≡ specs.leaves items.now number }
{
    is_one_of_words(&["throw", "return", "continue", "break"], items, number)
}

/// Whether the last of the statements from a number on leaves.
fn ends_leaving(items: &[Item], closings: &[usize], first: usize) -> bool
    ensures { result ≡ specs.ends_leaving items.now closings.now first }
{
    let mut leaving = false;
    let mut number = first;
    for _ in 0..items.len() {
        let Some(next) = end_of(items, closings, number) else {
            return leaving;
        };
        leaving = leaves(items, number);
        number = next;
    }
    leaving
}

/// Whether a body ends in a statement that leaves.
fn body_leaves(items: &[Item], closings: &[usize], number: usize) -> bool
    requires { number < 2 ^ 63 }
    ensures { result ≡ specs.body_leaves items.now closings.now number }
{
    if is_sign("{", items, number) {
        ends_leaving(items, closings, number + 1)
    } else {
        leaves(items, number)
    }
}

// ---- An `if`

fn is_before_end(place: usize, end: Option<usize>) -> bool
    ensures { result ≡ specs.is_before_end place end }
{
    match end {
        None => false,
        Some(end) => place < end,
    }
}

/// Whether a place is before the end of the statement that begins at a number.
pub fn is_before_end_of(items: &[Item], closings: &[usize], place: usize, number: usize) -> bool
    ensures { result ≡ specs.is_before_end_of items.now closings.now place number }
{
    is_before_end(place, end_of(items, closings, number))
}

/// The closing parenthesis of the `if` at a number.
fn head_closing(items: &[Item], closings: &[usize], number: usize) -> Option<usize>
    ensures value { result ≡ specs.head_closing items.now closings.now number }
    ensures within { IfSome result (λ c. (number + 1 < c) × (c < length items.now)) }
{
    if is_word("if", items, number) && is_sign("(", items, number + 1) {
        closing_at(items, closings, number + 1)
    } else {
        None
    }
}

fn is_else(items: &[Item], number: usize) -> bool
    ensures { result ≡ specs.is_else items.now number }
{
    is_word("else", items, number)
}

fn has_else(items: &[Item], end: Option<usize>) -> bool
    ensures { result ≡ specs.has_else items.now end }
{
    match end {
        None => true,
        Some(end) => is_else(items, end),
    }
}

/// Whether it is an `if` without `else`, with a body that leaves, and where it goes on the variable isn't null.
fn leaves_where_null(
    items: &[Item],
    closings: &[usize],
    rounds: &[usize],
    name: &[u8],
    number: usize,
) -> bool
    ensures { result ≡ specs.leaves_where_null items.now closings.now rounds.now name.now number }
{
    match head_closing(items, closings, number) {
        None => false,
        Some(close) => {
            fails_unless_null(items, rounds, number + 1, close, name)
                && body_leaves(items, closings, close + 1)
                && !has_else(items, end_of(items, closings, close + 1))
        }
    }
}

/// Whether a place is behind a parenthesis, in the statement that stands directly behind that.
pub fn is_in_body(items: &[Item], closings: &[usize], place: usize, close: usize) -> bool
    requires { close < length items.now }
    ensures { result ≡ specs.is_in_body items.now closings.now place close }
{
    close < place && is_before_end_of(items, closings, place, close + 1)
}

/// Whether a place is inside of the statement behind `else`.
fn is_behind_else(items: &[Item], closings: &[usize], place: usize, end: Option<usize>) -> bool
    requires { IfSome end (λ e. e ≤ length items.now) }
    ensures { result ≡ specs.is_behind_else items.now closings.now place end }
{
    match end {
        None => false,
        Some(end) => {
            is_else(items, end) && end < place && is_before_end_of(items, closings, place, end + 1)
        }
    }
}

/// Whether a place is where the `if` with this head runs only with the variable not null.
fn guards_inside(
    items: &[Item],
    closings: &[usize],
    rounds: &[usize],
    name: &[u8],
    place: usize,
    opening: usize,
    close: usize,
) -> bool
    requires { (opening < close) × (close < length items.now) }
    ensures { result ≡ specs.guards_inside items.now closings.now rounds.now name.now place opening close }
{
    (is_in_body(items, closings, place, close)
        && holds_unless_null(items, rounds, opening, close, name))
        || (is_behind_else(items, closings, place, end_of(items, closings, close + 1))
            && fails_unless_null(items, rounds, opening, close, name))
}

// ---- Guards

fn is_in_block(place: usize, block: Stretch) -> bool
    ensures { result ≡ specs.is_in_block place block }
{
    block.from <= place && place < block.to
}

/// Whether a statement stands before a place, in its block or one round it.
pub fn stands_before(place: usize, s: Standing) -> bool
    ensures { result ≡ specs.stands_before place s }
{
    is_in_block(place, s.block) && s.statement.to <= place
}

fn guards_behind(
    items: &[Item],
    closings: &[usize],
    rounds: &[usize],
    place: usize,
    name: &[u8],
    since: usize,
    s: Standing,
) -> bool
    ensures { result ≡ specs.guards_behind items.now closings.now rounds.now place name.now since s }
{
    since < s.statement.from
        && stands_before(place, s)
        && leaves_where_null(items, closings, rounds, name, s.statement.from)
}

fn guards_round(
    items: &[Item],
    closings: &[usize],
    rounds: &[usize],
    place: usize,
    name: &[u8],
    since: usize,
    number: usize,
) -> bool
    ensures { result ≡ specs.guards_round items.now closings.now rounds.now place name.now since number }
{
    if since >= number {
        return false;
    }
    match head_closing(items, closings, number) {
        None => false,
        Some(close) => guards_inside(items, closings, rounds, name, place, number + 1, close),
    }
}

#[tactic(auto, using(view_shapes::proofs::Numbers::any_here, view_shapes::proofs::Numbers::any_next, view_shapes::proofs::Numbers::any_end))]
fn is_in_guard(
    items: &[Item],
    closings: &[usize],
    rounds: &[usize],
    place: usize,
    name: &[u8],
    since: usize,
    from: usize,
) -> bool
    ensures { result ≡ specs.is_in_guard items.now closings.now rounds.now place name.now since from }
{
    for number in from..place {
        if guards_round(items, closings, rounds, place, name, since, number) {
            return true;
        }
    }
    false
}

fn is_behind_guard(
    items: &[Item],
    closings: &[usize],
    rounds: &[usize],
    standing: &[Standing],
    place: usize,
    name: &[u8],
    since: usize,
) -> bool
    ensures { result ≡ specs.is_behind_guard items.now closings.now rounds.now standing.now place name.now since }
{
    for s in standing {
        if guards_behind(items, closings, rounds, place, name, since, *s) {
            return true;
        }
    }
    false
}

/// Whether a guard stands for a variable that is in sight from a number on, at a place of a method's body: behind an `if` that leaves where
/// it is null, in the same block or in one round it; in the body of an `if` that asks that it isn't null; behind the `else` of one that asks
/// whether it is. The variable is set nowhere in the body. `standing` are the body's statements. Time goes with the items of the body and
/// how deep they stand.
pub fn is_guarded(
    items: &[Item],
    closings: &[usize],
    rounds: &[usize],
    standing: &[Standing],
    body: Stretch,
    place: usize,
    name: &[u8],
    since: usize,
) -> bool
    ensures { result ≡ specs.is_guarded_by items.now closings.now rounds.now standing.now body place name.now since }
{
    if may_be_set(items, name, body.from, body.to) {
        return false;
    }
    is_behind_guard(items, closings, rounds, standing, place, name, since)
        || is_in_guard(items, closings, rounds, place, name, since, body.from)
}
