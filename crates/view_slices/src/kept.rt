// What is written in place of a slice: statements of the source as they stand there, and statements that ask.
ghost use Rattle.std.specs.Prelude.{◌≡◌, take, drop, option_copied};
ghost use Rattle.view_rules.specs.Reading.{expression, arguments_of};
ghost use Rattle.view_slices.specs.Kept as specs;
ghost use Rattle.view_slices.specs.Kept.{beside_of};
ghost use Rattle.view_slices.specs.Reading.{slice as plain, ending as plain_ending};
ghost use Rattle.view_statements.specs.Reading.{statement, statements};

use crate::file::word_at;
use crate::prints::is_printed;
use crate::words::same_sign;
use view_items::Item;
use view_rules::{Arguments, Expression, JavaType, is_scalar, kind_word};
use view_shapes::{Stretch, is_named};
use view_statements::{Ending, Printed, Slice, Statement};

/// The items of the source and those of what is written, and what the slice of the source prints.
#[derive(Drop)]
struct Beside<'a> {
    items: &'a [Item],
    written: &'a [Item],
    prints: &'a [Printed],
}

// ---- Items

fn begin_alike(items: &[Item], written: &[Item]) -> bool
    ensures { result ≡ specs.begin_alike items.now written.now }
{
    let mut rest = written;
    for item in items {
        match rest {
            [] => return false,
            [other, behind @ ..] => {
                if !(item.bytes.as_slice() == other.bytes.as_slice()) {
                    return false;
                }
                rest = behind;
            }
        }
    }
    true
}

fn same_word(a: Option<&Item>, b: Option<&Item>) -> bool
    ensures { result ≡ specs.same_word (option_copied a.entry) (option_copied b.entry) }
{
    match (a, b) {
        (Some(a), Some(b)) => a.bytes.as_slice() == b.bytes.as_slice(),
        _ => false,
    }
}

fn from_item(items: &[Item], from: usize) -> &[Item]
    ensures { result.now ≡ drop from items.now }
{
    if from < items.len() {
        &items[from..]
    } else {
        &[]
    }
}

fn up_to_item(items: &[Item], count: usize) -> &[Item]
    ensures { result.now ≡ take count items.now }
{
    if count < items.len() {
        &items[..count]
    } else {
        items
    }
}

fn same_items(b: &Beside, s: Stretch, t: Stretch) -> bool
    ensures { result ≡ specs.same_items (beside_of b.now) s t }
{
    let count = s.to.saturating_sub(s.from);
    count == t.to.saturating_sub(t.from)
        && (begin_alike(
            up_to_item(from_item(b.items, s.from), count),
            from_item(b.written, t.from),
        ) && same_word(b.items.get(s.to), b.written.get(t.to)))
}

// ---- Statements that ask

fn is_variable(e: &Expression) -> bool
    ensures { result ≡ specs.is_variable (expression e.now) }
{
    matches!(e, Expression::Variable { .. })
}

fn is_plain_argument(e: &Expression) -> bool
    ensures { result ≡ specs.is_plain_argument (expression e.now) }
{
    match e {
        Expression::Literal { .. }
        | Expression::Negative { .. }
        | Expression::Variable { .. }
        | Expression::Parameter { .. }
        | Expression::NamedColumn { .. }
        | Expression::ClassConstant { .. }
        | Expression::MapConstant { .. }
        | Expression::OuterColumn { .. } => true,
        Expression::Column { row, .. } => is_variable(row),
        _ => false,
    }
}

fn are_plain_arguments(arguments: &Arguments) -> bool
    ensures { result ≡ specs.are_plain_arguments (arguments_of arguments.now) }
{
    match arguments {
        Arguments::End => true,
        Arguments::Next { value, rest } => is_plain_argument(value) && are_plain_arguments(rest),
    }
}

fn is_query_alone(e: &Expression) -> bool
    ensures { result ≡ specs.is_query_alone (expression e.now) }
{
    match e {
        Expression::Query { arguments, .. } => are_plain_arguments(arguments),
        _ => false,
    }
}

fn is_asked(e: &Expression) -> bool
    ensures { result ≡ specs.is_asked (expression e.now) }
{
    match e {
        Expression::NewSetOf { query, .. } => is_query_alone(query),
        _ => is_query_alone(e),
    }
}

fn asks(st: &Statement) -> bool
    ensures { result ≡ specs.asks (statement st.now) }
{
    match st {
        Statement::Declaration { value, .. }
        | Statement::FirstSet { value, .. }
        | Statement::Assignment { value, .. } => is_asked(value),
        _ => false,
    }
}

fn past_asks(sts: &[Statement]) -> &[Statement]
    ensures { statements result.now ≡ specs.past_asks (statements sts.now) }
{
    let mut rest = sts;
    while let [st, behind @ ..] = rest {
        if !asks(st) {
            return rest;
        }
        rest = behind;
    }
    rest
}

fn are_none(sts: &[Statement]) -> bool
    ensures { result ≡ specs.are_none (statements sts.now) }
{
    match sts {
        [] => true,
        [_st, _rest @ ..] => false,
    }
}

// ---- Statements that are kept

fn head_of(st: &Statement) -> Stretch
    ensures { result ≡ specs.head_of (statement st.now) }
{
    match st {
        Statement::Declaration { at, end, .. }
        | Statement::Inferred { at, end, .. }
        | Statement::FirstSet { name: at, end, .. }
        | Statement::Assignment { name: at, end, .. }
        | Statement::Added { name: at, end, .. }
        | Statement::Lessened { name: at, end, .. }
        | Statement::Stepped { at, end, .. }
        | Statement::Extreme { name: at, end, .. }
        | Statement::Add { name: at, end, .. }
        | Statement::Sort { at, end, .. }
        | Statement::If { at, close: end, .. }
        | Statement::IfElse { at, close: end, .. }
        | Statement::ForEach { at, close: end, .. }
        | Statement::ForIndex { at, name: end, .. }
        | Statement::ForIterator { at, name: end, .. }
        | Statement::Named { at, end, .. }
        | Statement::While { at, close: end, .. }
        | Statement::Break { at, end }
        | Statement::Skip { at, close: end, .. }
        | Statement::Found { at, end, .. } => Stretch {
            from: *at,
            to: *end,
        },
    }
}

fn shape_of(st: &Statement) -> u32
    ensures { result ≡ specs.shape_of (statement st.now) }
{
    match st {
        Statement::If { .. } => 1,
        Statement::IfElse { .. } => 2,
        Statement::Skip { .. } => 3,
        _ => 0,
    }
}

fn body_of(st: &Statement) -> &[Statement]
    ensures { statements result.now ≡ specs.body_of (statement st.now) }
{
    match st {
        Statement::If { body, .. } => body.as_slice(),
        Statement::IfElse { body, .. } => body.as_slice(),
        Statement::ForEach { body, .. } => body.as_slice(),
        Statement::ForIndex { body, .. } => body.as_slice(),
        Statement::ForIterator { body, .. } => body.as_slice(),
        Statement::While { body, .. } => body.as_slice(),
        Statement::Skip { rest, .. } => rest.as_slice(),
        _ => &[],
    }
}

fn other_of(st: &Statement) -> &[Statement]
    ensures { statements result.now ≡ specs.other_of (statement st.now) }
{
    match st {
        Statement::IfElse { other, .. } => other.as_slice(),
        _ => &[],
    }
}

fn is_needed(b: &Beside, at: usize, name: usize, java: JavaType) -> bool
    ensures { result ≡ specs.is_needed (beside_of b.now) at name java }
{
    is_scalar(java)
        && (is_named(b.items, b"final", at, name)
            && is_printed(b.prints, word_at(b.items, name), java))
}

fn may_be_left_out(b: &Beside, st: &Statement) -> bool
    ensures { result ≡ specs.may_be_left_out (beside_of b.now) (statement st.now) }
{
    match st {
        Statement::Declaration {
            at,
            name,
            java,
            value,
            ..
        } => is_asked(value) || !is_needed(b, *at, *name, *java),
        Statement::Inferred { at, name, java, .. } => !is_needed(b, *at, *name, *java),
        _ => true,
    }
}

// ---- Heads of declarations that ask

fn is_word_for(java: JavaType, word: &[u8]) -> bool
    ensures { result ≡ specs.is_word_for java word.now }
{
    match java {
        JavaType::Scalar(t) => word == kind_word(t.kind),
        _ => false,
    }
}

fn ends_with_type(b: &Beside, s: Stretch, t: Stretch, java: JavaType) -> bool
    ensures { result ≡ specs.ends_with_type (beside_of b.now) s t java }
{
    word_at(b.items, s.to.saturating_sub(1)) == b"var".as_slice()
        && is_word_for(java, word_at(b.written, t.to.saturating_sub(1)))
}

fn is_inferred_head(b: &Beside, s: Stretch, t: Stretch, java: JavaType) -> bool
    ensures { result ≡ specs.is_inferred_head (beside_of b.now) s t java }
{
    let count = s.to.saturating_sub(1).saturating_sub(s.from);
    s.to.saturating_sub(s.from) == t.to.saturating_sub(t.from)
        && (ends_with_type(b, s, t, java)
            && (begin_alike(
                up_to_item(from_item(b.items, s.from), count),
                from_item(b.written, t.from),
            ) && same_word(b.items.get(s.to), b.written.get(t.to))))
}

fn up_to(from: usize, to: usize) -> Stretch
    ensures { result ≡ specs.up_to from to }
{
    Stretch { from, to }
}

fn has_head(b: &Beside, t: Stretch, st: &Statement) -> bool
    ensures { result ≡ specs.has_head (beside_of b.now) t (statement st.now) }
{
    match st {
        Statement::Declaration { at, name, .. } => same_items(b, up_to(*at, *name), t),
        Statement::Inferred { at, name, java, .. } => {
            is_inferred_head(b, up_to(*at, *name), t, *java)
        }
        _ => false,
    }
}

fn is_head_among(b: &Beside, t: Stretch, sts: &[Statement]) -> bool
    ensures { result ≡ specs.is_head_among (beside_of b.now) t (statements sts.now) }
{
    for st in sts {
        if has_head(b, t, st) {
            return true;
        }
    }
    false
}

fn is_head_of_group(b: &Beside, variable: &[u8], t: Stretch) -> bool
    ensures { result ≡ specs.is_head_of_group (beside_of b.now) variable.now t }
{
    t.to.saturating_sub(t.from) == 1
        && (word_at(b.written, t.from) == b"boolean".as_slice()
            && word_at(b.written, t.to) == variable)
}

fn is_headed(b: &Beside, variable: &[u8], source: &[Statement], t: &Statement) -> bool
    ensures { result ≡ specs.is_headed (beside_of b.now) variable.now (statements source.now) (statement t.now) }
{
    match t {
        Statement::Declaration {
            at,
            name,
            value,
            ..
        } => {
            !is_asked(value)
                || (is_head_among(b, up_to(*at, *name), source)
                    || is_head_of_group(b, variable, up_to(*at, *name)))
        }
        _ => true,
    }
}

/// Whether each declaration that asks begins as one of the source does in the same block.
fn are_headed(b: &Beside, variable: &[u8], source: &[Statement], written: &[Statement]) -> bool
    ensures { result ≡ specs.are_headed (beside_of b.now) variable.now (statements source.now) (statements written.now) }
{
    for t in written {
        if !is_headed(b, variable, source, t) {
            return false;
        }
    }
    true
}

fn are_bodies_headed(b: &Beside, s: &Statement, t: &Statement) -> bool
    ensures { result ≡ specs.are_bodies_headed (beside_of b.now) (statement s.now) (statement t.now) }
{
    are_headed(b, &[], body_of(s), body_of(t)) && are_headed(b, &[], other_of(s), other_of(t))
}

fn are_fronts_alike(b: &Beside, s: &Statement, t: &Statement) -> bool
    ensures { result ≡ specs.are_fronts_alike (beside_of b.now) (statement s.now) (statement t.now) }
{
    shape_of(s) == shape_of(t) && same_items(b, head_of(s), head_of(t))
}

#[tactic(auto, unfolding(crate::specs::Kept::is_front))]
fn is_front(b: &Beside, s: &Statement, t: &Statement) -> bool
    ensures { result ≡ specs.is_front (beside_of b.now) (statement s.now) (statement t.now) }
{
    are_fronts_alike(b, s, t) && are_bodies_headed(b, s, t)
}

// ---- One behind the other

fn behind_first(sts: &[Statement]) -> &[Statement]
    ensures { statements result.now ≡ specs.behind_first (statements sts.now) }
{
    match sts {
        [] => sts,
        [_, behind @ ..] => behind,
    }
}

#[cycle(kept)]
fn is_first(b: &Beside, levels: usize, s: &Statement, sts: &[Statement]) -> bool
    ensures { result ≡ specs.is_first (specs.is_kept (beside_of b.now) levels (statement s.now)) (statements sts.now) }
{
    match sts {
        [] => false,
        [st, ..] => is_kept(b, levels, s, st),
    }
}

#[cycle(kept)]
fn are_kept(b: &Beside, levels: usize, source: &[Statement], written: &[Statement]) -> bool
    ensures { result ≡ specs.are_kept (beside_of b.now) levels (statements source.now) (statements written.now) }
{
    let mut rest = written;
    for s in source {
        let front = past_asks(rest);
        if is_first(b, levels, s, front) {
            rest = behind_first(front);
        } else {
            if !may_be_left_out(b, s) {
                return false;
            }
            rest = front;
        }
    }
    are_none(past_asks(rest))
}

#[cycle(kept)]
fn are_bodies_kept(b: &Beside, levels: usize, s: &Statement, t: &Statement) -> bool
    ensures { result ≡ specs.are_bodies_kept (beside_of b.now) levels (statement s.now) (statement t.now) }
{
    are_kept(b, levels, body_of(s), body_of(t)) && are_kept(b, levels, other_of(s), other_of(t))
}

#[cycle(kept)]
fn is_kept(b: &Beside, levels: usize, s: &Statement, t: &Statement) -> bool
    ensures { result ≡ specs.is_kept (beside_of b.now) levels (statement s.now) (statement t.now) }
{
    match levels.checked_sub(1) {
        Some(levels) => is_front(b, s, t) && are_bodies_kept(b, levels, s, t),
        None => false,
    }
}

fn is_ending_kept(b: &Beside, levels: usize, s: &Ending, t: &Ending) -> bool
    ensures { result ≡ specs.is_ending_kept (beside_of b.now) levels (plain_ending s.now) (plain_ending t.now) }
{
    match t {
        Ending::Grouped(h) => match s {
            Ending::Grouped(g) => {
                same_sign(g.value, h.value) && is_kept(b, levels, &g.walk, &h.walk)
            }
            _ => false,
        },
        _ => true,
    }
}

fn group_variable(ending: &Ending) -> &[u8]
    ensures { result.now ≡ specs.group_variable (plain_ending ending.now) }
{
    match ending {
        Ending::Grouped(g) => g.variable.as_slice(),
        _ => &[],
    }
}

/// Whether what stands in place of a slice is made of its statements, item for item, and of ones that ask. Time goes with the items of both,
/// and with the declarations that ask for each statement of their block.
pub fn keeps_statements(items: &[Item], slice: &Slice, written: &[Item], again: &Slice) -> bool
    ensures { result ≡ specs.keeps_statements items.now (plain slice.now) written.now (plain again.now) }
{
    let b = Beside {
        items,
        written,
        prints: slice.prints.as_slice(),
    };
    let levels = slice.to.saturating_sub(slice.from);
    let source = slice.statements.as_slice();
    let other = again.statements.as_slice();
    are_headed(&b, group_variable(&slice.ending), source, other)
        && (are_kept(&b, levels, source, other)
            && is_ending_kept(&b, levels, &slice.ending, &again.ending))
}
