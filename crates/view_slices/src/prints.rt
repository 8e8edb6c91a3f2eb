// What is printed at the end of a slice.
ghost use Rattle.std.specs.Prelude.{◌≡◌, option_copied};
ghost use Rattle.view_rules.specs.Setting.{within_of};
ghost use Rattle.view_slices.specs.Reading.{slice as plain, ending as plain_ending};
ghost use Rattle.view_slices.specs.Slices as specs;
ghost use Rattle.view_statements.specs.Reading.{statement, statements};
ghost use Rattle.view_statements.specs.Statements.{with_sight};

use view_items::Item;
use view_rules::{
    JavaType, Sighted, Within, bytes_at, find_sighted, holds_get, is_scalar, same_type, truth,
};
use view_shapes::{Method, is_named, may_be_set};
use view_statements::{Ending, Printed, Slice, Statement, is_handed};

/// Whether a variable of a name and a type is printed.
pub fn is_print_of(name: &[u8], java: JavaType, p: &Printed) -> bool
    ensures { result ≡ specs.is_print_of name.now java p.now }
{
    p.name.as_slice() == name && same_type(p.java, java)
}

fn is_shown(w: &Within, java: JavaType, v: Option<&Sighted>) -> bool
    ensures { result ≡ specs.is_shown (within_of w.now) java (option_copied v.entry) }
{
    match v {
        Some(v) => {
            same_type(v.java, java)
                && (!v.column.is_some() && (!v.outside || (is_scalar(v.java) && is_handed(w, v))))
        }
        None => false,
    }
}

fn may_be_printed(w: &Within, after: &[Sighted], p: &Printed) -> bool
    ensures { result ≡ specs.may_be_printed (within_of w.now) after.now p.now }
{
    is_shown(w, p.java, find_sighted(after, p.name.as_slice()))
}

// ---- What holds `get`

fn is_got(w: &Within, x: &[u8], name: usize, got: bool) -> bool
    ensures { result ≡ specs.is_got (within_of w.now) x.now name got }
{
    got && bytes_at(w, name) == x
}

#[cycle(got)]
fn got_by(w: &Within, x: &[u8], st: &Statement) -> bool
    ensures { result ≡ specs.got_by (within_of w.now) x.now (statement st.now) }
{
    match st {
        Statement::Declaration { name, value, .. }
        | Statement::Inferred { name, value, .. }
        | Statement::FirstSet { name, value, .. }
        | Statement::Assignment { name, value, .. }
        | Statement::Added { name, value, .. }
        | Statement::Lessened { name, value, .. }
        | Statement::Extreme { name, value, .. }
        | Statement::Add { name, value, .. } => is_got(w, x, *name, holds_get(value)),
        Statement::If { body, .. } => got_by_some(w, x, body.as_slice()),
        Statement::IfElse { body, other, .. } => {
            got_by_some(w, x, body.as_slice()) || got_by_some(w, x, other.as_slice())
        }
        Statement::ForEach { body, .. } => got_by_some(w, x, body.as_slice()),
        Statement::ForIndex { body, .. } => got_by_some(w, x, body.as_slice()),
        Statement::ForIterator { body, .. } => got_by_some(w, x, body.as_slice()),
        Statement::While { body, .. } => got_by_some(w, x, body.as_slice()),
        Statement::Skip { rest, .. } => got_by_some(w, x, rest.as_slice()),
        Statement::Stepped { .. }
        | Statement::Sort { .. }
        | Statement::Named { .. }
        | Statement::Break { .. }
        | Statement::Found { .. } => false,
    }
}

#[cycle(got)]
fn got_by_some(w: &Within, x: &[u8], sts: &[Statement]) -> bool
    ensures { result ≡ specs.got_by_some (within_of w.now) x.now (statements sts.now) }
{
    for st in sts {
        if got_by(w, x, st) {
            return true;
        }
    }
    false
}

// ---- What is read later

fn is_named_elsewhere(items: &[Item], method: &Method, slice: &Slice, name: &[u8]) -> bool
    ensures { result ≡ specs.is_named_elsewhere items.now method.now (plain slice.now) name.now }
{
    is_named(items, name, method.from, slice.from) || is_named(items, name, slice.to, method.to)
}

fn is_read_own(
    w: &Within,
    method: &Method,
    slice: &Slice,
    name: &[u8],
    before: Option<&Sighted>,
) -> bool
    ensures { result ≡ specs.is_read_own (within_of w.now) method.now (plain slice.now) name.now (option_copied before.entry) }
{
    match before {
        Some(_) => is_named_elsewhere(w.items, method, slice, name),
        None => is_named(w.items, name, slice.to, slice.block.to),
    }
}

fn is_read_later(w: &Within, method: &Method, slice: &Slice, v: &Sighted) -> bool
    ensures { result ≡ specs.is_read_later (within_of w.now) method.now (plain slice.now) v.now }
{
    let name = v.name.as_slice();
    if v.outside {
        may_be_set(w.items, name, slice.from, slice.to)
    } else {
        is_read_own(
            w,
            method,
            slice,
            name,
            find_sighted(slice.outside.as_slice(), name),
        ) || got_by_some(w, name, slice.statements.as_slice())
    }
}

/// Whether a variable of a name and a type is among those that are printed.
pub fn is_printed(prints: &[Printed], name: &[u8], java: JavaType) -> bool
    ensures { result ≡ specs.is_printed prints.now name.now java }
{
    prints.iter().any(|p| is_print_of(name, java, p))
}

fn is_live_printed(w: &Within, method: &Method, slice: &Slice, v: &Sighted) -> bool
    ensures { result ≡ specs.is_live_printed (within_of w.now) method.now (plain slice.now) v.now }
{
    v.column.is_some()
        || (!is_read_later(w, method, slice, v)
            || is_printed(slice.prints.as_slice(), v.name.as_slice(), v.java))
}

/// The name of the variable whose value the method returns behind a slice.
pub fn returned(ending: &Ending) -> Option<&[u8]>
    ensures { option_copied result ≡ specs.returned (plain_ending ending.now) }
{
    match ending {
        Ending::Open => None,
        Ending::Grouped(g) => Some(g.variable.as_slice()),
        Ending::Returned(variable) => Some(variable.as_slice()),
    }
}

fn is_found_printed(prints: &[Printed], variable: Option<&[u8]>) -> bool
    ensures { result ≡ specs.is_found_printed prints.now (option_copied variable.entry) }
{
    match variable {
        Some(variable) => is_printed(prints, variable, truth()),
        None => true,
    }
}

fn may_all_be_printed(w: &Within, after: &[Sighted], prints: &[Printed]) -> bool
    ensures { result ≡ specs.may_all_be_printed (within_of w.now) after.now prints.now }
{
    prints.iter().all(|p| may_be_printed(w, after, p))
}

fn are_live_printed(w: &Within, method: &Method, slice: &Slice, after: &[Sighted]) -> bool
    ensures { result ≡ specs.are_live_printed (within_of w.now) method.now (plain slice.now) after.now }
{
    after.iter().all(|v| is_live_printed(w, method, slice, v))
}

/// Whether what is read later of the variables in sight behind a slice is printed, and nothing that may not be. `passed` is the number behind its
/// statements.
pub fn are_prints(
    w: &Within,
    method: &Method,
    slice: &Slice,
    passed: Option<usize>,
    after: &[Sighted],
) -> bool
    ensures { result ≡ specs.are_prints (within_of w.now) method.now (plain slice.now) (with_sight after.now passed) }
{
    match passed {
        Some(i) => {
            i == slice.to
                && (may_all_be_printed(w, after, slice.prints.as_slice())
                    && (are_live_printed(w, method, slice, after)
                        && is_found_printed(slice.prints.as_slice(), returned(&slice.ending))))
        }
        None => false,
    }
}
