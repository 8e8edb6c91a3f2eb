// Slices that stand where others stood.
ghost use Rattle.std.specs.Prelude.{◌≡◌, is_some, option_copied};
ghost use Rattle.view_rules.specs.Sights.{in_sight};
ghost use Rattle.view_slices.specs.Reading.{slice as plain};
ghost use Rattle.view_slices.specs.Views as specs;

use crate::kept::keeps_statements;
use crate::prints::{is_print_of, returned};
use crate::words::same_sign;
use view_items::Item;
use view_map::ScalarKind;
use view_rules::{Param, Sighted, find_sighted, same_kind, same_type};
use view_statements::{Printed, Slice};

fn same_column(a: Option<u32>, b: Option<u32>) -> bool
    ensures { result ≡ specs.same_column a b }
{
    match (a, b) {
        (None, None) => true,
        (Some(a), Some(b)) => a == b,
        _ => false,
    }
}

fn same_param(p: &Param, q: &Param) -> bool
    ensures { result ≡ specs.same_param p.now q.now }
{
    p.variable.as_slice() == q.variable.as_slice()
        && (same_column(p.column, q.column) && p.name.as_slice() == q.name.as_slice())
}

fn same_params(a: &[Param], b: &[Param]) -> bool
    ensures { result ≡ specs.same_params a.now b.now }
{
    match a {
        [] => match b {
            [] => true,
            [_, ..] => false,
        },
        [p, ps @ ..] => match b {
            [] => false,
            [q, qs @ ..] => same_param(p, q) && same_params(ps, qs),
        },
    }
}

fn same_kinds(a: &[ScalarKind], b: &[ScalarKind]) -> bool
    ensures { result ≡ specs.same_kinds a.now b.now }
{
    match a {
        [] => match b {
            [] => true,
            [_, ..] => false,
        },
        [k, ks @ ..] => match b {
            [] => false,
            [l, ls @ ..] => same_kind(*k, *l) && same_kinds(ks, ls),
        },
    }
}

fn same_prints(a: &[Printed], b: &[Printed]) -> bool
    ensures { result ≡ specs.same_prints a.now b.now }
{
    match a {
        [] => match b {
            [] => true,
            [_, ..] => false,
        },
        [p, ps @ ..] => match b {
            [] => false,
            [q, qs @ ..] => is_print_of(p.name.as_slice(), p.java, q) && same_prints(ps, qs),
        },
    }
}

fn same_name(a: Option<&[u8]>, b: Option<&[u8]>) -> bool
    ensures { result ≡ specs.same_name (option_copied a.entry) (option_copied b.entry) }
{
    match (a, b) {
        (None, None) => true,
        (Some(a), Some(b)) => a == b,
        _ => false,
    }
}

fn has_type(v: &Sighted, u: Option<&Sighted>) -> bool
    ensures { result ≡ specs.has_type v.now (option_copied u.entry) }
{
    match u {
        Some(u) => same_type(u.java, v.java),
        None => false,
    }
}

fn is_sighted_in(outside: &[Sighted], v: &Sighted) -> bool
    ensures { result ≡ specs.is_sighted_in outside.now v.now }
{
    has_type(v, find_sighted(outside, v.name.as_slice()))
}

fn are_sighted_in(outside: &[Sighted], others: &[Sighted]) -> bool
    ensures { result ≡ specs.are_sighted_in outside.now others.now }
{
    others.iter().all(|v| is_sighted_in(outside, v))
}

fn is_known(v: Option<&Sighted>) -> bool
    ensures { result ≡ is_some (option_copied v.entry) }
{
    match v {
        Some(_) => true,
        None => false,
    }
}

fn is_known_in(outside: &[Sighted], p: &Printed) -> bool
    ensures { result ≡ is_some (in_sight outside.now p.now.name) }
{
    is_known(find_sighted(outside, p.name.as_slice()))
}

fn is_outside_alike(slice: &Slice, again: &Slice, p: &Printed) -> bool
    ensures { result ≡ specs.is_outside_alike (plain slice.now) (plain again.now) p.now }
{
    same_sign(
        is_known_in(slice.outside.as_slice(), p),
        is_known_in(again.outside.as_slice(), p),
    )
}

fn are_outside_alike(slice: &Slice, again: &Slice, prints: &[Printed]) -> bool
    ensures { result ≡ specs.are_outside_alike (plain slice.now) (plain again.now) prints.now }
{
    prints.iter().all(|p| is_outside_alike(slice, again, p))
}

fn has_same_ends(slice: &Slice, again: &Slice) -> bool
    ensures { result ≡ specs.has_same_ends (plain slice.now) (plain again.now) }
{
    same_params(slice.params.as_slice(), again.params.as_slice())
        && (same_kinds(slice.kinds.as_slice(), again.kinds.as_slice())
            && (same_prints(slice.prints.as_slice(), again.prints.as_slice())
                && (slice.each.as_slice() == again.each.as_slice()
                    && (same_name(returned(&slice.ending), returned(&again.ending))
                        && (are_sighted_in(slice.outside.as_slice(), again.outside.as_slice())
                            && are_outside_alike(slice, again, slice.prints.as_slice()))))))
}

/// Whether a slice of another file, with the items `written`, is one again: it is handed the same, prints the same and returns the same, the
/// variables in sight before it were so before, what it prints is from outside in both or in none, and it is made of statements of the first one,
/// item for item, and of ones that ask. Time goes with the items of both.
pub fn is_again(items: &[Item], slice: &Slice, written: &[Item], again: &Slice) -> bool
    ensures { result ≡ specs.is_again items.now (plain slice.now) written.now (plain again.now) }
{
    has_same_ends(slice, again) && keeps_statements(items, slice, written, again)
}
