// Limits, and which updates stand beside sorts and in how many loops.
ghost use Rattle.std.specs.Prelude.{◌≡◌, map, slice_get, is_none};
ghost use Rattle.std.specs.List.{list_all, list_any};
ghost use Rattle.tor_terms.specs.Plain.{forms_of};
ghost use Rattle.kernel_lang.specs.Parts.{parts_of};
ghost use Rattle.kernel_lang.specs.Plain.{accumulator, guard_of};
ghost use Rattle.kernel_lang.specs.Validity as spec;

use crate::parts::{Acc, ListDef, Parts, Update};
use kernel_limits::limit_stands;
use tor_terms::Formula;

fn limit_is_valid(loops: usize, limit: Option<u64>) -> bool
    ensures { result ≡ spec.limit_is_valid loops limit }
{
    match limit {
        None => true,
        Some(n) => limit_stands(n, loops),
    }
}

/// Whether limits have 63 bits and stand in a fragment of one loop.
#[tactic(auto, unfolding(crate::specs::Validity::limits_are_valid))]
pub fn limits_are_valid(p: &Parts) -> bool
    ensures { result ≡ spec.limits_are_valid (parts_of p.now) }
{
    let count = p.lists.len();
    p.lists
        .as_slice()
        .iter()
        .all(|d| limit_is_valid(count, d.limit))
}

fn is_unsorted(list: &ListDef) -> bool
    ensures { result ≡ spec.is_empty list.now.keys }
{
    match list.keys.as_slice().split_first() {
        None => true,
        Some(_) => false,
    }
}

fn is_sorted_and_cut(list: &ListDef) -> bool
    ensures { result ≡ spec.is_sorted_and_cut list.now }
{
    !list.limit.is_none() && !is_unsorted(list)
}

fn has_sorted_and_cut(lists: &[ListDef]) -> bool
    ensures { result ≡ list_any spec.is_sorted_and_cut lists.now }
{
    lists.iter().any(|d| is_sorted_and_cut(d))
}

fn has_no_guard(guards: &[Option<Formula>]) -> bool
    ensures { result ≡ list_all is_none (map guard_of guards.now) }
{
    match guards.split_first() {
        None => true,
        Some((None, rest)) => has_no_guard(rest),
        Some((Some(_), _)) => false,
    }
}

fn is_push(update: Update) -> bool
    ensures { result ≡ spec.is_push update }
{
    match update {
        Update::Push(_) => true,
        _ => false,
    }
}

fn has_empty_pool(pool: &[Formula]) -> bool
    ensures { result ≡ spec.is_empty (forms_of pool.now) }
{
    match pool.split_first() {
        None => true,
        Some(_) => false,
    }
}

fn only_appends(a: &Acc) -> bool
    ensures { result ≡ spec.only_appends (accumulator a.now) }
{
    is_push(a.update) && has_no_guard(a.guards.as_slice()) && has_empty_pool(a.pool.as_slice())
}

fn list_is_unsorted(lists: &[ListDef], j: u32) -> bool
    ensures { result ≡ spec.is_unsorted (slice_get lists.now j) }
{
    match lists.get(j as usize) {
        None => true,
        Some(list) => is_unsorted(list),
    }
}

fn one_unsorted_loop(p: &Parts, chain: &[u32]) -> bool
    ensures { result ≡ spec.one_unsorted_loop (parts_of p.now) chain.now }
{
    match chain.split_first() {
        None => false,
        Some((j, rest)) => rest.is_empty() && list_is_unsorted(p.lists.as_slice(), *j),
    }
}

fn loops_are_few(p: &Parts, chain: &[u32], update: Update) -> bool
    ensures { result ≡ spec.loops_are_few (parts_of p.now) chain.now update }
{
    match update {
        Update::PushNew(_) => one_unsorted_loop(p, chain),
        Update::Tick => chain.len() == 1,
        Update::Plus(_) => chain.len() == 1,
        _ => true,
    }
}

/// Whether an accumulator has as few loops as its update asks for, and only appends where a list is
/// sorted and cut.
#[tactic(auto, unfolding(crate::specs::Validity::suits_the_lists))]
pub fn suits_the_lists(p: &Parts, a: &Acc) -> bool
    ensures { result ≡ spec.suits_the_lists (parts_of p.now) (accumulator a.now) }
{
    loops_are_few(p, a.chain.as_slice(), a.update)
        && (!has_sorted_and_cut(p.lists.as_slice()) || only_appends(a))
}
