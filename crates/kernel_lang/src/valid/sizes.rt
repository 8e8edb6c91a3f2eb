// Numbers of parts and of conditions.
ghost use Rattle.std.specs.Prelude.{true, false, ◌≡◌, ◌+◌, ◌*◌, ◌≤◌, drop, length, map, min, take};
ghost use Rattle.std.specs.List.{list_all};
ghost use Rattle.kernel_lang.specs.Parts.{parts_of};
ghost use Rattle.kernel_lang.specs.Paths as paths;
ghost use Rattle.kernel_lang.specs.Plain.{accumulator, guard_of};
ghost use Rattle.kernel_lang.specs.Validity as spec;
ghost use Rattle.tor_terms.specs.Plain.{form_of};

use super::flags::first_guards;
use crate::parts::{Acc, Parts};
use tor_terms::Formula;

// Numbers are counted up to one more than may be.
const CAP: u64 = 4097;

fn pools_are_small(accs: &[Acc]) -> bool
    ensures { result ≡ list_all spec.pool_is_small (map accumulator accs.now) }
{
    match accs.split_first() {
        None => true,
        Some((a, rest)) => a.pool.len() <= 16 && pools_are_small(rest),
    }
}

/// Whether there are not too many loops, accumulators, atoms, entries and formulas in a pool.
#[tactic(auto, unfolding(crate::specs::Validity::is_small), using(crate::proofs::Mapped::mapped))]
pub fn is_small(p: &Parts) -> bool
    ensures { result ≡ spec.is_small (parts_of p.now) }
{
    p.lists.len() <= 256
        && p.accs.len() <= 8
        && p.atoms.len() <= 24
        && p.entries.len() <= 9
        && pools_are_small(p.accs.as_slice())
}

fn sum_up_to_cap(a: u64, b: u64) -> u64
    requires first { a ≤ CAP }
    requires second { b ≤ CAP }
    ensures { result ≡ min (a + b) CAP }
{
    (a + b).min(CAP)
}

fn product_up_to_cap(a: u64, b: u64) -> u64
    requires first { a ≤ CAP }
    requires second { b ≤ CAP }
    ensures { result ≡ min (a * b) CAP }
{
    (a * b).min(CAP)
}

/// How many paths decide a formula either way, up to the cap.
#[derive(Clone, Copy)]
struct PathCounts {
    holds: u64,
    fails: u64,
}

fn count_both(a: PathCounts, b: PathCounts) -> PathCounts
    requires a_holds { a.holds ≤ CAP }
    requires a_fails { a.fails ≤ CAP }
    requires b_holds { b.holds ≤ CAP }
    requires b_fails { b.fails ≤ CAP }
    ensures holds { result.holds ≡ min (a.holds * b.holds) CAP }
    ensures fails { result.fails ≡ min (a.fails + min (a.holds * b.fails) CAP) CAP }
{
    let fails = product_up_to_cap(a.holds, b.fails);
    PathCounts {
        holds: product_up_to_cap(a.holds, b.holds),
        fails: sum_up_to_cap(a.fails, fails),
    }
}

fn count_either(a: PathCounts, b: PathCounts) -> PathCounts
    requires a_holds { a.holds ≤ CAP }
    requires a_fails { a.fails ≤ CAP }
    requires b_holds { b.holds ≤ CAP }
    requires b_fails { b.fails ≤ CAP }
    ensures holds { result.holds ≡ min (a.holds + min (a.fails * b.holds) CAP) CAP }
    ensures fails { result.fails ≡ min (a.fails * b.fails) CAP }
{
    let holds = product_up_to_cap(a.fails, b.holds);
    PathCounts {
        holds: sum_up_to_cap(a.holds, holds),
        fails: product_up_to_cap(a.fails, b.fails),
    }
}

fn count_paths(f: &Formula) -> PathCounts
    ensures holds { result.holds ≡ min (paths.count_paths (form_of f.now) true) CAP }
    ensures fails { result.fails ≡ min (paths.count_paths (form_of f.now) false) CAP }
{
    match f {
        Formula::Is(_, _) => PathCounts { holds: 1, fails: 1 },
        Formula::Both(g, h) => {
            let first = count_paths(g);
            let second = count_paths(h);
            count_both(first, second)
        }
        Formula::Either(g, h) => {
            let first = count_paths(g);
            let second = count_paths(h);
            count_either(first, second)
        }
    }
}

fn count_guard(guard: &Option<Formula>) -> PathCounts
    ensures holds { result.holds ≡ min (paths.count_guard (guard_of guard.now) true) CAP }
    ensures fails { result.fails ≡ min (paths.count_guard (guard_of guard.now) false) CAP }
{
    match guard {
        None => PathCounts { holds: 1, fails: 0 },
        Some(f) => count_paths(f),
    }
}

fn count_levels(ways: u64, guards: &[Option<Formula>]) -> u64
    requires { ways ≤ CAP }
    ensures { result ≡ min (spec.count_levels ways (map guard_of guards.now)) CAP }
{
    match guards.split_first() {
        None => 0,
        Some((guard, rest)) => {
            let own = count_guard(guard);
            let decided = sum_up_to_cap(own.holds, own.fails);
            let level = sum_up_to_cap(2, decided);
            let here = product_up_to_cap(ways, level);
            let through = product_up_to_cap(ways, own.holds);
            let inner = count_levels(through, rest);
            sum_up_to_cap(here, inner)
        }
    }
}

fn count_ways(guards: &[Option<Formula>]) -> u64
    ensures { result ≡ min (spec.count_ways (map guard_of guards.now)) CAP }
{
    match guards.split_first() {
        None => 1,
        Some((guard, rest)) => {
            let own = count_guard(guard);
            let inner = count_ways(rest);
            product_up_to_cap(own.holds, inner)
        }
    }
}

// The guards from a level on.
fn last_guards(guards: &[Option<Formula>], n: usize) -> &[Option<Formula>]
    ensures { map guard_of result.now ≡ drop n (map guard_of guards.now) }
{
    &guards[n.min(guards.len())..]
}

fn count_own(a: &Acc) -> u64
    ensures { result ≡ min (spec.count_own (accumulator a.now)) CAP }
{
    let guards = a.guards.as_slice();
    let ways = count_ways(first_guards(guards, a.base as usize));
    count_levels(ways, last_guards(guards, a.base as usize))
}

/// How many conditions accumulators and flags have, counted up to one more than the 4096 that a
/// fragment may have. It takes no memory.
pub fn count_conditions(accs: &[Acc]) -> u64
    ensures { result ≡ min (spec.count_conditions (map accumulator accs.now)) 4097 }
{
    match accs.split_first() {
        None => 0,
        Some((a, rest)) => {
            let own = count_own(a);
            let others = count_conditions(rest);
            sum_up_to_cap(own, others)
        }
    }
}

/// Whether there are not too many conditions.
#[tactic(auto, unfolding(crate::specs::Validity::conditions_are_few))]
pub fn conditions_are_few(p: &Parts) -> bool
    ensures { result ≡ spec.conditions_are_few (parts_of p.now) }
{
    count_conditions(p.accs.as_slice()) <= 4096
}
