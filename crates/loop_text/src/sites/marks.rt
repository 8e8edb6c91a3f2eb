//! What is found of the sites of a loop, listed by names and numbers.
ghost use Rattle.std.specs.Prelude.{◌≡◌, ◌||◌, ◌&&◌, ℕ, List, IfOk, OnOk, option_copied, map, nat_eq};
ghost use Rattle.std.specs.List.{list_any};
ghost use Rattle.loop_text.specs.Sites.Bound.{AreBound, AreRising};
ghost use Rattle.loop_text.specs.Sites.Groups.{under_name, under_number};
ghost use Rattle.loop_text.specs.Sites.Indexed as specs;
ghost use Rattle.loop_text.specs.Kernel.KernelConditions.{updates_flag_under};
ghost use Rattle.loop_text.specs.Kernel.KernelStarts.{updates_name};
ghost use Rattle.loop_text.specs.Kernel.KernelStatements.{target_binding, target_bound, updates_local};
ghost use Rattle.loop_text.specs.Sites.Reading.{site_of, test_of};
ghost use Rattle.loop_text.specs.Sites.Sites as sites;

use crate::sites::binders::{last_below, push_bound};
use crate::sites::bindings::Binding;
use crate::sites::groups::{ByName, ByNumber, NumberSet};
use crate::sites::list::{Site, Test};
use crate::updates::shapes::innermost;
use crate::updates::targets::{is_break, is_update, target_of};
use qbs_base::{Name, NoMemory};
use std::alloc::Global;

/// What the sites bind names to.
pub fn binders_of<'a>(alloc: Global, all: &[Site<'a>]) -> Result<ByName<'a, Binding>, NoMemory>
    ensures { IfOk result (λ found. AreBound found (map site_of all.now)) }
{
    let mut found = ByName::new(alloc);
    for (n, s) in all.iter().enumerate() {
        push_bound(alloc, n, s.statement, &mut found)?;
    }
    Ok(found)
}

fn push_name<'a>(
    alloc: Global,
    name: Option<&'a Name>,
    n: usize,
    found: &mut ByName<'a, usize>,
) -> Result<(), NoMemory>
    ensures { OnOk result (specs.AddsName found.old (option_copied name.entry) n found.new) }
{
    match name {
        None => Ok(()),
        Some(name) => found.push(alloc, name, n),
    }
}

/// The updates of each name.
pub fn updates_of<'a>(alloc: Global, all: &[Site<'a>]) -> Result<ByName<'a, usize>, NoMemory>
    ensures { IfOk result (λ found. (x : List ℕ) → under_name found x ≡ specs.passing (updates_name x) 0 (map site_of all.now)) }
{
    let mut found = ByName::new(alloc);
    for (n, s) in all.iter().enumerate() {
        push_name(alloc, target_of(s.statement), n, &mut found)?;
    }
    Ok(found)
}

fn push_number(
    alloc: Global,
    key: Option<usize>,
    n: usize,
    found: &mut ByNumber,
) -> Result<(), NoMemory>
    ensures { OnOk result (specs.AddsNumber found.old key n found.new) }
{
    match key {
        None => Ok(()),
        Some(key) => found.push(alloc, key, n),
    }
}

fn bound_before(binders: &ByName<Binding>, n: usize, x: Option<&Name>) -> Binding
    requires { AreRising binders.now }
    ensures { (all : List sites.Site) → AreBound binders.now all → result ≡ target_bound all n (option_copied x.entry) }
{
    match x {
        None => Binding::Outer,
        Some(x) => last_below(n, Binding::Outer, binders.of(x)),
    }
}

fn local_of(b: Binding) -> Option<usize>
    ensures { result ≡ specs.local_of b }
{
    match b {
        Binding::Local(d) => Some(d),
        _ => None,
    }
}

// The number of the declaration of the flag that a site updates.
fn flag_at(binders: &ByName<Binding>, n: usize, s: &Site) -> Option<usize>
    requires { AreRising binders.now }
    ensures { (all : List sites.Site) → AreBound binders.now all → result ≡ specs.local_of (target_binding all n (site_of s.now)) }
{
    local_of(bound_before(binders, n, target_of(s.statement)))
}

/// The updates of each flag, by the number of its declaration.
pub fn flags_of(
    alloc: Global,
    all: &[Site],
    binders: &ByName<Binding>,
) -> Result<ByNumber, NoMemory>
    requires { AreBound binders.now (map site_of all.now) }
    ensures { IfOk result (λ found. (d : ℕ) → under_number found d ≡ specs.passing (updates_local (map site_of all.now) d) 0 (map site_of all.now)) }
{
    let mut found = ByNumber::new(alloc);
    for (n, s) in all.iter().enumerate() {
        push_number(alloc, flag_at(binders, n, s), n, &mut found)?;
    }
    Ok(found)
}

fn ended_by(s: &Site) -> Option<usize>
    ensures { result ≡ specs.ended_by (site_of s.now) }
{
    if is_break(s.statement) {
        innermost(s.round.loops.as_slice())
    } else {
        None
    }
}

/// The `break`s of each loop.
pub fn breaks_of(alloc: Global, all: &[Site]) -> Result<ByNumber, NoMemory>
    ensures { IfOk result (λ found. (l : ℕ) → under_number found l ≡ specs.passing (specs.ends l) 0 (map site_of all.now)) }
{
    let mut found = ByNumber::new(alloc);
    for (n, s) in all.iter().enumerate() {
        push_number(alloc, ended_by(s), n, &mut found)?;
    }
    Ok(found)
}

// Whether a number is the last of some.
#[tactic(auto, using(crate::proofs::Indexed::IndexedUnder::last_behind))]
fn is_last(n: usize, numbers: &[usize]) -> bool
    ensures { result ≡ specs.is_last n numbers.now }
{
    match numbers.split_last() {
        None => false,
        Some((m, _)) => *m == n,
    }
}

// Puts a number under a key, where it isn't the last there.
fn push_last(alloc: Global, key: usize, n: usize, found: &mut ByNumber) -> Result<(), NoMemory>
    ensures { OnOk result ((i : ℕ) → under_number found.new i ≡ specs.last_where (nat_eq i key) n (under_number found.old i)) }
{
    if is_last(n, found.of(key)) {
        return Ok(());
    }
    found.push(alloc, key, n)
}

fn push_tests(alloc: Global, tests: &[Test], n: usize, found: &mut ByNumber) -> Result<(), NoMemory>
    ensures { OnOk result (
        (i : ℕ)
        → under_number found.new i
        ≡ specs.last_where (list_any (λ (t : sites.Test). nat_eq i t.number) (map test_of tests.now)) n (under_number found.old i)) }
{
    for t in tests {
        push_last(alloc, t.number, n, found)?;
    }
    Ok(())
}

fn push_under(alloc: Global, n: usize, s: &Site, found: &mut ByNumber) -> Result<(), NoMemory>
    ensures { OnOk result ((i : ℕ) → under_number found.new i ≡ specs.last_where (specs.updates_under i n (site_of s.now)) n (under_number found.old i)) }
{
    if is_update(s.statement) {
        push_tests(alloc, s.round.tests.as_slice(), n, found)
    } else {
        Ok(())
    }
}

/// The updates under each `if`.
pub fn unders_of(alloc: Global, all: &[Site]) -> Result<ByNumber, NoMemory>
    ensures { IfOk result (λ found. (i : ℕ) → under_number found i ≡ specs.passing (specs.updates_under i) 0 (map site_of all.now)) }
{
    let mut found = ByNumber::new(alloc);
    for (n, s) in all.iter().enumerate() {
        push_under(alloc, n, s, &mut found)?;
    }
    Ok(found)
}

fn put_tests(tests: &[Test], found: &mut NumberSet) -> Result<(), NoMemory>
    ensures { OnOk result (
        (i : ℕ)
        → sites.has_number found.new i
        ≡ (sites.has_number found.old i || list_any (λ (t : sites.Test). nat_eq i t.number) (map test_of tests.now))) }
{
    for t in tests {
        found.put(t.number)?;
    }
    Ok(())
}

fn put_guards(flag: Option<usize>, s: &Site, found: &mut NumberSet) -> Result<(), NoMemory>
    ensures { OnOk result ((i : ℕ) → sites.has_number found.new i ≡ (sites.has_number found.old i || (sites.is_some flag && sites.is_under i (site_of s.now)))) }
{
    match flag {
        None => Ok(()),
        Some(_) => put_tests(s.round.tests.as_slice(), found),
    }
}

/// The `if`s round the update of some flag.
pub fn guards_of(
    alloc: Global,
    all: &[Site],
    binders: &ByName<Binding>,
) -> Result<NumberSet, NoMemory>
    requires { AreBound binders.now (map site_of all.now) }
    ensures { IfOk result (λ found. (i : ℕ) → sites.has_number found i ≡ sites.any_site (updates_flag_under (map site_of all.now) i) 0 (map site_of all.now)) }
{
    let mut found = NumberSet::new(alloc);
    for (n, s) in all.iter().enumerate() {
        put_guards(flag_at(binders, n, s), s, &mut found)?;
    }
    Ok(found)
}
