// FROM and WHERE of accumulators and flags.
ghost use Rattle.std.specs.Prelude.{◌≡◌, ◌+◌, ◌<◌, ◌≤◌, ◌^◌, [], length, map, nat_eq, drop, IfOk, OnOk, Some, None, Option, option_map, slice_get};
ghost use Rattle.std.specs.List.{list_any};
ghost use Rattle.tor_terms.specs.Plain.{form_of, forms_of};
ghost use Rattle.kernel_lang.specs.Plain.{accumulator};
ghost use Rattle.kernel_lang.specs.Pools.{chosen, members_from};
ghost use Rattle.sql_ast.specs.Reading.{condition, inner_filter};
ghost use Rattle.sql_parts.specs.Emitted as spec;
ghost use Rattle.sql_parts.specs.Reading.{ground_of, scope_of, IsSmall, AreShort, all_also, number_first};

use crate::literal::{quiet_atom, quiet_formula};
use kernel_lang::{Acc, Update};
use qbs_base::NoMemory;
use sql_ast::{Cond, SqlOpnd};
use sql_build::conditions::{both, either, exists};
use sql_build::filters::{also, also_compared};
use sql_build::scope::{Scope, inside};
use sql_parts::comparisons::{fixed, signed, way_test};
use sql_parts::ground::{Ground, elem_col, from_items};
use sql_parts::limiting::limits;
use sql_parts::within::sum;
use std::alloc::Global;
use tor_terms::{Atom, Formula};

fn has_number(cand: &[u32], n: u32) -> bool
    ensures { result ≡ list_any (nat_eq n) cand.now }
{
    cand.iter().any(|m| n == *m)
}

/// What is better than the start.
fn better(
    alloc: Global,
    g: Ground,
    s: Scope,
    acc: &Acc,
    filter: Option<Box<Cond>>,
) -> Result<Option<Box<Cond>>, NoMemory>
    requires { IsSmall s }
    ensures { IfOk result (λ f. inner_filter f ≡ all_also (inner_filter filter) (spec.best_tests (ground_of g.entry) (scope_of s.entry) acc.now.update acc.now.start)) }
{
    let (way, e) = match &acc.update {
        Update::Best(way, e) => (*way, e),
        _ => return Ok(filter),
    };
    let start = match &acc.start {
        Some(start) => start,
        None => return Ok(filter),
    };
    let col = SqlOpnd::Column(elem_col(alloc, g, s, e)?);
    let start = SqlOpnd::Lit(start.clone()?);
    also_compared(alloc, filter, way_test(way), col, start)
}

/// The chosen ones of formulas that read no flag; the first has the number `first`.
fn quiet_formulas(
    alloc: Global,
    g: Ground,
    s: Scope,
    first: u32,
    pool: &[Formula],
    filter: Option<Box<Cond>>,
) -> Result<Option<Box<Cond>>, NoMemory>
    requires small { IsSmall s }
    requires room { first + length pool.now < 2 ^ 32 }
    ensures { IfOk result (λ f.
        inner_filter f
        ≡ all_also (inner_filter filter) (
        map (spec.formula spec.no_flag (ground_of g.entry) (scope_of s.entry)) (chosen g.entry.cand.now first (forms_of pool.now)))) }
{
    match pool.split_first() {
        None => Ok(filter),
        Some((f, rest)) => {
            if has_number(g.cand, first) {
                let c = quiet_formula(alloc, g, s, f)?;
                let filter = also(alloc, filter, c)?;
                quiet_formulas(alloc, g, s, first + 1, rest, filter)
            } else {
                quiet_formulas(alloc, g, s, first + 1, rest, filter)
            }
        }
    }
}

/// The WHERE of a flag, whose own loops have the FROM items after `n`.
#[tactic(auto, using(sql_parts::proofs::Also::also))]
fn quiet_filter(
    alloc: Global,
    g: Ground,
    s: Scope,
    n: u32,
    acc: &Acc,
    first: u32,
) -> Result<Option<Box<Cond>>, NoMemory>
    requires small { IsSmall s }
    requires place { n ≤ 6 }
    requires room { first + length acc.now.pool < 2 ^ 32 }
    ensures { IfOk result (λ f.
        inner_filter f
        ≡ spec.joined (
        spec.conditions spec.no_flag (ground_of g.entry) (scope_of s.entry) n s.entry.own.now (
          accumulator acc.now,
          chosen g.entry.cand.now first (forms_of acc.now.pool),
        ))) }
{
    let filter = limits(alloc, g, n, s.own, None)?;
    let filter = quiet_formulas(alloc, g, s, first, acc.pool.as_slice(), filter)?;
    better(alloc, g, s, acc, filter)
}

/// The number of the first formula of an accumulator, where the first of all has the number `first`.
/// A number past 32 bits wants more memory than there is.
pub fn first_number(first: u32, accs: &[Acc], k: usize) -> Result<u32, NoMemory>
    ensures { IfOk result (λ n. n ≡ number_first first (map accumulator accs.now) k) }
{
    match accs.split_first() {
        None => Ok(first),
        Some((acc, rest)) => {
            if k == 0 {
                return Ok(first);
            }
            let count = match u32::try_from(acc.pool.len()) {
                Ok(count) => count,
                Err(_) => return Err(NoMemory),
            };
            first_number(sum(first, count)?, rest, k - 1)
        }
    }
}

/// Whether so many formulas can be counted on from a number. More want more memory than there is.
fn with_room(first: u32, count: usize) -> Result<(), NoMemory>
    ensures { OnOk result (first + count < 2 ^ 32) }
{
    match u32::try_from(count) {
        Ok(count) => match first.checked_add(count) {
            Some(_) => Ok(()),
            None => Err(NoMemory),
        },
        Err(_) => Err(NoMemory),
    }
}

/// The own loops of a flag.
fn flag_loops(acc: &Acc) -> &[u32]
    ensures { result.now ≡ drop acc.now.base acc.now.chain }
{
    let chain = acc.chain.as_slice();
    &chain[(acc.base as usize).min(chain.len())..]
}

/// Some combination of the rows of a flag's own loops.
#[tactic(auto, using(sql_parts::proofs::Also::also))]
fn flag_exists(
    alloc: Global,
    g: Ground,
    s: Scope,
    acc: &Acc,
    first: u32,
) -> Result<Box<Cond>, NoMemory>
    requires outermost { s.outer.now ≡ [] }
    requires some { 0 < length s.own.now }
    requires few { length s.own.now ≤ 3 }
    requires short { length acc.now.chain ≤ 3 }
    ensures { IfOk result (λ c.
        condition c.value
        ≡ spec.flag_exists (ground_of g.entry) (scope_of s.entry) (
        Some (accumulator acc.now, chosen g.entry.cand.now first (forms_of acc.now.pool)))) }
{
    let own = flag_loops(acc);
    with_room(first, acc.pool.len())?;
    let inner = inside(own, s);
    let filter = quiet_filter(alloc, g, inner, s.own.len() as u32, acc, first)?;
    let from = from_items(alloc, g, own)?;
    exists(alloc, from, filter)
}

/// A flag's truth, by its number.
#[tactic(auto, using(crate::proofs::Flagged::member_is))]
fn flag(alloc: Global, g: Ground, s: Scope, k: u32) -> Result<Box<Cond>, NoMemory>
    requires outermost { s.outer.now ≡ [] }
    requires some { 0 < length s.own.now }
    requires few { length s.own.now ≤ 3 }
    requires short { AreShort g }
    ensures { IfOk result (λ c. condition c.value ≡ spec.flag_condition (ground_of g.entry) (scope_of s.entry) k) }
{
    match g.accs.get(k as usize) {
        None => fixed(alloc, false),
        Some(acc) => {
            let first = first_number(0, g.accs, k as usize)?;
            flag_exists(alloc, g, s, acc, first)
        }
    }
}

/// An atom, by its number.
fn literal(alloc: Global, g: Ground, s: Scope, k: u32, holds: bool) -> Result<Box<Cond>, NoMemory>
    requires outermost { s.outer.now ≡ [] }
    requires some { 0 < length s.own.now }
    requires few { length s.own.now ≤ 3 }
    requires short { AreShort g }
    ensures { IfOk result (λ c.
        condition c.value
        ≡ spec.literal (spec.flag_condition (ground_of g.entry)) (ground_of g.entry) (scope_of s.entry) (slice_get g.entry.atoms.now k) holds) }
{
    match g.atoms.get(k as usize) {
        None => fixed(alloc, !holds),
        Some(Atom::Flag(number, _)) => {
            let c = flag(alloc, g, s, *number)?;
            signed(alloc, holds, c)
        }
        Some(atom) => quiet_atom(alloc, g, s, atom, holds),
    }
}

fn formula(alloc: Global, g: Ground, s: Scope, f: &Formula) -> Result<Box<Cond>, NoMemory>
    requires outermost { s.outer.now ≡ [] }
    requires some { 0 < length s.own.now }
    requires few { length s.own.now ≤ 3 }
    requires short { AreShort g }
    ensures { IfOk result (λ c. condition c.value ≡ spec.formula (spec.flag_condition (ground_of g.entry)) (ground_of g.entry) (scope_of s.entry) (form_of f.now)) }
{
    match f {
        Formula::Is(k, holds) => literal(alloc, g, s, *k, *holds),
        Formula::Both(a, b) => {
            let a = formula(alloc, g, s, a)?;
            let b = formula(alloc, g, s, b)?;
            both(alloc, a, b)
        }
        Formula::Either(a, b) => {
            let a = formula(alloc, g, s, a)?;
            let b = formula(alloc, g, s, b)?;
            either(alloc, a, b)
        }
    }
}

/// The chosen ones of formulas; the first has the number `first`.
fn formulas(
    alloc: Global,
    g: Ground,
    s: Scope,
    first: u32,
    pool: &[Formula],
    filter: Option<Box<Cond>>,
) -> Result<Option<Box<Cond>>, NoMemory>
    requires outermost { s.outer.now ≡ [] }
    requires some { 0 < length s.own.now }
    requires few { length s.own.now ≤ 3 }
    requires short { AreShort g }
    requires room { first + length pool.now < 2 ^ 32 }
    ensures { IfOk result (λ f.
        inner_filter f
        ≡ all_also (inner_filter filter) (
        map (spec.formula (spec.flag_condition (ground_of g.entry)) (ground_of g.entry) (scope_of s.entry)) (chosen g.entry.cand.now first (forms_of pool.now)))) }
{
    match pool.split_first() {
        None => Ok(filter),
        Some((f, rest)) => {
            if has_number(g.cand, first) {
                let c = formula(alloc, g, s, f)?;
                let filter = also(alloc, filter, c)?;
                formulas(alloc, g, s, first + 1, rest, filter)
            } else {
                formulas(alloc, g, s, first + 1, rest, filter)
            }
        }
    }
}

/// The WHERE of an accumulator that stands outside all loops, whose first formula has the number
/// `first`.
#[tactic(auto, using(sql_parts::proofs::Also::also))]
pub fn accumulator_filter(
    alloc: Global,
    g: Ground,
    acc: &Acc,
    first: u32,
) -> Result<Option<Box<Cond>>, NoMemory>
    requires some { 0 < length acc.now.chain }
    requires few { length acc.now.chain ≤ 3 }
    requires short { AreShort g }
    ensures { IfOk result (λ f. inner_filter f ≡ spec.where_of (ground_of g.entry) (accumulator acc.now, chosen g.entry.cand.now first (forms_of acc.now.pool))) }
{
    with_room(first, acc.pool.len())?;
    let s = Scope {
        own: acc.chain.as_slice(),
        outer: &[],
    };
    let limited = limits(alloc, g, 0, s.own, None)?;
    let selected = formulas(alloc, g, s, first, acc.pool.as_slice(), limited)?;
    better(alloc, g, s, acc, selected)
}
