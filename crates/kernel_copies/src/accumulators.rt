// Accumulators: whether two are one, and copies.
ghost use Rattle.std.specs.Prelude.{◌≡◌, IfOk, map};
ghost use Rattle.tor_terms.specs.Plain.{forms_of};
ghost use Rattle.tor_terms.specs.Same.{same_elem as same_element_of, same_forms as same_forms_of, same_way as same_way_of};
ghost use Rattle.kernel_lang.specs.Plain.{accumulator, guard_of};
ghost use Rattle.kernel_copies.specs.Same as spec;

use kernel_lang::{Acc, Accs, Guards, Update};
use qbs_base::{Items, NoMemory, Scalar};
use std::alloc::Global;
use tor_terms::{
    Elem, Formula, Loops, Way, copy_formula, copy_formulas, same_cell, same_flag, same_formula,
    same_numbers,
};

fn same_element(a: Elem, b: Elem) -> bool
    ensures { result ≡ same_element_of a b }
{
    match (a, b) {
        (Elem::Whole(i), Elem::Whole(j)) => i == j,
        (Elem::Field(i, c), Elem::Field(j, d)) => i == j && c == d,
        _ => false,
    }
}

fn same_way(a: Way, b: Way) -> bool
    ensures { result ≡ same_way_of a b }
{
    match (a, b) {
        (Way::Max, Way::Max) => true,
        (Way::Min, Way::Min) => true,
        _ => false,
    }
}

fn same_update(a: Update, b: Update) -> bool
    ensures { result ≡ spec.same_update a b }
{
    match (a, b) {
        (Update::Push(d), Update::Push(e)) => same_element(d, e),
        (Update::PushNew(d), Update::PushNew(e)) => same_element(d, e),
        (Update::Tick, Update::Tick) => true,
        (Update::Plus(d), Update::Plus(e)) => same_element(d, e),
        (Update::Best(v, d), Update::Best(w, e)) => same_way(v, w) && same_element(d, e),
        (Update::Mark, Update::Mark) => true,
        _ => false,
    }
}

fn same_start(a: &Option<Scalar>, b: &Option<Scalar>) -> bool
    ensures { result ≡ spec.same_start a.now b.now }
{
    match (a, b) {
        (None, None) => true,
        (Some(x), Some(y)) => same_cell(x, y),
        _ => false,
    }
}

fn same_guard(a: &Option<Formula>, b: &Option<Formula>) -> bool
    ensures { result ≡ spec.same_guard (guard_of a.now) (guard_of b.now) }
{
    match (a, b) {
        (None, None) => true,
        (Some(f), Some(g)) => same_formula(f, g),
        _ => false,
    }
}

fn same_guards(a: &[Option<Formula>], b: &[Option<Formula>]) -> bool
    ensures { result ≡ spec.same_all spec.same_guard (map guard_of a.now) (map guard_of b.now) }
{
    match (a.split_first(), b.split_first()) {
        (None, None) => true,
        (Some((x, rest)), Some((y, others))) => same_guard(x, y) && same_guards(rest, others),
        _ => false,
    }
}

fn same_pool(a: &[Formula], b: &[Formula]) -> bool
    ensures { result ≡ same_forms_of (forms_of a.now) (forms_of b.now) }
{
    match (a.split_first(), b.split_first()) {
        (None, None) => true,
        (Some((f, rest)), Some((g, others))) => same_formula(f, g) && same_pool(rest, others),
        _ => false,
    }
}

// All but the formulas of an accumulator.
fn same_frame(a: &Acc, b: &Acc) -> bool
    ensures { result ≡ spec.same_frame (accumulator a.now) (accumulator b.now) }
{
    a.base == b.base
        && same_flag(a.opposite, b.opposite)
        && same_update(a.update, b.update)
        && same_start(&a.start, &b.start)
        && same_numbers(a.chain.as_slice(), b.chain.as_slice())
}

fn same_accumulator(a: &Acc, b: &Acc) -> bool
    ensures { result ≡ spec.same_accumulator (accumulator a.now) (accumulator b.now) }
{
    same_frame(a, b)
        && same_guards(a.guards.as_slice(), b.guards.as_slice())
        && same_pool(a.pool.as_slice(), b.pool.as_slice())
}

/// Whether the accumulators are one.
pub fn same_accumulators(a: &[Acc], b: &[Acc]) -> bool
    ensures { result ≡ spec.same_all spec.same_accumulator (map accumulator a.now) (map accumulator b.now) }
{
    match (a.split_first(), b.split_first()) {
        (None, None) => true,
        (Some((x, rest)), Some((y, others))) => {
            same_accumulator(x, y) && same_accumulators(rest, others)
        }
        _ => false,
    }
}

fn copy_loops(alloc: Global, loops: &[u32]) -> Result<Loops, NoMemory>
    ensures { IfOk result (λ copies. copies ≡ loops.now) }
{
    Ok(Items::from_vec(loops.to_vec(alloc)?))
}

fn copy_start(start: &Option<Scalar>) -> Result<Option<Scalar>, NoMemory>
    ensures { IfOk result (λ copy. copy ≡ start.now) }
{
    match start {
        None => Ok(None),
        Some(x) => Ok(Some(x.clone()?)),
    }
}

fn copy_guard(alloc: Global, guard: &Option<Formula>) -> Result<Option<Formula>, NoMemory>
    ensures { IfOk result (λ copy. guard_of copy ≡ guard_of guard.now) }
{
    match guard {
        None => Ok(None),
        Some(f) => Ok(Some(copy_formula(alloc, f)?)),
    }
}

fn copy_guards(alloc: Global, guards: &[Option<Formula>]) -> Result<Guards, NoMemory>
    ensures { IfOk result (λ copies. map guard_of copies ≡ map guard_of guards.now) }
{
    let mut copies = Items::new(alloc);
    for guard in guards {
        copies.push(copy_guard(alloc, guard)?)?;
    }
    Ok(copies)
}

fn copy_accumulator(alloc: Global, acc: &Acc) -> Result<Acc, NoMemory>
    ensures { IfOk result (λ copy. accumulator copy ≡ accumulator acc.now) }
{
    Ok(Acc {
        chain: copy_loops(alloc, acc.chain.as_slice())?,
        base: acc.base,
        guards: copy_guards(alloc, acc.guards.as_slice())?,
        update: acc.update,
        start: copy_start(&acc.start)?,
        opposite: acc.opposite,
        pool: copy_formulas(alloc, acc.pool.as_slice())?,
    })
}

/// A copy of accumulators.
pub fn copy_accumulators(alloc: Global, accs: &[Acc]) -> Result<Accs, NoMemory>
    ensures { IfOk result (λ copies. map accumulator copies ≡ map accumulator accs.now) }
{
    let mut copies = Items::new(alloc);
    for acc in accs {
        copies.push(copy_accumulator(alloc, acc)?)?;
    }
    Ok(copies)
}
