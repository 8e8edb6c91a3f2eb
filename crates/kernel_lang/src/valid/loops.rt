// Chains, and what is read of their loops.
ghost use Rattle.std.specs.Prelude.{◌≡◌, ◌+◌, ◌<◌, ◌≤◌, IsTrue, ◌^◌, length, map, slice_get, take};
ghost use Rattle.std.specs.List.{list_all};
ghost use Rattle.kernel_lang.specs.Parts.{parts_of};
ghost use Rattle.kernel_lang.specs.Plain.{accumulator, guard_of};
ghost use Rattle.kernel_lang.specs.Validity as spec;
ghost use Rattle.tor_terms.specs.Plain.{form_of, forms_of};
ghost use Rattle.tor_terms.specs.Truth as truth;

use super::names::element_of;
use crate::parts::{Acc, Parts};
use tor_terms::{Atom, Elem, Formula, formula_within, has_loop, within_first};

fn rises_after(first: u32, rest: &[u32]) -> bool
    ensures { result ≡ spec.rises_after first rest.now }
{
    match rest.split_first() {
        None => true,
        Some((next, others)) => first < *next && rises_after(*next, others),
    }
}

fn rises(loops: &[u32]) -> bool
    ensures { result ≡ spec.rises loops.now }
{
    match loops.split_first() {
        None => true,
        Some((first, rest)) => rises_after(*first, rest),
    }
}

/// Whether a chain is short and rises, its base is below its length, and each loop has a guard.
#[tactic(auto, unfolding(crate::specs::Validity::chain_is_valid))]
pub fn chain_is_valid(a: &Acc) -> bool
    ensures valid { result ≡ spec.chain_is_valid (accumulator a.now) }
    ensures short { IsTrue result → length a.now.guards ≤ 3 }
{
    let count = a.chain.len();
    count <= 3 && rises(a.chain.as_slice()) && (a.base as usize) < count && a.guards.len() == count
}

fn guard_within(atoms: &[Atom], chain: &[u32], level: usize, guard: &Option<Formula>) -> bool
    ensures { result ≡ spec.guard_all (truth.form_within atoms.now (take level chain.now)) (guard_of guard.now) }
{
    match guard {
        None => true,
        Some(f) => within_first(atoms, chain, level, f),
    }
}

fn guards_within(atoms: &[Atom], chain: &[u32], level: usize, guards: &[Option<Formula>]) -> bool
    requires { level + length guards.now < 2 ^ 64 }
    ensures { result ≡ spec.guards_within atoms.now chain.now level (map guard_of guards.now) }
{
    match guards.split_first() {
        None => true,
        Some((g, rest)) => {
            guard_within(atoms, chain, level, g) && guards_within(atoms, chain, level + 1, rest)
        }
    }
}

fn pool_within(atoms: &[Atom], chain: &[u32], pool: &[Formula]) -> bool
    ensures { result ≡ list_all (truth.form_within atoms.now chain.now) (forms_of pool.now) }
{
    match pool.split_first() {
        None => true,
        Some((f, rest)) => { formula_within(atoms, chain, f) && pool_within(atoms, chain, rest) }
    }
}

fn element_within(chain: &[u32], element: Option<Elem>) -> bool
    ensures { result ≡ spec.element_within chain.now element }
{
    match element {
        None => true,
        Some(Elem::Whole(j)) => has_loop(chain, j),
        Some(Elem::Field(j, _)) => has_loop(chain, j),
    }
}

/// Whether the guards read loops of the chain up to their level, and pool and element loops of the
/// chain.
#[tactic(auto, unfolding(crate::specs::Validity::reads_its_chain))]
pub fn reads_its_chain(p: &Parts, a: &Acc) -> bool
    requires { length a.now.guards < 2 ^ 63 }
    ensures { result ≡ spec.reads_its_chain p.now.atoms (accumulator a.now) }
{
    let atoms = p.atoms.as_slice();
    let chain = a.chain.as_slice();
    guards_within(atoms, chain, 1, a.guards.as_slice())
        && pool_within(atoms, chain, a.pool.as_slice())
        && element_within(chain, element_of(a.update))
}
