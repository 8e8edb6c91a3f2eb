// Pools, as far as they are small.
ghost use Rattle.std.specs.Prelude.{◌≡◌, IfOk, OnOk, [], ◌∷◌, length, map, nat_le};
ghost use Rattle.std.specs.List.{filter, list_all, list_any};
ghost use Rattle.kernel_lang.specs.Plain.{accumulator};
ghost use Rattle.kernel_lang.specs.Pools as specs;
ghost use Rattle.tor_terms.specs.Plain.{form_of, forms_of};
ghost use Rattle.tor_terms.specs.Same.{entered, same_form};
ghost use Rattle.lowering.specs.InCode.Capped.{IsCapped, all_in, has_few};

use kernel_lang::{Acc, pool_of};
use qbs_base::NoMemory;
use std::alloc::Global;
use tor_terms::{Atom, Formula, Formulas, copy_formula, same_formula};

// What decides which formulas an accumulator's pool has: the atoms, its chain and its base.
#[derive(Clone, Copy)]
struct Scope<'a> {
    atoms: &'a [Atom],
    chain: &'a [u32],
    base: u32,
}

fn is_there(pool: &[Formula], f: &Formula) -> bool
    ensures { result ≡ list_any (same_form (form_of f.now)) (forms_of pool.now) }
{
    for g in pool {
        if same_formula(f, g) {
            return true;
        }
    }
    false
}

// Enters a formula that isn't there yet.
#[tactic(auto, using(crate::proofs::Ruled::CappedPools::capped))]
fn enter(alloc: Global, f: &Formula, pool: &mut Formulas) -> Result<(), NoMemory>
    ensures { OnOk result (forms_of pool.new ≡ entered (forms_of pool.old) (form_of f.now)) }
{
    if is_there(pool.as_slice(), f) {
        return Ok(());
    }
    pool.push(copy_formula(alloc, f)?)
}

#[tactic(auto, using(crate::proofs::Ruled::CappedPools::capped))]
fn enter_all(alloc: Global, forms: &[Formula], pool: &mut Formulas) -> Result<(), NoMemory>
    ensures { OnOk result (forms_of pool.new ≡ all_in (forms_of pool.old) (forms_of forms.now)) }
{
    for f in forms {
        enter(alloc, f, pool)?;
    }
    Ok(())
}

// A conjunct and its opposite, where they may enter the pool.
#[tactic(auto, using(crate::proofs::Ruled::CappedPools::capped))]
fn pair_of(alloc: Global, scope: Scope, f: &Formula) -> Result<Formulas, NoMemory>
    requires { specs.conjuncts (form_of f.now) ≡ form_of f.now ∷ [] }
    ensures { IfOk result (λ own.
        forms_of own
        ≡ specs.all_entered [] (filter (specs.may_enter scope.entry.atoms.now scope.entry.chain.now scope.entry.base) (form_of f.now ∷ []))) }
{
    let mut one = Formulas::new(alloc);
    one.push(copy_formula(alloc, f)?)?;
    pool_of(alloc, scope.atoms, one.as_slice(), scope.chain, scope.base)
}

// Enters a conjunct and its opposite, where they may enter and the pool is small.
#[tactic(auto, using(crate::proofs::Ruled::CappedPools::capped))]
fn enter_conjunct(
    alloc: Global,
    scope: Scope,
    f: &Formula,
    pool: &mut Formulas,
) -> Result<(), NoMemory>
    requires { specs.conjuncts (form_of f.now) ≡ form_of f.now ∷ [] }
    ensures { OnOk result (
        IsCapped (forms_of pool.new) (
        specs.all_entered (forms_of pool.old) (
        filter (specs.may_enter scope.entry.atoms.now scope.entry.chain.now scope.entry.base) (specs.conjuncts (form_of f.now))))) }
{
    if pool.len() > 16 {
        return Ok(());
    }
    let own = pair_of(alloc, scope, f)?;
    enter_all(alloc, own.as_slice(), pool)
}

#[tactic(auto, using(crate::proofs::Ruled::CappedPools::capped))]
fn enter_conjuncts(
    alloc: Global,
    scope: Scope,
    f: &Formula,
    pool: &mut Formulas,
) -> Result<(), NoMemory>
    ensures { OnOk result (
        IsCapped (forms_of pool.new) (
        specs.all_entered (forms_of pool.old) (
        filter (specs.may_enter scope.entry.atoms.now scope.entry.chain.now scope.entry.base) (specs.conjuncts (form_of f.now))))) }
{
    match f {
        Formula::Is(_, _) => enter_conjunct(alloc, scope, f, pool),
        Formula::Both(g, h) => {
            enter_conjuncts(alloc, scope, g, pool)?;
            enter_conjuncts(alloc, scope, h, pool)
        }
        Formula::Either(_, _) => enter_conjunct(alloc, scope, f, pool),
    }
}

// The pool under these conditions, or more than 16 of its members.
#[tactic(auto, using(crate::proofs::Ruled::CappedPools::capped))]
fn capped_pool(alloc: Global, scope: Scope, conditions: &[Formula]) -> Result<Formulas, NoMemory>
    ensures { IfOk result (λ pool. IsCapped (forms_of pool) (specs.pool_of scope.entry.atoms.now (forms_of conditions.now) scope.entry.chain.now scope.entry.base)) }
{
    let mut pool = Formulas::new(alloc);
    for f in conditions {
        enter_conjuncts(alloc, scope, f, &mut pool)?;
    }
    Ok(pool)
}

#[tactic(auto, using(crate::proofs::Ruled::CappedPools::capped))]
fn is_pool_small(
    alloc: Global,
    atoms: &[Atom],
    conditions: &[Formula],
    a: &Acc,
) -> Result<bool, NoMemory>
    ensures { IfOk result (λ small. small ≡ has_few atoms.now (forms_of conditions.now) (accumulator a.now)) }
{
    let scope = Scope {
        atoms,
        chain: a.chain.as_slice(),
        base: a.base,
    };
    let pool = capped_pool(alloc, scope, conditions)?;
    Ok(pool.len() <= 16)
}

/// Whether the pools of these accumulators have at most 16 members each, under these conditions of all `if`s.
#[tactic(auto, using(crate::proofs::Ruled::CappedPools::capped))]
pub fn pools_are_small(
    alloc: Global,
    atoms: &[Atom],
    conditions: &[Formula],
    accs: &[Acc],
) -> Result<bool, NoMemory>
    ensures { IfOk result (λ small. small ≡ list_all (has_few atoms.now (forms_of conditions.now)) (map accumulator accs.now)) }
{
    for a in accs {
        if !is_pool_small(alloc, atoms, conditions, a)? {
            return Ok(false);
        }
    }
    Ok(true)
}
