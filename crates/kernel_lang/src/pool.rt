// The pool of an accumulator, from the conditions of a fragment's `if`s.
ghost use Rattle.std.specs.Prelude.{◌≡◌, IfOk, [], ◌∷◌};
ghost use Rattle.std.specs.List.{filter};
ghost use Rattle.kernel_lang.specs.Pools as spec;
ghost use Rattle.tor_terms.specs.Plain.{form_of, forms_of};

use crate::valid::flags::reads_no_flag;
use qbs_base::{Items, NoMemory};
use std::alloc::Global;
use tor_terms::{Atom, Formula, Formulas, copy_formula, enter, formula_within};

/// What decides which formulas an accumulator's pool has: the atoms, its chain and its base.
#[derive(Clone, Copy)]
struct Scope<'a> {
    atoms: &'a [Atom],
    chain: &'a [u32],
    base: u32,
}

fn may_enter(scope: Scope, f: &Formula) -> bool
    ensures { result ≡ spec.may_enter scope.entry.atoms.now scope.entry.chain.now scope.entry.base (form_of f.now) }
{
    formula_within(scope.atoms, scope.chain, f)
        && (scope.base == 0 || reads_no_flag(scope.atoms, f))
}

// The opposite, without a negation.
fn negated(alloc: Global, f: &Formula) -> Result<Formula, NoMemory>
    ensures { IfOk result (λ g. form_of g ≡ spec.negated (form_of f.now)) }
{
    match f {
        Formula::Is(k, holds) => Ok(Formula::Is(*k, !*holds)),
        Formula::Both(g, h) => {
            let first = negated(alloc, g)?;
            let second = negated(alloc, h)?;
            Ok(Formula::Either(Box::new(alloc, first)?, Box::new(alloc, second)?))
        }
        Formula::Either(g, h) => {
            let first = negated(alloc, g)?;
            let second = negated(alloc, h)?;
            Ok(Formula::Both(Box::new(alloc, first)?, Box::new(alloc, second)?))
        }
    }
}

// Enters a conjunct and its opposite, where it may enter.
#[tactic(auto, using(crate::proofs::Entering::entering))]
fn enter_conjunct(
    alloc: Global,
    scope: Scope,
    f: &Formula,
    pool: Formulas,
) -> Result<Formulas, NoMemory>
    ensures { IfOk result (λ all.
        forms_of all
        ≡ spec.all_entered (forms_of pool) (
        filter (spec.may_enter scope.entry.atoms.now scope.entry.chain.now scope.entry.base) (form_of f.now ∷ []))) }
{
    if !may_enter(scope, f) {
        return Ok(pool);
    }
    let own = enter(pool, copy_formula(alloc, f)?)?;
    enter(own, negated(alloc, f)?)
}

#[tactic(auto, using(crate::proofs::Entering::entering))]
fn enter_conjuncts(
    alloc: Global,
    scope: Scope,
    f: &Formula,
    pool: Formulas,
) -> Result<Formulas, NoMemory>
    ensures { IfOk result (λ all.
        forms_of all
        ≡ spec.all_entered (forms_of pool) (
        filter (spec.may_enter scope.entry.atoms.now scope.entry.chain.now scope.entry.base) (spec.conjuncts (form_of f.now)))) }
{
    match f {
        Formula::Is(_, _) => enter_conjunct(alloc, scope, f, pool),
        Formula::Both(g, h) => {
            let first = enter_conjuncts(alloc, scope, g, pool)?;
            enter_conjuncts(alloc, scope, h, first)
        }
        Formula::Either(_, _) => enter_conjunct(alloc, scope, f, pool),
    }
}

/// The pool of an accumulator with this chain and base, over the atoms of a fragment whose `if`s
/// have these conditions in the order of the text: each conjunct that may enter, followed by its
/// opposite, each once.
pub fn pool_of(
    alloc: Global,
    atoms: &[Atom],
    conditions: &[Formula],
    chain: &[u32],
    base: u32,
) -> Result<Formulas, NoMemory>
    ensures exact { IfOk result (λ pool. forms_of pool ≡ spec.pool_of atoms.now (forms_of conditions.now) chain.now base) }
{
    let scope = Scope { atoms, chain, base };
    let mut pool = Items::new(alloc);
    for f in conditions {
        pool = enter_conjuncts(alloc, scope, f, pool)?;
    }
    Ok(pool)
}
