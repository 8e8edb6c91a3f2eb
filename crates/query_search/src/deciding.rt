// What comes of the conditions of an accumulator with a choice, which are made one after another.
ghost use Rattle.std.specs.Prelude.{◌≡◌, IfOk, true, None};
ghost use Rattle.tor_terms.specs.Plain.{forms_of};
ghost use Rattle.kernel_lang.specs.Plain.{accumulator};
ghost use Rattle.vc_gen.specs.Conditions.{own_conditions};
ghost use Rattle.vc_gen.specs.Outlines.{IsOutlineOf};
ghost use Rattle.query_search.specs.Deciding.{IsDecisionOn};
ghost use Rattle.query_search.specs.Verdicts.{all_derived};

use kernel_lang::Acc;
use qbs_base::{Items, NoMemory};
use std::alloc::Global;
use tor_axioms::Derivations;
use tor_prover::{derive_over, derives};
use tor_terms::{Atoms, Formula};
use vc_gen::{Outline, own_condition};

/// What is decided of an accumulator with a choice: the derivations of all its conditions, or the number of one that has
/// none. Nothing is where there are more conditions than a fragment has.
#[derive(Drop)]
pub enum Decision {
    Derived(Derivations),
    Failing(usize),
    Nothing,
}

/// One more than the conditions of a fragment can be.
const MANY: usize = 4097;

/// Whether the condition of a number has no derivation. None is made.
fn fails_by(
    alloc: Global,
    atoms: &Atoms,
    a: &Acc,
    outline: &Outline,
    choice: &[Formula],
    n: usize,
) -> Result<bool, NoMemory>
    requires { IsOutlineOf (accumulator a.now) outline.now }
    ensures { IfOk result (λ b. b ≡ true → all_derived (own_conditions atoms.now (accumulator a.now, forms_of choice.now)) ≡ None) }
{
    match own_condition(alloc, atoms, a, outline, choice, n)? {
        None => Ok(false),
        Some(condition) => {
            if !derives(alloc, atoms, &condition)? {
                return Ok(true);
            }
            Ok(false)
        }
    }
}

/// Derives one condition after another, up to the first that has no derivation.
fn derive_own(
    alloc: Global,
    atoms: &Atoms,
    a: &Acc,
    outline: &Outline,
    choice: &[Formula],
) -> Result<Decision, NoMemory>
    requires { IsOutlineOf (accumulator a.now) outline.now }
    ensures { IfOk result (IsDecisionOn (own_conditions atoms.now (accumulator a.now, forms_of choice.now))) }
{
    let mut all = Items::new(alloc);
    for n in 0..MANY {
        match own_condition(alloc, atoms, a, outline, choice, n)? {
            None => return Ok(Decision::Derived(all)),
            Some(condition) => match derive_over(alloc, atoms, &condition)? {
                None => return Ok(Decision::Failing(n)),
                Some(derivation) => all.push(derivation)?,
            },
        }
    }
    Ok(Decision::Nothing)
}

/// Decides an accumulator with this choice. The condition of the number `likely` is tried before all others.
pub fn decide(
    alloc: Global,
    atoms: &Atoms,
    a: &Acc,
    outline: &Outline,
    choice: &[Formula],
    likely: usize,
) -> Result<Decision, NoMemory>
    requires { IsOutlineOf (accumulator a.now) outline.now }
    ensures { IfOk result (IsDecisionOn (own_conditions atoms.now (accumulator a.now, forms_of choice.now))) }
{
    if fails_by(alloc, atoms, a, outline, choice, likely)? {
        return Ok(Decision::Failing(likely));
    }
    derive_own(alloc, atoms, a, outline, choice)
}
