// The derivation of a condition.
ghost use Rattle.std.specs.Prelude.{◌≡◌, Some, IfOk, IfSome, IsTrue, option_map};
ghost use Rattle.tor_terms.specs.Plain.{tree_of};
ghost use Rattle.tor_axioms.specs.Accepts.{accepts, claim_of, claim_over, proof_of};
ghost use Rattle.tor_axioms.specs.Decide.{literal, with_fact as with_fact_of};
ghost use Rattle.tor_prover.specs.Derive as spec;
ghost use Rattle.tor_prover.specs.Derive.{claim_made};
ghost use Rattle.tor_prover.specs.Seen.{judgement_of};

use crate::normal::normalise;
use crate::outcome::{Judgement, Outcome};
use deriv_parts::{most_splits, where_same};
use qbs_base::NoMemory;
use std::alloc::Global;
use tor_axioms::{Condition, Derivation, Facts, Literal, Vc, with_fact, with_facts};
use tor_terms::{Atoms, Term, copy_boxed_term, same_term};

/// What the normal forms of both sides show.
fn judge(
    alloc: Global,
    atoms: &Atoms,
    left: &Term,
    right: &Term,
    facts: &Facts,
) -> Result<Judgement, NoMemory>
    ensures { IfOk result (λ j. judgement_of j ≡ spec.judged atoms.now facts.now (tree_of left.now) (tree_of right.now)) }
{
    match normalise(alloc, atoms, facts, copy_boxed_term(alloc, left)?)? {
        Outcome::Meets(k) => Ok(Judgement::Splits(k)),
        Outcome::Normal(t, steps) => {
            match normalise(alloc, atoms, facts, copy_boxed_term(alloc, right)?)? {
                Outcome::Meets(k) => Ok(Judgement::Splits(k)),
                Outcome::Normal(u, more) => {
                    match where_same(same_term(&t, &u), steps, more) {
                        Some((left, right)) => Ok(Judgement::Same(left, right)),
                        None => Ok(Judgement::Differ),
                    }
                }
            }
        }
    }
}

/// The split on an atom, where the second branch is derived too.
pub fn split_at(
    alloc: Global,
    atom: u32,
    yes: Derivation,
    no: Option<Derivation>,
) -> Result<Option<Derivation>, NoMemory>
    ensures { IfOk result (λ o. option_map proof_of o ≡ spec.split_at atom (Some (proof_of yes)) (option_map proof_of no)) }
{
    match no {
        None => Ok(None),
        Some(no) => {
            let yes = Box::new(alloc, yes)?;
            let no = Box::new(alloc, no)?;
            Ok(Some(Derivation::Split { atom, yes, no }))
        }
    }
}

/// The derivation under these facts, with at most so many splits inside one another.
#[cycle(derive_within)]
fn derive_within(
    alloc: Global,
    atoms: &Atoms,
    left: &Term,
    right: &Term,
    depth: u32,
    facts: &Facts,
) -> Result<Option<Derivation>, NoMemory>
    ensures { IfOk result (λ o. option_map proof_of o ≡ spec.derived atoms.now depth (Some facts.now) (tree_of left.now) (tree_of right.now)) }
{
    match judge(alloc, atoms, left, right, facts)? {
        Judgement::Same(left, right) => Ok(Some(Derivation::Steps { left, right })),
        Judgement::Differ => Ok(None),
        Judgement::Splits(k) => {
            if depth == 0 {
                return Ok(None);
            }
            match derive_with(alloc, atoms, left, right, depth - 1, facts, k, true)? {
                None => Ok(None),
                Some(yes) => {
                    let no = derive_with(alloc, atoms, left, right, depth - 1, facts, k, false)?;
                    split_at(alloc, k, yes, no)
                }
            }
        }
    }
}

/// The derivation under these facts and one more.
#[cycle(derive_within)]
fn derive_with(
    alloc: Global,
    atoms: &Atoms,
    left: &Term,
    right: &Term,
    depth: u32,
    facts: &Facts,
    atom: u32,
    holds: bool,
) -> Result<Option<Derivation>, NoMemory>
    ensures { IfOk result (λ o.
        option_map proof_of o
        ≡ spec.derived atoms.now depth (with_fact_of atoms.now facts.now (literal atom holds)) (tree_of left.now) (tree_of right.now)) }
{
    match with_fact(alloc, atoms, facts, atom, holds)? {
        None => Ok(Some(Derivation::Absurd)),
        Some(more) => derive_within(alloc, atoms, left, right, depth, &more),
    }
}

/// The derivation of a condition by its parts.
fn derive_exactly(
    alloc: Global,
    atoms: &Atoms,
    facts: &[Literal],
    left: &Term,
    right: &Term,
) -> Result<Option<Derivation>, NoMemory>
    ensures { IfOk result (λ o. option_map proof_of o ≡ spec.derivation_of (claim_made atoms.now facts.now (tree_of left.now) (tree_of right.now))) }
{
    match with_facts(alloc, atoms, facts)? {
        None => Ok(Some(Derivation::Absurd)),
        Some(facts) => derive_within(alloc, atoms, left, right, most_splits(), &facts),
    }
}

/// The derivation of a condition, or None exactly where the procedure finds none.
///
/// A condition is derived where its facts contradict each other; where both terms have one normal
/// form, by the steps that lead to it; and where one of them meets an open atom, by a split on the
/// atom that the first to meet one names, if it is derived with the atom true and with it false.
/// At most ten splits stand inside one another. The error is want of memory.
pub fn derive(alloc: Global, vc: &Vc) -> Result<Option<Derivation>, NoMemory>
    ensures exact { IfOk result (λ o. option_map proof_of o ≡ spec.derivation_of (claim_of vc.now)) }
    ensures accepted { IfOk result (λ o. IfSome o (λ d. IsTrue (accepts (claim_of vc.now) (proof_of d)))) }
{
    derive_exactly(alloc, &vc.atoms, vc.facts.as_slice(), &vc.left, &vc.right)
}

/// The derivation of a condition over atoms that stand elsewhere, and aren't copied. Else it is as `derive`
/// says.
pub fn derive_over(
    alloc: Global,
    atoms: &Atoms,
    condition: &Condition,
) -> Result<Option<Derivation>, NoMemory>
    ensures exact { IfOk result (λ o. option_map proof_of o ≡ spec.derivation_of (claim_over atoms.now condition.now)) }
    ensures accepted { IfOk result (λ o. IfSome o (λ d. IsTrue (accepts (claim_over atoms.now condition.now) (proof_of d)))) }
{
    derive_exactly(
        alloc,
        atoms,
        condition.facts.as_slice(),
        &condition.left,
        &condition.right,
    )
}
