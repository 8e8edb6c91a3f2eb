// Whether a derivation shows that a condition holds.
ghost use Rattle.std.specs.Prelude.{◌≡◌, Some, IfOk, IsTrue};
ghost use Rattle.tor_terms.specs.Plain.{tree_of};
ghost use Rattle.tor_axioms.specs.Accepts as spec;
ghost use Rattle.tor_axioms.specs.Decide.{literal, with_fact as with_fact_of};
ghost use Rattle.tor_axioms.specs.Paths.{run as run_of};
ghost use Rattle.tor_axioms.specs.Validity.{IsValid, IsValidAnywhere};
ghost use Rattle.deriv_accept.specs.Ends.{end_of};

use qbs_base::NoMemory;
use std::alloc::Global;
use tor_axioms::{Derivation, Facts, Step, Vc, apply, with_fact, with_facts};
use tor_terms::{Atoms, Term, copy_boxed_term, same_term};

/// Whether the steps apply one after the other. Then the term is the one at their end.
fn run(
    alloc: Global,
    atoms: &Atoms,
    facts: &Facts,
    steps: &[Step],
    term: &mut Term,
) -> Result<bool, NoMemory>
    ensures { IfOk result (λ all. end_of all (tree_of term.new) ≡ run_of atoms.now facts.now steps.now (tree_of term.old)) }
{
    for step in steps {
        match apply(alloc, step.rule, &step.path, &*term, atoms, facts)? {
            Some(next) => *term = next,
            None => return Ok(false),
        }
    }
    Ok(true)
}

/// Whether the steps of both come to an end, and to identical terms.
fn ends_meet(
    alloc: Global,
    vc: &Vc,
    facts: &Facts,
    left: &[Step],
    right: &[Step],
    first: &mut Term,
    second: &mut Term,
) -> Result<bool, NoMemory>
    ensures { IfOk result (λ answer. answer ≡ spec.same_ends (run_of vc.now.atoms facts.now left.now (tree_of first.old)) (run_of vc.now.atoms facts.now right.now (tree_of second.old))) }
{
    if !run(alloc, &vc.atoms, facts, left, &mut *first)? {
        return Ok(false);
    }
    if !run(alloc, &vc.atoms, facts, right, &mut *second)? {
        return Ok(false);
    }
    Ok(same_term(first, second))
}

/// Whether the steps lead from both terms of the condition to identical ones.
fn same_ends(
    alloc: Global,
    vc: &Vc,
    facts: &Facts,
    left: &[Step],
    right: &[Step],
) -> Result<bool, NoMemory>
    ensures { IfOk result (λ answer. answer ≡ spec.same_ends (run_of vc.now.atoms facts.now left.now (tree_of vc.now.left)) (run_of vc.now.atoms facts.now right.now (tree_of vc.now.right))) }
{
    let mut first = copy_boxed_term(alloc, &vc.left)?;
    let mut second = copy_boxed_term(alloc, &vc.right)?;
    ends_meet(alloc, vc, facts, left, right, &mut first, &mut second)
}

/// Whether the derivation is accepted under these facts.
#[cycle(accepted)]
fn accepted(alloc: Global, vc: &Vc, facts: &Facts, d: &Derivation) -> Result<bool, NoMemory>
    ensures { IfOk result (λ answer. answer ≡ spec.accepted vc.now.atoms (Some facts.now) (spec.proof_of d.now) (tree_of vc.now.left) (tree_of vc.now.right)) }
{
    match d {
        Derivation::Steps { left, right } => {
            same_ends(alloc, vc, facts, left.as_slice(), right.as_slice())
        }
        Derivation::Split { atom, yes, no } => {
            if *atom as usize >= vc.atoms.len() {
                return Ok(false);
            }
            if !accepted_with(alloc, vc, facts, *atom, true, yes)? {
                return Ok(false);
            }
            accepted_with(alloc, vc, facts, *atom, false, no)
        }
        Derivation::Absurd => Ok(false),
    }
}

/// Whether the derivation is accepted under these facts and one more.
#[cycle(accepted)]
fn accepted_with(
    alloc: Global,
    vc: &Vc,
    facts: &Facts,
    atom: u32,
    holds: bool,
    d: &Derivation,
) -> Result<bool, NoMemory>
    ensures { IfOk result (λ answer.
        answer
        ≡ spec.accepted vc.now.atoms (with_fact_of vc.now.atoms facts.now (literal atom holds)) (spec.proof_of d.now) (tree_of vc.now.left) (tree_of vc.now.right)) }
{
    match with_fact(alloc, &vc.atoms, facts, atom, holds)? {
        None => Ok(true),
        Some(more) => accepted(alloc, vc, &more, d),
    }
}

/// Whether the derivation shows that both terms of the condition have one value in each world that is
/// valid for them and has the facts, so in each such environment that both fit.
///
/// It does where the facts contradict each other, where its steps apply one after the other and
/// lead from both terms to identical ones, and where both branches of a split on an atom of the
/// condition are accepted, each with what it takes of that atom added to the facts.
pub fn accepts(alloc: Global, vc: &Vc, d: &Derivation) -> Result<bool, NoMemory>
    ensures exact { IfOk result (λ answer. answer ≡ spec.accepts (spec.claim_of vc.now) (spec.proof_of d.now)) }
    ensures sound { IfOk result (λ answer. IsTrue answer → spec.IsSound (spec.claim_of vc.now)) }
    ensures anywhere { IfOk result (λ answer. IsTrue answer → IsValidAnywhere (spec.claim_of vc.now)) }
    ensures valid { IfOk result (λ answer. IsTrue answer → IsValid (spec.claim_of vc.now)) }
{
    check(alloc, vc, d)
}

fn check(alloc: Global, vc: &Vc, d: &Derivation) -> Result<bool, NoMemory>
    ensures { IfOk result (λ answer. answer ≡ spec.accepts (spec.claim_of vc.now) (spec.proof_of d.now)) }
{
    match with_facts(alloc, &vc.atoms, vc.facts.as_slice())? {
        None => Ok(true),
        Some(facts) => accepted(alloc, vc, &facts, d),
    }
}
