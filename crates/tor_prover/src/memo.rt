// Normal forms that are remembered by the places of terms in a bank.
ghost use Rattle.std.specs.Prelude.{◌≡◌, [], ◌∷◌, ◌++◌, IfOk, OnOk, option_map};
ghost use Rattle.tor_prover.specs.Seen.{outcome_of};
ghost use Rattle.tor_prover.specs.Memos.{known_at};
ghost use Rattle.tor_prover.specs.Remembered.{remembered};

use crate::outcome::Outcome;
use qbs_base::{Items, NoMemory};
use std::alloc::Global;
use tor_axioms::{Step, Steps};
use tor_terms::copy_boxed_term;

/// The normal form of the term at a place of a bank, or the open atom that it meets.
#[derive(Drop)]
pub struct Known {
    pub number: usize,
    pub outcome: Outcome,
}

/// What is remembered under one set of facts.
pub type Memo = Items<Known>;

fn copy_step(alloc: Global, step: &Step) -> Result<Step, NoMemory>
    ensures { IfOk result (λ copy. copy ≡ step.now) }
{
    let path = step.path.as_slice().to_vec(alloc)?;
    Ok(Step {
        rule: step.rule,
        path: Items::from_vec(path),
    })
}

fn copy_steps(alloc: Global, steps: &[Step]) -> Result<Steps, NoMemory>
    ensures { IfOk result (λ all. all ≡ steps.now) }
{
    let mut all = Items::new(alloc);
    for step in steps {
        let copy = copy_step(alloc, step)?;
        all.push(copy)?;
    }
    Ok(all)
}

fn copy_outcome(alloc: Global, outcome: &Outcome) -> Result<Outcome, NoMemory>
    ensures { IfOk result (λ copy. outcome_of copy ≡ outcome_of outcome.now) }
{
    match outcome {
        Outcome::Meets(k) => Ok(Outcome::Meets(*k)),
        Outcome::Normal(t, steps) => {
            let term = copy_boxed_term(alloc, t)?;
            let steps = copy_steps(alloc, steps.as_slice())?;
            Ok(Outcome::Normal(term, steps))
        }
    }
}

/// What is remembered of the term at a place.
pub fn recall(alloc: Global, memo: &[Known], number: usize) -> Result<Option<Outcome>, NoMemory>
    ensures { IfOk result (λ o. option_map outcome_of o ≡ known_at (remembered memo.now) number) }
{
    for known in memo {
        if known.number == number {
            let outcome = copy_outcome(alloc, &known.outcome)?;
            return Ok(Some(outcome));
        }
    }
    Ok(None)
}

/// Remembers what comes of the term at a place.
pub fn note(
    alloc: Global,
    memo: &mut Memo,
    number: usize,
    outcome: &Outcome,
) -> Result<(), NoMemory>
    ensures { OnOk result (remembered memo.new ≡ remembered memo.old ++ (number, outcome_of outcome.now) ∷ []) }
{
    let outcome = copy_outcome(alloc, outcome)?;
    memo.push(Known { number, outcome })?;
    Ok(())
}
