// Whether a condition is derived, with no derivation made.
ghost use Rattle.std.specs.Prelude.{◌≡◌, Some, IfOk, is_some};
ghost use Rattle.tor_terms.specs.Plain.{tree_of};
ghost use Rattle.tor_axioms.specs.Accepts.{claim_over};
ghost use Rattle.tor_axioms.specs.Decide.{literal, with_fact as with_fact_of};
ghost use Rattle.tor_prover.specs.Derive as spec;
ghost use Rattle.tor_prover.specs.Reduced.{verdict_of, verdict_seen};

use crate::reduce::{Reduced, reduce};
use deriv_parts::most_splits;
use qbs_base::NoMemory;
use std::alloc::Global;
use tor_axioms::{Condition, Facts, with_fact, with_facts};
use tor_terms::{Atoms, copy_boxed_term, same_term};

/// What the normal forms of both sides show: one term, different ones, or the open atom that the first
/// of them to meet one names.
#[derive(Clone, Copy)]
pub enum Verdict {
    Alike,
    Unlike,
    Open(u32),
}

fn compare(
    alloc: Global,
    atoms: &Atoms,
    condition: &Condition,
    facts: &Facts,
) -> Result<Verdict, NoMemory>
    ensures { IfOk result (λ v. verdict_seen v ≡ verdict_of (spec.judged atoms.now facts.now (tree_of condition.now.left) (tree_of condition.now.right))) }
{
    match reduce(
        alloc,
        atoms,
        facts,
        copy_boxed_term(alloc, &condition.left)?,
    )? {
        Reduced::Stuck(k) => Ok(Verdict::Open(k)),
        Reduced::Reduct(t) => {
            match reduce(
                alloc,
                atoms,
                facts,
                copy_boxed_term(alloc, &condition.right)?,
            )? {
                Reduced::Stuck(k) => Ok(Verdict::Open(k)),
                Reduced::Reduct(u) => {
                    if same_term(&t, &u) {
                        Ok(Verdict::Alike)
                    } else {
                        Ok(Verdict::Unlike)
                    }
                }
            }
        }
    }
}

// Whether it is derived under these facts, with at most so many splits inside one another.
#[cycle(derives_within)]
fn derives_within(
    alloc: Global,
    atoms: &Atoms,
    condition: &Condition,
    depth: u32,
    facts: &Facts,
) -> Result<bool, NoMemory>
    ensures { IfOk result (λ b. b ≡ is_some (spec.derived atoms.now depth (Some facts.now) (tree_of condition.now.left) (tree_of condition.now.right))) }
{
    match compare(alloc, atoms, condition, facts)? {
        Verdict::Alike => Ok(true),
        Verdict::Unlike => Ok(false),
        Verdict::Open(k) => {
            if depth == 0 {
                return Ok(false);
            }
            if !derives_with(alloc, atoms, condition, depth - 1, facts, k, true)? {
                return Ok(false);
            }
            derives_with(alloc, atoms, condition, depth - 1, facts, k, false)
        }
    }
}

// Whether it is derived under these facts and one more.
#[cycle(derives_within)]
fn derives_with(
    alloc: Global,
    atoms: &Atoms,
    condition: &Condition,
    depth: u32,
    facts: &Facts,
    atom: u32,
    holds: bool,
) -> Result<bool, NoMemory>
    ensures { IfOk result (λ b.
        b
        ≡ is_some (spec.derived atoms.now depth (with_fact_of atoms.now facts.now (literal atom holds)) (tree_of condition.now.left) (tree_of condition.now.right))) }
{
    match with_fact(alloc, atoms, facts, atom, holds)? {
        None => Ok(true),
        Some(more) => derives_within(alloc, atoms, condition, depth, &more),
    }
}

/// Whether a condition is derived: exactly where `derive` gives a derivation of it. No derivation is
/// made, and the atoms aren't copied. The error is want of memory.
pub fn derives(alloc: Global, atoms: &Atoms, condition: &Condition) -> Result<bool, NoMemory>
    ensures exact { IfOk result (λ b. b ≡ is_some (spec.derivation_of (claim_over atoms.now condition.now))) }
{
    match with_facts(alloc, atoms, condition.facts.as_slice())? {
        None => Ok(true),
        Some(facts) => derives_within(alloc, atoms, condition, most_splits(), &facts),
    }
}
