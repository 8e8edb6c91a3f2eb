// The derivation of a condition over a bank of terms.
ghost use Rattle.std.specs.Prelude.{◌≡◌, Some, IfOk, IfSome, IsTrue, option_map};
ghost use Rattle.tor_terms.specs.Plain.{tree_of};
ghost use Rattle.term_bank.specs.Banks.{IsFrontOf};
ghost use Rattle.term_bank.specs.Held.{terms_in};
ghost use Rattle.tor_axioms.specs.Accepts.{accepts, claim_of, claim_over, proof_of};
ghost use Rattle.tor_axioms.specs.Decide.{literal, with_fact as with_fact_of};
ghost use Rattle.tor_prover.specs.Derive as spec;
ghost use Rattle.tor_prover.specs.Derive.{claim_made};
ghost use Rattle.tor_prover.specs.Seen.{judgement_of};
ghost use Rattle.tor_prover.specs.Memos.{HoldsCommon, HoldsSides, IfSame, IfSteps};

use crate::derivation::split_at;
use crate::outcome::{Judgement, Outcome};
use crate::shared::normalise_shared;
use deriv_parts::{most_splits, where_same};
use qbs_base::{Items, NoMemory};
use std::alloc::Global;
use term_bank::TermBank;
use tor_axioms::{Condition, Derivation, Facts, Literal, Vc, with_fact, with_facts};
use tor_terms::{Atoms, Term, copy_boxed_term, same_term};

// What the normal forms of both sides show. Where they are one term, the bank then holds it.
fn judge_shared(
    alloc: Global,
    bank: &mut TermBank,
    atoms: &Atoms,
    left: &Term,
    right: &Term,
    facts: &Facts,
) -> Result<Judgement, NoMemory>
    ensures exact { IfOk result (λ j. judgement_of j ≡ spec.judged atoms.now facts.now (tree_of left.now) (tree_of right.now)) }
    ensures grows { IsFrontOf (terms_in bank.old) (terms_in bank.new) }
    ensures holds { IfOk result (λ j. IfSame (judgement_of j) (HoldsCommon (terms_in bank.new) atoms.now (Some facts.now) (tree_of left.now) (tree_of right.now))) }
{
    let mut memo = Items::new(alloc);
    let first = copy_boxed_term(alloc, left)?;
    match normalise_shared(alloc, bank, &mut memo, atoms, facts, first)? {
        Outcome::Meets(k) => Ok(Judgement::Splits(k)),
        Outcome::Normal(t, steps) => {
            let second = copy_boxed_term(alloc, right)?;
            match normalise_shared(alloc, bank, &mut memo, atoms, facts, second)? {
                Outcome::Meets(k) => Ok(Judgement::Splits(k)),
                Outcome::Normal(u, more) => {
                    match where_same(same_term(&t, &u), steps, more) {
                        Some((left, right)) => {
                            bank.put(alloc, &t)?;
                            Ok(Judgement::Same(left, right))
                        }
                        None => Ok(Judgement::Differ),
                    }
                }
            }
        }
    }
}

// The derivation under these facts, with at most so many splits inside one another.
#[cycle(derive_shared)]
fn derive_shared(
    alloc: Global,
    bank: &mut TermBank,
    atoms: &Atoms,
    left: &Term,
    right: &Term,
    depth: u32,
    facts: &Facts,
) -> Result<Option<Derivation>, NoMemory>
    ensures exact { IfOk result (λ o. option_map proof_of o ≡ spec.derived atoms.now depth (Some facts.now) (tree_of left.now) (tree_of right.now)) }
    ensures grows { IsFrontOf (terms_in bank.old) (terms_in bank.new) }
    ensures holds { IfOk result (λ o. IfSteps (option_map proof_of o) (HoldsCommon (terms_in bank.new) atoms.now (Some facts.now) (tree_of left.now) (tree_of right.now))) }
{
    match judge_shared(alloc, bank, atoms, left, right, facts)? {
        Judgement::Same(left, right) => Ok(Some(Derivation::Steps { left, right })),
        Judgement::Differ => Ok(None),
        Judgement::Splits(k) => {
            if depth == 0 {
                return Ok(None);
            }
            match derive_branch(alloc, bank, atoms, left, right, depth - 1, facts, k, true)? {
                None => Ok(None),
                Some(yes) => {
                    let no = derive_branch(
                        alloc,
                        bank,
                        atoms,
                        left,
                        right,
                        depth - 1,
                        facts,
                        k,
                        false,
                    )?;
                    split_at(alloc, k, yes, no)
                }
            }
        }
    }
}

// The derivation under these facts and one more.
#[cycle(derive_shared)]
fn derive_branch(
    alloc: Global,
    bank: &mut TermBank,
    atoms: &Atoms,
    left: &Term,
    right: &Term,
    depth: u32,
    facts: &Facts,
    atom: u32,
    holds: bool,
) -> Result<Option<Derivation>, NoMemory>
    ensures exact { IfOk result (λ o.
        option_map proof_of o
        ≡ spec.derived atoms.now depth (with_fact_of atoms.now facts.now (literal atom holds)) (tree_of left.now) (tree_of right.now)) }
    ensures grows { IsFrontOf (terms_in bank.old) (terms_in bank.new) }
{
    match with_fact(alloc, atoms, facts, atom, holds)? {
        None => Ok(Some(Derivation::Absurd)),
        Some(more) => derive_shared(alloc, bank, atoms, left, right, depth, &more),
    }
}

// The derivation of a condition by its parts.
fn derive_parts(
    alloc: Global,
    bank: &mut TermBank,
    atoms: &Atoms,
    facts: &[Literal],
    left: &Term,
    right: &Term,
) -> Result<Option<Derivation>, NoMemory>
    ensures exact { IfOk result (λ o. option_map proof_of o ≡ spec.derivation_of (claim_made atoms.now facts.now (tree_of left.now) (tree_of right.now))) }
    ensures grows { IsFrontOf (terms_in bank.old) (terms_in bank.new) }
    ensures holds { IfOk result (λ o. IfSteps (option_map proof_of o) (HoldsSides (terms_in bank.new) (claim_made atoms.now facts.now (tree_of left.now) (tree_of right.now)))) }
{
    bank.put(alloc, left)?;
    bank.put(alloc, right)?;
    match with_facts(alloc, atoms, facts)? {
        None => Ok(Some(Derivation::Absurd)),
        Some(facts) => derive_shared(alloc, bank, atoms, left, right, most_splits(), &facts),
    }
}

/// The derivation of a condition, exactly as `derive` gives it, whatever the bank holds: under one set of facts each of the terms in the bank
/// is brought to normal form once. The bank keeps all that it holds at its place, after want of memory too. Where the answer is `Steps`, it
/// then holds the left term, the right term and the normal form of both. The error is want of memory.
pub fn derive_with(
    alloc: Global,
    bank: &mut TermBank,
    vc: &Vc,
) -> Result<Option<Derivation>, NoMemory>
    ensures exact { IfOk result (λ o. option_map proof_of o ≡ spec.derivation_of (claim_of vc.now)) }
    ensures accepted { IfOk result (λ o. IfSome o (λ d. IsTrue (accepts (claim_of vc.now) (proof_of d)))) }
    ensures grows { IsFrontOf (terms_in bank.old) (terms_in bank.new) }
    ensures holds { IfOk result (λ o. IfSteps (option_map proof_of o) (HoldsSides (terms_in bank.new) (claim_of vc.now))) }
{
    derive_parts(
        alloc,
        bank,
        &vc.atoms,
        vc.facts.as_slice(),
        &vc.left,
        &vc.right,
    )
}

/// The derivation of a condition over atoms that stand elsewhere, and aren't copied. Else it is as `derive_with` says.
pub fn derive_over_with(
    alloc: Global,
    bank: &mut TermBank,
    atoms: &Atoms,
    condition: &Condition,
) -> Result<Option<Derivation>, NoMemory>
    ensures exact { IfOk result (λ o. option_map proof_of o ≡ spec.derivation_of (claim_over atoms.now condition.now)) }
    ensures accepted { IfOk result (λ o. IfSome o (λ d. IsTrue (accepts (claim_over atoms.now condition.now) (proof_of d)))) }
    ensures grows { IsFrontOf (terms_in bank.old) (terms_in bank.new) }
    ensures holds { IfOk result (λ o. IfSteps (option_map proof_of o) (HoldsSides (terms_in bank.new) (claim_over atoms.now condition.now))) }
{
    derive_parts(
        alloc,
        bank,
        atoms,
        condition.facts.as_slice(),
        &condition.left,
        &condition.right,
    )
}
