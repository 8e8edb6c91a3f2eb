// Normal forms of terms that a bank holds: each of its terms is brought to normal form once under one set of facts.
ghost use Rattle.std.specs.Prelude.{◌≡◌, IfOk, OnOk};
ghost use Rattle.tor_terms.specs.Plain.{tree_of};
ghost use Rattle.term_bank.specs.Held.{terms_in};
ghost use Rattle.tor_prover.specs.Normal as spec;
ghost use Rattle.tor_prover.specs.Remembered.{remembered};
ghost use Rattle.tor_prover.specs.Seen.{outcome_of, parts_of};
ghost use Rattle.tor_prover.specs.Memos.{IsMemoOf};

use crate::memo::{Memo, note, recall};
use crate::normal::{after_steps, finish, normalise, with_child, with_children};
use crate::outcome::Outcome;
use crate::parts::{Parts, take_apart};
use qbs_base::{Items, NoMemory};
use std::alloc::Global;
use term_bank::TermBank;
use tor_axioms::Facts;
use tor_terms::{Atoms, Term};

/// The normal form of a term, or the open atom that it meets. What comes of a term that the bank holds is remembered.
#[cycle(normalise_shared)]
pub fn normalise_shared(
    alloc: Global,
    bank: &TermBank,
    memo: &mut Memo,
    atoms: &Atoms,
    facts: &Facts,
    t: Box<Term>,
) -> Result<Outcome, NoMemory>
    requires { IsMemoOf atoms.now facts.now (terms_in bank.now) (remembered memo.old) }
    ensures kept { OnOk result (IsMemoOf atoms.now facts.now (terms_in bank.now) (remembered memo.new)) }
    ensures exact { IfOk result (λ o. outcome_of o ≡ spec.normal_form atoms.now facts.now (tree_of t.value)) }
{
    match bank.place_of(&t) {
        None => normalise(alloc, atoms, facts, t),
        Some(number) => {
            if let Some(outcome) = recall(alloc, memo.as_slice(), number)? {
                return Ok(outcome);
            }
            let outcome = normalise_anew(alloc, bank, memo, atoms, facts, t)?;
            note(alloc, memo, number, &outcome)?;
            Ok(outcome)
        }
    }
}

// The normal form of a term of which nothing is remembered.
#[cycle(normalise_shared)]
fn normalise_anew(
    alloc: Global,
    bank: &TermBank,
    memo: &mut Memo,
    atoms: &Atoms,
    facts: &Facts,
    t: Box<Term>,
) -> Result<Outcome, NoMemory>
    requires { IsMemoOf atoms.now facts.now (terms_in bank.now) (remembered memo.old) }
    ensures kept { OnOk result (IsMemoOf atoms.now facts.now (terms_in bank.now) (remembered memo.new)) }
    ensures exact { IfOk result (λ o. outcome_of o ≡ spec.normal_form atoms.now facts.now (tree_of t.value)) }
{
    match shared_children(alloc, bank, memo, atoms, facts, take_apart(t))? {
        Outcome::Meets(k) => Ok(Outcome::Meets(k)),
        Outcome::Normal(u, steps) => {
            let rest = finish(alloc, atoms, facts, u)?;
            after_steps(steps, rest)
        }
    }
}

// The term whose children are brought to normal form.
#[cycle(normalise_shared)]
fn shared_children(
    alloc: Global,
    bank: &TermBank,
    memo: &mut Memo,
    atoms: &Atoms,
    facts: &Facts,
    parts: Parts,
) -> Result<Outcome, NoMemory>
    requires { IsMemoOf atoms.now facts.now (terms_in bank.now) (remembered memo.old) }
    ensures kept { OnOk result (IsMemoOf atoms.now facts.now (terms_in bank.now) (remembered memo.new)) }
    ensures exact { IfOk result (λ o. outcome_of o ≡ spec.normal_parts (spec.normal_form atoms.now facts.now) (parts_of parts)) }
{
    match parts {
        Parts::NoChild(t) => Ok(Outcome::Normal(Box::new(alloc, t)?, Items::new(alloc))),
        Parts::OneChild(head, r) => {
            let child = normalise_shared(alloc, bank, memo, atoms, facts, r)?;
            with_child(alloc, head, child)
        }
        Parts::TwoChildren(head, r, s) => {
            let first = normalise_shared(alloc, bank, memo, atoms, facts, r)?;
            if let Outcome::Meets(k) = first {
                return Ok(Outcome::Meets(k));
            }
            let second = normalise_shared(alloc, bank, memo, atoms, facts, s)?;
            with_children(alloc, head, first, second)
        }
    }
}
