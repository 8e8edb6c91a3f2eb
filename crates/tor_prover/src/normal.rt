// Normal forms of terms.
ghost use Rattle.std.specs.Prelude.{◌≡◌, ◌≤◌, [], ◌∷◌, ◌++◌, IfOk, OnOk, option_map};
ghost use Rattle.tor_terms.specs.Plain.{tree_of};
ghost use Rattle.tor_axioms.specs.Rules.{at_head as at_head_of};
ghost use Rattle.tor_prover.specs.Heads.{head_rules as head_rules_of};
ghost use Rattle.tor_prover.specs.Normal as spec;
ghost use Rattle.tor_prover.specs.Seen.{around_one, around_two, outcome_of, parts_of};
ghost use Rattle.tor_prover.specs.Settled.{PartsAre, ChildrenAreSettled, GrandchildrenAreSettled};

use crate::open::met;
use crate::outcome::Outcome;
use crate::parts::{OneHead, Parts, TwoHead, make_one, make_two, take_apart};
use qbs_base::{Items, NoMemory};
use std::alloc::Global;
use tor_axioms::{Facts, Step, Steps, apply};
use tor_terms::{Atoms, Term};

/// What a rule gives at the head.
fn at_head(
    alloc: Global,
    rule: u32,
    t: &Term,
    atoms: &Atoms,
    facts: &Facts,
) -> Result<Option<Box<Term>>, NoMemory>
    ensures { IfOk result (λ o. option_map (λ u. tree_of u.value) o ≡ at_head_of atoms.now facts.now rule (tree_of t.now)) }
{
    match apply(alloc, rule, &Items::new(alloc), t, atoms, facts)? {
        Some(u) => Ok(Some(Box::new(alloc, u)?)),
        None => Ok(None),
    }
}

// The rules that may match at the head: the first one's number, and one more than the last one's.
fn head_rules(t: &Term) -> (u32, u32)
    ensures rules { result ≡ head_rules_of (tree_of t.now) }
    ensures first { 1 ≤ result.0 }
    ensures some { result.0 ≤ result.1 }
    ensures last { result.1 ≤ 45 }
{
    match t {
        Term::Top(_, _) => (1, 4),
        Term::Cat(_, _) => (4, 7),
        Term::Join(_, _) => (7, 13),
        Term::Sel(_, _) => (13, 20),
        Term::Proj(_, _) => (20, 23),
        Term::Uniq(_) => (23, 25),
        Term::Count(_) => (25, 28),
        Term::Sum(_) => (28, 31),
        Term::Best(_, _, _) => (31, 34),
        Term::Any(_) => (34, 37),
        Term::Add(_, _) => (37, 40),
        Term::Or(_, _) => (40, 45),
        _ => (1, 1),
    }
}

/// The first rule that matches at the head, and what it gives.
pub fn first_rule(
    alloc: Global,
    atoms: &Atoms,
    facts: &Facts,
    t: &Term,
) -> Result<Option<(u32, Box<Term>)>, NoMemory>
    ensures { IfOk result (λ o. option_map (λ p. (p.0, tree_of p.1.value)) o ≡ spec.first_rule atoms.now facts.now (tree_of t.now)) }
{
    let (first, past) = head_rules(t);
    for rule in first..past {
        if let Some(u) = at_head(alloc, rule, t, atoms, facts)? {
            return Ok(Some((rule, u)));
        }
    }
    Ok(None)
}

/// A step in the child of a number, as a step in the whole term.
fn in_place(alloc: Global, child: u32, step: &Step) -> Result<Step, NoMemory>
    ensures { IfOk result (λ whole. whole ≡ spec.in_place child step.now) }
{
    let mut path = vec![in alloc; child]?;
    path.extend_from_slice(step.path.as_slice())?;
    Ok(Step {
        rule: step.rule,
        path: Items::from_vec(path),
    })
}

/// Appends the steps in the child of a number.
fn push_below(steps: &mut Steps, alloc: Global, child: u32, more: &[Step]) -> Result<(), NoMemory>
    ensures { OnOk result (steps.new ≡ steps.old ++ spec.below child more.now) }
{
    for step in more {
        let whole = in_place(alloc, child, step)?;
        steps.push(whole)?;
    }
    Ok(())
}

/// These steps, and then what follows.
pub fn after_steps(steps: Steps, rest: Outcome) -> Result<Outcome, NoMemory>
    ensures { IfOk result (λ o. outcome_of o ≡ spec.after_steps steps (outcome_of rest)) }
{
    match rest {
        Outcome::Meets(k) => Ok(Outcome::Meets(k)),
        Outcome::Normal(t, more) => {
            let mut all = steps.into_vec();
            let mut rest = more.into_vec();
            all.append(&mut rest)?;
            Ok(Outcome::Normal(t, Items::from_vec(all)))
        }
    }
}

/// A rule at the head, and then what follows.
fn after_rule(alloc: Global, rule: u32, rest: Outcome) -> Result<Outcome, NoMemory>
    ensures { IfOk result (λ o. outcome_of o ≡ spec.after_steps (spec.step_at_head rule) (outcome_of rest)) }
{
    let mut steps = Items::new(alloc);
    let path = Items::new(alloc);
    steps.push(Step { rule, path })?;
    after_steps(steps, rest)
}

/// The term with this child, where the child has a normal form.
pub fn with_child(alloc: Global, head: OneHead, child: Outcome) -> Result<Outcome, NoMemory>
    ensures { IfOk result (λ o. outcome_of o ≡ spec.with_child (around_one head) (outcome_of child)) }
{
    match child {
        Outcome::Meets(k) => Ok(Outcome::Meets(k)),
        Outcome::Normal(u, more) => {
            let mut steps = Items::new(alloc);
            push_below(&mut steps, alloc, 0, more.as_slice())?;
            Ok(Outcome::Normal(make_one(alloc, head, u)?, steps))
        }
    }
}

/// The term with these children, where both have normal forms.
pub fn with_children(
    alloc: Global,
    head: TwoHead,
    first: Outcome,
    second: Outcome,
) -> Result<Outcome, NoMemory>
    ensures { IfOk result (λ o. outcome_of o ≡ spec.with_children (around_two head) (outcome_of first) (outcome_of second)) }
{
    match first {
        Outcome::Meets(k) => Ok(Outcome::Meets(k)),
        Outcome::Normal(u, before) => match second {
            Outcome::Meets(k) => Ok(Outcome::Meets(k)),
            Outcome::Normal(v, after) => {
                let mut steps = Items::new(alloc);
                push_below(&mut steps, alloc, 0, before.as_slice())?;
                push_below(&mut steps, alloc, 1, after.as_slice())?;
                Ok(Outcome::Normal(make_two(alloc, head, u, v)?, steps))
            }
        },
    }
}

/// The normal form of a term, or the open atom that it meets: its children are brought to normal
/// form from left to right, and then the first rule by number that matches at the head is applied
/// and what it gives is brought to normal form in turn. Of that only the head and the children are
/// looked at: what stands below them was in normal form before.
#[cycle(normalise)]
pub fn normalise(
    alloc: Global,
    atoms: &Atoms,
    facts: &Facts,
    t: Box<Term>,
) -> Result<Outcome, NoMemory>
    ensures { IfOk result (λ o. outcome_of o ≡ spec.normal_form atoms.now facts.now (tree_of t.value)) }
{
    match normal_children(alloc, atoms, facts, take_apart(t))? {
        Outcome::Meets(k) => Ok(Outcome::Meets(k)),
        Outcome::Normal(u, steps) => {
            let rest = finish(alloc, atoms, facts, u)?;
            after_steps(steps, rest)
        }
    }
}

/// The term whose children are brought to normal form.
#[cycle(normalise)]
fn normal_children(
    alloc: Global,
    atoms: &Atoms,
    facts: &Facts,
    parts: Parts,
) -> Result<Outcome, NoMemory>
    ensures { IfOk result (λ o. outcome_of o ≡ spec.normal_parts (spec.normal_form atoms.now facts.now) (parts_of parts)) }
{
    match parts {
        Parts::NoChild(t) => Ok(Outcome::Normal(Box::new(alloc, t)?, Items::new(alloc))),
        Parts::OneChild(head, r) => {
            let child = normalise(alloc, atoms, facts, r)?;
            with_child(alloc, head, child)
        }
        Parts::TwoChildren(head, r, s) => {
            let first = normalise(alloc, atoms, facts, r)?;
            if let Outcome::Meets(k) = first {
                return Ok(Outcome::Meets(k));
            }
            let second = normalise(alloc, atoms, facts, s)?;
            with_children(alloc, head, first, second)
        }
    }
}

/// The normal form of a term whose children are in normal form.
#[cycle(finish)]
pub fn finish(
    alloc: Global,
    atoms: &Atoms,
    facts: &Facts,
    t: Box<Term>,
) -> Result<Outcome, NoMemory>
    requires { ChildrenAreSettled atoms.now facts.now (tree_of t.value) }
    ensures { IfOk result (λ o. outcome_of o ≡ spec.at_head atoms.now facts.now (spec.normal_form atoms.now facts.now) (tree_of t.value)) }
{
    if let Some(k) = met(atoms, facts, &t) {
        return Ok(Outcome::Meets(k));
    }
    match first_rule(alloc, atoms, facts, &t)? {
        None => Ok(Outcome::Normal(t, Items::new(alloc))),
        Some((rule, u)) => {
            let rest = normalise_made(alloc, atoms, facts, u)?;
            after_rule(alloc, rule, rest)
        }
    }
}

/// The normal form of a term of which all below the children is in normal form.
#[cycle(finish)]
fn normalise_made(
    alloc: Global,
    atoms: &Atoms,
    facts: &Facts,
    t: Box<Term>,
) -> Result<Outcome, NoMemory>
    requires { GrandchildrenAreSettled atoms.now facts.now (tree_of t.value) }
    ensures { IfOk result (λ o. outcome_of o ≡ spec.normal_form atoms.now facts.now (tree_of t.value)) }
{
    match finish_children(alloc, atoms, facts, take_apart(t))? {
        Outcome::Meets(k) => Ok(Outcome::Meets(k)),
        Outcome::Normal(u, steps) => {
            let rest = finish(alloc, atoms, facts, u)?;
            after_steps(steps, rest)
        }
    }
}

/// The term whose children, with all below them in normal form, are brought to normal form.
#[cycle(finish)]
fn finish_children(
    alloc: Global,
    atoms: &Atoms,
    facts: &Facts,
    parts: Parts,
) -> Result<Outcome, NoMemory>
    requires { PartsAre (ChildrenAreSettled atoms.now facts.now) (parts_of parts) }
    ensures { IfOk result (λ o. outcome_of o ≡ spec.normal_parts (spec.normal_form atoms.now facts.now) (parts_of parts)) }
{
    match parts {
        Parts::NoChild(t) => Ok(Outcome::Normal(Box::new(alloc, t)?, Items::new(alloc))),
        Parts::OneChild(head, r) => {
            let child = finish_child(alloc, atoms, facts, r)?;
            with_child(alloc, head, child)
        }
        Parts::TwoChildren(head, r, s) => {
            let first = finish_child(alloc, atoms, facts, r)?;
            if let Outcome::Meets(k) = first {
                return Ok(Outcome::Meets(k));
            }
            let second = finish_child(alloc, atoms, facts, s)?;
            with_children(alloc, head, first, second)
        }
    }
}

/// The normal form of a child whose own children are in normal form.
#[cycle(finish)]
fn finish_child(
    alloc: Global,
    atoms: &Atoms,
    facts: &Facts,
    t: Box<Term>,
) -> Result<Outcome, NoMemory>
    requires { ChildrenAreSettled atoms.now facts.now (tree_of t.value) }
    ensures { IfOk result (λ o. outcome_of o ≡ spec.normal_form atoms.now facts.now (tree_of t.value)) }
{
    finish(alloc, atoms, facts, t)
}
