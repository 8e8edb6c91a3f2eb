// Normal forms of terms, without the steps that lead to them.
ghost use Rattle.std.specs.Prelude.{◌≡◌, IfOk};
ghost use Rattle.tor_terms.specs.Plain.{tree_of};
ghost use Rattle.tor_prover.specs.Normal as spec;
ghost use Rattle.tor_prover.specs.Reduced.{around_child, around_children, reduced, reduced_seen};
ghost use Rattle.tor_prover.specs.Seen.{around_one, around_two, parts_of};
ghost use Rattle.tor_prover.specs.Settled.{PartsAre, ChildrenAreSettled, GrandchildrenAreSettled};

use crate::normal::first_rule;
use crate::open::met;
use crate::parts::{OneHead, Parts, TwoHead, make_one, make_two, take_apart};
use qbs_base::NoMemory;
use std::alloc::Global;
use tor_axioms::Facts;
use tor_terms::{Atoms, Term};

/// A normal form, or the open atom that is met.
#[derive(Drop)]
pub enum Reduced {
    Reduct(Box<Term>),
    Stuck(u32),
}

fn with_child(alloc: Global, head: OneHead, child: Reduced) -> Result<Reduced, NoMemory>
    ensures { IfOk result (λ r. reduced_seen r ≡ around_child (around_one head) (reduced_seen child)) }
{
    match child {
        Reduced::Stuck(k) => Ok(Reduced::Stuck(k)),
        Reduced::Reduct(u) => Ok(Reduced::Reduct(make_one(alloc, head, u)?)),
    }
}

fn with_children(
    alloc: Global,
    head: TwoHead,
    first: Reduced,
    second: Reduced,
) -> Result<Reduced, NoMemory>
    ensures { IfOk result (λ r. reduced_seen r ≡ around_children (around_two head) (reduced_seen first) (reduced_seen second)) }
{
    match first {
        Reduced::Stuck(k) => Ok(Reduced::Stuck(k)),
        Reduced::Reduct(u) => match second {
            Reduced::Stuck(k) => Ok(Reduced::Stuck(k)),
            Reduced::Reduct(v) => Ok(Reduced::Reduct(make_two(alloc, head, u, v)?)),
        },
    }
}

/// The normal form of a term, or the open atom that it meets.
#[cycle(reduce)]
pub fn reduce(
    alloc: Global,
    atoms: &Atoms,
    facts: &Facts,
    t: Box<Term>,
) -> Result<Reduced, NoMemory>
    ensures { IfOk result (λ r. reduced_seen r ≡ reduced (spec.normal_form atoms.now facts.now (tree_of t.value))) }
{
    match reduce_children(alloc, atoms, facts, take_apart(t))? {
        Reduced::Stuck(k) => Ok(Reduced::Stuck(k)),
        Reduced::Reduct(u) => reduce_head(alloc, atoms, facts, u),
    }
}

// The term whose children are brought to normal form.
#[cycle(reduce)]
fn reduce_children(
    alloc: Global,
    atoms: &Atoms,
    facts: &Facts,
    parts: Parts,
) -> Result<Reduced, NoMemory>
    ensures { IfOk result (λ r. reduced_seen r ≡ reduced (spec.normal_parts (spec.normal_form atoms.now facts.now) (parts_of parts))) }
{
    match parts {
        Parts::NoChild(t) => Ok(Reduced::Reduct(Box::new(alloc, t)?)),
        Parts::OneChild(head, r) => {
            let child = reduce(alloc, atoms, facts, r)?;
            with_child(alloc, head, child)
        }
        Parts::TwoChildren(head, r, s) => {
            let first = reduce(alloc, atoms, facts, r)?;
            if let Reduced::Stuck(k) = first {
                return Ok(Reduced::Stuck(k));
            }
            let second = reduce(alloc, atoms, facts, s)?;
            with_children(alloc, head, first, second)
        }
    }
}

// The normal form of a term whose children are in normal form.
#[cycle(reduce_head)]
fn reduce_head(
    alloc: Global,
    atoms: &Atoms,
    facts: &Facts,
    t: Box<Term>,
) -> Result<Reduced, NoMemory>
    requires { ChildrenAreSettled atoms.now facts.now (tree_of t.value) }
    ensures { IfOk result (λ r. reduced_seen r ≡ reduced (spec.at_head atoms.now facts.now (spec.normal_form atoms.now facts.now) (tree_of t.value))) }
{
    if let Some(k) = met(atoms, facts, &t) {
        return Ok(Reduced::Stuck(k));
    }
    match first_rule(alloc, atoms, facts, &t)? {
        None => Ok(Reduced::Reduct(t)),
        Some((_, u)) => reduce_made(alloc, atoms, facts, u),
    }
}

// The normal form of a term of which all below the children is in normal form.
#[cycle(reduce_head)]
fn reduce_made(
    alloc: Global,
    atoms: &Atoms,
    facts: &Facts,
    t: Box<Term>,
) -> Result<Reduced, NoMemory>
    requires { GrandchildrenAreSettled atoms.now facts.now (tree_of t.value) }
    ensures { IfOk result (λ r. reduced_seen r ≡ reduced (spec.normal_form atoms.now facts.now (tree_of t.value))) }
{
    match reduce_heads(alloc, atoms, facts, take_apart(t))? {
        Reduced::Stuck(k) => Ok(Reduced::Stuck(k)),
        Reduced::Reduct(u) => reduce_head(alloc, atoms, facts, u),
    }
}

// The term whose children, with all below them in normal form, are brought to normal form.
#[cycle(reduce_head)]
fn reduce_heads(
    alloc: Global,
    atoms: &Atoms,
    facts: &Facts,
    parts: Parts,
) -> Result<Reduced, NoMemory>
    requires { PartsAre (ChildrenAreSettled atoms.now facts.now) (parts_of parts) }
    ensures { IfOk result (λ r. reduced_seen r ≡ reduced (spec.normal_parts (spec.normal_form atoms.now facts.now) (parts_of parts))) }
{
    match parts {
        Parts::NoChild(t) => Ok(Reduced::Reduct(Box::new(alloc, t)?)),
        Parts::OneChild(head, r) => {
            let child = reduce_child(alloc, atoms, facts, r)?;
            with_child(alloc, head, child)
        }
        Parts::TwoChildren(head, r, s) => {
            let first = reduce_child(alloc, atoms, facts, r)?;
            if let Reduced::Stuck(k) = first {
                return Ok(Reduced::Stuck(k));
            }
            let second = reduce_child(alloc, atoms, facts, s)?;
            with_children(alloc, head, first, second)
        }
    }
}

// The normal form of a child whose own children are in normal form.
#[cycle(reduce_head)]
fn reduce_child(
    alloc: Global,
    atoms: &Atoms,
    facts: &Facts,
    t: Box<Term>,
) -> Result<Reduced, NoMemory>
    requires { ChildrenAreSettled atoms.now facts.now (tree_of t.value) }
    ensures { IfOk result (λ r. reduced_seen r ≡ reduced (spec.normal_form atoms.now facts.now (tree_of t.value))) }
{
    reduce_head(alloc, atoms, facts, t)
}
