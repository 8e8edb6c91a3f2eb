// Rules at places in terms.
ghost use Rattle.std.specs.Prelude.{◌≡◌, IfOk, IfSome, option_map};
ghost use Rattle.tor_terms.specs.Plain.{tree_of};
ghost use Rattle.tor_axioms.specs.Keeps.{KeepsValue};
ghost use Rattle.tor_axioms.specs.Paths as spec;
ghost use Rattle.tor_axioms.specs.Rules.{at_head as at_head_of};
ghost use Rattle.tor_axioms.specs.Weight.{Lowers};

use crate::children::{child_at, with_child_at};
use crate::facts::{Facts, Literal};
use crate::head::at_head;
use qbs_base::NoMemory;
use std::alloc::Global;
use tor_terms::{Atom, Atoms, Term, TermPath};

// A rule at a path goes to the child that the path names first.
fn at_path(
    alloc: Global,
    rule: u32,
    path: &[u32],
    term: &Term,
    atoms: &[Atom],
    facts: &[Literal],
) -> Result<Option<Box<Term>>, NoMemory>
    ensures { IfOk result (λ o. option_map (λ u. tree_of u.value) o ≡ spec.at_path (at_head_of atoms.now facts.now rule) path.now (tree_of term.now)) }
{
    let Some((k, rest)) = path.split_first() else {
        return at_head(alloc, rule, term, atoms, facts);
    };
    match child_at(term, *k) {
        None => Ok(None),
        Some(child) => match at_path(alloc, rule, rest, child, atoms, facts)? {
            None => Ok(None),
            Some(u) => Ok(Some(with_child_at(alloc, term, *k, u)?)),
        },
    }
}

// What a rule gives at a path.
fn rewritten(
    alloc: Global,
    rule: u32,
    path: &TermPath,
    term: &Term,
    atoms: &Atoms,
    facts: &Facts,
) -> Result<Option<Term>, NoMemory>
    ensures { IfOk result (λ o. option_map tree_of o ≡ spec.applied atoms.now facts.now rule path.now (tree_of term.now)) }
{
    let path = path.as_slice();
    match at_path(alloc, rule, path, term, atoms.as_slice(), facts.as_slice())? {
        Some(u) => Ok(Some(Box::into_inner(u))),
        None => Ok(None),
    }
}

/// The term that a rule gives at a path, whose numbers count the children from 0. None comes
/// exactly where the rule's number isn't from 1 to 44, where the path leads nowhere, where the rule
/// doesn't match there, or where its condition on facts isn't met. The error is want of memory.
pub fn apply(
    alloc: Global,
    rule: u32,
    path: &TermPath,
    term: &Term,
    atoms: &Atoms,
    facts: &Facts,
) -> Result<Option<Term>, NoMemory>
    ensures exact { IfOk result (λ o. option_map tree_of o ≡ spec.applied atoms.now facts.now rule path.now (tree_of term.now)) }
    ensures keeps { IfOk result (λ o. IfSome o (λ u. KeepsValue atoms.now facts.now (tree_of term.now) (tree_of u))) }
    ensures lowers { IfOk result (λ o. Lowers (tree_of term.now) (option_map tree_of o)) }
{
    rewritten(alloc, rule, path, term, atoms, facts)
}
