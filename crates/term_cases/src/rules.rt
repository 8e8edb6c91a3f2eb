// Each rule applied at a path, and what facts decide.
use crate::letters::put_term;
use crate::made::{both, either, is};
use crate::terms::term_of;
use crate::words::{literal_of, number_at, path_of, word_at};
use qbs_base::{Items, NoMemory};
use std::alloc::Global;
use tor_axioms::{Facts, Known, WithAnswer, apply, decide_formula};
use tor_terms::{Atom, Atoms, Formula, Operand};

// Atom 0 is of loop 0, atom 1 too, atoms 2 and 3 are an order and its opposite, 4 and 5 compare an
// operand with itself.
fn atoms(alloc: Global) -> Result<Atoms, NoMemory> {
    let mut list = Items::new(alloc);
    list.push(Atom::Truth(Operand::Field(0, 3)))?;
    list.push(Atom::Truth(Operand::Field(0, 4)))?;
    list.push(Atom::Less(Operand::Field(0, 1), Operand::Entry(0)))?;
    list.push(Atom::Less(Operand::Entry(0), Operand::Field(0, 1)))?;
    list.push(Atom::Less(Operand::Entry(0), Operand::Entry(0)))?;
    list.push(Atom::Same(Operand::Entry(0), Operand::Entry(0)))?;
    Ok(list)
}

// Facts with one literal more, and nothing where they contradict each other.
fn added(
    alloc: Global,
    facts: &Facts,
    all: &Atoms,
    word: &str,
) -> Result<Option<Box<Facts>>, NoMemory> {
    let (atom, holds) = literal_of(word);
    match facts.with(alloc, all, atom, holds) {
        WithAnswer::Facts(more) => Ok(Some(Box::new(alloc, more)?)),
        WithAnswer::Contradiction => Ok(None),
        WithAnswer::NoMemory => Err(NoMemory),
    }
}

// The facts that the words from a number on are, and nothing where they contradict each other.
fn facts_from(
    alloc: Global,
    all: &Atoms,
    words: &[&str],
    n: usize,
) -> Result<Option<Box<Facts>>, NoMemory> {
    let mut facts = Box::new(alloc, Facts::none(alloc))?;
    for word in words.iter().skip(n) {
        match added(alloc, &facts, all, word)? {
            Some(more) => facts = more,
            None => return Ok(None),
        }
    }
    Ok(Some(facts))
}

fn put_applied(
    out: &mut String,
    alloc: Global,
    all: &Atoms,
    facts: &Facts,
    words: &[&str],
) -> Result<(), NoMemory> {
    let path = path_of(alloc, word_at(words, 2))?;
    let start = term_of(alloc, word_at(words, 3))?;
    match apply(alloc, number_at(words, 1), &path, &start, all, facts)? {
        Some(end) => {
            let end = Box::new(alloc, end)?;
            put_term(out, &end)?;
        }
        None => out.push_str("refused")?,
    }
    Ok(())
}

/// Appends the term that a rule gives at a path of a term, under facts; or that it doesn't match there.
pub fn put_rule(out: &mut String, alloc: Global, words: &[&str]) -> Result<(), NoMemory> {
    let all = atoms(alloc)?;
    match facts_from(alloc, &all, words, 4)? {
        Some(facts) => put_applied(out, alloc, &all, &facts, words),
        None => Ok(out.push_str("contradiction")?),
    }
}

fn name_of(known: Known) -> &'static str {
    match known {
        Known::Yes => "yes",
        Known::No => "no",
        Known::Open => "open",
    }
}

/// Appends what facts say of an atom, or that they contradict each other.
pub fn put_decided(out: &mut String, alloc: Global, words: &[&str]) -> Result<(), NoMemory> {
    let all = atoms(alloc)?;
    match facts_from(alloc, &all, words, 2)? {
        Some(facts) => {
            let known = facts.decide(&all, number_at(words, 1));
            Ok(out.push_str(name_of(known))?)
        }
        None => Ok(out.push_str("contradiction")?),
    }
}

// Both or either of atom 0 and a literal.
fn with_first(alloc: Global, kind: &str, literal: &str) -> Result<Box<Formula>, NoMemory> {
    let (atom, holds) = literal_of(literal);
    let first = is(alloc, 0, true)?;
    let second = is(alloc, atom, holds)?;
    if kind == "both" {
        both(alloc, first, second)
    } else {
        either(alloc, first, second)
    }
}

/// Appends what is known of a formula where nothing is recorded.
pub fn put_formula(out: &mut String, alloc: Global, words: &[&str]) -> Result<(), NoMemory> {
    let all = atoms(alloc)?;
    let formula = with_first(alloc, word_at(words, 1), word_at(words, 2))?;
    let known = decide_formula(all.as_slice(), &[], &formula);
    Ok(out.push_str(name_of(known))?)
}
