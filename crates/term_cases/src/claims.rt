// Conditions, that two terms have one value over an atom of which something is known: which derivations of them are
// accepted, and what is derived.
use crate::terms::term_of;
use crate::words::word_at;
use deriv_accept::accepts;
use deriv_check::{parse_derivation, print_derivation};
use qbs_base::{Items, NoMemory, Scalar};
use std::alloc::{AllocError, Global};
use tor_axioms::{Condition, Derivation, Literal, Literals, Vc};
use tor_prover::{derive, derives};
use tor_terms::{Atom, Atoms, Operand, Term};

// The only atom: that column 2 is 2, or that column 4 is true.
fn atoms(alloc: Global, word: &str) -> Result<Atoms, NoMemory> {
    let mut atoms = Items::new(alloc);
    let atom = match word {
        "role" => Atom::Same(Operand::Field(0, 2), Operand::Lit(Scalar::Long(2))),
        _ => Atom::Truth(Operand::Field(0, 4)),
    };
    atoms.push(atom)?;
    Ok(atoms)
}

// That it holds for each `+`, and that it doesn't for each `-`.
fn facts(alloc: Global, word: &str) -> Result<Literals, NoMemory> {
    let mut facts = Items::new(alloc);
    for sign in word.as_bytes() {
        match *sign {
            b'+' => facts.push(Literal {
                atom: 0,
                holds: true,
            })?,
            b'-' => facts.push(Literal {
                atom: 0,
                holds: false,
            })?,
            _ => {}
        }
    }
    Ok(facts)
}

fn over(
    alloc: Global,
    words: &[&str],
    left: Box<Term>,
    right: Box<Term>,
) -> Result<Box<Vc>, NoMemory> {
    let atoms = atoms(alloc, word_at(words, 1))?;
    let facts = facts(alloc, word_at(words, 2))?;
    let vc = Vc {
        atoms,
        facts,
        left: Box::into_inner(left),
        right: Box::into_inner(right),
    };
    Ok(Box::new(alloc, vc)?)
}

// The condition of a line: its atom, what is known of it, and two terms.
pub fn condition_of(alloc: Global, words: &[&str]) -> Result<Box<Vc>, NoMemory> {
    let left = term_of(alloc, word_at(words, 3))?;
    let right = term_of(alloc, word_at(words, 4))?;
    over(alloc, words, left, right)
}

// The lines of a derivation, which stand behind a colon with semicolons between them.
fn derivation_in(alloc: Global, line: &str) -> Result<String, AllocError> {
    let mut text = String::new(alloc);
    let lines = line.split_once(':').unwrap_or(("", "")).1;
    for part in lines.split(';') {
        text.push_str(part.strip_prefix(' ').unwrap_or(part))?;
        text.push('\n')?;
    }
    Ok(text)
}

fn verdict(alloc: Global, vc: &Vc, text: &str) -> Result<&'static str, NoMemory> {
    match parse_derivation(alloc, text.as_bytes()) {
        Ok(derivation) => {
            let derivation = Box::new(alloc, derivation)?;
            if accepts(alloc, vc, &derivation)? {
                Ok("accepted")
            } else {
                Ok("refused")
            }
        }
        Err(_) => Ok("no derivation"),
    }
}

/// Appends whether the derivation of a line is accepted for its condition.
pub fn put_accepted(
    out: &mut String,
    alloc: Global,
    words: &[&str],
    line: &str,
) -> Result<(), NoMemory> {
    let vc = condition_of(alloc, words)?;
    let text = derivation_in(alloc, line)?;
    let verdict = verdict(alloc, &vc, text.as_str())?;
    Ok(out.push_str(verdict)?)
}

/// Appends a derivation that was found, its lines with semicolons between them, or that there is none.
pub fn put_derivation(
    out: &mut String,
    alloc: Global,
    found: Option<Derivation>,
) -> Result<(), NoMemory> {
    match found {
        Some(derivation) => {
            let derivation = Box::new(alloc, derivation)?;
            let text = print_derivation(alloc, &derivation)?;
            Ok(out.push_str(text.as_str().trim_end())?)
        }
        None => Ok(out.push_str("none")?),
    }
}

/// Appends the derivation that is found of a condition, its lines with semicolons between them, or that there is none.
pub fn put_derived(out: &mut String, alloc: Global, words: &[&str]) -> Result<(), NoMemory> {
    let vc = condition_of(alloc, words)?;
    let found = derive(alloc, &vc)?;
    put_derivation(out, alloc, found)
}

/// Appends whether a condition is derived, which makes no derivation.
pub fn put_derives(out: &mut String, alloc: Global, words: &[&str]) -> Result<(), NoMemory> {
    let vc = condition_of(alloc, words)?;
    let Vc {
        atoms,
        facts,
        left,
        right,
    } = Box::into_inner(vc);
    let condition = Box::new(alloc, Condition { facts, left, right })?;
    let is_derived = derives(alloc, &atoms, &condition)?;
    Ok(out.push_str(if is_derived { "yes" } else { "no" })?)
}
