// Terms that are put into a bank, and conditions that are derived over one.
use crate::claims::{condition_of, put_derivation};
use crate::terms::term_of;
use qbs_base::{NoMemory, held};
use std::alloc::Global;
use std::fmt::Write;
use term_bank::TermBank;
use tor_axioms::Vc;
use tor_prover::derive_with;
use tor_terms::{Term, same_term};

// Whether a bank has a term at a place.
fn has_at(alloc: Global, bank: &TermBank, number: usize, term: &Term) -> Result<bool, NoMemory> {
    if number >= bank.len() {
        return Ok(false);
    }
    let own = held(alloc, bank.term(alloc, number))?;
    Ok(same_term(&own, term))
}

fn put_one(
    out: &mut String,
    alloc: Global,
    bank: &mut TermBank,
    word: &str,
) -> Result<(), NoMemory> {
    let term = term_of(alloc, word)?;
    let number = bank.put(alloc, &term)?;
    let sign = if has_at(alloc, bank, number, &term)? {
        '='
    } else {
        '.'
    };
    let len = bank.len();
    Ok(write!(out, " {number}{sign}{len}")?)
}

/// Appends for each term of a line, put into one bank, its place there, whether the bank has it at that place, and how many terms it has.
pub fn put_bank(out: &mut String, alloc: Global, words: &[&str]) -> Result<(), NoMemory> {
    let mut bank = TermBank::new(alloc);
    out.push_str("bank")?;
    for word in words.iter().skip(1) {
        put_one(out, alloc, &mut bank, word)?;
    }
    Ok(())
}

fn put_over(out: &mut String, alloc: Global, bank: &mut TermBank, vc: &Vc) -> Result<(), NoMemory> {
    let found = derive_with(alloc, bank, vc)?;
    put_derivation(out, alloc, found)?;
    let len = bank.len();
    Ok(write!(out, " : {len}")?)
}

/// Appends what is derived of a condition over an empty bank, and how many terms it has then, and the same once more over that bank.
pub fn put_shared(out: &mut String, alloc: Global, words: &[&str]) -> Result<(), NoMemory> {
    let vc = condition_of(alloc, words)?;
    let mut bank = TermBank::new(alloc);
    put_over(out, alloc, &mut bank, &vc)?;
    out.push_str(" | ")?;
    put_over(out, alloc, &mut bank, &vc)
}
