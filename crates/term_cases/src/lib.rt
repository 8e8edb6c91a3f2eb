//! Answers lines on terms: the term that a rule gives, what facts decide, whether a derivation is accepted, what is derived of a
//! condition, which copies are identical, and what sums come to.
#![tactic(auto)]

mod banks;
mod claims;
mod copies;
mod letters;
mod made;
mod rules;
mod terms;
mod totals;
mod values;
mod words;

use crate::banks::{put_bank, put_shared};
use crate::claims::{put_accepted, put_derived, put_derives};
use crate::copies::put_copy;
use crate::rules::{put_decided, put_formula, put_rule};
use crate::totals::put_total;
use crate::values::put_sum;
use crate::words::word_at;
use qbs_base::NoMemory;
use std::alloc::Global;

fn put_answer(out: &mut String, alloc: Global, words: &[&str], line: &str) -> Result<(), NoMemory> {
    match word_at(words, 0) {
        "rule" => put_rule(out, alloc, words),
        "decide" => put_decided(out, alloc, words),
        "formula" => put_formula(out, alloc, words),
        "accept" => put_accepted(out, alloc, words, line),
        "derive" => put_derived(out, alloc, words),
        "derives" => put_derives(out, alloc, words),
        "shared" => put_shared(out, alloc, words),
        "bank" => put_bank(out, alloc, words),
        "sum" => put_sum(out, alloc, words),
        "total" => put_total(out, alloc, words),
        _ => put_copy(out, alloc, words),
    }
}

fn put_line(out: &mut String, alloc: Global, line: &str) -> Result<(), NoMemory> {
    let mut words = Vec::new(alloc);
    for word in line.split(' ') {
        words.push(word)?;
    }
    put_answer(out, alloc, &words, line)?;
    out.push('\n')?;
    Ok(())
}

/// What each line asks for, a line for each. A line is a word and its operands:
/// `rule NUMBER PATH TERM FACTS..`, `decide ATOM FACTS..`, `formula both|either LITERAL`,
/// `accept ATOM KNOWN LEFT RIGHT : DERIVATION`, `derive ATOM KNOWN LEFT RIGHT`, `derives ATOM KNOWN LEFT RIGHT`,
/// `shared ATOM KNOWN LEFT RIGHT`, `bank TERMS..`,
/// `copy TERM TERMS..`, `sum HELD OTHER` or `total NUMBERS..`. Terms are written in postfix, one letter a step.
pub fn text_of_answers(alloc: Global, cases: &str) -> Result<String, NoMemory> {
    let mut out = String::new(alloc);
    for line in cases.lines() {
        put_line(&mut out, alloc, line)?;
    }
    Ok(out)
}
