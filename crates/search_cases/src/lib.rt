//! Answers lines on fragments, texts and numbers: what a search finds, with its derivations, a query, conditions, candidates, or the
//! offset of a fault.
#![tactic(auto)]

mod building;
mod choices;
mod claims;
mod conjuncts;
mod emission;
mod finding;
mod formulas;
mod known;
mod parts;
mod pruning;
mod refuting;
mod texts;
mod words;
mod worked;

use crate::building::{Building, put_part};
use crate::choices::{put_choice, put_last};
use crate::claims::{put_conditions, put_each};
use crate::conjuncts::put_conjuncts;
use crate::emission::put_emitted;
use crate::finding::put_found;
use crate::pruning::put_pruned;
use crate::texts::put_text;
use crate::words::{number_at, word_at};
use crate::worked::put_worked;
use kernel_lang::KFragment;
use qbs_base::NoMemory;
use std::alloc::Global;

// What is asked of a fragment.
fn put_asked(
    out: &mut String,
    alloc: Global,
    frag: &KFragment,
    words: &[&str],
) -> Result<(), NoMemory> {
    match word_at(words, 0) {
        "search" => put_found(
            out,
            alloc,
            frag,
            number_at(words, 1),
            number_at(words, 2),
            &[],
        ),
        "pruned" => put_pruned(out, alloc, frag, words),
        "emit" => put_emitted(out, alloc, frag, words),
        "worked" => put_worked(out, alloc, frag, words),
        "conditions" => put_conditions(out, alloc, frag, words),
        "own" => put_each(out, alloc, frag),
        _ => put_last(out, alloc, frag),
    }
}

// A line is a part of the fragment that is being built, or it asks something of the fragment that was built, or of a pool.
fn put_words(
    out: &mut String,
    alloc: Global,
    building: &mut Building,
    words: &[&str],
) -> Result<(), NoMemory> {
    match word_at(words, 0) {
        "search" | "pruned" | "emit" | "worked" | "conditions" | "own" | "last" => {
            match KFragment::from_parts(building.take(alloc)) {
                Ok(frag) => put_asked(out, alloc, &frag, words),
                Err(_) => Ok(out.push_str("not valid\n")?),
            }
        }
        "conjuncts" => put_conjuncts(out, alloc, building, words),
        "count" | "nth" | "greatest" => put_choice(out, alloc, words),
        _ => put_part(alloc, building, words),
    }
}

// The text of a line stands behind its first word.
fn put_line(
    out: &mut String,
    alloc: Global,
    building: &mut Building,
    line: &str,
) -> Result<(), NoMemory> {
    let mut words = Vec::new(alloc);
    for word in line.split(' ') {
        words.push(word)?;
    }
    match word_at(&words, 0) {
        "derivation" | "bundle" | "cut" => {
            let text = line.split_once(' ').unwrap_or(("", "")).1;
            put_text(out, alloc, word_at(&words, 0), text)
        }
        _ => put_words(out, alloc, building, &words),
    }
}

/// What the lines find, a text that ends with a line feed for each that asks: of the fragment that the lines before it build
/// (`search SIZE BUDGET`, `pruned keep|drop|want SIZE BUDGET`, `emit LABEL NUMBERS..`, `worked NUMBERS..`,
/// `conditions NUMBERS..`, `own` and `last`), of their conditions (`conjuncts LOOPS..`), of a pool of some size
/// (`count SIZE LENGTH`, `nth SIZE NUMBER` and `greatest SIZE`), or of a text (`derivation TEXT`, `bundle TEXT` and `cut TEXT`).
pub fn text_of_answers(alloc: Global, cases: &str) -> Result<String, NoMemory> {
    let mut out = String::new(alloc);
    let mut building = Building::new(alloc);
    for line in cases.lines() {
        put_line(&mut out, alloc, &mut building, line)?;
    }
    Ok(out)
}
