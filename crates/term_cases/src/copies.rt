// Copies of terms, which are identical to what they are copies of, and to no other term.
use crate::letters::put_term;
use crate::terms::term_of;
use crate::words::word_at;
use qbs_base::{NoMemory, held};
use std::alloc::Global;
use tor_terms::{copy_term, same_term};

/// Appends for each of the terms behind the first one whether the copy of that is identical to it, and then the copy.
pub fn put_copy(out: &mut String, alloc: Global, words: &[&str]) -> Result<(), NoMemory> {
    let original = term_of(alloc, word_at(words, 1))?;
    let copy = held(alloc, copy_term(alloc, &original))?;
    for word in words.iter().skip(2) {
        let other = term_of(alloc, word)?;
        out.push(if same_term(&copy, &other) { '=' } else { '.' })?;
    }
    out.push(' ')?;
    Ok(put_term(out, &copy)?)
}
