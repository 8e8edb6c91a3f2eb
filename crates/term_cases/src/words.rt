// Words of a line.
use qbs_base::{Items, NoMemory};
use std::alloc::Global;
use tor_terms::TermPath;

/// The word of a number, or nothing where there are fewer.
pub fn word_at<'a>(words: &[&'a str], n: usize) -> &'a str {
    words.get(n).copied().unwrap_or("")
}

/// The number that a word is, or 0.
pub fn number_at(words: &[&str], n: usize) -> u32 {
    word_at(words, n).parse().unwrap_or(0)
}

/// The whole number that a word is, or 0.
pub fn whole_at(words: &[&str], n: usize) -> i64 {
    word_at(words, n).parse().unwrap_or(0)
}

/// The atom of a literal, and whether it holds: `!1` is that atom 1 doesn't.
pub fn literal_of(word: &str) -> (u32, bool) {
    match word.strip_prefix('!') {
        Some(atom) => (atom.parse().unwrap_or(0), false),
        None => (word.parse().unwrap_or(0), true),
    }
}

/// The path of a word: `-` leads to the head, and `1.0` to the first child of the second one.
pub fn path_of(alloc: Global, word: &str) -> Result<TermPath, NoMemory> {
    let mut path = Items::new(alloc);
    if word == "-" {
        return Ok(path);
    }
    for child in word.split('.') {
        path.push(child.parse().unwrap_or(0))?;
    }
    Ok(path)
}
