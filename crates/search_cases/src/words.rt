// Words of a line.
use qbs_base::{Items, NoMemory};
use std::alloc::Global;

/// The word of a number, or nothing where there are fewer.
pub fn word_at<'a>(words: &[&'a str], n: usize) -> &'a str {
    words.get(n).copied().unwrap_or("")
}

/// The number that a word is, or 0.
pub fn number_at(words: &[&str], n: usize) -> u32 {
    word_at(words, n).parse().unwrap_or(0)
}

/// The numbers that the words from a number on are.
pub fn numbers_from(alloc: Global, words: &[&str], n: usize) -> Result<Items<u32>, NoMemory> {
    let mut numbers = Items::new(alloc);
    for word in words.iter().skip(n) {
        numbers.push(word.parse().unwrap_or(0))?;
    }
    Ok(numbers)
}
