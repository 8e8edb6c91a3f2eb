// Words and numbers of a line.
ghost use Rattle.std.specs.Prelude.{◌≡◌, ◌++◌, IfOk, option_copied};
ghost use Rattle.std.specs.List.{slice_split};
ghost use Rattle.cases.specs.Lines.{is_blank, first_word, rest_of, number_in, words_in, one_more, before_end};

use qbs_base::{NoMemory, Text, Words};
use std::alloc::Global;

/// The first word of a line, and what stands behind it.
pub fn first_and_rest(line: &str) -> (&str, &str)
    ensures first { result.0.now ≡ first_word line.now }
    ensures rest { result.1.now ≡ rest_of line.now }
{
    line.split_once(' ').unwrap_or((line, ""))
}

/// The number of a word, which is 0 where it is none.
pub fn number_of(word: &str) -> u64
    ensures { result ≡ number_in word.now }
{
    word.parse::<u64>().unwrap_or(0)
}

/// The text before this end, where it has that end.
pub fn without_end<'a>(text: &'a str, end: &str) -> Option<&'a str>
    ensures { option_copied result ≡ before_end end.now text.now }
{
    text.strip_suffix(end)
}

// The words between the blanks of a line.
fn words_between(alloc: Global, line: &str) -> Result<Vec<Text>, NoMemory>
    ensures { IfOk result (λ v. v.items ≡ slice_split is_blank line.now) }
{
    let mut words = Vec::new(alloc);
    for word in line.split(' ') {
        words.push(Text::from_str(alloc, word)?)?;
    }
    Ok(words)
}

/// The words of a line, and one more, where there is one.
pub fn words_of(alloc: Global, line: &str, last: &str) -> Result<Words, NoMemory>
    ensures { IfOk result (λ ws. ws ≡ words_in line.now ++ one_more last.now) }
{
    let mut words = if line.is_empty() {
        Vec::new(alloc)
    } else {
        words_between(alloc, line)?
    };
    if !last.is_empty() {
        words.push(Text::from_str(alloc, last)?)?;
    }
    Ok(Words::from_vec(words))
}
