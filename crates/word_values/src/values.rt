// Values of options, and the numbers that words are the digits of.
ghost use Rattle.std.specs.Prelude.{◌≡◌, ◌∷◌, [], IfOk, MatchOption, Some, None, codes};
ghost use Rattle.std.specs.Fmt.{decimal};
ghost use Rattle.std.specs.Str.{bytes_eq};
ghost use Rattle.word_values.specs.Values.{behind, number_within};

use qbs_base::Text;
use std::alloc::{AllocError, Global};

/// What stands behind a prefix.
pub fn value_behind<'a>(prefix: &'static str, word: &'a str) -> Option<&'a str>
    ensures { MatchOption result (behind prefix.now word.now ≡ None) (λ value. behind prefix.now word.now ≡ Some value.now) }
{
    word.strip_prefix(prefix)
}

/// The value of `--size` behind `=`.
pub fn size_value(word: &str) -> Option<&str>
    ensures { MatchOption result (behind (codes "--size=") word.now ≡ None) (λ value. behind (codes "--size=") word.now ≡ Some value.now) }
{
    value_behind("--size=", word)
}

// Whether the word is the decimal digits of the number.
fn is_decimal(alloc: Global, word: &str, number: u64) -> Result<bool, AllocError>
    ensures { IfOk result (λ same. same ≡ bytes_eq word.now (decimal number)) }
{
    let shown = format!(in alloc; "{number}")?;
    Ok(word == shown.as_str())
}

/// The number that the word is the decimal digits of, where it lies within the range.
pub fn number_within(
    alloc: Global,
    word: &str,
    low: u64,
    high: u64,
) -> Result<Option<u64>, AllocError>
    ensures { IfOk result (λ n. n ≡ number_within low high word.now) }
{
    let Ok(number) = word.parse::<u64>() else {
        return Ok(None);
    };
    if number < low {
        return Ok(None);
    }
    if high < number {
        return Ok(None);
    }
    let same = is_decimal(alloc, word, number)?;
    if same { Ok(Some(number)) } else { Ok(None) }
}

/// The number of `--size` that the word is the decimal digits of: from 0 to 8.
pub fn size_within(alloc: Global, word: &str) -> Result<Option<u64>, AllocError>
    ensures { IfOk result (λ n. n ≡ number_within 0 8 word.now) }
{
    number_within(alloc, word, 0, 8)
}

/// The first word, and those behind it; None where there is none.
pub fn first_of(words: &[Text]) -> Option<(&Text, &[Text])>
    ensures { MatchOption result (words.now ≡ []) (λ p. words.now ≡ p.0.now ∷ p.1.now) }
{
    words.split_first()
}
