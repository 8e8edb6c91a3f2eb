//! Keywords.
ghost use Rattle.std.specs.Prelude.{◌≡◌};
ghost use Rattle.schema.specs.Words.{spells as word_spells};

/// Whether a word is a keyword in any letter case.
pub fn spells(keyword: &str, word: &[u8]) -> bool
    ensures { result ≡ word_spells keyword.now word.now }
{
    keyword.as_bytes().eq_ignore_ascii_case(word)
}
