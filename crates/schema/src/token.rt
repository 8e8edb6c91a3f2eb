//! The tokens of a schema.
use crate::keywords::spells;
use qbs_base::{Name, Span, Ty};

/// A mark of punctuation.
#[derive(Clone, Copy, PartialEq, Eq)]
pub enum Sign {
    Open,
    Close,
    Comma,
    Semicolon,
}

/// What a token is. Keywords are words too. `Digits` is a run of decimal digits, and `Stray` a byte
/// that begins no token.
#[derive(Drop)]
pub enum Kind {
    Word(Name),
    Digits,
    Sign(Sign),
    Stray,
}

/// A token and where it stands.
#[derive(Drop)]
pub struct Token {
    pub kind: Kind,
    pub at: Span,
}

ghost use Rattle.std.specs.Prelude.{◌≡◌};
ghost use Rattle.std.specs.Option.{option_copied};
ghost use Rattle.schema.specs.Reading.{type_in, type_of as type_of_word, word_in, is_word as is_word_kind, is_sign as is_sign_kind, is_digits as is_digits_kind, same_sign as are_same_sign};
ghost use Rattle.schema.specs.Schemas.{first_span as first_span_of};

/// The type that a word names by itself.
fn type_of(word: &[u8]) -> Option<Ty>
    ensures { result ≡ type_of_word word.now }
{
    if spells("BIGINT", word) || spells("INTEGER", word) || spells("INT", word) {
        Some(Ty::Long)
    } else if spells("BOOLEAN", word) {
        Some(Ty::Bool)
    } else if spells("TEXT", word) {
        Some(Ty::Text)
    } else {
        None
    }
}

fn same_sign(a: Sign, b: Sign) -> bool
    ensures { result ≡ are_same_sign a b }
{
    a == b
}

impl Token {
    /// The word that the token is.
    pub fn word(&self) -> Option<&Name>
        ensures { option_copied result ≡ word_in self.now.kind }
    {
        match &self.kind {
            Kind::Word(word) => Some(word),
            _ => None,
        }
    }

    /// Whether the token is this keyword in any letter case.
    pub fn is_word(&self, keyword: &str) -> bool
        ensures { result ≡ is_word_kind keyword.now self.now.kind }
    {
        match &self.kind {
            Kind::Word(word) => spells(keyword, word.as_slice()),
            _ => false,
        }
    }

    /// The type that the token names by itself.
    pub fn ty(&self) -> Option<Ty>
        ensures { result ≡ type_in self.now.kind }
    {
        match &self.kind {
            Kind::Word(word) => type_of(word.as_slice()),
            _ => None,
        }
    }

    pub fn is_sign(&self, sign: Sign) -> bool
        ensures { result ≡ is_sign_kind sign self.now.kind }
    {
        match &self.kind {
            Kind::Sign(other) => same_sign(sign, *other),
            _ => false,
        }
    }

    pub fn is_digits(&self) -> bool
        ensures { result ≡ is_digits_kind self.now.kind }
    {
        matches!(&self.kind, Kind::Digits)
    }
}

/// Where the first of these tokens stands, or else the end.
pub fn first_span(end: Span, tokens: &[Token]) -> Span
    ensures { result ≡ first_span_of end tokens.now }
{
    match tokens {
        [] => end,
        [first, ..] => first.at,
    }
}
