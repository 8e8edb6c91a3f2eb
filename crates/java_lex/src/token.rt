// Tokens, and why bytes have none.
ghost use Rattle.std.specs.Prelude.{◌≡◌};
ghost use Rattle.java_lex.specs.RuleNames.{rule_number, rule_name};

use qbs_base::{Items, Name, Span, Text};
use thiserror::Error;

/// The tokens of a text in order, and the empty span at its end.
#[derive(Drop)]
pub struct Tokens {
    pub list: TokenList,
    pub end: Span,
}

pub type TokenList = Items<Token>;

/// A token and where it stands.
#[derive(Drop)]
pub struct Token {
    pub span: Span,
    pub node: TokenNode,
}

/// What a token is. A reserved word is a `Word`. `long` is true where `L` was written behind the
/// integer. A `Text` is what the literal stands for, its escapes read. A `Sign` has the bytes of one
/// operator or mark of punctuation.
#[derive(Clone, PartialEq, Eq, Drop)]
pub enum TokenNode {
    Word(Name),
    Integer { value: i64, long: bool },
    Text(Text),
    Sign(Text),
}

/// What is wrong with bytes that have no tokens. The rules are numbered from 1 in this order.
#[derive(Clone, Copy, Debug, PartialEq, Eq, Error)]
pub enum LexRule {
    /// A byte that begins no token, or stands where it may not in a text or a comment.
    #[error("a byte that begins no token")]
    BadByte,
    /// A text literal that isn't closed on its line.
    #[error("a text that is not closed")]
    OpenText,
    /// A comment that isn't closed.
    #[error("a comment that is not closed")]
    OpenComment,
    /// An integer above 9223372036854775807.
    #[error("an integer of more than 64 bits")]
    LongTooLarge,
}

impl LexRule {
    /// Its number, from 1 to 4.
    pub fn number(self) -> u64
        ensures { result ≡ rule_number self }
    {
        match self {
            LexRule::BadByte => 1,
            LexRule::OpenText => 2,
            LexRule::OpenComment => 3,
            LexRule::LongTooLarge => 4,
        }
    }

    /// Its name, as lines of refusals have it.
    pub fn name(self) -> &'static str
        ensures { result.now ≡ rule_name self }
    {
        match self {
            LexRule::BadByte => "BadByte",
            LexRule::OpenText => "OpenText",
            LexRule::OpenComment => "OpenComment",
            LexRule::LongTooLarge => "LongTooLarge",
        }
    }
}

/// The first fault of a text and its place.
#[derive(Clone, Copy, PartialEq, Eq)]
pub struct LexFault {
    pub rule: LexRule,
    pub at: Span,
}
