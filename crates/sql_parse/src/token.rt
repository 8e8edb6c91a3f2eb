// The tokens of a query.
ghost use Rattle.std.specs.Prelude.{◌≡◌, true};
ghost use Rattle.sql_ast.specs.Tokens.{is_number};
ghost use Rattle.sql_parse.specs.Seen.{number_below};

use qbs_base::{Name, Text};
use sql_ast::Cmp;
use std::marker::Model;

/// Decimal digits, at least one.
#[derive(Drop)]
pub struct Numeral {
    digits: Text,
}

impl Model for Numeral {
    ghost use Rattle.std.specs.Prelude.{◌≡◌, ℕ, List, true};
    ghost use Rattle.sql_ast.specs.Tokens.{is_number};

    ghost Value = { List ℕ };

    ghost view = { λ a. a.digits };

    ghost invariant = { λ a. is_number a.digits ≡ true };
}

#[tactic(auto, using(crate::proofs::Numbers::parsed))]
fn number(digits: &str) -> Option<u64>
    requires { is_number digits.now ≡ true }
    ensures { result ≡ number_below digits.now }
{
    digits.parse::<u64>().ok()
}

impl Numeral {
    pub fn new(digits: Text) -> Numeral
        requires { is_number digits ≡ true }
        ensures { result ≡ digits }
    {
        Numeral { digits }
    }

    pub fn as_str(&self) -> &str
        ensures value { result.now ≡ self.now }
        ensures digits { is_number self.now ≡ true }
    {
        self.digits.as_str()
    }

    /// The number, if it is below 2^64.
    pub fn value(&self) -> Option<u64>
        ensures { result ≡ number_below self.now }
    {
        number(self.as_str())
    }
}

/// A token: a word is a name or a keyword, a `Negative` has a minus before its digits, and a
/// `Quoted` is what the text in quotes stands for.
#[derive(Drop)]
pub enum Token {
    Word(Name),
    Digits(Numeral),
    Negative(Numeral),
    Quoted(Text),
    Param(u32),
    Test(Cmp),
    Open,
    Close,
    Comma,
    Dot,
    Star,
}
