// Why tokens are no program.
ghost use Rattle.std.specs.Prelude.{◌≡◌};
ghost use Rattle.java_parser.specs.RuleNames.{rule_number, rule_name};

use qbs_base::Span;
use thiserror::Error;

/// What is wrong with tokens. The rules are numbered from 1 in this order.
#[derive(Clone, Copy, Debug, PartialEq, Eq, Error)]
pub enum ParseRule {
    /// No program goes on with this token, or none ends here.
    #[error("no program goes on with this token")]
    Unexpected,
    /// More than 64 things are open at this token, or a chain has more than 64 operators.
    #[error("nested too deeply")]
    TooDeep,
}

impl ParseRule {
    /// Its number, 1 or 2.
    pub fn number(self) -> u64
        ensures { result ≡ rule_number self }
    {
        match self {
            ParseRule::Unexpected => 1,
            ParseRule::TooDeep => 2,
        }
    }

    /// Its name, as lines of refusals have it.
    pub fn name(self) -> &'static str
        ensures { result.now ≡ rule_name self }
    {
        match self {
            ParseRule::Unexpected => "Unexpected",
            ParseRule::TooDeep => "TooDeep",
        }
    }
}

/// The fault kept: its rule, its place, and the number of the token, counted from 0. At the end of
/// the text the number is that of the tokens.
#[derive(Clone, Copy, PartialEq, Eq)]
pub struct ParseFault {
    pub rule: ParseRule,
    pub at: Span,
    pub token: u64,
}
