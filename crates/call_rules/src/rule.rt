// The rules that calls of helpers may break.
ghost use Rattle.std.specs.Prelude.{◌≡◌};
ghost use Rattle.java_calls.specs.Rules.{rule_number};
ghost use Rattle.call_rules.specs.Faults.{plain_rule, rule_name};

use qbs_base::Span;
use thiserror::Error;

/// A rule of helpers, in the order of their numbers from 1 to 5.
#[derive(Clone, Copy, Debug, PartialEq, Eq, Error)]
pub enum HelperRule {
    /// The called name is no method of the class.
    #[error("no such method")]
    NoMethod,
    /// A call has another number of arguments than the method has parameters.
    #[error("wrong number of arguments")]
    Arguments,
    /// The call isn't the whole value of a statement, or the method has no result that the statement may take.
    #[error("no result for the call")]
    Result,
    /// A method reaches itself by calls.
    #[error("recursive method")]
    Recursive,
    /// There are too many statements after inlining.
    #[error("too many statements")]
    TooLarge,
}

impl HelperRule {
    /// Its number, from 1 to 5.
    pub fn number(self) -> u64
        ensures { result ≡ rule_number (plain_rule self) }
    {
        match self {
            HelperRule::NoMethod => 1,
            HelperRule::Arguments => 2,
            HelperRule::Result => 3,
            HelperRule::Recursive => 4,
            HelperRule::TooLarge => 5,
        }
    }

    /// Its name, as lines of refusals have it.
    pub fn name(self) -> &'static str
        ensures { result.now ≡ rule_name self }
    {
        match self {
            HelperRule::NoMethod => "NoMethod",
            HelperRule::Arguments => "Arguments",
            HelperRule::Result => "Result",
            HelperRule::Recursive => "Recursive",
            HelperRule::TooLarge => "TooLarge",
        }
    }
}

/// A rule that is broken, and the place where it is.
#[derive(Clone, Copy, PartialEq, Eq)]
pub struct HelperFault {
    pub rule: HelperRule,
    pub at: Span,
}
