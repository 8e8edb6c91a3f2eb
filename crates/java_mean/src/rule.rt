// The rules that a program may break.
ghost use Rattle.std.specs.Prelude.{◌≡◌};
ghost use Rattle.java_mean.specs.RuleNames.{rule_number, rule_name};

use qbs_base::Span;
use thiserror::Error;

/// A type rule, in the order of their numbers from 1 to 11.
#[derive(Clone, Copy, Debug, PartialEq, Eq, Error)]
pub enum TypeRule {
    /// A variable, a table or a column isn't known.
    #[error("unknown name")]
    Unknown,
    /// An operand, a value or a condition isn't of the type that it is to have.
    #[error("types do not fit")]
    Mismatch,
    /// A visible variable is declared again, a variable is called `db`, or two methods have one name.
    #[error("name declared twice")]
    DoubleName,
    /// Two texts are compared by `==` or `!=`.
    #[error("texts compared by identity")]
    TextIdentity,
    /// A variable of a list or a set is given the value of another variable.
    #[error("two names for one list")]
    ListAlias,
    /// A list or a set is changed in a for-each that walks it.
    #[error("list changed while it is walked")]
    ModifiedInLoop,
    /// A text has no query of the call's form and elements.
    #[error("not such a query")]
    BadQuery,
    /// The query of a list has no order that is complete.
    #[error("query without a complete order")]
    UnorderedQuery,
    /// A `return` isn't the last statement of its method, or a method with a result has none.
    #[error("return at a wrong place")]
    ReturnPlace,
    /// A query has another number of arguments than its text has parameters.
    #[error("wrong number of arguments")]
    Arity,
    /// A `break` stands in no loop, or isn't the last statement of its block.
    #[error("break at a wrong place")]
    BreakPlace,
}

impl TypeRule {
    /// Its number, from 1 to 11.
    pub fn number(self) -> u64
        ensures { result ≡ rule_number self }
    {
        match self {
            TypeRule::Unknown => 1,
            TypeRule::Mismatch => 2,
            TypeRule::DoubleName => 3,
            TypeRule::TextIdentity => 4,
            TypeRule::ListAlias => 5,
            TypeRule::ModifiedInLoop => 6,
            TypeRule::BadQuery => 7,
            TypeRule::UnorderedQuery => 8,
            TypeRule::ReturnPlace => 9,
            TypeRule::Arity => 10,
            TypeRule::BreakPlace => 11,
        }
    }

    /// Its name, as lines of refusals have it.
    pub fn name(self) -> &'static str
        ensures { result.now ≡ rule_name self }
    {
        match self {
            TypeRule::Unknown => "Unknown",
            TypeRule::Mismatch => "Mismatch",
            TypeRule::DoubleName => "DoubleName",
            TypeRule::TextIdentity => "TextIdentity",
            TypeRule::ListAlias => "ListAlias",
            TypeRule::ModifiedInLoop => "ModifiedInLoop",
            TypeRule::BadQuery => "BadQuery",
            TypeRule::UnorderedQuery => "UnorderedQuery",
            TypeRule::ReturnPlace => "ReturnPlace",
            TypeRule::Arity => "Arity",
            TypeRule::BreakPlace => "BreakPlace",
        }
    }
}

/// A type rule that is broken, and the place where it is.
#[derive(Clone, Copy, PartialEq, Eq)]
pub struct TypeFault {
    pub rule: TypeRule,
    pub at: Span,
}
