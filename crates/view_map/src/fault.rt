// What is wrong with a text that is no map.
ghost use Rattle.std.specs.Prelude.{◌≡◌};
ghost use Rattle.view_map.specs.RuleNames.{rule_number, rule_name};

use thiserror::Error;

/// What is wrong with a text that is no map. The rules are numbered from 1 in this order.
#[derive(Clone, Copy, Debug, PartialEq, Eq, Error)]
pub enum MapRule {
    /// An item with which no map goes on, or the end of the text where a map would go on; or a template, at its first item, whose holes
    /// aren't those of its kind.
    #[error("no map goes on with this item")]
    Unexpected,
    /// The name of a table or of a column that the schema hasn't, or of a Java class that no table before has.
    #[error("no table, column or class of this name")]
    Unknown,
    /// A Java class, a table, a member of a class, a fetch pattern, a constant, a template or `texts` given a second time; a Java class
    /// with the name of a class of the language; or a template that is the front of another.
    #[error("given before")]
    DoubleName,
    /// A type that isn't one of the column's, or of the literal.
    #[error("the type isn't one of the column's")]
    Mismatch,
    /// A member of a column that may be NULL, without `never null`.
    #[error("the column may be NULL")]
    Nullable,
}

impl MapRule {
    /// Its number, from 1 to 5.
    pub fn number(self) -> u64
        ensures { result ≡ rule_number self }
    {
        match self {
            MapRule::Unexpected => 1,
            MapRule::Unknown => 2,
            MapRule::DoubleName => 3,
            MapRule::Mismatch => 4,
            MapRule::Nullable => 5,
        }
    }

    /// Its name, as lines of refusals have it.
    pub fn name(self) -> &'static str
        ensures { result.now ≡ rule_name self }
    {
        match self {
            MapRule::Unexpected => "Unexpected",
            MapRule::Unknown => "Unknown",
            MapRule::DoubleName => "DoubleName",
            MapRule::Mismatch => "Mismatch",
            MapRule::Nullable => "Nullable",
        }
    }
}

/// The first fault of a text, and at one place the one of the smallest number: its rule, and how many bytes stand before it.
#[derive(Clone, Copy, PartialEq, Eq)]
pub struct MapFault {
    pub rule: MapRule,
    pub at: usize,
}
