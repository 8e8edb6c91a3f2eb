// What is wrong with a schema or with a table.
ghost use Rattle.std.specs.Prelude.{◌≡◌};
ghost use Rattle.schema.specs.RuleNames.{rule_number, rule_name, data_rule_number, data_rule_name};

use qbs_base::Span;
use thiserror::Error;

/// What is wrong with a text that is no schema. The rules are numbered from 1 in this order.
#[derive(Clone, Copy, Debug, PartialEq, Eq, Error)]
pub enum SchemaRule {
    /// A token, or a byte that begins no token, with which no schema goes on, or the end of the
    /// text where a schema would go on.
    #[error("no schema goes on with this token")]
    BadToken,
    /// The name of a table that an earlier table has.
    #[error("a table of this name stands before")]
    DoubleTable,
    /// The name of a column that an earlier column of its table has.
    #[error("a column of this name stands before")]
    DoubleColumn,
    /// A name that no table, or no column, may have.
    #[error("a reserved name")]
    NameReserved,
    /// The 65th table.
    #[error("more than 64 tables")]
    TooManyTables,
    /// The 33rd column of a table.
    #[error("more than 32 columns")]
    TooManyColumns,
}

impl SchemaRule {
    /// Its number, from 1 to 6.
    pub fn number(self) -> u64
        ensures { result ≡ rule_number self }
    {
        match self {
            SchemaRule::BadToken => 1,
            SchemaRule::DoubleTable => 2,
            SchemaRule::DoubleColumn => 3,
            SchemaRule::NameReserved => 4,
            SchemaRule::TooManyTables => 5,
            SchemaRule::TooManyColumns => 6,
        }
    }

    /// Its name, as lines of refusals have it.
    pub fn name(self) -> &'static str
        ensures { result.now ≡ rule_name self }
    {
        match self {
            SchemaRule::BadToken => "BadToken",
            SchemaRule::DoubleTable => "DoubleTable",
            SchemaRule::DoubleColumn => "DoubleColumn",
            SchemaRule::NameReserved => "NameReserved",
            SchemaRule::TooManyTables => "TooManyTables",
            SchemaRule::TooManyColumns => "TooManyColumns",
        }
    }
}

/// The first fault of a text and its place: of two rules that one name breaks the one of the
/// smaller number.
#[derive(Clone, Copy, PartialEq, Eq)]
pub struct SchemaFault {
    pub rule: SchemaRule,
    pub at: Span,
}

/// What is wrong with a text that is no table of a schema. The rules are numbered from 1 in this
/// order.
#[derive(Clone, Copy, Debug, PartialEq, Eq, Error)]
pub enum DataRule {
    /// The first record isn't the names of the columns in order.
    #[error("the header is not the names of the columns")]
    Header,
    /// A record that has not one field for each column.
    #[error("a record of another width")]
    Width,
    /// A field of a Long column that is no whole number of 64 bits.
    #[error("no whole number of 64 bits")]
    BadLong,
    /// A field of a Bool column that is neither `true` nor `false`.
    #[error("neither true nor false")]
    BadBool,
    /// A field of a Text column that isn't UTF-8.
    #[error("no UTF-8")]
    BadUtf8,
    /// The record 1000001.
    #[error("more than 1000000 rows")]
    TooManyRows,
}

impl DataRule {
    /// Its number, from 1 to 6.
    pub fn number(self) -> u64
        ensures { result ≡ data_rule_number self }
    {
        match self {
            DataRule::Header => 1,
            DataRule::Width => 2,
            DataRule::BadLong => 3,
            DataRule::BadBool => 4,
            DataRule::BadUtf8 => 5,
            DataRule::TooManyRows => 6,
        }
    }

    /// Its name, as lines of refusals have it.
    pub fn name(self) -> &'static str
        ensures { result.now ≡ data_rule_name self }
    {
        match self {
            DataRule::Header => "Header",
            DataRule::Width => "Width",
            DataRule::BadLong => "BadLong",
            DataRule::BadBool => "BadBool",
            DataRule::BadUtf8 => "BadUtf8",
            DataRule::TooManyRows => "TooManyRows",
        }
    }
}

/// The rule that the first bad row breaks in its first bad field, and the number of the row: the
/// header is row 0, and the records after it are counted from 1.
#[derive(Clone, Copy, PartialEq, Eq)]
pub struct DataFault {
    pub rule: DataRule,
    pub row: u64,
}
