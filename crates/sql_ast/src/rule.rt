// The rules that a query text may break.
use thiserror::Error;

/// A rule of query texts, from the first that is looked at to the last.
#[derive(Clone, Copy, Debug, PartialEq, Eq, Error)]
pub enum SqlRule {
    /// The text is in the grammar.
    #[error("not a query")]
    BadToken,
    /// Tables, aliases and columns are known, a column or `*` without an alias stands in a SELECT
    /// with one FROM item, and the aliases of one FROM differ.
    #[error("unknown name")]
    Unknown,
    /// The types of comparisons, IN, totals and bare columns fit.
    #[error("types do not fit")]
    Mismatch,
    /// A group has one FROM item, the grouped column as its item, and MIN of that item's `_pos` as
    /// its only key; there is no other MIN key.
    #[error("not such a group")]
    BadGroup,
    /// Parameters are numbered without gaps, and each is compared with columns of one type.
    #[error("wrong parameters")]
    BadParameter,
}
