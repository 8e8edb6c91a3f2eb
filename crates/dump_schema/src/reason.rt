// Why something of a dump is left out.

/// Why a column or a table is left out.
#[derive(Clone, Copy, PartialEq, Eq)]
pub enum Reason {
    /// A type that the language hasn't.
    NoType,
    /// A name of other bytes than letters, digits and `_`, or that begins with a digit.
    NoName,
    /// A word that no column, or no table, may be named.
    Reserved,
    /// The name of a column or table that is written already.
    Twice,
    /// The 33rd column of a table.
    ManyColumns,
    /// The 65th table.
    ManyTables,
    /// A table without a column.
    NoColumn,
}
