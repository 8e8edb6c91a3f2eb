//! What the names of a schema are the names of, and how many tables there may be.
use qbs_base::Names;

/// What the next token is in a schema.
#[derive(Clone, Copy, PartialEq, Eq)]
pub enum Where {
    /// The word CREATE.
    Create,
    /// The word TABLE.
    Table,
    /// The name of a table.
    TableName,
    /// The parenthesis behind the name of a table.
    Open,
    /// The name of a column, or the word PRIMARY of the key clause.
    ColumnName,
    /// Something of a column or of the key clause, or what ends it.
    Body,
    /// Something in the inner parentheses of a column or of the key clause.
    Inner,
    /// The semicolon behind a table.
    End,
}

/// What a name is the name of.
#[derive(Clone, Copy, PartialEq, Eq)]
pub enum Role {
    Table,
    Column,
}

/// The names that stand before: those of the tables, and those of the columns of the last table.
#[derive(Drop)]
pub struct Seen {
    pub tables: Names,
    pub columns: Names,
}

ghost use Rattle.std.specs.Prelude.{◌≡◌, nat_le};

/// A schema has no more tables.
const MOST_TABLES: usize = 64;

/// Whether no table may follow so many.
pub fn is_full(tables: usize) -> bool
    ensures { result ≡ nat_le 64 tables }
{
    tables >= MOST_TABLES
}
