// Tables and columns as a dump declares them.
use qbs_base::{Bytes, Items};

/// What a column's type is to the language.
#[derive(Clone, Copy, PartialEq, Eq)]
pub enum Sort {
    /// Whole numbers of at most 64 bits with a sign.
    Whole,
    /// Whole numbers of 64 bits without a sign: whole numbers of the language as long as the values fit.
    Unsigned,
    Truth,
    Text,
    /// Texts that the database may pad with spaces.
    Padded,
    /// Any other type, and none.
    Other,
}

/// A column: what its name means, without quotes, and whether it stood in quotes; its type, and as the dump spells it; and whether the
/// dump says that it is never NULL and that it belongs to the primary key. Both marks are as declared: a column of the primary key alone
/// has the second.
#[derive(Drop)]
pub struct DumpColumn {
    pub name: Bytes,
    pub quoted: bool,
    pub sort: Sort,
    pub spelled: Bytes,
    pub not_null: bool,
    pub primary: bool,
}

/// A table: what the last part of its name means, whether that stood in quotes, and its columns in order.
#[derive(Drop)]
pub struct DumpTable {
    pub name: Bytes,
    pub quoted: bool,
    pub columns: Items<DumpColumn>,
}
