// Items, and statements made of them.
use qbs_base::{Bytes, Items};

/// What an item of a dump is.
#[derive(Clone, Copy, PartialEq, Eq)]
pub enum ItemKind {
    /// Letters, digits, `_`, `$`, `#` and bytes past ASCII: a keyword, a name or a number.
    Word,
    /// A name in double quotes, backquotes or brackets, with these. Without its closing one it goes to the end of the dump.
    Quoted,
    /// A text in single quotes or between two equal dollar tags, with these. A quote that is written twice in a text ends it and begins
    /// the next.
    Text,
    Open,
    Close,
    Comma,
    Dot,
    /// What ends a statement: a semicolon, `stdin;` with the lines of data up to `\.`, a `DELIMITER` with its line, or a slash that is
    /// the last of its line.
    End,
    /// A byte that begins nothing else.
    Other,
}

/// An item and its bytes.
#[derive(Drop)]
pub struct Item {
    pub kind: ItemKind,
    pub bytes: Bytes,
}

/// The items of a statement in order, without what ends it.
pub type Statement = Items<Item>;
