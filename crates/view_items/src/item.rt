// Items of a Java file.
use qbs_base::Bytes;

/// What an item of a Java file is.
#[derive(Clone, Copy, PartialEq, Eq)]
pub enum ItemKind {
    /// A text between `"""`, with these.
    Block,
    /// A text between quotes on one line, with these.
    Text,
    /// A character between single quotes on one line, with these.
    Char,
    /// Letters, digits, `_`, `$` and bytes past ASCII, not a digit first: a name or a word of the language.
    Name,
    Number,
    /// The longest sign that stands there, or a byte that begins nothing else: so a quote that isn't closed on its line, and the slash
    /// of a comment that isn't closed. `>>` is two signs.
    Sign,
}

/// An item: its kind, its bytes, and where they stand in the file, from the first byte to the one behind the last.
#[derive(Drop)]
pub struct Item {
    pub kind: ItemKind,
    pub bytes: Bytes,
    pub from: usize,
    pub to: usize,
}
