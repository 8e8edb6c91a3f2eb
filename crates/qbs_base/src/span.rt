// Places in texts.

/// A stretch of a text. `line` and `column` are those of its first byte, both counted from 1, the
/// column in bytes; only a line feed ends a line. `start` and `end` are offsets in bytes from 0,
/// `end` that of the byte behind the last one.
#[derive(Clone, Copy, PartialEq, Eq)]
pub struct Span {
    pub line: u64,
    pub column: u64,
    pub start: u64,
    pub end: u64,
}
