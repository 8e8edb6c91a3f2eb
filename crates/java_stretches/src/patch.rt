// What stands in place of bytes of a source.
use java_ast::{Path, Stmts};
use qbs_base::{Items, Text};

/// A text that stands in place of the bytes of a source from the number `from` up to `to`, both counted from 0. The line in which it
/// begins has this margin of spaces and tabs, and so has each further line of the text.
///
/// It is the text of the statements of `block`, which stand in a program in place of those from the number `first` to the one to which
/// the path leads.
#[derive(Drop)]
pub struct Patch {
    pub from: u64,
    pub to: u64,
    pub margin: Text,
    pub text: Text,
    pub path: Path,
    pub first: u64,
    pub block: Stmts,
}

/// Patches in the order of the source.
pub type Patches = Items<Patch>;
