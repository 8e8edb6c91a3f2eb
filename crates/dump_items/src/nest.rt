// What is open where a statement may end.
ghost use Rattle.std.specs.Prelude.{◌≡◌, ◌+◌, ◌<◌, ◌≤◌, ◌^◌};
ghost use Rattle.dump_items.specs.Statements as specs;

use crate::ItemKind;
use crate::bytes::{begins_with, spells};

/// What is open: parentheses, and the blocks of a trigger or the like.
#[derive(Clone, Copy)]
pub struct Nest {
    pub depth: usize,
    pub blocks: usize,
    /// Whether the statement is of a trigger, a function or the like.
    pub routine: bool,
    /// Whether the item before is END.
    pub ended: bool,
}

fn names_routine(word: &[u8]) -> bool
    ensures { result ≡ specs.names_routine word.now }
{
    spells("TRIGGER", word)
        || spells("FUNCTION", word)
        || spells("PROCEDURE", word)
        || spells("EVENT", word)
        || spells("PACKAGE", word)
}

fn is_compound(word: &[u8]) -> bool
    ensures { result ≡ specs.is_compound word.now }
{
    spells("IF", word) || spells("LOOP", word) || spells("WHILE", word) || spells("REPEAT", word)
}

impl Nest {
    /// Where nothing is open.
    pub fn outside() -> Nest
        ensures { result ≡ specs.outside }
    {
        Nest {
            depth: 0,
            blocks: 0,
            routine: false,
            ended: false,
        }
    }

    fn blocks_after(self, word: &[u8]) -> usize
        requires { self.blocks < 2 ^ 63 }
        ensures { result ≡ specs.blocks_after self word.now }
    {
        if spells("BEGIN", word) {
            self.blocks + 1
        } else if spells("END", word) {
            self.blocks.saturating_sub(1)
        } else if self.ended {
            if is_compound(word) {
                self.blocks + 1
            } else {
                self.blocks
            }
        } else if spells("CASE", word) {
            self.blocks + 1
        } else {
            self.blocks
        }
    }

    fn after_word(self, word: &[u8]) -> Nest
        requires { self.blocks < 2 ^ 63 }
        ensures { result ≡ specs.after_word self word.now }
    {
        Nest {
            depth: self.depth,
            blocks: if self.routine {
                self.blocks_after(word)
            } else {
                self.blocks
            },
            routine: self.routine || names_routine(word),
            ended: spells("END", word),
        }
    }

    /// What is open behind an item.
    pub fn after(self, kind: ItemKind, bytes: &[u8]) -> Nest
        requires depth { self.depth < 2 ^ 63 }
        requires blocks { self.blocks < 2 ^ 63 }
        ensures value { result ≡ specs.after_kind self kind bytes.now }
        ensures depth { result.depth ≤ self.depth + 1 }
        ensures blocks { result.blocks ≤ self.blocks + 1 }
    {
        let depth = match kind {
            ItemKind::Open => self.depth + 1,
            ItemKind::Close => self.depth.saturating_sub(1),
            ItemKind::Word if self.depth == 0 => return self.after_word(bytes),
            ItemKind::Word => return self,
            _ => self.depth,
        };
        Nest {
            depth,
            blocks: self.blocks,
            routine: self.routine,
            ended: false,
        }
    }

    /// Whether an item ends the statement.
    pub fn ends(self, kind: ItemKind, bytes: &[u8]) -> bool
        ensures { result ≡ specs.ends self kind bytes.now }
    {
        matches!(kind, ItemKind::End)
            && self.depth == 0
            && (self.blocks == 0 || !begins_with(b';', bytes))
    }
}
