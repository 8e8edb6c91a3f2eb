// The statements of a dump.
ghost use Rattle.std.specs.Prelude.{◌≡◌, ◌++◌, ◌+◌, ◌<◌, ◌≤◌, ◌^◌, List, OnOk, IfOk, [], ◌∷◌, length};
ghost use Rattle.dump_items.specs.declared.item.Item.{Item as PlainItem};
ghost use Rattle.dump_items.specs.Pieces.{items, has_escapes};
ghost use Rattle.dump_items.specs.Statements as specs;
ghost use Rattle.dump_items.specs.Splitting as splits;
ghost use Rattle.dump_items.specs.Splitting.{total, kept};

use crate::bytes::spells;
use crate::nest::Nest;
use crate::pieces::piece;
use crate::{Item, ItemKind, Statement};
use qbs_base::{Bytes, Items, NoMemory};
use std::alloc::Global;

/// The statements that have ended, the items of the one that has begun, and what is open in it. Of a statement that is passed over
/// the first item is enough.
#[derive(Drop)]
pub struct Splitter {
    pub done: Items<Statement>,
    pub current: Statement,
    pub nest: Nest,
}

/// Whether the first item is CREATE or ALTER.
fn is_heeded(statement: &[Item]) -> bool
    ensures { result ≡ specs.is_heeded statement.now }
{
    match statement {
        [] => false,
        [first, ..] => matches!(first.kind, ItemKind::Word)
            && is_heeded_word(first.bytes.as_slice()),
    }
}

/// Whether an item more is wanted.
fn takes_more(current: &[Item]) -> bool
    ensures { result ≡ splits.takes_more current.now }
{
    match current {
        [] => true,
        [_, ..] => is_heeded(current),
    }
}

fn is_heeded_word(word: &[u8]) -> bool
    ensures { result ≡ specs.is_heeded_word word.now }
{
    spells("CREATE", word) || spells("ALTER", word)
}

/// The item of these bytes.
fn made(alloc: Global, kind: ItemKind, bytes: &[u8]) -> Result<Item, NoMemory>
    ensures { IfOk result (λ i. i ≡ record { kind = kind; bytes = bytes.now }) }
{
    Ok(Item {
        kind,
        bytes: Bytes::from_vec(bytes.to_vec(alloc)?),
    })
}

impl Splitter {
    /// Ends the statement.
    fn finish(&mut self, alloc: Global) -> Result<(), NoMemory>
        ensures done { OnOk result (self.new.done ≡ self.old.done ++ specs.heeded (self.old.current ∷ [])) }
        ensures current { self.new.current ≡ [] }
        ensures nest { self.new.nest ≡ specs.outside }
    {
        let wanted = is_heeded(self.current.as_slice());
        let statement = std::mem::replace(&mut self.current, Statement::new(alloc));
        self.nest = Nest::outside();
        if wanted {
            self.done.push(statement)?;
        }
        Ok(())
    }

    /// Adds an item that doesn't end the statement.
    fn add(&mut self, alloc: Global, kind: ItemKind, bytes: &[u8]) -> Result<(), NoMemory>
        requires depth { self.old.nest.depth < 2 ^ 63 }
        requires blocks { self.old.nest.blocks < 2 ^ 63 }
        ensures current { OnOk result (self.new.current ≡ kept self.old.current (record { kind = kind; bytes = bytes.now })) }
        ensures done { self.new.done ≡ self.old.done }
        ensures nest { self.new.nest ≡ specs.after_kind self.old.nest kind bytes.now }
        ensures depth { self.new.nest.depth ≤ self.old.nest.depth + 1 }
        ensures blocks { self.new.nest.blocks ≤ self.old.nest.blocks + 1 }
    {
        self.nest = self.nest.after(kind, bytes);
        if takes_more(self.current.as_slice()) {
            self.current.push(made(alloc, kind, bytes)?)?;
        }
        Ok(())
    }

    /// Takes what stands at the front, an item or a gap, with its bytes.
    fn take(&mut self, alloc: Global, kind: Option<ItemKind>, bytes: &[u8]) -> Result<(), NoMemory>
        requires depth { self.old.nest.depth < 2 ^ 63 }
        requires blocks { self.old.nest.blocks < 2 ^ 63 }
        ensures total { OnOk result ((is : List PlainItem)
            → total self.new.done self.new.current self.new.nest is
            ≡ total self.old.done self.old.current self.old.nest (items kind bytes.now ++ is)) }
        ensures depth { OnOk result (self.new.nest.depth ≤ self.old.nest.depth + 1) }
        ensures blocks { OnOk result (self.new.nest.blocks ≤ self.old.nest.blocks + 1) }
    {
        match kind {
            None => Ok(()),
            Some(kind) => {
                if self.nest.ends(kind, bytes) {
                    self.finish(alloc)
                } else {
                    self.add(alloc, kind, bytes)
                }
            }
        }
    }
}

/// The statements of a dump that begin with CREATE or ALTER, in order. Any bytes have some or none, and time and room go with their
/// number. It fails only by want of memory.
#[tactic(auto, unfolding(crate::specs::Statements::statements_of, crate::specs::Pieces::items_of))]
pub fn statements(alloc: Global, text: &[u8]) -> Result<Items<Statement>, NoMemory>
    ensures { IfOk result (λ list. list ≡ specs.statements_of text.now) }
{
    let escapes = text.contains(&b'`');
    let mut splitter = Splitter {
        done: Items::new(alloc),
        current: Statement::new(alloc),
        nest: Nest::outside(),
    };
    let mut rest = text;
    while !rest.is_empty() {
        let (kind, len) = piece(escapes, rest);
        let (here, after) = rest.split_at(len);
        splitter.take(alloc, kind, here)?;
        rest = after;
    }
    splitter.finish(alloc)?;
    Ok(splitter.done)
}
