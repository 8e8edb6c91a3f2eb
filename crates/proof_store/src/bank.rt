// A bank of small databases.
ghost use Rattle.std.specs.Prelude.{◌≡◌, [], List, false, true, IfOk, OnErr, ◌↔◌};
ghost use Rattle.small_dbs.specs.declared.small.SmallDb.{SmallDb as Item};
ghost use Rattle.proof_store.specs.Banks.{Puts, Refuses};
ghost use Rattle.proof_store.specs.Grammar.{IsStored};
ghost use Rattle.proof_store.specs.Limits.{is_within};

use crate::same::{are_numbered, refuses};
use qbs_base::{Items, NoMemory};
use small_dbs::{SmallDb, SmallDbs};
use std::alloc::Global;
use std::marker::Model;

/// Small databases in the order in which they were put: at most 256, each within the limits of a store.
#[derive(Drop)]
pub struct Bank {
    items: SmallDbs,
    ghost stored: { IsStored items },
}

impl Model for Bank {
    ghost Value = { List Item };

    ghost view = { λ b. b.items };
}

impl Bank {
    /// A bank of nothing. It takes no memory.
    pub fn new(alloc: Global) -> Bank
        ensures { result ≡ [] }
    {
        Bank {
            items: Items::new(alloc),
        }
    }

    /// A bank of these items.
    pub fn of_items(items: SmallDbs) -> Bank
        requires { IsStored items }
        ensures { result ≡ items }
    {
        Bank { items }
    }

    /// The items, in the order in which they were put.
    pub fn items(&self) -> &[SmallDb]
        ensures value { result.now ≡ self.now }
        ensures stored { IsStored self.now }
    {
        self.items.as_slice()
    }

    /// Puts an item behind the others. False where 256 are held or an equal one is: then nothing changes. Only want of memory is an error,
    /// and changes nothing.
    pub fn put(&mut self, item: SmallDb) -> Result<bool, NoMemory>
        requires { is_within item ≡ true }
        ensures puts { IfOk result (λ b. Puts self.old item self.new) }
        ensures refused { IfOk result (λ b. (b ≡ false) ↔ Refuses self.old item) }
        ensures err { OnErr result (self.new ≡ self.old) }
    {
        // no item has so many tables
        if !are_numbered(&item.db) {
            return Err(NoMemory);
        }
        if refuses(self.items.as_slice(), &item) {
            return Ok(false);
        }
        self.items.push(item)?;
        Ok(true)
    }
}
