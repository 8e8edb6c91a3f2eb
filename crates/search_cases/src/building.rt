// A fragment that is built line by line.
use crate::formulas::formula_of;
use crate::parts::{atom_of, scalar_of, update_at};
use crate::words::{number_at, word_at};
use kernel_lang::{Acc, Accs, Col, Cols, Guards, ListDef, ListDefs, Parts};
use qbs_base::{Items, NoMemory, Ty, Tys};
use std::alloc::Global;
use std::mem;
use tor_terms::{Atoms, Formulas, Loops};

/// The parts of a fragment so far. Keys wait for their list, levels and pools for their accumulator.
#[derive(Drop)]
pub struct Building {
    lists: ListDefs,
    /// The atoms so far.
    pub atoms: Atoms,
    accs: Accs,
    entries: Tys,
    known: u32,
    keys: Cols,
    chain: Loops,
    guards: Guards,
    /// The pool of the next accumulator.
    pub pool: Formulas,
}

impl Building {
    /// Nothing so far.
    pub fn new(alloc: Global) -> Building {
        Building {
            lists: Items::new(alloc),
            atoms: Items::new(alloc),
            accs: Items::new(alloc),
            entries: Items::new(alloc),
            known: 0,
            keys: Items::new(alloc),
            chain: Items::new(alloc),
            guards: Items::new(alloc),
            pool: Items::new(alloc),
        }
    }

    /// The parts that were built. The next ones begin with nothing.
    pub fn take(&mut self, alloc: Global) -> Parts {
        let built = mem::replace(self, Building::new(alloc));
        Parts {
            lists: built.lists,
            atoms: built.atoms,
            accs: built.accs,
            entries: built.entries,
            known: built.known,
        }
    }
}

fn put_list(alloc: Global, building: &mut Building, words: &[&str]) -> Result<(), NoMemory> {
    let keys = mem::replace(&mut building.keys, Items::new(alloc));
    let limit = match word_at(words, 2) {
        "-" => None,
        word => Some(word.parse().unwrap_or(0)),
    };
    let table = number_at(words, 1);
    building.lists.push(ListDef { table, keys, limit })
}

fn put_level(alloc: Global, building: &mut Building, words: &[&str]) -> Result<(), NoMemory> {
    building.chain.push(number_at(words, 1))?;
    match formula_of(alloc, words.get(2..).unwrap_or(&[]))? {
        Some(guard) => building.guards.push(Some(Box::into_inner(guard))),
        None => building.guards.push(None),
    }
}

fn put_in_pool(alloc: Global, building: &mut Building, words: &[&str]) -> Result<(), NoMemory> {
    match formula_of(alloc, words.get(1..).unwrap_or(&[]))? {
        Some(f) => building.pool.push(Box::into_inner(f)),
        None => Ok(()),
    }
}

// An accumulator: its base, its update, what it starts with, and whether the opposite is kept.
fn put_acc(alloc: Global, building: &mut Building, words: &[&str]) -> Result<(), NoMemory> {
    let start = match word_at(words, 6) {
        "-" => None,
        kind => Some(scalar_of(alloc, kind, word_at(words, 7))?),
    };
    let chain = mem::replace(&mut building.chain, Items::new(alloc));
    let guards = mem::replace(&mut building.guards, Items::new(alloc));
    let pool = mem::replace(&mut building.pool, Items::new(alloc));
    building.accs.push(Acc {
        chain,
        base: number_at(words, 1),
        guards,
        update: update_at(words, 2),
        start,
        opposite: word_at(words, 8) == "opposite",
        pool,
    })
}

fn type_of(word: &str) -> Ty {
    match word {
        "Text" => Ty::Text,
        "Bool" => Ty::Bool,
        _ => Ty::Long,
    }
}

/// Takes in one part of a fragment.
pub fn put_part(alloc: Global, building: &mut Building, words: &[&str]) -> Result<(), NoMemory> {
    match word_at(words, 0) {
        "key" => building.keys.push(Col {
            column: number_at(words, 1),
            down: word_at(words, 2) == "down",
        }),
        "list" => put_list(alloc, building, words),
        "atom" => {
            let atom = atom_of(alloc, words)?;
            building.atoms.push(atom)
        }
        "level" => put_level(alloc, building, words),
        "pool" => put_in_pool(alloc, building, words),
        "acc" => put_acc(alloc, building, words),
        "entry" => building.entries.push(type_of(word_at(words, 1))),
        "known" => {
            building.known = number_at(words, 1);
            Ok(())
        }
        _ => Ok(()),
    }
}
