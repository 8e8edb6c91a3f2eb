//! What is listed under names, and numbers that are listed under numbers.
ghost use Rattle.std.specs.Prelude.{◌≡◌, [], IfOk, OnOk};
ghost use Rattle.loop_text.specs.Sites.Groups as specs;
ghost use Rattle.loop_text.specs.Sites.Sites.{has_number};

use indexmap::{IndexMap, IndexSet};
use qbs_base::{Items, Name, NoMemory};
use std::alloc::Global;
use std::marker::Model;

/// Lists under names. A look-up takes one hash.
#[derive(Drop)]
pub struct ByName<'a, V> {
    lists: IndexMap<&'a [u8], Items<V>>,
}

impl<'a, V> Model for ByName<'a, V> {
    ghost use Rattle.std.specs.Prelude.{List, ℕ, map};

    ghost Value = { List (List ℕ × List V) };

    ghost view = { λ s. map (λ p. (p.0.now, p.1)) s.lists.entries };
}

fn or_none<V>(alloc: Global, list: Option<Items<V>>) -> Items<V>
    ensures { result ≡ specs.or_none list }
{
    match list {
        Some(list) => list,
        None => Items::new(alloc),
    }
}

impl<'a, V> ByName<'a, V> {
    /// No lists.
    pub fn new(alloc: Global) -> ByName<'a, V>
        ensures { result ≡ [] }
    {
        ByName {
            lists: IndexMap::new(alloc),
        }
    }

    /// What is listed under a name.
    pub fn of(&self, name: &Name) -> &[V]
        ensures { result.now ≡ specs.under_name self.now name.now }
    {
        match self.lists.get(name.as_slice()) {
            Some(list) => list.as_slice(),
            None => &[],
        }
    }
}

impl<'a, V: Drop> ByName<'a, V> {
    fn replace(&mut self, name: &'a Name, list: Items<V>) -> Result<Option<Items<V>>, NoMemory>
        ensures old { IfOk result (λ o. specs.or_none o ≡ specs.under_name self.old name.now) }
        ensures new { OnOk result (self.new ≡ specs.put_under_name self.old name.now list) }
    {
        match self.lists.insert(name.as_slice(), list) {
            Ok(old) => Ok(old),
            Err(_) => Err(NoMemory),
        }
    }

    /// Lists one more under a name. Where memory runs out the lists are of no use.
    pub fn push(&mut self, alloc: Global, name: &'a Name, item: V) -> Result<(), NoMemory>
        ensures { OnOk result (specs.AddsUnderName self.old name.now item self.new) }
    {
        let mut list = or_none(alloc, self.replace(name, Items::new(alloc))?);
        list.push(item)?;
        self.replace(name, list)?;
        Ok(())
    }
}

/// Numbers under numbers. A look-up takes one hash.
#[derive(Drop)]
pub struct ByNumber {
    lists: IndexMap<usize, Items<usize>>,
}

impl Model for ByNumber {
    ghost use Rattle.std.specs.Prelude.{List, ℕ};

    ghost Value = { List (ℕ × List ℕ) };

    ghost view = { λ s. s.lists.entries };
}

impl ByNumber {
    /// No lists.
    pub fn new(alloc: Global) -> ByNumber
        ensures { result ≡ [] }
    {
        ByNumber {
            lists: IndexMap::new(alloc),
        }
    }

    /// The numbers under a number.
    pub fn of(&self, key: usize) -> &[usize]
        ensures { result.now ≡ specs.under_number self.now key }
    {
        match self.lists.get(&key) {
            Some(list) => list.as_slice(),
            None => &[],
        }
    }

    fn replace(&mut self, key: usize, list: Items<usize>) -> Result<Option<Items<usize>>, NoMemory>
        ensures old { IfOk result (λ o. specs.or_none o ≡ specs.under_number self.old key) }
        ensures new { OnOk result (self.new ≡ specs.put_under_number self.old key list) }
    {
        match self.lists.insert(key, list) {
            Ok(old) => Ok(old),
            Err(_) => Err(NoMemory),
        }
    }

    /// Puts one more number under a number. Where memory runs out the lists are of no use.
    pub fn push(&mut self, alloc: Global, key: usize, number: usize) -> Result<(), NoMemory>
        ensures { OnOk result (specs.AddsUnderNumber self.old key number self.new) }
    {
        let mut list = or_none(alloc, self.replace(key, Items::new(alloc))?);
        list.push(number)?;
        self.replace(key, list)?;
        Ok(())
    }
}

/// Numbers. A look-up takes one hash.
#[derive(Drop)]
pub struct NumberSet {
    numbers: IndexSet<usize>,
}

impl Model for NumberSet {
    ghost use Rattle.std.specs.Prelude.{List, ℕ};

    ghost Value = { List ℕ };

    ghost view = { λ s. s.numbers.keys };
}

impl NumberSet {
    /// No numbers.
    pub fn new(alloc: Global) -> NumberSet
        ensures { result ≡ [] }
    {
        NumberSet {
            numbers: IndexSet::new(alloc),
        }
    }

    /// Whether a number is among them.
    pub fn has(&self, number: usize) -> bool
        ensures { result ≡ has_number self.now number }
    {
        self.numbers.contains(&number)
    }

    /// Puts a number among them. Where memory runs out they are of no use.
    pub fn put(&mut self, number: usize) -> Result<(), NoMemory>
        ensures { OnOk result (specs.HasMore self.old number self.new) }
    {
        match self.numbers.insert(number) {
            Ok(_) => Ok(()),
            Err(_) => Err(NoMemory),
        }
    }
}
