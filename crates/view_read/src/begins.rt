// Words by the items that they begin with, so that a method has only those listed that it names.
use indexmap::IndexMap;
use qbs_base::NoMemory;
use std::alloc::Global;
use view_items::Item;

/// First items of words, numbered in the order in which they were put. A look-up takes one hash.
#[derive(Drop)]
pub struct Begins<'a> {
    numbers: IndexMap<&'a [u8], usize>,
}

impl<'a> Begins<'a> {
    pub fn new(alloc: Global) -> Begins<'a> {
        Begins {
            numbers: IndexMap::new(alloc),
        }
    }

    fn of(&self, first: &[u8]) -> Option<usize> {
        self.numbers.get(first).copied()
    }

    /// The number of a first item, a new one where it has none.
    pub fn put(&mut self, first: &'a [u8]) -> Result<usize, NoMemory> {
        if let Some(number) = self.of(first) {
            return Ok(number);
        }
        let number = self.numbers.len();
        match self.numbers.insert(first, number) {
            Ok(_) => Ok(number),
            Err(_) => Err(NoMemory),
        }
    }

    /// For each number whether one of these items is that first one. Time goes with the number of items and of numbers.
    pub fn named(&self, alloc: Global, items: &[Item]) -> Result<Vec<bool>, NoMemory> {
        let mut named = Vec::new(alloc);
        for _ in 0..self.numbers.len() {
            named.push(false)?;
        }
        for item in items {
            if let Some(number) = self.of(item.bytes.as_slice()) {
                if let Some(slot) = named.get_mut(number) {
                    *slot = true;
                }
            }
        }
        Ok(named)
    }
}

/// Whether the word with a first item is named.
pub fn is_named(named: &[bool], first: Option<usize>) -> bool {
    match first {
        Some(number) => named.get(number).copied().unwrap_or(false),
        None => false,
    }
}
