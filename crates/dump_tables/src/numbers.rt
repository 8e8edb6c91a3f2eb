// Numbers under names.
ghost use Rattle.std.specs.Prelude.{◌≡◌, ℕ, List, OnOk, Some, None, if◌then◌else◌};
ghost use Rattle.std.specs.Str.{bytes_eq};
ghost use Rattle.dump_tables.specs.Numbered.{number_under};

use indexmap::IndexMap;
use qbs_base::NoMemory;
use std::alloc::Global;

/// A number under each name. A look-up takes one hash.
#[derive(Drop)]
pub struct Numbers<'a> {
    pub numbers: IndexMap<&'a [u8], usize>,
}

impl<'a> Numbers<'a> {
    pub fn new(alloc: Global) -> Numbers<'a>
        ensures { (x : List ℕ) → number_under result x ≡ None }
    {
        Numbers {
            numbers: IndexMap::new(alloc),
        }
    }

    pub fn of(&self, name: &[u8]) -> Option<usize>
        ensures { result ≡ number_under self.now name.now }
    {
        match self.numbers.get(name) {
            Some(number) => Some(*number),
            None => None,
        }
    }

    /// Puts a number under a name, in place of the one before.
    pub fn put(&mut self, name: &'a [u8], number: usize) -> Result<(), NoMemory>
        ensures { OnOk result ((x : List ℕ) → number_under self.new x ≡ (if bytes_eq name.now x then Some number else number_under self.old x)) }
    {
        match self.numbers.insert(name, number) {
            Ok(_) => Ok(()),
            Err(_) => Err(NoMemory),
        }
    }
}
