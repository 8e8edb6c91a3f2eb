// Numbers by name.
ghost use Rattle.std.specs.Prelude.{◌≡◌, ℕ, List, OnOk, OnErr};
ghost use Rattle.std.specs.declared.option.Option.TheVariants.{None};
ghost use Rattle.sql_ast.specs.Places.{number_of, replaced};

use qbs_base::{Name, NoMemory};
use std::alloc::Global;
use std::collections::BTreeMap;

/// A number or none for each name. It takes time that grows with the logarithm of how many names
/// were ever put to find one.
#[derive(Drop)]
pub struct Places<'a> {
    numbers: BTreeMap<&'a str, Option<usize>>,
}

impl<'a> Places<'a> {
    /// No name has a number.
    pub fn new(alloc: Global) -> Places<'a>
        ensures { (name : List ℕ) → number_of result name ≡ None }
    {
        Places {
            numbers: BTreeMap::new(alloc),
        }
    }

    pub fn get(&self, name: &Name) -> Option<usize>
        ensures { result ≡ number_of self.now name.now }
    {
        *self.numbers.get(name.as_str())?
    }

    /// Gives a name another number.
    pub fn put(&mut self, name: &'a Name, number: Option<usize>) -> Result<(), NoMemory>
        ensures ok { OnOk result ((other : List ℕ) → number_of self.new other ≡ replaced (number_of self.old) name.now number other) }
        ensures err { OnErr result ((other : List ℕ) → number_of self.new other ≡ number_of self.old other) }
    {
        match self.numbers.insert(name.as_str(), number) {
            Ok(_) => Ok(()),
            Err(_) => Err(NoMemory),
        }
    }
}
