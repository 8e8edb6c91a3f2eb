// FROM items in sight, which are found by their aliases.
ghost use Rattle.std.specs.Prelude.{◌≡◌, ◌++◌, ◌∷◌, ◌-◌, [], ◌≤◌, ℕ, List, length, map, take, OnOk, option_map};
ghost use Rattle.sql_ast.specs.Knowns.{known_of, knowns_of, own_of};
ghost use Rattle.sql_ast.specs.Names.{innermost as innermost_item};
ghost use Rattle.sql_ast.specs.Places.{number_of};
ghost use Rattle.sql_ast.specs.Sights.{items_in, hidden_numbers, place_of};

use crate::known::Known;
use crate::places::Places;
use qbs_base::{Name, NoMemory};
use std::alloc::Global;

/// An item in sight, with the number of the last item before it that has its alias.
#[derive(Drop)]
pub struct Sighted<'a> {
    item: Known<'a>,
    hides: Option<usize>,
}

/// The FROM items in sight, those of inner SELECTs last. An item is found by its alias in a time
/// that hardly grows with how many there are.
#[derive(Drop)]
pub struct Sight<'a> {
    held: Vec<Sighted<'a>>,
    places: Places<'a>,
    ghost hiding: { map (λ s. s.hides) held.items ≡ hidden_numbers [] (knowns_of (items_in held.items)) },
    ghost found: { (alias : List ℕ) → number_of places alias ≡ place_of alias (knowns_of (items_in held.items)) },
}

impl<'a> Sight<'a> {
    ghost use Rattle.sql_ast.specs.InSight.{in_sight};

    /// Nothing is in sight.
    pub fn new(alloc: Global) -> Sight<'a>
        ensures { in_sight result ≡ [] }
    {
        Sight {
            held: Vec::new(alloc),
            places: Places::new(alloc),
        }
    }

    pub fn len(&self) -> usize
        ensures { result ≡ length (in_sight self.now) }
    {
        self.held.len()
    }

    fn push(&mut self, item: Known<'a>) -> Result<(), NoMemory>
        ensures { OnOk result (in_sight self.new ≡ in_sight self.old ++ item.entry ∷ []) }
    {
        let alias = item.alias;
        let hides = self.places.get(alias);
        self.held.push(Sighted { item, hides })?;
        let number = self.held.len();
        match self.places.put(alias, Some(number)) {
            Ok(()) => Ok(()),
            Err(error) => {
                self.held.pop();
                Err(error)
            }
        }
    }

    /// Puts the items of an inner SELECT in sight.
    pub fn enter(&mut self, own: Vec<Known<'a>>) -> Result<(), NoMemory>
        ensures { OnOk result (in_sight self.new ≡ in_sight self.old ++ own.entry.items) }
    {
        for item in own {
            self.push(item)?;
        }
        Ok(())
    }

    fn pop(&mut self) -> Result<(), NoMemory>
        ensures { OnOk result (in_sight self.new ≡ take (length (in_sight self.old) - 1) (in_sight self.old)) }
    {
        let Some(last) = self.held.last() else {
            return Ok(());
        };
        self.places.put(last.item.alias, last.hides)?;
        self.held.pop();
        Ok(())
    }

    /// Takes the items behind the first ones out of sight.
    pub fn leave(&mut self, len: usize) -> Result<(), NoMemory>
        requires { len ≤ length (in_sight self.old) }
        ensures { OnOk result (in_sight self.new ≡ take len (in_sight self.old)) }
    {
        while self.held.len() > len {
            self.pop()?;
        }
        Ok(())
    }

    /// The last item of this alias, which is the innermost one, with its number.
    pub fn innermost(&self, alias: &Name) -> Option<(usize, &Known<'a>)>
        ensures { option_map (λ x. (x.0, known_of x.1.now)) result ≡ innermost_item 1 alias.now (knowns_of (in_sight self.now)) }
    {
        match self.places.get(alias) {
            None => None,
            Some(number) => Some((number, &self.held[number - 1].item)),
        }
    }

    /// The only item behind those before, with its number.
    pub fn only(&self, before: usize) -> Option<(usize, &Known<'a>)>
        requires { before ≤ length (in_sight self.now) }
        ensures { option_map (λ x. (x.0, known_of x.1.now)) result ≡ own_of before (knowns_of (in_sight self.now)) }
    {
        if self.held.len() - before != 1 {
            return None;
        }
        Some((self.held.len(), &self.held[before].item))
    }
}
