// Keys that were given.
ghost use Rattle.std.specs.Prelude.{◌≡◌, ◌++◌, ◌∷◌, [], not, IsTrue, IfOk};
ghost use Rattle.view_map.specs.Keys.{is_key};

use indexmap::IndexSet;
use qbs_base::NoMemory;
use std::alloc::Global;
use std::marker::Model;

/// The keys that were given, in order. To add one takes one hash.
#[derive(Drop)]
pub struct Keys {
    keys: IndexSet<Vec<u8>>,
}

impl Model for Keys {
    ghost use Rattle.std.specs.Prelude.{List, ℕ, map};

    ghost Value = { List (List ℕ) };

    ghost view = { λ s. map (λ k. k.items) s.keys.keys };
}

impl Keys {
    pub fn new(alloc: Global) -> Keys
        ensures { result ≡ [] }
    {
        Keys {
            keys: IndexSet::new(alloc),
        }
    }

    /// Adds a key, unless it was given, and says whether it is new.
    pub fn add(&mut self, key: Vec<u8>) -> Result<bool, NoMemory>
        ensures is_new { IfOk result (λ is_new. is_new ≡ not (is_key self.old key.items)) }
        ensures added { IfOk result (λ is_new. IsTrue is_new → self.new ≡ self.old ++ key.items ∷ []) }
    {
        match self.keys.insert(key) {
            Ok(is_new) => Ok(is_new),
            Err(_) => Err(NoMemory),
        }
    }
}
