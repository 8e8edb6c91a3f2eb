// The visible variables.
ghost use Rattle.std.specs.Prelude.{◌≡◌, ◌++◌, ◌∷◌, [], OnOk, length, take};
ghost use Rattle.std.proofs.Common.{false};
ghost use Rattle.java_mean.specs.Visible.{is_visible, type_at, declared_in};

use crate::JavaType;
use indexmap::IndexMap;
use qbs_base::{Name, NoMemory};
use std::alloc::Global;
use std::marker::Model;

/// The visible variables in the order of their declarations, so that a variable's place is its slot.
#[derive(Drop)]
pub struct Scope<'a> {
    names: IndexMap<&'a [u8], Option<JavaType>>,
}

impl<'a> Model for Scope<'a> {
    ghost use Rattle.std.specs.Prelude.{List, ℕ, Option, map};
    ghost use Rattle.java_mean.specs.declared.types.JavaType.{JavaType};

    ghost Value = { List (List ℕ × Option JavaType) };

    ghost view = { λ s. map (λ p. (p.0.now, p.1)) s.names.entries };
}

impl<'a> Scope<'a> {
    /// No variables.
    pub fn new(alloc: Global) -> Scope<'a>
        ensures { result ≡ [] }
    {
        Scope {
            names: IndexMap::new(alloc),
        }
    }

    /// How many variables are visible.
    pub fn len(&self) -> usize
        ensures count { result ≡ length self.now }
    {
        self.names.len()
    }

    /// Whether a variable is visible.
    pub fn has(&self, name: &Name) -> bool
        ensures { result ≡ is_visible self.now name.now }
    {
        self.names.contains_key(name.as_slice())
    }

    /// The type of a variable, where it is visible and has one.
    pub fn type_of(&self, name: &Name) -> Option<JavaType>
        ensures { result ≡ type_at self.now name.now }
    {
        match self.names.get(name.as_slice()) {
            Some(k) => *k,
            None => None,
        }
    }

    fn insert(&mut self, name: &'a Name, k: Option<JavaType>) -> Result<(), NoMemory>
        requires { is_visible self.old name.now ≡ false }
        ensures ok { OnOk result (self.new ≡ self.old ++ (name.now, k) ∷ []) }
    {
        match self.names.insert(name.as_slice(), k) {
            Ok(_) => Ok(()),
            Err(_) => Err(NoMemory),
        }
    }

    /// Makes a variable visible; one that is visible already keeps its type.
    pub fn declare(&mut self, name: &'a Name, k: Option<JavaType>) -> Result<(), NoMemory>
        ensures { OnOk result (self.new ≡ declared_in self.old name.now k) }
    {
        if self.has(name) {
            return Ok(());
        }
        self.insert(name, k)
    }

    /// Leaves the first variables alone.
    pub fn cut(&mut self, len: usize)
        ensures { self.new ≡ take len self.old }
    {
        self.names.truncate(len);
    }
}
