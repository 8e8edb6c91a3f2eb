// The variables that for-each loops walk round a place.
ghost use Rattle.std.specs.Prelude.{◌≡◌, ◌++◌, [], OnOk, length, take};
ghost use Rattle.std.specs.List.{list_any};
ghost use Rattle.std.specs.Str.{bytes_eq};
ghost use Rattle.java_ast.specs.Reading.{expression};
ghost use Rattle.java_mean.specs.Places.{walking};

use java_ast::{Expr, ExprNode};
use qbs_base::{Name, NoMemory};
use std::alloc::Global;
use std::marker::Model;

/// The variables that for-each loops walk, the outermost one first.
#[derive(Drop)]
pub struct Walked<'a> {
    names: Vec<&'a [u8]>,
}

impl<'a> Model for Walked<'a> {
    ghost use Rattle.std.specs.Prelude.{List, ℕ, map};

    ghost Value = { List (List ℕ) };

    ghost view = { λ w. map (λ n. n.now) w.names.items };
}

impl<'a> Walked<'a> {
    pub fn new(alloc: Global) -> Walked<'a>
        ensures { result ≡ [] }
    {
        Walked {
            names: Vec::new(alloc),
        }
    }

    pub fn len(&self) -> usize
        ensures { result ≡ length self.now }
    {
        self.names.len()
    }

    pub fn has(&self, name: &Name) -> bool
        ensures { result ≡ list_any (bytes_eq name.now) self.now }
    {
        self.names.iter().any(|walked| name.as_slice() == *walked)
    }

    /// A for-each over a variable walks it.
    pub fn walk(&mut self, list: &'a Expr) -> Result<(), NoMemory>
        ensures { OnOk result (self.new ≡ walking (expression list.now) self.old) }
    {
        match &list.node {
            ExprNode::Var(x) => {
                self.names.push(x.as_slice())?;
                Ok(())
            }
            _ => Ok(()),
        }
    }

    /// Leaves the first ones alone.
    pub fn cut(&mut self, len: usize)
        ensures { self.new ≡ take len self.old }
    {
        self.names.truncate(len);
    }
}
