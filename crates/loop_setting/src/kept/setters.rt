// The statements of a run by the variables that they set.
ghost use Rattle.std.specs.Prelude.{◌≡◌, ◌++◌, [], ℕ, List, OnOk, IfOk, map, false, if◌then◌else◌};
ghost use Rattle.std.specs.Str.{bytes_eq};
ghost use Rattle.java_ast.specs.Reading.{statement, statements};
ghost use Rattle.loop_text.specs.Statements.Fragment as fragment;
ghost use Rattle.loop_setting.specs.Listed.{IsListed};
ghost use Rattle.java_ast.specs.Names.{with_names, names_lent};
ghost use Rattle.loop_setting.specs.Wanted.{under};
ghost use Rattle.loop_text.specs.Statements.Wanted.{one_where, setting, mentioned_in_all};

use crate::kept::mentioned::put_mentioned;
use crate::kept::name_list::NameList;
use indexmap::IndexMap;
use java_ast::{Stmt, StmtNode};
use qbs_base::{Items, Name, NoMemory};
use std::alloc::Global;

/// The variable that a statement of a run sets, and of other statements the empty name.
pub fn set_by<'a>(s: &'a Stmt, none: &'a Name) -> &'a Name
    requires { none.now ≡ [] }
    ensures { result.now ≡ fragment.set_by (statement s.now) }
{
    match &s.node {
        StmtNode::Declare {
            ty: _,
            name,
            value: _,
        } => name,
        StmtNode::Assign { name, value: _ } => name,
        StmtNode::Sort {
            name,
            keys: _,
            down: _,
        } => name,
        _ => none,
    }
}

// Puts what these statements mention behind the names of a list.
#[tactic(auto, using(crate::proofs::Gathered::gathered))]
fn put_mentioned_in_all<'a>(all: &[&'a Stmt], list: &mut NameList<'a>) -> Result<(), NoMemory>
    requires { IsListed list.old }
    ensures names { OnOk result (names_lent list.new.names ≡ with_names (names_lent list.old.names) (mentioned_in_all (map (λ s. statement s.now) all.now))) }
    ensures listed { OnOk result (IsListed list.new) }
{
    for s in all {
        put_mentioned(s, list)?;
    }
    Ok(())
}

/// The statements of a run under the variables that they set. A look-up takes one hash.
#[derive(Drop)]
pub struct Setters<'a> {
    pub alloc: Global,
    pub groups: IndexMap<&'a [u8], Items<&'a Stmt>>,
}

impl<'a> Setters<'a> {
    fn new(alloc: Global) -> Setters<'a>
        ensures { (x : List ℕ) → under result x ≡ [] }
    {
        Setters {
            alloc,
            groups: IndexMap::new(alloc),
        }
    }

    /// Puts what the statements mention that set a variable behind the names of a list.
    #[tactic(auto, using(crate::proofs::Gathered::gathered))]
    pub fn put_mentioned_by(&self, x: &Name, list: &mut NameList<'a>) -> Result<(), NoMemory>
        requires { IsListed list.old }
        ensures names { OnOk result (names_lent list.new.names ≡ with_names (names_lent list.old.names) (mentioned_in_all (under self.now x.now))) }
        ensures listed { OnOk result (IsListed list.new) }
    {
        match self.groups.get(x.as_slice()) {
            Some(group) => put_mentioned_in_all(group.as_slice(), list),
            None => Ok(()),
        }
    }

    // Takes the statements of a variable out.
    fn take(&mut self, x: &[u8]) -> Items<&'a Stmt>
        ensures group { map (λ s. statement s.now) result ≡ under self.old x.now }
        ensures others { (y : List ℕ) → bytes_eq x.now y ≡ false → under self.new y ≡ under self.old y }
    {
        match self.groups.swap_remove(x) {
            Some(group) => group,
            None => Items::new(self.alloc),
        }
    }

    // Gives these statements to a variable.
    fn give(&mut self, x: &'a [u8], group: Items<&'a Stmt>) -> Result<(), NoMemory>
        ensures { OnOk result ((y : List ℕ) → under self.new y ≡ (if bytes_eq x.now y then map (λ s. statement s.now) group.entry else under self.old y)) }
    {
        match self.groups.insert(x, group) {
            Ok(_) => Ok(()),
            Err(_) => Err(NoMemory),
        }
    }

    // Puts a statement behind the others under this name.
    fn put_under(&mut self, x: &'a [u8], s: &'a Stmt) -> Result<(), NoMemory>
        ensures { OnOk result ((y : List ℕ) → under self.new y ≡ under self.old y ++ one_where (bytes_eq x.now y) (statement s.now)) }
    {
        let mut group = self.take(x);
        group.push(s)?;
        self.give(x, group)
    }

    // Puts a statement behind the others that set its variable.
    fn put(&mut self, s: &'a Stmt) -> Result<(), NoMemory>
        ensures { OnOk result ((y : List ℕ) → under self.new y ≡ under self.old y ++ one_where (bytes_eq (fragment.set_by (statement s.now)) y) (statement s.now)) }
    {
        match &s.node {
            StmtNode::Declare {
                ty: _,
                name,
                value: _,
            } => self.put_under(name.as_slice(), s),
            StmtNode::Assign { name, value: _ } => self.put_under(name.as_slice(), s),
            StmtNode::Sort {
                name,
                keys: _,
                down: _,
            } => self.put_under(name.as_slice(), s),
            _ => self.put_under(&[], s),
        }
    }
}

/// The statements of a run by the variables that they set.
pub fn setters_of<'a>(alloc: Global, run: &'a [Stmt]) -> Result<Setters<'a>, NoMemory>
    ensures { IfOk result (λ r. (x : List ℕ) → under r x ≡ setting x (statements run.now)) }
{
    let mut setters = Setters::new(alloc);
    for s in run {
        setters.put(s)?;
    }
    Ok(setters)
}
