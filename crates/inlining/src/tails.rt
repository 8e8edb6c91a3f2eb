// What the names of a class end in.
ghost use Rattle.std.specs.Prelude.{◌≡◌, ◌≤◌, ◌<◌, ◌+◌, ◌-◌, suc, [], length, take, drop, IfOk, OnOk};
ghost use Rattle.java_ast.specs.Names.{is_among, with_name};
ghost use Rattle.java_calls.specs.ProgramNames.{dotted_parts};
ghost use Rattle.inlining.specs.Endings.{tail_of, noted, all_noted, onto};

use indexmap::IndexSet;
use qbs_base::{Name, NoMemory, Text};
use std::alloc::Global;
use std::marker::Model;

/// What names end in: of each name what stands behind its last `_`, that included, and how many names there were. A look-up
/// takes one hash.
#[derive(Drop)]
pub struct Tails<'a> {
    tails: IndexSet<&'a [u8]>,
    count: usize,
}

impl<'a> Model for Tails<'a> {
    ghost use Rattle.std.specs.Prelude.{List, ℕ, map};

    ghost Value = { List (List ℕ) × ℕ };

    ghost view = { λ s. (map (λ k. k.now) s.tails.keys, s.count) };
}

fn tail(name: &[u8]) -> &[u8]
    ensures { result.now ≡ tail_of name.now }
{
    let mut tail: &[u8] = &[];
    for i in 0..name.len() {
        if name[i] == b'_' {
            tail = &name[i..];
        }
    }
    tail
}

impl<'a> Tails<'a> {
    /// Of no names.
    pub fn new(alloc: Global) -> Tails<'a>
        ensures { result ≡ ([], 0) }
    {
        Tails {
            tails: IndexSet::new(alloc),
            count: 0,
        }
    }

    /// How many names there were.
    pub fn count(&self) -> usize
        ensures { result ≡ self.now.1 }
    {
        self.count
    }

    /// Whether some name ends so.
    pub fn has(&self, x: &[u8]) -> bool
        ensures { result ≡ is_among self.now.0 x.now }
    {
        self.tails.contains(x)
    }

    fn insert(&mut self, x: &'a [u8]) -> Result<(), NoMemory>
        ensures { OnOk result (self.new ≡ (with_name self.old.0 x.now, self.old.1)) }
    {
        match self.tails.insert(x) {
            Ok(_) => Ok(()),
            Err(_) => Err(NoMemory),
        }
    }

    fn raise(&mut self) -> Result<(), NoMemory>
        ensures { OnOk result (self.new ≡ (self.old.0, suc self.old.1)) }
    {
        match self.count.checked_add(1) {
            None => Err(NoMemory),
            Some(count) => {
                self.count = count;
                Ok(())
            }
        }
    }

    fn put_part(&mut self, part: &'a [u8]) -> Result<(), NoMemory>
        ensures { OnOk result (self.new ≡ noted self.old part.now) }
    {
        self.insert(tail(part))?;
        self.raise()
    }

    /// Notes a name.
    pub fn put(&mut self, name: &'a Name) -> Result<(), NoMemory>
        ensures { OnOk result (self.new ≡ noted self.old name.now) }
    {
        self.put_part(name.as_slice())
    }

    /// Notes the part from a place on, if a dot stands behind it, and gives the place from which the next part is.
    fn put_before(&mut self, dotted: &'a [u8], start: usize, i: usize) -> Result<usize, NoMemory>
        requires low { start ≤ i }
        requires within { i < length dotted.now }
        ensures low { IfOk result (λ next. next ≤ i + 1) }
        ensures noted { IfOk result (λ next.
            all_noted self.new (onto (take (i + 1 - next) (drop next dotted.now)) (dotted_parts (drop (i + 1) dotted.now)))
            ≡ all_noted self.old (onto (take (i - start) (drop start dotted.now)) (dotted_parts (drop i dotted.now)))) }
    {
        if dotted[i] != b'.' {
            return Ok(start);
        }
        self.put_part(&dotted[start..i])?;
        Ok(i + 1)
    }

    fn put_slices(&mut self, dotted: &'a [u8]) -> Result<(), NoMemory>
        ensures { OnOk result (self.new ≡ all_noted self.old (dotted_parts dotted.now)) }
    {
        let mut start = 0;
        for i in 0..dotted.len() {
            start = self.put_before(dotted, start, i)?;
        }
        self.put_part(&dotted[start..])
    }

    /// Notes what stands between the dots of a name.
    pub fn put_parts(&mut self, dotted: &'a Text) -> Result<(), NoMemory>
        ensures { OnOk result (self.new ≡ all_noted self.old (dotted_parts dotted.now)) }
    {
        self.put_slices(dotted.as_slice())
    }
}
