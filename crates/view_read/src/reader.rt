// What is known while the statements of a block are read, and the items one by one.
use crate::reason::{Reason, Unseen, miss};
use qbs_base::{Bytes, Fail, NoMemory, Table};
use std::alloc::Global;
use view_items::Item;
use view_map::{ScalarKind, ViewMap};
use view_rules::{ColumnName, JavaType, Param, Sighted, Within};
use view_statements::Words;

/// What is fixed while a method is read: the map and the schema; the items of the file, with the closing bracket of each and the bracket
/// round each; the numbers of the method's name and of the brace that closes its body; and what may be read there.
#[derive(Clone, Copy)]
pub struct Method<'a> {
    pub map: &'a ViewMap,
    pub tables: &'a [Table],
    pub items: &'a [Item],
    pub closings: &'a [usize],
    pub rounds: &'a [usize],
    pub name: usize,
    pub end: usize,
    pub words: &'a Words,
}

/// How many variables there may be in sight: of further ones nothing is seen.
pub const MOST_IN_SIGHT: usize = 256;

/// How many items may be gone through in a method beside those that are read: for guards, prints and fresh names. Statements inside of one
/// another are read anew at each level, which takes at most as many once more.
const LOOKS: usize = 8_388_608;

/// How many items what checks slices may go through, where it goes through the method for each, and for each variable that it has from outside.
const CHECKS: usize = 67_108_864;

/// Less by a count, where there is so much.
fn spend(left: &mut usize, count: usize) -> bool {
    match left.checked_sub(count) {
        Some(rest) => {
            *left = rest;
            true
        }
        None => false,
    }
}

/// What is known of a variable in sight beside its type.
#[derive(Clone, Copy, PartialEq, Eq)]
pub enum Trust {
    /// It is the slice's own, or the method doesn't test it for null.
    Sure,
    /// Whether the method tests it for null wasn't looked for yet.
    Unknown,
    /// The method tests it for null, and guards weren't looked for yet.
    Tested,
    /// A guard stands before the statements that are read.
    Guarded,
    /// No guard stands there.
    Open,
    /// A list or set from outside that is declared by `var`: it is neither read nor set.
    Inferred,
}

/// What is read of a method: the item that comes next, the variables in sight, the newest last, with the item of each one's name where it
/// is declared and what is known of it; the parameters so far, in the order of first mention, with the kind of each; and whether they are all that there may be.
#[derive(Drop)]
pub struct Reader<'a> {
    pub alloc: Global,
    pub method: Method<'a>,
    pub at: usize,
    pub sight: Vec<Sighted>,
    pub declared: Vec<usize>,
    pub trusts: Vec<Trust>,
    pub params: Vec<Param>,
    pub kinds: Vec<ScalarKind>,
    pub given: bool,
    pub tested: Vec<Bytes>,
    pub gets: bool,
    /// Whether a fetch or a query was read.
    pub asks: bool,
    /// How many operators of the statement were read.
    pub operators: usize,
    /// How many items may still be gone through beside those that are read.
    pub looks: usize,
    /// How many items may still be read anew inside of statements that weren't read.
    pub tries: usize,
    /// How many items may still be gone through to check slices.
    pub checks: usize,
    /// Fresh names of the method: of what goes through a list that is printed, and of what a group sets. None until they are wanted.
    pub each: Option<Bytes>,
    pub found: Option<Bytes>,
}

/// How much of a reader there is.
#[derive(Clone, Copy)]
pub struct Mark {
    pub sight: usize,
    pub params: usize,
    pub asks: bool,
}

/// What is known of a variable in sight: its type, whether it is from outside, whether the method tests it for null with no guard before,
/// whether it is declared by `var` there, and the class and the member whose column it stands for.
#[derive(Clone, Copy)]
pub struct Variable {
    pub java: JavaType,
    pub outside: bool,
    pub tested: bool,
    pub inferred: bool,
    pub column: Option<(u32, u32)>,
}

pub type Fault = Fail<Unseen>;

fn column_of(column: &Option<ColumnName>) -> Option<(u32, u32)> {
    match column {
        Some(c) => Some((c.class, c.member)),
        None => None,
    }
}

fn is_called(v: &Sighted, name: &[u8]) -> bool {
    v.name.as_slice() == name
}

/// Each variable of a name is the slice's own from here on.
fn own(sight: &mut [Sighted], name: &[u8]) {
    for v in sight {
        if is_called(v, name) {
            v.outside = false;
        }
    }
}

pub fn is_among(name: &[u8], names: &[Bytes]) -> bool {
    names.iter().any(|other| name == other.as_slice())
}

impl<'a> Reader<'a> {
    pub fn new(alloc: Global, method: Method<'a>, at: usize) -> Reader<'a> {
        Reader {
            alloc,
            method,
            at,
            sight: Vec::new(alloc),
            declared: Vec::new(alloc),
            trusts: Vec::new(alloc),
            params: Vec::new(alloc),
            kinds: Vec::new(alloc),
            given: false,
            tested: Vec::new(alloc),
            gets: true,
            asks: false,
            operators: 0,
            looks: LOOKS,
            tries: LOOKS,
            checks: CHECKS,
            each: None,
            found: None,
        }
    }

    /// Whether so many items may be gone through once more.
    pub fn pay(&mut self, count: usize) -> bool {
        spend(&mut self.looks, count)
    }

    /// Whether a statement of so many items may be read.
    pub fn pay_for_try(&mut self, count: usize) -> bool {
        spend(&mut self.tries, count)
    }

    /// Whether there may be one more slice, with so many variables from outside.
    pub fn pay_for_slice(&mut self, outside: usize) -> bool {
        let count = self.method.end.saturating_sub(self.method.name);
        let walks = outside.saturating_add(1);
        spend(&mut self.checks, count.saturating_mul(walks))
    }

    // ---- Items

    /// The bytes of an item, none behind the last one.
    pub fn bytes(&self, number: usize) -> &'a [u8] {
        match self.method.items.get(number) {
            Some(item) => item.bytes.as_slice(),
            None => &[],
        }
    }

    pub fn is(&self, number: usize, word: &[u8]) -> bool {
        self.bytes(number) == word
    }

    /// Whether the next item is this word or sign.
    pub fn is_next(&self, word: &[u8]) -> bool {
        self.is(self.at, word)
    }

    /// Whether the items from a number on are these.
    pub fn are(&self, number: usize, words: &[&[u8]]) -> bool {
        match words {
            [] => true,
            [word, words @ ..] => {
                self.is(number, word) && self.are(number.saturating_add(1), words)
            }
        }
    }

    pub fn step(&mut self) {
        self.at = self.at.saturating_add(1);
    }

    /// Goes past this word or sign, if it comes next.
    pub fn take(&mut self, word: &[u8]) -> bool {
        if self.is_next(word) {
            self.step();
            true
        } else {
            false
        }
    }

    /// Goes past this word or sign, which has to come next, and gives its number.
    pub fn expect(&mut self, word: &[u8], reason: Reason) -> Result<usize, Fault> {
        let at = self.at;
        if self.take(word) {
            Ok(at)
        } else {
            Err(miss(reason, at))
        }
    }

    /// The number of the bracket that closes the one at a number.
    pub fn closing(&self, number: usize) -> usize {
        match self.method.closings.get(number) {
            Some(closing) => *closing,
            None => number,
        }
    }

    // ---- What is read so far

    /// What is fixed, as the rules want it.
    pub fn within(&self) -> Within<'_> {
        let words = self.method.words;
        Within {
            map: self.method.map,
            tables: self.method.tables,
            items: self.method.items,
            classes: words.classes.as_slice(),
            fetches: words.fetches.as_slice(),
            templates: words.templates.as_slice(),
            map_constants: words.map_constants.as_slice(),
            constants: words.constants.as_slice(),
            params: self.params.as_slice(),
            tested: self.tested.as_slice(),
            clear: words.clear.as_slice(),
            gets: self.gets,
        }
    }

    pub fn is_clear(&self, name: &[u8]) -> bool {
        is_among(name, self.method.words.clear.as_slice())
    }

    pub fn mark(&self) -> Mark {
        Mark {
            sight: self.sight.len(),
            params: self.params.len(),
            asks: self.asks,
        }
    }

    /// Forgets the variables that were declared since.
    pub fn leave(&mut self, mark: Mark) {
        self.sight.truncate(mark.sight);
        self.declared.truncate(mark.sight);
        self.trusts.truncate(mark.sight);
    }

    /// Forgets all that was read since.
    pub fn take_back(&mut self, mark: Mark) {
        self.leave(mark);
        self.params.truncate(mark.params);
        self.kinds.truncate(mark.params);
        self.asks = mark.asks;
    }

    /// The variable that an item names.
    pub fn variable(&self, number: usize) -> Option<Variable> {
        let name = self.bytes(number);
        for (v, trust) in self.sight.iter().zip(self.trusts.iter()) {
            if v.name.as_slice() == name {
                return Some(Variable {
                    java: v.java,
                    outside: v.outside,
                    tested: v.outside && is_among(name, self.tested.as_slice()),
                    inferred: *trust == Trust::Inferred,
                    column: column_of(&v.column),
                });
            }
        }
        None
    }

    pub fn copy(&self, bytes: &[u8]) -> Result<Bytes, NoMemory> {
        let copy = bytes.to_vec(self.alloc)?;
        Ok(Bytes::from_vec(copy))
    }

    fn put_sighted(
        &mut self,
        number: usize,
        java: JavaType,
        outside: bool,
        column: Option<ColumnName>,
        trust: Trust,
    ) -> Result<(), NoMemory> {
        let name = self.copy(self.bytes(number))?;
        self.sight.push(Sighted {
            name,
            java,
            outside,
            column,
        })?;
        self.declared.push(number)?;
        self.trusts.push(trust)?;
        Ok(())
    }

    /// Puts a variable of the slice's own in sight that an item names.
    pub fn put_variable(
        &mut self,
        number: usize,
        java: JavaType,
        column: Option<ColumnName>,
    ) -> Result<(), NoMemory> {
        self.put_sighted(number, java, false, column, Trust::Sure)
    }

    /// Puts a variable from outside in sight, unless there are too many.
    pub fn put_outer(
        &mut self,
        number: usize,
        java: JavaType,
        trust: Trust,
    ) -> Result<(), NoMemory> {
        if self.sight.len() < MOST_IN_SIGHT {
            self.put_sighted(number, java, true, None, trust)
        } else {
            Ok(())
        }
    }

    /// The variable of a name is the slice's own from here on.
    pub fn make_own(&mut self, number: usize) {
        let name = self.bytes(number);
        own(self.sight.as_mut_slice(), name);
    }
}
