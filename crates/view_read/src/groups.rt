// The last two statements of a block that search a list: a for-each that returns one truth value, and the `return` of the other one.
use crate::reader::Reader;
use crate::statements::{LEVELS, in_group};
use qbs_base::{Bytes, Fail, NoMemory};
use view_shapes::Stretch;
use view_statements::{Group, truth_word};

impl<'a> Reader<'a> {
    /// Reads the last two statements of a block as a group, if they are one, in a method whose result may be one truth value.
    pub fn read_group(
        &mut self,
        gives_truth: bool,
        at: Stretch,
        block: Stretch,
    ) -> Result<Option<Group>, NoMemory> {
        match self.searched(gives_truth, at, block) {
            Some(value) => {
                let variable = self.found_name()?;
                self.group_of(value, variable, at, block)
            }
            None => Ok(None),
        }
    }

    /// The same, with a name for the variable of the group that was found before.
    pub fn read_group_again(
        &mut self,
        gives_truth: bool,
        at: Stretch,
        block: Stretch,
        variable: &Bytes,
    ) -> Result<Option<Group>, NoMemory> {
        match self.searched(gives_truth, at, block) {
            Some(value) => {
                let variable = self.copy(variable.as_slice())?;
                self.group_of(value, variable, at, block)
            }
            None => Ok(None),
        }
    }

    /// Reads the for-each of a group and goes past the `return` behind it.
    fn group_of(
        &mut self,
        value: bool,
        variable: Bytes,
        at: Stretch,
        block: Stretch,
    ) -> Result<Option<Group>, NoMemory> {
        let mark = self.mark();
        let mut list = Vec::new(self.alloc);
        match self.statement(in_group(value), LEVELS, &mut list) {
            Ok(()) => {}
            Err(Fail::NoMemory) => return Err(NoMemory),
            Err(Fail::Fault(_)) => {
                self.take_back(mark);
                self.at = at.from;
                return Ok(None);
            }
        }
        match list.pop() {
            Some(walk) if self.at == at.to => {
                self.at = block.to;
                Ok(Some(Group {
                    variable,
                    value,
                    walk,
                }))
            }
            _ => {
                self.take_back(mark);
                self.at = at.from;
                Ok(None)
            }
        }
    }

    /// The literal that a group would return in its for-each.
    fn searched(&self, gives_truth: bool, at: Stretch, block: Stretch) -> Option<bool> {
        if !gives_truth || !self.is(at.from, b"for") {
            return None;
        }
        if at.to.saturating_add(3) != block.to {
            return None;
        }
        let value = if self.are(at.to, &[b"return", truth_word(false), b";"]) {
            true
        } else if self.are(at.to, &[b"return", truth_word(true), b";"]) {
            false
        } else {
            return None;
        };
        if self.has_effects(at) || self.returns(at) != 1 {
            return None;
        }
        Some(value)
    }

    fn has_effects(&self, at: Stretch) -> bool {
        (at.from..at.to).any(|k| {
            matches!(
                self.bytes(k),
                b"=" | b"+="
                    | b"-="
                    | b"++"
                    | b"--"
                    | b"+"
                    | b"-"
                    | b"*"
                    | b"get"
                    | b"add"
                    | b"sort"
                    | b"break"
                    | b"while"
                    | b"do"
            )
        })
    }

    fn returns(&self, at: Stretch) -> usize {
        (at.from..at.to).filter(|k| self.is(*k, b"return")).count()
    }
}
