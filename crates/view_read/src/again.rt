// Statements of a file that was written, where a slice stood.
use crate::reader::{Reader, Trust};
use crate::slices::copy_all;
use crate::statements::LEVELS;
use crate::words::Class;
use indexmap::IndexMap;
use qbs_base::{Bytes, Fail, Items, NoMemory};
use std::alloc::Global;
use view_rules::{Param, Sighted};
use view_scope::{Standing, is_in_sight_at, is_inside_try, standing_of};
use view_shapes::{Stretch, blocks_of, end_of};
use view_statements::{Ending, Group, Printed, Read, Slice, Statement, at_top};

fn copy_bytes(alloc: Global, bytes: &[u8]) -> Result<Bytes, NoMemory> {
    let copy = bytes.to_vec(alloc)?;
    Ok(Bytes::from_vec(copy))
}

fn copy_param(alloc: Global, p: &Param) -> Result<Param, NoMemory> {
    Ok(Param {
        variable: copy_bytes(alloc, p.variable.as_slice())?,
        column: p.column,
        name: copy_bytes(alloc, p.name.as_slice())?,
    })
}

fn copy_prints(alloc: Global, prints: &[Printed]) -> Result<Items<Printed>, NoMemory> {
    let mut copies = Items::new(alloc);
    for p in prints {
        copies.push(Printed {
            name: copy_bytes(alloc, p.name.as_slice())?,
            java: p.java,
        })?;
    }
    Ok(copies)
}

/// The innermost of the blocks in which items stand.
fn block_round(blocks: &[Stretch], at: Stretch) -> Option<Stretch> {
    let mut innermost = None;
    for block in blocks {
        if block.from <= at.from && at.to <= block.to {
            innermost = Some(*block);
        }
    }
    innermost
}

/// Where each of some variables is declared, the first of its name, as far as it was found.
#[derive(Drop)]
struct Places<'b> {
    numbers: IndexMap<&'b [u8], usize>,
    places: Vec<Option<usize>>,
}

impl<'b> Places<'b> {
    fn of(alloc: Global, variables: &'b [Sighted]) -> Result<Places<'b>, NoMemory> {
        let mut numbers = IndexMap::new(alloc);
        let mut places = Vec::new(alloc);
        for (number, v) in variables.iter().enumerate() {
            places.push(None)?;
            match numbers.insert(v.name.as_slice(), number) {
                Ok(_) => {}
                Err(_) => return Err(NoMemory),
            }
        }
        Ok(Places { numbers, places })
    }

    /// The number of the variable of a name whose place wasn't found yet.
    fn missing(&self, name: &[u8]) -> Option<usize> {
        let number = self.numbers.get(name).copied()?;
        match self.places.get(number) {
            Some(None) => Some(number),
            _ => None,
        }
    }

    fn put(&mut self, number: usize, place: usize) {
        if let Some(slot) = self.places.get_mut(number) {
            *slot = Some(place);
        }
    }
}

/// A slice of another file, the block in which statements stand in its place, and whether the result of the method is one truth value.
#[derive(Clone, Copy)]
struct Seen<'b> {
    slice: &'b Slice,
    block: Stretch,
    gives_truth: bool,
}

/// Statements, and the group with which they end.
#[derive(Drop)]
struct Statements {
    list: Items<Statement>,
    group: Option<Group>,
}

impl<'a> Reader<'a> {
    /// Whether an item may stand behind the name of what is declared.
    fn may_follow_declared(&self, number: usize) -> bool {
        matches!(self.bytes(number), b"=" | b";" | b"," | b":" | b")")
    }

    /// Whether the variable whose name stands at a number is in sight at the next item.
    fn is_declared_at(
        &self,
        source: &view_shapes::Method,
        standing: &[Standing],
        v: &Sighted,
        number: usize,
    ) -> bool {
        is_in_sight_at(
            &self.within(),
            self.method.closings,
            standing,
            source,
            self.at,
            v.java,
            number,
        )
    }

    /// Where the variables that are in sight at the next item are declared.
    fn places<'b>(
        &mut self,
        source: &view_shapes::Method,
        standing: &[Standing],
        variables: &'b [Sighted],
    ) -> Result<Places<'b>, NoMemory> {
        let mut places = Places::of(self.alloc, variables)?;
        let size = source.to.saturating_sub(source.name);
        for k in source.name..self.at {
            if !self.may_follow_declared(k.saturating_add(1)) {
                continue;
            }
            let Some(number) = places.missing(self.bytes(k)) else {
                continue;
            };
            if !self.pay(size) {
                return Ok(places);
            }
            if let Some(v) = variables.get(number) {
                if self.is_declared_at(source, standing, v, k) {
                    places.put(number, k);
                }
            }
        }
        Ok(places)
    }

    /// Puts in sight what was in sight where the slice stood and is in sight here, with what it was handed and what isn't read.
    fn put_slice(
        &mut self,
        source: &view_shapes::Method,
        standing: &[Standing],
        slice: &Slice,
    ) -> Result<(), NoMemory> {
        let variables = slice.outside.as_slice();
        let places = self.places(source, standing, variables)?;
        for (v, place) in variables.iter().zip(places.places.as_slice().iter()) {
            if let Some(number) = place {
                self.put_outer(*number, v.java, Trust::Sure)?;
            }
        }
        for p in slice.params.as_slice() {
            self.params.push(copy_param(self.alloc, p)?)?;
        }
        for kind in slice.kinds.as_slice() {
            self.kinds.push(*kind)?;
        }
        for name in slice.tested.as_slice() {
            self.tested.push(copy_bytes(self.alloc, name.as_slice())?)?;
        }
        self.given = true;
        Ok(())
    }

    /// The group that begins with the next item, where the slice that stood there ended with one.
    fn kept_group(&mut self, seen: Seen, end: Option<usize>) -> Result<Option<Group>, NoMemory> {
        match (&seen.slice.ending, end) {
            (Ending::Grouped(group), Some(end)) => {
                let at = Stretch {
                    from: self.at,
                    to: end,
                };
                self.read_group_again(seen.gives_truth, at, seen.block, &group.variable)
            }
            _ => Ok(None),
        }
    }

    /// The statements from the next item up to a number, and the group with which they end, if all are read.
    fn statements_to(&mut self, seen: Seen, to: usize) -> Result<Option<Statements>, NoMemory> {
        let mut list = Vec::new(self.alloc);
        for _ in self.at..to {
            if self.at >= to {
                break;
            }
            let end = end_of(self.method.items, self.method.closings, self.at);
            if let Some(group) = self.kept_group(seen, end)? {
                return Ok(self.ended_by(Items::from_vec(list), Some(group), to));
            }
            match self.statement(at_top(), LEVELS, &mut list) {
                Ok(()) if end == Some(self.at) => {}
                Err(Fail::NoMemory) => return Err(NoMemory),
                _ => return Ok(None),
            }
        }
        Ok(self.ended_by(Items::from_vec(list), None, to))
    }

    /// Statements that were read, and the group behind them, where they end at a number.
    fn ended_by(
        &self,
        list: Items<Statement>,
        group: Option<Group>,
        to: usize,
    ) -> Option<Statements> {
        if self.at == to {
            Some(Statements { list, group })
        } else {
            None
        }
    }

    /// The name behind the `return` that stands where a group gave way: that of the group's variable.
    fn returned(&self, slice: &Slice, to: usize) -> Option<usize> {
        let name = to.saturating_sub(2);
        let first = name.saturating_sub(1);
        match &slice.ending {
            Ending::Grouped(group)
                if self.are(first, &[b"return", group.variable.as_slice(), b";"]) => { Some(name) }
            _ => None,
        }
    }

    fn ending(&self, returned: Option<usize>, group: Option<Group>) -> Result<Ending, NoMemory> {
        match group {
            Some(group) => Ok(Ending::Grouped(group)),
            None => match returned {
                Some(name) => Ok(Ending::Returned(self.copy(self.bytes(name))?)),
                None => Ok(Ending::Open),
            },
        }
    }

    fn read_slice(&mut self, seen: Seen, to: usize) -> Result<Option<Slice>, NoMemory> {
        let Seen { slice, block, .. } = seen;
        let from = self.at;
        let outer = self.sight.len();
        let returned = self.returned(slice, to);
        let end = if returned.is_some() {
            to.saturating_sub(3)
        } else {
            to
        };
        let Some(statements) = self.statements_to(seen, end)? else {
            return Ok(None);
        };
        let ending = self.ending(returned, statements.group)?;
        let (outside, declared) = self.outside(outer, Stretch { from, to })?;
        let params = std::mem::replace(&mut self.params, Vec::new(self.alloc));
        let kinds = std::mem::replace(&mut self.kinds, Vec::new(self.alloc));
        Ok(Some(Slice {
            from,
            to,
            block,
            outside,
            declared,
            params: Items::from_vec(params),
            kinds: Items::from_vec(kinds),
            tested: copy_all(self.alloc, self.tested.as_slice())?,
            gets: self.gets,
            prints: copy_prints(self.alloc, slice.prints.as_slice())?,
            each: copy_bytes(self.alloc, slice.each.as_slice())?,
            statements: statements.list,
            ending,
        }))
    }
}

/// A method in which slices are read again: what may be read in it, its blocks, and the statements that stand in them.
#[derive(Drop)]
pub struct Again {
    pub read: Read,
    blocks: Items<Stretch>,
    standing: Items<Standing>,
}

/// The method of a file in which items stand from one up to another. None where they stand in no method that is seen. Time goes with the
/// items of the method. It fails only by want of memory.
pub fn method_again(
    alloc: Global,
    known: &Class,
    from: usize,
    to: usize,
) -> Result<Option<Again>, NoMemory> {
    let file = known.file();
    let members = known.members();
    let number = members.partition_point(|member| member.to < to);
    let Some(member) = members.get(number) else {
        return Ok(None);
    };
    if from < member.from {
        return Ok(None);
    }
    let Some(read) = known.read(alloc, *member)? else {
        return Ok(None);
    };
    let body = Stretch {
        from: read.method.from,
        to: read.method.to,
    };
    let blocks = blocks_of(alloc, file.items, file.closings, body)?;
    let standing = standing_of(alloc, file.items, file.closings, body)?;
    Ok(Some(Again {
        read,
        blocks,
        standing,
    }))
}

/// The statements of a method from one item up to another, where a slice of another file stood, read as they stand, with its variables from
/// outside, its parameters and its prints. None where they aren't read in full. It fails only by want of memory.
pub fn read_again(
    alloc: Global,
    known: &Class,
    again: &Again,
    slice: &Slice,
    from: usize,
    to: usize,
) -> Result<Option<Slice>, NoMemory> {
    let file = known.file();
    let read = &again.read;
    let Some(block) = block_round(again.blocks.as_slice(), Stretch { from, to }) else {
        return Ok(None);
    };
    let mut reader = known.reader(alloc, read, from);
    reader.gets = !is_inside_try(file.items, file.closings, &read.method, from);
    reader.put_slice(&read.method, again.standing.as_slice(), slice)?;
    let seen = Seen {
        slice,
        block,
        gives_truth: read.method.gives_truth,
    };
    reader.read_slice(seen, to)
}
