// All of a file: its class, its methods, and the loops that aren't seen.
use crate::blocks::{Around, Finding, Hidden};
use crate::reason::{Reason, Unseen};
use crate::slices::holds_loop;
use crate::statements::LEVELS;
use crate::words::{Class, known_of, parts_of};
use qbs_base::{Items, NoMemory, Table};
use std::alloc::Global;
use view_items::{Item, closes, closings, is_plain, items, opens, rounds, sign_of};
use view_map::ViewMap;
use view_scope::{hides, method_prefix_end, standing_of, tested_in};
use view_shapes::{ClassPlace, File, Stretch, class_of, end_of, is_plain_name, is_word};
use view_statements::{Read, Slice, Sliced};

/// A loop that isn't seen: the number of its first item, why, and where.
#[derive(Clone, Copy)]
pub struct Loop {
    pub at: usize,
    pub unseen: Unseen,
}

/// What is seen of a file: its items with their brackets, its class, the methods that were looked into, in text order, and the loops that stand in no
/// slice. Where nothing is seen there is no class.
#[derive(Drop)]
pub struct View {
    pub items: Items<Item>,
    pub closings: Items<usize>,
    pub rounds: Items<usize>,
    pub class: Option<ClassPlace>,
    pub methods: Vec<Sliced>,
    pub loops: Vec<Loop>,
}

// ---- Where nothing is seen

/// The first bracket that has no partner.
fn unmatched(alloc: Global, items: &[Item]) -> Result<usize, NoMemory> {
    let mut waiting: Vec<usize> = Vec::new(alloc);
    for (number, item) in items.iter().enumerate() {
        let sign = sign_of(item);
        if opens(sign) {
            waiting.push(number)?;
        } else if closes(sign) {
            match waiting.pop() {
                Some(opening) if pairs(items, opening, sign) => {}
                _ => return Ok(number),
            }
        }
    }
    match waiting.pop() {
        Some(opening) => Ok(opening),
        None => Ok(0),
    }
}

fn pairs(items: &[Item], opening: usize, closing: u8) -> bool {
    match items.get(opening) {
        Some(item) => matches!(
            (sign_of(item), closing),
            (b'(', b')') | (b'[', b']') | (b'{', b'}')
        ),
        None => false,
    }
}

/// The item because of which a file isn't plain, the first one where that is no item's matter.
fn odd_item(source: &[u8], items: &[Item]) -> Option<usize> {
    if is_plain(source, items) {
        return None;
    }
    if is_plain(b"", items) {
        return Some(0);
    }
    let mut rest = items;
    for number in 0..items.len() {
        let (first, behind) = rest.split_at(rest.len().min(1));
        if !is_plain(b"", first) {
            return Some(number);
        }
        rest = behind;
    }
    Some(0)
}

/// The item that hides a name of Java or of the map.
fn hiding_item(map: &ViewMap, items: &[Item], class: usize) -> Option<usize> {
    let name = items.get(class)?.bytes.as_slice();
    for number in 0..items.len() {
        if hides(map, items, name, number) {
            return Some(number.saturating_add(1));
        }
    }
    None
}

// ---- Methods

impl<'a> Class<'a> {
    /// The slices of a method.
    fn find(
        &self,
        alloc: Global,
        refused: &[usize],
        read: &Read,
        finding: &mut Finding,
    ) -> Result<Items<Slice>, NoMemory> {
        let file = self.file();
        let m = &read.method;
        let body = Stretch {
            from: m.from,
            to: m.to,
        };
        let standing = standing_of(alloc, file.items, file.closings, body)?;
        let tests = tested_in(alloc, file.items, file.closings, file.rounds, m.from, m.to)?;
        let around = Around {
            source: m,
            standing: standing.as_slice(),
            tests: tests.as_slice(),
            refused,
        };
        let mut reader = self.reader(alloc, read, m.from);
        reader.put_parameters(&around)?;
        reader.block(&around, body, LEVELS, finding)?;
        let found = std::mem::replace(&mut finding.slices, Vec::new(alloc));
        Ok(Items::from_vec(found))
    }

    /// Takes a member for a method, if it is one with a loop, and looks for slices in it.
    fn take_member(
        &self,
        alloc: Global,
        refused: &[usize],
        member: Stretch,
        methods: &mut Vec<Sliced>,
        finding: &mut Finding,
    ) -> Result<(), NoMemory> {
        let file = self.file();
        if !holds_loop(file.items, member.from, member.to) {
            return Ok(());
        }
        let Some(read) = self.read(alloc, member)? else {
            finding
                .hidden
                .push(no_method(file.items, file.closings, member))?;
            return Ok(());
        };
        let slices = self.find(alloc, refused, &read, finding)?;
        methods.push(Sliced { read, slices })?;
        Ok(())
    }
}

// ---- Loops

/// The `while` behind the body of a `do`.
fn while_of_do(items: &[Item], closings: &[usize], number: usize) -> Option<usize> {
    let end = end_of(items, closings, number.saturating_add(1))?;
    if is_word("while", items, end) {
        Some(end)
    } else {
        None
    }
}

fn is_loop(items: &[Item], number: usize) -> bool {
    holds_loop(items, number, number.saturating_add(1))
}

/// The numbers of the loops of a file.
fn loops_of(alloc: Global, items: &[Item], closings: &[usize]) -> Result<Vec<usize>, NoMemory> {
    let mut ends: Vec<usize> = Vec::new(alloc);
    let mut loops = Vec::new(alloc);
    for number in 0..items.len() {
        if !is_loop(items, number) {
            continue;
        }
        if is_word("do", items, number) {
            if let Some(end) = while_of_do(items, closings, number) {
                ends.push(end)?;
            }
        }
        // Loops in the body of a `do` stand before its `while`, so that one is the last that waits.
        match ends.as_slice() {
            [.., last] if *last == number => {
                let _ = ends.pop();
            }
            _ => loops.push(number)?,
        }
    }
    Ok(loops)
}

/// A walk over the loops of a file in text order: stretches that begin further on, those that are open, the innermost last, and the slices that
/// end further on.
#[derive(Drop)]
struct Sweep<'a> {
    waiting: &'a [Hidden],
    open: Vec<Hidden>,
    slices: &'a [Stretch],
}

impl<'a> Sweep<'a> {
    fn open_up_to(&mut self, at: usize) -> Result<(), NoMemory> {
        for _ in 0..self.waiting.len() {
            match self.waiting {
                [first, rest @ ..] if first.from <= at => {
                    self.open.push(*first)?;
                    self.waiting = rest;
                }
                _ => return Ok(()),
            }
        }
        Ok(())
    }

    fn close_before(&mut self, at: usize) {
        for _ in 0..self.open.len() {
            match self.open.as_slice() {
                [.., last] if last.to <= at => {
                    let _ = self.open.pop();
                }
                _ => return,
            }
        }
    }

    fn pass_slices(&mut self, at: usize) {
        for _ in 0..self.slices.len() {
            match self.slices {
                [first, rest @ ..] if first.to <= at => self.slices = rest,
                _ => return,
            }
        }
    }

    fn is_in_slice(&self, at: usize) -> bool {
        match self.slices {
            [first, ..] => first.from <= at,
            [] => false,
        }
    }

    /// Why a loop isn't seen, which stands behind those before. None where it stands in a slice.
    fn unseen_at(&mut self, at: usize) -> Result<Option<Unseen>, NoMemory> {
        self.open_up_to(at)?;
        self.close_before(at);
        self.pass_slices(at);
        if self.is_in_slice(at) {
            return Ok(None);
        }
        match self.open.as_slice() {
            [.., last] => Ok(Some(last.unseen)),
            [] => Ok(Some(Unseen {
                reason: Reason::Class,
                at,
            })),
        }
    }
}

/// The loops that stand in no slice, each with the innermost reason. Both lists are in text order, what stands round before what stands inside.
fn unseen_loops(
    alloc: Global,
    loops: &[usize],
    hidden: &[Hidden],
    slices: &[Stretch],
) -> Result<Vec<Loop>, NoMemory> {
    let mut out = Vec::new(alloc);
    let mut sweep = Sweep {
        waiting: hidden,
        open: Vec::new(alloc),
        slices,
    };
    for at in loops {
        if let Some(unseen) = sweep.unseen_at(*at)? {
            out.push(Loop { at: *at, unseen })?;
        }
    }
    Ok(out)
}

// ---- All of it

fn none_seen(
    alloc: Global,
    items: Items<Item>,
    closings: Items<usize>,
    rounds: Items<usize>,
    at: usize,
) -> Result<View, NoMemory> {
    let unseen = Unseen {
        reason: Reason::Class,
        at,
    };
    let mut loops = Vec::new(alloc);
    for number in loops_of(alloc, items.as_slice(), closings.as_slice())?.as_slice() {
        loops.push(Loop {
            at: *number,
            unseen,
        })?;
    }
    Ok(View {
        items,
        closings,
        rounds,
        class: None,
        methods: Vec::new(alloc),
        loops,
    })
}

/// Why a member is no method that is looked into.
fn no_method(items: &[Item], closings: &[usize], member: Stretch) -> Hidden {
    let at = match method_prefix_end(items, closings, member.from) {
        Some(number) => number,
        None => member.from,
    };
    Hidden {
        from: member.from,
        to: member.to,
        unseen: Unseen {
            reason: Reason::Member,
            at,
        },
    }
}

/// What is seen of a file. Sequences that begin at one of the refused items aren't well typed: they are no slices, and their blocks are looked
/// into. It fails only by want of memory.
pub fn find_view(
    alloc: Global,
    map: &ViewMap,
    tables: &[Table],
    source: &[u8],
    refused: &[usize],
) -> Result<View, NoMemory> {
    let list = items(alloc, source)?;
    let round = rounds(alloc, list.as_slice())?;
    let Some(closing) = closings(alloc, list.as_slice())? else {
        let at = match odd_item(source, list.as_slice()) {
            Some(at) => at,
            None => unmatched(alloc, list.as_slice())?,
        };
        return none_seen(alloc, list, Items::new(alloc), round, at);
    };
    if let Some(at) = odd_item(source, list.as_slice()) {
        return none_seen(alloc, list, closing, round, at);
    }
    let Some(class) = class_of(list.as_slice(), closing.as_slice()) else {
        return none_seen(alloc, list, closing, round, 0);
    };
    if !is_plain_name(list.as_slice(), class.name) {
        return none_seen(alloc, list, closing, round, class.name);
    }
    if let Some(at) = hiding_item(map, list.as_slice(), class.name) {
        return none_seen(alloc, list, closing, round, at);
    }
    find_in_class(alloc, map, tables, list, closing, round, class, refused)
}

/// What is seen of a class.
#[derive(Drop)]
struct Seen {
    methods: Vec<Sliced>,
    loops: Vec<Loop>,
}

fn find_in_file(
    alloc: Global,
    map: &ViewMap,
    tables: &[Table],
    file: &File,
    refused: &[usize],
) -> Result<Seen, NoMemory> {
    let mut methods = Vec::new(alloc);
    let mut finding = Finding {
        slices: Vec::new(alloc),
        places: Vec::new(alloc),
        hidden: Vec::new(alloc),
    };
    let parts = parts_of(alloc, file)?;
    let known = known_of(alloc, map, tables, file, &parts)?;
    for member in parts.members.as_slice() {
        known.take_member(alloc, refused, *member, &mut methods, &mut finding)?;
    }
    let loops = loops_of(alloc, file.items, file.closings)?;
    let loops = unseen_loops(
        alloc,
        loops.as_slice(),
        finding.hidden.as_slice(),
        finding.places.as_slice(),
    )?;
    Ok(Seen { methods, loops })
}

fn find_in_class(
    alloc: Global,
    map: &ViewMap,
    tables: &[Table],
    items: Items<Item>,
    closings: Items<usize>,
    rounds: Items<usize>,
    class: ClassPlace,
    refused: &[usize],
) -> Result<View, NoMemory> {
    let file = File {
        items: items.as_slice(),
        closings: closings.as_slice(),
        rounds: rounds.as_slice(),
        class,
    };
    let seen = find_in_file(alloc, map, tables, &file, refused)?;
    Ok(View {
        items,
        closings,
        rounds,
        class: Some(class),
        methods: seen.methods,
        loops: seen.loops,
    })
}
