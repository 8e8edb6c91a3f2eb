// Where in the file what is seen comes from.
ghost use Rattle.std.specs.Prelude.{◌≡◌, option_copied};
ghost use Rattle.view_statements.specs.Slices.{slice as plain, group as plain_group, ending as plain_ending};
ghost use Rattle.view_statements.specs.Reading.{statement};
ghost use Rattle.view_text.specs.Layout.{stretches_of};
ghost use Rattle.view_spell.specs.Origins as specs;

use schema::Schema;
use text_patches::stretch;
use view_items::{Cell, Item};
use view_map::ViewMap;
use view_statements::{Ending, Group, Slice, Statement};
use view_text::{Stretch, cell_at};

/// A file and what it is seen as: the map, the schema, the file's items and bytes, the tokens of the text that it is seen as, and where each of
/// them stands there.
#[derive(Drop)]
pub struct Seen<'a> {
    pub map: &'a ViewMap,
    pub schema: &'a Schema,
    pub items: &'a [Item],
    pub source: &'a [u8],
    pub cells: &'a [Cell],
    pub stretches: &'a [Stretch],
}

/// Bytes of the file, from the first one to the one behind the last.
#[derive(Clone, Copy, PartialEq, Eq)]
pub struct Origin {
    pub from: usize,
    pub to: usize,
}

fn cell_with<'a>(seen: &Seen<'a>, byte: u64) -> Option<&'a Cell>
    requires { seen.now.stretches.now ≡ stretches_of seen.now.cells.now }
    ensures { option_copied result ≡ specs.cell_with seen.now.cells.now byte }
{
    seen.cells.get(cell_at(seen.stretches, byte as usize)?)
}

/// The token that ends before a byte of what is seen.
fn cell_before<'a>(seen: &Seen<'a>, byte: u64) -> Option<&'a Cell>
    requires { seen.now.stretches.now ≡ stretches_of seen.now.cells.now }
    ensures { option_copied result ≡ specs.cell_before seen.now.cells.now byte }
{
    if byte == 0 {
        return None;
    }
    cell_with(seen, byte - 1)
}

/// The bytes of the file from which the tokens from one byte of what is seen up to another come.
pub fn origin_of(seen: &Seen, from: u64, to: u64) -> Option<Origin>
    requires { seen.now.stretches.now ≡ stretches_of seen.now.cells.now }
    ensures { result ≡ specs.origin_of seen.now.cells.now from to }
{
    let first = cell_with(seen, from)?;
    let last = cell_before(seen, to)?;
    Some(Origin {
        from: first.from,
        to: last.to,
    })
}

/// Whether a statement ends with a brace. Of the statements of a patch those that ask have the place of a loop, and others have no body.
pub fn has_body(seen: &Seen, to: u64) -> bool
    requires { seen.now.stretches.now ≡ stretches_of seen.now.cells.now }
    ensures { result ≡ specs.has_body seen.now.cells.now to }
{
    match cell_before(seen, to) {
        Some(cell) => cell.bytes.as_slice() == b"}".as_slice(),
        None => false,
    }
}

/// The bytes of the file.
pub fn bytes_of<'a>(seen: &Seen<'a>, at: Origin) -> &'a [u8]
    ensures { result.now ≡ specs.bytes_in seen.now.source.now at }
{
    stretch(seen.source, at.from as u64, at.to as u64)
}

/// The bytes from the first of some items to the last one.
pub fn origin_through(items: &[Item], from: usize, last: usize) -> Option<Origin>
    ensures { result ≡ specs.origin_through items.now from last }
{
    let first = items.get(from)?;
    let last = items.get(last)?;
    Some(Origin {
        from: first.from,
        to: last.to,
    })
}

/// The bytes of the items from the number `from` up to `to`: none where there are no such items.
pub fn origin_of_items(items: &[Item], from: usize, to: usize) -> Option<Origin>
    ensures { result ≡ specs.origin_to items.now from to }
{
    if to == 0 {
        return None;
    }
    origin_through(items, from, to - 1)
}

// ---- Groups

/// The stretch that a patch takes, and whether it takes the place of the slice's group, so that what is found is returned behind its statements.
#[derive(Clone, Copy, PartialEq, Eq)]
pub struct Taken {
    pub at: Origin,
    pub found: bool,
}

/// The bytes of the loop of a group.
fn origin_of_walk(items: &[Item], walk: &Statement) -> Option<Origin>
    ensures { result ≡ specs.walk_origin items.now (statement walk.now) }
{
    match walk {
        Statement::ForEach { at, end, .. } => origin_through(items, *at, *end),
        _ => None,
    }
}

fn taken_whole(at: Origin, all: Option<Origin>) -> Option<Taken>
    ensures { result ≡ specs.taken_whole at all }
{
    let all = all?;
    Some(Taken {
        at: Origin {
            from: at.from,
            to: all.to,
        },
        found: true,
    })
}

fn taken_by(items: &[Item], slice: &Slice, at: Origin, walk: Origin) -> Option<Taken>
    ensures { result ≡ specs.taken_by items.now (plain slice.now) at walk }
{
    if at.to <= walk.from {
        Some(Taken { at, found: false })
    } else if at.from <= walk.from && at.to == walk.to {
        taken_whole(at, origin_of_items(items, slice.from, slice.to))
    } else {
        None
    }
}

/// A patch that touches a group begins where its loop begins or before it, and ends with it; it takes the `return` behind the loop with it.
fn taken_with(items: &[Item], slice: &Slice, group: &Group, at: Origin) -> Option<Taken>
    ensures { result ≡ specs.taken_with items.now (plain slice.now) (plain_group group.now) at }
{
    let walk = origin_of_walk(items, &group.walk)?;
    taken_by(items, slice, at, walk)
}

fn taken_in(items: &[Item], slice: &Slice, ending: &Ending, at: Origin) -> Option<Taken>
    ensures { result ≡ specs.taken_in items.now (plain slice.now) (plain_ending ending.now) at }
{
    match ending {
        Ending::Grouped(group) => taken_with(items, slice, group, at),
        Ending::Open | Ending::Returned(_) => Some(Taken { at, found: false }),
    }
}

/// The bytes of the file in the place of which a patch of what is seen stands, from one byte up to another: none where it can't be spelled.
pub fn stretch_taken(seen: &Seen, slice: &Slice, from: u64, to: u64) -> Option<Taken>
    requires { seen.now.stretches.now ≡ stretches_of seen.now.cells.now }
    ensures { result ≡ specs.stretch_taken seen.now.cells.now seen.now.items.now (plain slice.now) from to }
{
    let at = origin_of(seen, from, to)?;
    taken_in(seen.items, slice, &slice.ending, at)
}

// ---- Margins

/// Where the line begins in which a byte stands, where the line of an earlier byte is known.
pub fn line_of(source: &[u8], line: usize, since: usize, byte: usize) -> usize {
    if since <= byte && byte <= source.len() {
        match source[since..byte].iter().rposition(|b| *b == b'\n') {
            Some(feed) => since + feed + 1,
            None => line,
        }
    } else {
        line
    }
}

fn is_blank(byte: u8) -> bool {
    byte == b' ' || byte == b'\t'
}

/// The spaces and tabs with which a line begins.
pub fn margin_at(source: &[u8], line: usize) -> &[u8] {
    if line <= source.len() {
        let rest = &source[line..];
        &rest[..rest.iter().take_while(|b| is_blank(**b)).count()]
    } else {
        &[]
    }
}
