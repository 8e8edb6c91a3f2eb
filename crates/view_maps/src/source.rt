// A Java file whose items are looked at.
use qbs_base::{Items, NoMemory};
use std::alloc::Global;
use view_items::{Item, ItemKind, closings, is_plain, items as read_items};
use view_shapes::closing_at;

/// A file: its items, and the closing bracket of each.
#[derive(Clone, Copy)]
pub struct Source<'a> {
    pub items: &'a [Item],
    pub closings: &'a [usize],
}

/// A file that owns what it is made of.
#[derive(Drop)]
pub struct Opened {
    items: Items<Item>,
    closings: Items<usize>,
}

/// The items of a file: none where they don't say all that Java reads, or where brackets don't match.
pub fn open(alloc: Global, bytes: &[u8]) -> Result<Option<Opened>, NoMemory> {
    let items = read_items(alloc, bytes)?;
    if !is_plain(bytes, items.as_slice()) {
        return Ok(None);
    }
    match closings(alloc, items.as_slice())? {
        None => Ok(None),
        Some(closings) => Ok(Some(Opened { items, closings })),
    }
}

impl Opened {
    pub fn source(&self) -> Source<'_> {
        Source {
            items: self.items.as_slice(),
            closings: self.closings.as_slice(),
        }
    }
}

/// The bytes of the item with this number, none where there is no such item.
pub fn bytes_at<'a>(source: Source<'a>, number: usize) -> &'a [u8] {
    match source.items.get(number) {
        Some(item) => item.bytes.as_slice(),
        None => &[],
    }
}

/// Whether the item with this number is a text on one line.
pub fn is_text(source: Source, number: usize) -> bool {
    match source.items.get(number) {
        Some(item) => matches!(item.kind, ItemKind::Text),
        None => false,
    }
}

/// The number behind an item, or behind the brackets that it opens.
pub fn past(source: Source, number: usize) -> usize {
    match closing_at(source.items, source.closings, number) {
        Some(closing) => closing.saturating_add(1),
        None => number.saturating_add(1),
    }
}
