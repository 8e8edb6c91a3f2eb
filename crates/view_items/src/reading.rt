// The items of a file.
ghost use Rattle.std.specs.Prelude.{◌≡◌, ◌+◌, ◌<◌, ◌≤◌, ◌^◌, ◌++◌, IfOk, OnOk, length};
ghost use Rattle.view_items.specs.Items as specs;

use crate::known::Known;
use crate::pieces::piece;
use crate::{Item, ItemKind};
use qbs_base::{Bytes, Items, NoMemory};
use std::alloc::Global;

/// The item of these bytes at a place.
fn made(alloc: Global, kind: ItemKind, at: usize, bytes: &[u8]) -> Result<Item, NoMemory>
    requires { at + length bytes.now < 2 ^ 63 }
    ensures { IfOk result (λ i. i ≡ record { kind = kind; bytes = bytes.now; from = at; to = at + length bytes.now }) }
{
    Ok(Item {
        kind,
        bytes: Bytes::from_vec(bytes.to_vec(alloc)?),
        from: at,
        to: at + bytes.len(),
    })
}

/// Adds what stands at a place, an item or a gap, with its bytes.
fn add(
    alloc: Global,
    items: &mut Items<Item>,
    kind: Option<ItemKind>,
    at: usize,
    bytes: &[u8],
) -> Result<(), NoMemory>
    requires { at + length bytes.now < 2 ^ 63 }
    ensures { OnOk result (items.new ≡ items.old ++ specs.item_of (kind, length bytes.now) at bytes.now) }
{
    match kind {
        None => Ok(()),
        Some(kind) => items.push(made(alloc, kind, at, bytes)?),
    }
}

/// The items of a file, in order: each is of its place, and stands behind those before it. Any bytes have some or none. Time goes with
/// the number of bytes. It fails only by want of memory.
#[tactic(auto, unfolding(crate::specs::Items::items_of))]
pub fn items(alloc: Global, source: &[u8]) -> Result<Items<Item>, NoMemory>
    ensures value { IfOk result (λ list. list ≡ specs.items_of source.now) }
    ensures places { IfOk result (λ list. specs.AreOfTheirPlaces source.now 0 list) }
{
    let mut list = Items::new(alloc);
    let mut known = Known::nothing();
    let mut at = 0;
    let mut rest = source;
    while !rest.is_empty() {
        let (kind, len) = piece(&mut known, at, rest);
        let (here, after) = rest.split_at(len);
        add(alloc, &mut list, kind, at, here)?;
        at += len;
        rest = after;
    }
    Ok(list)
}
