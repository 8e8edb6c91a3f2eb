// Items by the parentheses and commas among them.
ghost use Rattle.std.specs.Prelude.{◌≡◌, ◌+◌, ◌≤◌, ◌<◌, ◌^◌, IfOk, IfSome, length, map, drop, not, option_map};
ghost use Rattle.std.specs.List.{prefix_len};
ghost use Rattle.dump_tables.specs.Parts as specs;
ghost use Rattle.dump_tables.specs.Parting as parting;
ghost use Rattle.dump_tables.specs.Words.{is_open as is_open_kind, is_close as is_close_kind};

use crate::words::{begins_pair, is_close, is_comma, is_open};
use dump_items::{Item, ItemKind};
use qbs_base::{Items, NoMemory};
use std::alloc::Global;

/// How many parentheses are open behind an item.
pub fn depth_after(depth: usize, kind: ItemKind) -> usize
    requires { depth < 2 ^ 63 }
    ensures value { result ≡ specs.depth_after depth kind }
    ensures depth { result ≤ depth + 1 }
{
    match kind {
        ItemKind::Open => depth + 1,
        ItemKind::Close => depth.saturating_sub(1),
        _ => depth,
    }
}

/// Whether an item ends a part.
fn ends_part(depth: usize, kind: ItemKind) -> bool
    ensures { result ≡ parting.ends_part depth kind }
{
    depth == 0 && (is_close(kind) || is_comma(kind))
}

/// How many items the first part has.
#[tactic(auto, unfolding(crate::specs::Parting::part_len))]
fn part_len(items: &[Item]) -> usize
    ensures value { result ≡ parting.part_len 0 items.now }
    ensures within { result ≤ length items.now }
{
    let mut depth = 0;
    let mut rest = items;
    let mut len = 0;
    while let [item, after @ ..] = rest {
        if ends_part(depth, item.kind) {
            return len;
        }
        depth = depth_after(depth, item.kind);
        len += 1;
        rest = after;
    }
    len
}

/// What stands behind a comma, where one stands at the front.
fn behind_comma(items: &[Item]) -> Option<&[Item]>
    ensures value { option_map (λ is. is.now) result ≡ parting.behind_comma items.now }
    ensures fewer { IfSome result (λ is. length is.now < length items.now) }
{
    match items {
        [end, rest @ ..] if is_comma(end.kind) => Some(rest),
        _ => None,
    }
}

/// What stands between commas outside of parentheses, up to a parenthesis that closes what was opened before.
pub fn parts<'a>(alloc: Global, items: &'a [Item]) -> Result<Items<&'a [Item]>, NoMemory>
    ensures { IfOk result (λ ps. map (λ p. p.now) ps ≡ specs.parts 0 items.now) }
{
    let mut list = Items::new(alloc);
    let mut rest = items;
    loop {
        let (part, after) = rest.split_at(part_len(rest));
        list.push(part)?;
        match behind_comma(after) {
            Some(next) => rest = next,
            None => return Ok(list),
        }
    }
}

/// Whether two keywords stand beside one another outside of parentheses.
#[tactic(auto, unfolding(crate::specs::Parts::has_pair))]
pub fn has_pair(first: &str, second: &str, items: &[Item]) -> bool
    ensures { result ≡ specs.has_pair 0 first.now second.now items.now }
{
    let mut depth = 0;
    let mut rest = items;
    while let [item, after @ ..] = rest {
        if depth == 0 && begins_pair(first, second, rest) {
            return true;
        }
        depth = depth_after(depth, item.kind);
        rest = after;
    }
    false
}

/// How many items stand before the first parenthesis that opens.
fn open_len(items: &[Item]) -> usize
    ensures value { result ≡ prefix_len (λ i. not (is_open_kind i.kind)) items.now }
    ensures within { result ≤ length items.now }
{
    items.iter().take_while(|item| !is_open(item.kind)).count()
}

/// How many items stand before the first parenthesis that closes.
fn close_len(items: &[Item]) -> usize
    ensures value { result ≡ prefix_len (λ i. not (is_close_kind i.kind)) items.now }
    ensures within { result ≤ length items.now }
{
    items.iter().take_while(|item| !is_close(item.kind)).count()
}

/// The items without the first one.
fn behind_first(items: &[Item]) -> &[Item]
    ensures { result.now ≡ drop 1 items.now }
{
    match items {
        [] => items,
        [_, ..] => &items[1..],
    }
}

/// What stands behind the first parenthesis that opens.
pub fn behind_open(items: &[Item]) -> &[Item]
    ensures { result.now ≡ specs.behind_open items.now }
{
    behind_first(&items[open_len(items)..])
}

/// What stands behind the first parenthesis that closes.
pub fn behind_close(items: &[Item]) -> &[Item]
    ensures { result.now ≡ specs.behind_close items.now }
{
    behind_first(&items[close_len(items)..])
}
