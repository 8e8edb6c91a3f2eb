// Where rows are fetched.
ghost use Rattle.std.specs.Prelude.{◌≡◌, ◌++◌, ◌-◌, OnOk, IfOk, take, drop, option_copied};
ghost use Rattle.view_spell.specs.Fetched as specs;

use crate::origins::Origin;
use qbs_base::NoMemory;
use std::alloc::Global;
use view_items::Item;
use view_map::{FetchPattern, PatternItem, RowClass, ViewMap};
use view_shapes::Method;

/// A fetch pattern that stands in a method: the byte of the file at which it begins, and the number of the table whose rows it gives.
#[derive(Clone, Copy, PartialEq, Eq)]
pub struct Fetched {
    pub byte: usize,
    pub table: u32,
}

fn table_in(class: Option<&RowClass>) -> Option<u32>
    ensures { result ≡ specs.table_in (option_copied class.entry) }
{
    match class {
        Some(class) => Some(class.table),
        None => None,
    }
}

/// The number of the table of which a class of the map is.
pub fn table_of(map: &ViewMap, class: u32) -> Option<u32>
    ensures { result ≡ specs.table_of map.now class }
{
    table_in(map.classes.as_slice().get(class as usize))
}

fn begin(items: &[Item], pattern: &[PatternItem]) -> bool
    ensures { result ≡ specs.begin items.now pattern.now }
{
    match pattern {
        [] => true,
        [p, pattern @ ..] => match items {
            [] => false,
            [item, items @ ..] => {
                item.bytes.as_slice() == p.bytes.as_slice() && begin(items, pattern)
            }
        },
    }
}

fn push_from(byte: usize, table: Option<u32>, fetched: &mut Vec<Fetched>) -> Result<(), NoMemory>
    ensures { OnOk result (fetched.new.items ≡ fetched.old.items ++ specs.fetched_from byte table) }
{
    match table {
        Some(table) => Ok(fetched.push(Fetched { byte, table })?),
        None => Ok(()),
    }
}

fn push_by(
    map: &ViewMap,
    byte: usize,
    items: &[Item],
    pattern: &FetchPattern,
    fetched: &mut Vec<Fetched>,
) -> Result<(), NoMemory>
    ensures { OnOk result (fetched.new.items ≡ fetched.old.items ++ specs.fetched_by map.now byte items.now pattern.now) }
{
    if begin(items, pattern.items.as_slice()) {
        push_from(byte, table_of(map, pattern.table), fetched)
    } else {
        Ok(())
    }
}

fn push_by_all(
    map: &ViewMap,
    byte: usize,
    items: &[Item],
    patterns: &[FetchPattern],
    fetched: &mut Vec<Fetched>,
) -> Result<(), NoMemory>
    ensures { OnOk result (fetched.new.items ≡ fetched.old.items ++ specs.fetched_by_all map.now byte items.now patterns.now) }
{
    match patterns {
        [] => Ok(()),
        [pattern, patterns @ ..] => {
            push_by(map, byte, items, pattern, fetched)?;
            push_by_all(map, byte, items, patterns, fetched)
        }
    }
}

fn push_among(map: &ViewMap, items: &[Item], fetched: &mut Vec<Fetched>) -> Result<(), NoMemory>
    ensures { OnOk result (fetched.new.items ≡ fetched.old.items ++ specs.fetched_among map.now items.now) }
{
    let mut rest = items;
    while let [item, behind @ ..] = rest {
        push_by_all(map, item.from, rest, map.fetches.as_slice(), fetched)?;
        rest = behind;
    }
    Ok(())
}

fn from_item(items: &[Item], from: usize) -> &[Item]
    ensures { result.now ≡ drop from items.now }
{
    if from < items.len() {
        &items[from..]
    } else {
        &[]
    }
}

fn up_to_item(items: &[Item], to: usize) -> &[Item]
    ensures { result.now ≡ take to items.now }
{
    if to < items.len() {
        &items[..to]
    } else {
        items
    }
}

/// The fetch patterns of the map that stand in a method's body, in text order. Time goes with its items and the map's patterns.
pub fn fetched_in(
    alloc: Global,
    map: &ViewMap,
    items: &[Item],
    method: &Method,
) -> Result<Vec<Fetched>, NoMemory>
    ensures { IfOk result (λ fetched. fetched.items ≡ specs.fetched_in map.now items.now method.now) }
{
    let mut fetched = Vec::new(alloc);
    let body = up_to_item(
        from_item(items, method.from),
        method.to.saturating_sub(method.from),
    );
    push_among(map, body, &mut fetched)?;
    Ok(fetched)
}

fn is_outside(at: Origin, byte: usize) -> bool
    ensures { result ≡ specs.is_outside at byte }
{
    byte < at.from || at.to <= byte
}

fn fetches_outside(table: u32, at: Origin, fetched: &Fetched) -> bool
    ensures { result ≡ specs.fetches_outside table at fetched.now }
{
    fetched.table == table && is_outside(at, fetched.byte)
}

/// Whether rows of a table are fetched elsewhere than in a stretch.
pub fn is_fetched_elsewhere(fetched: &[Fetched], table: u32, at: Origin) -> bool
    ensures { result ≡ specs.is_fetched_elsewhere fetched.now table at }
{
    fetched.iter().any(|f| fetches_outside(table, at, f))
}
