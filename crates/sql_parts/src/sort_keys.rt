// Keys of ORDER BY, and LIMIT.
ghost use Rattle.std.specs.Prelude.{◌≡◌, ◌++◌, map, IfOk, OnOk};
ghost use Rattle.sql_parts.specs.Emitted as spec;
ghost use Rattle.sql_parts.specs.Reading.{ground_of};
ghost use Rattle.sql_parts.specs.Scopes.{list_of};

use crate::ground::{Ground, column};
use kernel_lang::{Col, ListDef};
use qbs_base::NoMemory;
use sql_ast::{SqlKey, SqlKeys};
use std::alloc::Global;

/// A key of the list of the loop `j`, whose FROM item has the number `n`.
fn key(alloc: Global, g: Ground, n: u32, j: u32, k: Col) -> Result<SqlKey, NoMemory>
    ensures { IfOk result (λ key. key ≡ spec.key (ground_of g.entry) n j k) }
{
    let col = column(alloc, g, n, j, k.column)?;
    Ok(SqlKey {
        least: false,
        col,
        down: k.down,
    })
}

/// Adds the keys of the list of the loop `j`, whose FROM item has the number `n`.
pub fn add_list_keys(
    alloc: Global,
    g: Ground,
    n: u32,
    j: u32,
    cols: &[Col],
    all: &mut SqlKeys,
) -> Result<(), NoMemory>
    ensures { OnOk result (all.new ≡ all.old ++ map (spec.key (ground_of g.entry) n j) cols.now) }
{
    match cols.split_first() {
        None => Ok(()),
        Some((k, rest)) => {
            all.push(key(alloc, g, n, j, *k)?)?;
            add_list_keys(alloc, g, n, j, rest, all)
        }
    }
}

/// The keys of the list of the loop `j`.
pub fn list_cols<'a>(g: Ground<'a>, j: u32) -> &'a [Col]
    ensures { result.now ≡ (list_of (ground_of g.entry) j).keys }
{
    match g.lists.get(j as usize) {
        Some(list) => list.keys.as_slice(),
        None => &[],
    }
}

/// The limit of a list with keys: that of a list without is a condition.
fn sorted_limit(list: &ListDef) -> Option<u64>
    ensures { result ≡ spec.sorted_limit list.now.keys list.now.limit }
{
    if list.keys.is_empty() {
        None
    } else {
        list.limit
    }
}

/// The limit of a list query over these loops.
pub fn limit_of(g: Ground, loops: &[u32]) -> Option<u64>
    ensures { result ≡ spec.limit_of (ground_of g.entry) loops.now }
{
    let first = loops.first()?;
    let list = g.lists.get(*first as usize)?;
    sorted_limit(list)
}
