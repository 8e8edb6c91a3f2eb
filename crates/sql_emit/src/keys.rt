// ORDER BY of list queries.
ghost use Rattle.std.specs.Prelude.{◌≡◌, ◌+◌, ◌<◌, ◌^◌, ◌++◌, length, IfOk, OnOk};
ghost use Rattle.sql_parts.specs.Emitted as spec;
ghost use Rattle.sql_parts.specs.Reading.{ground_of};

use qbs_base::{Items, NoMemory};
use sql_ast::SqlKeys;
use sql_build::keys::put_position;
use sql_parts::ground::Ground;
use sql_parts::sort_keys::{add_list_keys, list_cols};
use std::alloc::Global;

/// For each of these loops, whose FROM items have the numbers after `n`, the keys of its list and
/// then its position.
fn add_keys(
    alloc: Global,
    g: Ground,
    n: u32,
    loops: &[u32],
    all: &mut SqlKeys,
) -> Result<(), NoMemory>
    requires { n + length loops.now < 2 ^ 32 }
    ensures { OnOk result (all.new ≡ all.old ++ spec.keys (ground_of g.entry) n loops.now) }
{
    match loops.split_first() {
        None => Ok(()),
        Some((j, rest)) => {
            add_list_keys(alloc, g, n + 1, *j, list_cols(g, *j), all)?;
            put_position(n + 1, all)?;
            add_keys(alloc, g, n + 1, rest, all)
        }
    }
}

/// The keys of a list query over these loops.
pub fn keys(alloc: Global, g: Ground, loops: &[u32]) -> Result<SqlKeys, NoMemory>
    requires { length loops.now < 2 ^ 32 }
    ensures { IfOk result (λ keys. keys ≡ spec.keys (ground_of g.entry) 0 loops.now) }
{
    let mut all = Items::new(alloc);
    add_keys(alloc, g, 0, loops, &mut all)?;
    Ok(all)
}
