// Combinations in the order of keys.
ghost use Rattle.std.specs.Prelude.{◌≡◌, map, OnOk};
ghost use Rattle.qbs_base.specs.Sort.{stable_sort};
ghost use Rattle.sql_ast.specs.Meaning.{before, cut};
ghost use Rattle.sql_rows.specs.Keyed.{keyed_of, valued_before};
ghost use Rattle.sql_rows.specs.Reading.{combinations};

use crate::order::{keyed_order, order};
use crate::place::{Keyed, Place};
use sql_ast::SqlKey;
use std::alloc::AllocError;

fn sort(key: &SqlKey, rest: &[SqlKey], all: &mut Vec<Keyed>) -> Result<(), AllocError>
    ensures { OnOk result (map keyed_of all.new.items ≡ stable_sort (valued_before key.now rest.now) (map keyed_of all.old.items)) }
{
    all.sort_by(|a, b| keyed_order(key, rest, a, b))
}

/// Leaves the first ones, as many as LIMIT does.
fn cut_to(limit: Option<u64>, all: &mut Vec<Keyed>)
    ensures { all.new.items ≡ cut limit all.old.items }
{
    if let Some(most) = limit {
        all.truncate(most as usize);
    }
}

/// Sorts combinations by keys, those that tie in their order, and leaves the first ones, as many as
/// LIMIT does.
pub fn sort_and_cut(
    key: &SqlKey,
    rest: &[SqlKey],
    limit: Option<u64>,
    all: &mut Vec<Keyed>,
) -> Result<(), AllocError>
    ensures { OnOk result (map keyed_of all.new.items ≡ cut limit (stable_sort (valued_before key.now rest.now) (map keyed_of all.old.items))) }
{
    sort(key, rest, all)?;
    cut_to(limit, all);
    Ok(())
}

fn sort_whole(keys: &[SqlKey], all: &mut Vec<Vec<Place>>) -> Result<(), AllocError>
    ensures { OnOk result (combinations all.new.items ≡ stable_sort (before keys.now) (combinations all.old.items)) }
{
    all.sort_by(|a, b| order(keys, a.as_slice(), b.as_slice()))
}

fn cut_whole(limit: Option<u64>, all: &mut Vec<Vec<Place>>)
    ensures { all.new.items ≡ cut limit all.old.items }
{
    if let Some(most) = limit {
        all.truncate(most as usize);
    }
}

/// Leaves the first combinations in the order of keys, as many as LIMIT does; those that tie keep their
/// order.
pub fn leave_first(
    keys: &[SqlKey],
    limit: Option<u64>,
    all: &mut Vec<Vec<Place>>,
) -> Result<(), AllocError>
    ensures { OnOk result (combinations all.new.items ≡ cut limit (stable_sort (before keys.now) (combinations all.old.items))) }
{
    sort_whole(keys, all)?;
    cut_whole(limit, all);
    Ok(())
}
