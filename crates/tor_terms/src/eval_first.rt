// The first tuples of a list, as many as an index says.
ghost use Rattle.std.specs.Prelude.{◌≡◌, ◌+◌, [], take, length, get_or};
ghost use Rattle.tor_terms.specs.Value as spec;
ghost use Rattle.tor_terms.specs.Worlds.{world_of};

use crate::eval_found::TupleList;
use crate::{Env, Index};
use qbs_base::Items;

fn turns(env: &Env, j: u32) -> u64
    ensures { result ≡ get_or env.now.at j 0 }
{
    match env.at.as_slice().get(j as usize) {
        Some(n) => *n,
        None => 0,
    }
}

fn rows_of(env: &Env, j: u32) -> usize
    ensures { result ≡ length (get_or env.now.lists j []) }
{
    match env.lists.as_slice().get(j as usize) {
        Some(rows) => rows.len(),
        None => 0,
    }
}

// The first tuples, this many of them.
fn first(tuples: TupleList, count: u64) -> TupleList
    ensures { result ≡ take count tuples }
{
    let mut items = tuples.into_vec();
    if count < items.len() as u64 {
        items.truncate(count as usize);
    }
    Items::from_vec(items)
}

// The first tuples, one more than this many of them.
fn first_and_next(tuples: TupleList, count: u64) -> TupleList
    ensures { result ≡ take (count + 1) tuples }
{
    let mut items = tuples.into_vec();
    if count < items.len() as u64 {
        items.truncate(count as usize + 1);
    }
    Items::from_vec(items)
}

/// The first tuples of a list, as many as an index says.
pub fn first_of(env: &Env, index: Index, tuples: TupleList) -> TupleList
    ensures { result ≡ take (spec.count_of (world_of env.now) index) tuples }
{
    match index {
        Index::Zero => first(tuples, 0),
        Index::At(j) => first(tuples, turns(env, j)),
        Index::Next(j) => first_and_next(tuples, turns(env, j)),
        Index::Len(j) => first(tuples, rows_of(env, j) as u64),
    }
}
