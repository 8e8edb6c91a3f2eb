// A query for each update.
ghost use Rattle.std.specs.Prelude.{◌≡◌, ◌≤◌, [], length, IfOk};
ghost use Rattle.kernel_lang.specs.Plain.{accumulator};
ghost use Rattle.sql_ast.specs.Reading.{inner_filter, query};
ghost use Rattle.sql_ast.specs.Tree as plain;
ghost use Rattle.sql_parts.specs.Emitted as spec;
ghost use Rattle.sql_parts.specs.Numbered.{with_filter};
ghost use Rattle.sql_parts.specs.Reading.{ground_of};

use crate::keys::keys;
use kernel_lang::{Acc, Update};
use qbs_base::{NoMemory, Tys};
use sql_ast::{Cond, ListQuery, NumberKind, Query};
use sql_build::scope::Scope;
use sql_parts::ground::{Ground, from_items};
use sql_parts::query::{
    best_query, item, number_query, sum_query, truth_query, unboxed, values_query,
};
use sql_parts::sort_keys::limit_of;
use std::alloc::Global;
use tor_terms::Elem;

/// The elements of all combinations of rows, in order of the loops.
fn rows_query(
    alloc: Global,
    g: Ground,
    loops: &[u32],
    e: &Elem,
    filter: Option<Box<Cond>>,
    params: Tys,
) -> Result<Query, NoMemory>
    requires { length loops.now ≤ 3 }
    ensures { IfOk result (λ q. query q ≡ with_filter (spec.rows_query (ground_of g.entry) loops.now e.now plain.Everything) (inner_filter filter) params) }
{
    let s = Scope {
        own: loops,
        outer: &[],
    };
    let item = item(alloc, g, s, e)?;
    let from = from_items(alloc, g, loops)?;
    let keys = keys(alloc, g, loops)?;
    Ok(Query::Listing(ListQuery {
        item,
        from,
        filter: unboxed(filter),
        group: None,
        keys,
        limit: limit_of(g, loops),
        params,
    }))
}

/// The query of an accumulator with this WHERE, whose parameters have these types.
pub fn query_by(
    alloc: Global,
    g: Ground,
    acc: &Acc,
    filter: Option<Box<Cond>>,
    params: Tys,
) -> Result<Query, NoMemory>
    requires { length acc.now.chain ≤ 3 }
    ensures { IfOk result (λ q.
        query q
        ≡ with_filter (spec.query_by acc.now.update (ground_of g.entry) (accumulator acc.now, []) plain.Everything) (inner_filter filter) params) }
{
    let loops = acc.chain.as_slice();
    match &acc.update {
        Update::Push(e) => rows_query(alloc, g, loops, e, filter, params),
        Update::PushNew(e) => values_query(alloc, g, loops, e, filter, params),
        Update::Tick => number_query(alloc, g, loops, NumberKind::Count, filter, params),
        Update::Plus(e) => sum_query(alloc, g, loops, e, filter, params),
        Update::Best(way, e) => best_query(alloc, g, acc, *way, e, filter, params),
        Update::Mark => truth_query(alloc, g, acc, filter, params),
    }
}
