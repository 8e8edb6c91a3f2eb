// A query for each update that makes no list of all elements.
ghost use Rattle.std.specs.Prelude.{◌≡◌, ◌≤◌, length, pos, IfOk};
ghost use Rattle.sql_ast.specs.Meaning.{number_of};
ghost use Rattle.sql_ast.specs.Reading.{filter_of, inner_filter, query};
ghost use Rattle.sql_ast.specs.Tree as plain;
ghost use Rattle.sql_parts.specs.Emitted as spec;
ghost use Rattle.sql_parts.specs.Numbered.{with_filter};
ghost use Rattle.sql_parts.specs.Reading.{ground_of, scope_of, IsSmall};
ghost use Rattle.sql_parts.specs.Scopes.{outermost, from_items as from_items_of};

use crate::ground::{Ground, column, elem_col, from_items, number_in};
use kernel_lang::Acc;
use qbs_base::{NoMemory, Scalar, Tys};
use sql_ast::{
    Cond, ListQuery, NumberKind, NumberQuery, Query, SqlCol, SqlItem, SqlKeys, TruthQuery,
};
use sql_build::keys::position_key;
use sql_build::scope::Scope;
use std::alloc::Global;
use tor_terms::{Elem, Way};

/// The WHERE of a query that is made.
pub fn unboxed(filter: Option<Box<Cond>>) -> Option<Cond>
    ensures { filter_of result ≡ inner_filter filter }
{
    match filter {
        None => None,
        Some(a) => Some(Box::into_inner(a)),
    }
}

/// A row or a column of the loop of an element.
pub fn item(alloc: Global, g: Ground, s: Scope, e: &Elem) -> Result<SqlItem, NoMemory>
    requires { IsSmall s }
    ensures { IfOk result (λ item. item ≡ spec.item (ground_of g.entry) (scope_of s.entry) e.now) }
{
    match e {
        Elem::Whole(j) => Ok(SqlItem::Whole(number_in(s, *j))),
        Elem::Field(j, c) => Ok(SqlItem::Column(column(alloc, g, number_in(s, *j), *j, *c)?)),
    }
}

/// Each value once, in order of the first rows that have it.
pub fn values_query(
    alloc: Global,
    g: Ground,
    loops: &[u32],
    e: &Elem,
    filter: Option<Box<Cond>>,
    params: Tys,
) -> Result<Query, NoMemory>
    requires { length loops.now ≤ 3 }
    ensures { IfOk result (λ q. query q ≡ with_filter (spec.values_query (ground_of g.entry) loops.now e.now plain.Everything) (inner_filter filter) params) }
{
    let s = Scope {
        own: loops,
        outer: &[],
    };
    let item = item(alloc, g, s, e)?;
    let from = from_items(alloc, g, loops)?;
    let group = elem_col(alloc, g, s, e)?;
    let mut keys = SqlKeys::new(alloc);
    keys.push(position_key(true, 1))?;
    Ok(Query::Listing(ListQuery {
        item,
        from,
        filter: unboxed(filter),
        group: Some(group),
        keys,
        limit: None,
        params,
    }))
}

/// The number of this kind of all combinations of rows.
pub fn number_query(
    alloc: Global,
    g: Ground,
    loops: &[u32],
    kind: NumberKind,
    filter: Option<Box<Cond>>,
    params: Tys,
) -> Result<Query, NoMemory>
    ensures { IfOk result (λ q. query q ≡ with_filter (spec.number_query (ground_of g.entry) loops.now kind plain.Everything) (inner_filter filter) params) }
{
    let from = from_items(alloc, g, loops)?;
    Ok(Query::Number(NumberQuery {
        kind,
        from,
        filter: unboxed(filter),
        params,
    }))
}

/// The column of an element of these loops.
fn loop_col(alloc: Global, g: Ground, loops: &[u32], e: &Elem) -> Result<SqlCol, NoMemory>
    requires { length loops.now ≤ 3 }
    ensures { IfOk result (λ col. col ≡ spec.elem_col (ground_of g.entry) (outermost loops.now) e.now) }
{
    let s = Scope {
        own: loops,
        outer: &[],
    };
    elem_col(alloc, g, s, e)
}

/// The number that a greatest or least value starts with.
fn start_number(start: &Option<Scalar>) -> i64
    ensures { result ≡ number_of start.now }
{
    match start {
        Some(Scalar::Long(n)) => *n,
        _ => 0,
    }
}

fn best_kind(way: Way, col: SqlCol, start: &Option<Scalar>) -> NumberKind
    ensures { result ≡ spec.best_kind way col start.now }
{
    match way {
        Way::Max => NumberKind::Max(col, start_number(start)),
        Way::Min => NumberKind::Min(col, start_number(start)),
    }
}

/// The sum of the elements of all combinations of rows.
pub fn sum_query(
    alloc: Global,
    g: Ground,
    loops: &[u32],
    e: &Elem,
    filter: Option<Box<Cond>>,
    params: Tys,
) -> Result<Query, NoMemory>
    requires { length loops.now ≤ 3 }
    ensures { IfOk result (λ q.
        query q
        ≡ with_filter (spec.number_query (ground_of g.entry) loops.now (NumberKind.Sum (spec.elem_col (ground_of g.entry) (outermost loops.now) e.now) (pos 0)) plain.Everything) (inner_filter filter) params) }
{
    let col = loop_col(alloc, g, loops, e)?;
    number_query(alloc, g, loops, NumberKind::Sum(col, 0), filter, params)
}

/// The greatest or the least element, or the start.
pub fn best_query(
    alloc: Global,
    g: Ground,
    acc: &Acc,
    way: Way,
    e: &Elem,
    filter: Option<Box<Cond>>,
    params: Tys,
) -> Result<Query, NoMemory>
    requires { length acc.now.chain ≤ 3 }
    ensures { IfOk result (λ q.
        query q
        ≡ with_filter (spec.number_query (ground_of g.entry) acc.now.chain (spec.best_kind way (spec.elem_col (ground_of g.entry) (outermost acc.now.chain) e.now) acc.now.start) plain.Everything) (inner_filter filter) params) }
{
    let loops = acc.chain.as_slice();
    let col = loop_col(alloc, g, loops, e)?;
    let kind = best_kind(way, col, &acc.start);
    number_query(alloc, g, loops, kind, filter, params)
}

/// Whether there is a combination of rows, or there is none.
pub fn truth_query(
    alloc: Global,
    g: Ground,
    acc: &Acc,
    filter: Option<Box<Cond>>,
    params: Tys,
) -> Result<Query, NoMemory>
    ensures { IfOk result (λ q.
        query q
        ≡ plain.Truth (
        record { negated = acc.now.opposite; from = from_items_of (ground_of g.entry) acc.now.chain; filter = inner_filter filter; params = params })) }
{
    let from = from_items(alloc, g, acc.chain.as_slice())?;
    Ok(Query::Truth(TruthQuery {
        negated: acc.opposite,
        from,
        filter: unboxed(filter),
        params,
    }))
}
