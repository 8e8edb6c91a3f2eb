// What a query is emitted from, and the loops that a SELECT sees.
ghost use Rattle.std.specs.Prelude.{◌≡◌, ◌+◌, ◌<◌, ◌^◌, length, IfOk, map, slice_get};
ghost use Rattle.sql_parts.specs.Emitted as emitted;
ghost use Rattle.sql_parts.specs.Scopes as spec;
ghost use Rattle.sql_parts.specs.Reading.{ground_of, scope_of, IsSmall, number_or};

use kernel_lang::{Acc, ListDef};
use qbs_base::{Items, Name, NoMemory, Numbers, Table};
use sql_ast::{FromItem, FromItems, Query, SqlCol, SqlColumn};
use sql_build::keys::position;
use sql_build::scope::Scope;
use std::alloc::Global;
use tor_terms::{Atom, Elem};

/// A fragment's parts with a candidate under a schema, its known queries, and for each the entries
/// that are its arguments.
#[derive(Clone, Copy)]
pub struct Ground<'a> {
    pub schema: &'a [Table],
    pub lists: &'a [ListDef],
    pub atoms: &'a [Atom],
    pub accs: &'a [Acc],
    pub cand: &'a [u32],
    pub known: &'a [Query],
    pub args: &'a [Numbers],
}

/// The number of a loop, counted on from `n`, or another number.
fn number_after(n: u32, loops: &[u32], j: u32, other: u32) -> u32
    requires { n + length loops.now < 2 ^ 32 }
    ensures { result ≡ number_or n loops.now j other }
{
    match loops.split_first() {
        None => other,
        Some((k, rest)) => {
            if *k == j {
                n + 1
            } else {
                number_after(n + 1, rest, j, other)
            }
        }
    }
}

/// The number of the FROM item of a loop.
#[tactic(auto, using(crate::proofs::Scoped::number_is))]
pub fn number_in(s: Scope, j: u32) -> u32
    requires { IsSmall s }
    ensures { result ≡ spec.number_in (scope_of s.entry).loops j }
{
    let outer = number_after(0, s.outer, j, 0);
    number_after(s.outer.len() as u32, s.own, j, outer)
}

/// The table of a loop, by its number.
fn table_of(g: Ground, j: u32) -> u32
    ensures { result ≡ (spec.list_of (ground_of g.entry) j).table }
{
    match g.lists.get(j as usize) {
        Some(list) => list.table,
        None => 0,
    }
}

fn table_name(alloc: Global, schema: &[Table], n: u32) -> Result<Name, NoMemory>
    ensures { IfOk result (λ name. name ≡ spec.table_name (slice_get schema.now n)) }
{
    match schema.get(n as usize) {
        Some(table) => Ok(table.name.clone()?),
        None => Ok(Name::from_str(alloc, "")?),
    }
}

fn column_name(alloc: Global, schema: &[Table], n: u32, c: u32) -> Result<Name, NoMemory>
    ensures { IfOk result (λ name. name ≡ spec.column_name (slice_get (spec.columns_of (slice_get schema.now n)) c)) }
{
    let table = match schema.get(n as usize) {
        Some(table) => table,
        None => return Ok(Name::from_str(alloc, "")?),
    };
    match table.columns.as_slice().get(c as usize) {
        Some(column) => Ok(column.name.clone()?),
        None => Ok(Name::from_str(alloc, "")?),
    }
}

fn from_item(alloc: Global, g: Ground, j: u32) -> Result<FromItem, NoMemory>
    ensures { IfOk result (λ from. from ≡ spec.from_item (ground_of g.entry) j) }
{
    let table = table_of(g, j);
    let name = table_name(alloc, g.schema, table)?;
    Ok(FromItem { name, table })
}

/// The FROM items of loops.
pub fn from_items(alloc: Global, g: Ground, loops: &[u32]) -> Result<FromItems, NoMemory>
    ensures { IfOk result (λ froms. froms ≡ spec.from_items (ground_of g.entry) loops.now) }
{
    let mut all = Items::new(alloc);
    for j in loops {
        all.push(from_item(alloc, g, *j)?)?;
    }
    Ok(all)
}

/// The column `c` of the loop `j`, whose FROM item has the number `n`.
pub fn column(alloc: Global, g: Ground, n: u32, j: u32, c: u32) -> Result<SqlCol, NoMemory>
    ensures { IfOk result (λ col. col ≡ spec.column (ground_of g.entry) n j c) }
{
    let name = column_name(alloc, g.schema, table_of(g, j), c)?;
    Ok(SqlCol {
        item: n,
        column: SqlColumn::Named { name, number: c },
    })
}

/// The column of an element of a loop.
pub fn elem_col(alloc: Global, g: Ground, s: Scope, e: &Elem) -> Result<SqlCol, NoMemory>
    requires { IsSmall s }
    ensures { IfOk result (λ col. col ≡ emitted.elem_col (ground_of g.entry) (scope_of s.entry) e.now) }
{
    match e {
        Elem::Whole(j) => Ok(position(number_in(s, *j))),
        Elem::Field(j, c) => column(alloc, g, number_in(s, *j), *j, *c),
    }
}

/// How many FROM items there are.
pub fn count(s: Scope) -> u32
    requires { IsSmall s }
    ensures { result ≡ (scope_of s.entry).count }
{
    (s.outer.len() + s.own.len()) as u32
}
