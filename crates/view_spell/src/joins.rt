// Queries that list no row twice.
ghost use Rattle.std.specs.Prelude.{◌≡◌, ◌+◌, ◌<◌, ◌^◌, ◌++◌, length, OnOk, IfOk, box_value};
ghost use Rattle.std.specs.Option.{option_map};
ghost use Rattle.sql_ast.specs.Reader.{query_of_text};
ghost use Rattle.sql_ast.specs.Reading.{condition, filter_of, listing, query};
ghost use Rattle.view_spell.specs.Joins as specs;

use qbs_base::{Column, Fail, NoMemory, Text, columns_at};
use schema::Schema;
use sql_ast::{Cmp, Cond, FromItem, ListQuery, Query, SqlColumn, SqlItem, SqlOpnd};
use sql_parse::parse_query;
use std::alloc::Global;

// ---- Conditions

fn is_named(column: usize, named: &SqlColumn) -> bool
    ensures { result ≡ specs.is_named column named.now }
{
    match named {
        SqlColumn::Named { number, .. } => *number as usize == column,
        SqlColumn::Pos => false,
    }
}

/// Whether an operand is this column of an item.
fn is_column(item: usize, column: usize, opnd: &SqlOpnd) -> bool
    ensures { result ≡ specs.is_column item column opnd.now }
{
    match opnd {
        SqlOpnd::Column(c) => c.item as usize == item && is_named(column, &c.column),
        SqlOpnd::Lit(_) | SqlOpnd::Param(_) => false,
    }
}

fn is_bound_item(bound: &[bool], item: u32) -> bool
    ensures { result ≡ specs.is_bound_item bound.now item }
{
    if item == 0 {
        return false;
    }
    match bound.get(item as usize - 1) {
        Some(is) => *is,
        None => false,
    }
}

/// Whether an operand has one value for each row that is bound.
fn is_fixed(bound: &[bool], opnd: &SqlOpnd) -> bool
    ensures { result ≡ specs.is_fixed bound.now opnd.now }
{
    match opnd {
        SqlOpnd::Column(c) => is_bound_item(bound, c.item),
        SqlOpnd::Lit(_) | SqlOpnd::Param(_) => true,
    }
}

/// Whether a part of a condition's outermost AND makes a column equal to what is fixed.
fn fixes(bound: &[bool], item: usize, column: usize, cond: &Cond) -> bool
    ensures { result ≡ specs.fixes bound.now item column (condition cond.now) }
{
    match cond {
        Cond::Both(a, b) => fixes(bound, item, column, a) || fixes(bound, item, column, b),
        Cond::Compare(Cmp::Eq, a, b) => {
            (is_column(item, column, a) && is_fixed(bound, b))
                || (is_column(item, column, b) && is_fixed(bound, a))
        }
        _ => false,
    }
}

fn is_column_fixed(bound: &[bool], item: usize, column: usize, filter: &Option<Cond>) -> bool
    ensures { result ≡ specs.is_column_fixed bound.now item column (filter_of filter.now) }
{
    match filter {
        Some(cond) => fixes(bound, item, column, cond),
        None => false,
    }
}

// ---- Keys

fn is_fixed_where_primary(
    bound: &[bool],
    item: usize,
    number: usize,
    column: &Column,
    filter: &Option<Cond>,
) -> bool
    ensures { result ≡ specs.is_fixed_where_primary bound.now item number column.now (filter_of filter.now) }
{
    !column.primary || is_column_fixed(bound, item, number, filter)
}

fn are_fixed_from(
    bound: &[bool],
    item: usize,
    number: usize,
    columns: &[Column],
    filter: &Option<Cond>,
) -> bool
    requires { number + length columns.now < 2 ^ 64 }
    ensures { result ≡ specs.are_fixed_from bound.now item number columns.now (filter_of filter.now) }
{
    match columns {
        [] => true,
        [column, columns @ ..] => {
            is_fixed_where_primary(bound, item, number, column, filter)
                && are_fixed_from(bound, item, number + 1, columns, filter)
        }
    }
}

/// Whether a table has a primary key.
fn has_key(columns: &[Column]) -> bool
    ensures { result ≡ specs.has_key columns.now }
{
    columns.iter().any(|c| c.primary)
}

fn is_key_fixed(bound: &[bool], item: usize, columns: &[Column], filter: &Option<Cond>) -> bool
    ensures { result ≡ specs.is_key_fixed bound.now item columns.now (filter_of filter.now) }
{
    has_key(columns) && are_fixed_from(bound, item, 0, columns, filter)
}

// ---- Items

/// Pushes whether each item from a number on is bound by what was bound before.
fn push_bound(
    schema: &Schema,
    filter: &Option<Cond>,
    all: &[bool],
    item: usize,
    from: &[FromItem],
    bound: &[bool],
    out: &mut Vec<bool>,
) -> Result<(), NoMemory>
    requires { item + length from.now < 2 ^ 64 }
    ensures { OnOk result (out.new.items ≡ out.old.items ++ specs.bound_from schema.now (filter_of filter.now) all.now item from.now bound.now) }
{
    match from {
        [] => Ok(()),
        [f, from @ ..] => match bound {
            [] => Ok(()),
            [b, bound @ ..] => {
                let columns = columns_at(schema.tables(), f.table);
                out.push(*b || is_key_fixed(all, item, columns, filter))?;
                push_bound(schema, filter, all, item + 1, from, bound, out)
            }
        },
    }
}

fn bound_once(
    alloc: Global,
    schema: &Schema,
    query: &ListQuery,
    bound: &[bool],
) -> Result<Vec<bool>, NoMemory>
    ensures { IfOk result (λ out. out.items ≡ specs.bound_once schema.now (listing query.now) bound.now) }
{
    let mut out = Vec::new(alloc);
    let from = query.from.as_slice();
    push_bound(schema, &query.filter, bound, 1, from, bound, &mut out)?;
    Ok(out)
}

fn bound_after(
    alloc: Global,
    schema: &Schema,
    query: &ListQuery,
    bound: Vec<bool>,
) -> Result<Vec<bool>, NoMemory>
    ensures { IfOk result (λ out. out.items ≡ specs.bound_after schema.now (listing query.now) query.now.from bound.items) }
{
    let mut bound = bound;
    for _item in query.from.as_slice() {
        bound = bound_once(alloc, schema, query, bound.as_slice())?;
    }
    Ok(bound)
}

/// Of items from a number on only the one that is listed.
fn only_listed(alloc: Global, listed: u32, from: &[FromItem]) -> Result<Vec<bool>, NoMemory>
    ensures { IfOk result (λ out. out.items ≡ specs.only_from listed 1 from.now) }
{
    let mut out = Vec::new(alloc);
    let mut item = 1;
    for _from in from {
        out.push(item == listed as usize)?;
        item += 1;
    }
    Ok(out)
}

fn are_bound(
    alloc: Global,
    schema: &Schema,
    query: &ListQuery,
    listed: u32,
) -> Result<bool, NoMemory>
    ensures { IfOk result (λ b. b ≡ specs.are_bound schema.now (listing query.now) listed) }
{
    let only = only_listed(alloc, listed, query.from.as_slice())?;
    let bound = bound_after(alloc, schema, query, only)?;
    Ok(bound.as_slice().iter().all(|b| *b))
}

fn lists_bound(alloc: Global, schema: &Schema, query: &ListQuery) -> Result<bool, NoMemory>
    ensures { IfOk result (λ b. b ≡ specs.lists_bound schema.now (listing query.now) query.now.item) }
{
    match &query.item {
        SqlItem::Whole(item) => are_bound(alloc, schema, query, *item),
        SqlItem::Column(_) => Ok(false),
    }
}

fn is_once(alloc: Global, schema: &Schema, asked: &Query) -> Result<bool, NoMemory>
    ensures { IfOk result (λ b. b ≡ specs.is_once schema.now (query asked.now)) }
{
    match asked {
        Query::Listing(listing) => lists_bound(alloc, schema, listing),
        Query::Number(_) | Query::Truth(_) => Ok(false),
    }
}

/// The query of a text, where it has one.
fn query_of(alloc: Global, schema: &Schema, text: &Text) -> Result<Option<Box<Query>>, NoMemory>
    ensures { IfOk result (λ q. option_map query (option_map box_value q) ≡ specs.asked_of (query_of_text schema.now text.now)) }
{
    match parse_query(alloc, schema, text) {
        Ok(asked) => Ok(Some(Box::new(alloc, asked)?)),
        Err(Fail::Fault(_)) => Ok(None),
        Err(Fail::NoMemory) => Err(NoMemory),
    }
}

/// Whether the query of a text lists no row twice, as far as keys are unique. It fails only by want of memory.
pub fn lists_once(alloc: Global, schema: &Schema, text: &Text) -> Result<bool, NoMemory>
    ensures { IfOk result (λ b. b ≡ specs.lists_once schema.now text.now) }
{
    match query_of(alloc, schema, text)? {
        Some(asked) => is_once(alloc, schema, &asked),
        None => Ok(false),
    }
}
