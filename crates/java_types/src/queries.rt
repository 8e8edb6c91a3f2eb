// The queries of texts, and the rules of queries.
ghost use Rattle.std.specs.Prelude.{◌≡◌, IfOk, box_value, option_copied};
ghost use Rattle.std.specs.Option.{option_map};
ghost use Rattle.sql_ast.specs.Meaning as meaning;
ghost use Rattle.sql_ast.specs.Reading.{query, listing};
ghost use Rattle.sql_ast.specs.Typing as typing;
ghost use Rattle.java_ast.specs.Reading.{expressions};
ghost use Rattle.java_mean.specs.Asks as asks;
ghost use Rattle.java_mean.specs.Rules as rules;
ghost use Rattle.java_types.specs.Texts.{read_by};

use crate::types::same_single;
use java_ast::Expr;
use java_mean::Single;
use qbs_base::{Column, Fail, NoMemory, Text, Ty};
use schema::Schema;
use sql_ast::{FromItem, ListQuery, Query, SqlCol, SqlColumn, SqlItem};
use sql_parse::parse_query;
use std::alloc::Global;

/// The query that a text has under the schema, and none where it has none.
pub fn read_query(alloc: Global, schema: &Schema, text: &Text) -> Result<Option<Query>, NoMemory>
    ensures { IfOk result (λ q. option_map query q ≡ read_by schema.now text.now) }
{
    match parse_query(alloc, schema, text) {
        Ok(q) => Ok(Some(q)),
        Err(Fail::Fault(_)) => Ok(None),
        Err(Fail::NoMemory) => Err(NoMemory),
    }
}

/// The query that a text has under the schema, on the heap, and none where it has none.
pub fn query_of(alloc: Global, schema: &Schema, text: &Text) -> Result<Option<Box<Query>>, NoMemory>
    ensures { IfOk result (λ q. option_map query (option_map box_value q) ≡ read_by schema.now text.now) }
{
    match parse_query(alloc, schema, text) {
        Ok(q) => Ok(Some(Box::new(alloc, q)?)),
        Err(Fail::Fault(_)) => Ok(None),
        Err(Fail::NoMemory) => Err(NoMemory),
    }
}

/// The types of a query's parameters, none where there is no query.
pub fn params_of(q: Option<&Query>) -> &[Ty]
    ensures { result.now ≡ rules.params_of (option_map query (option_copied q.entry)) }
{
    match q {
        None => &[],
        Some(q) => q.params(),
    }
}

fn from_item(from: &[FromItem], item: u32) -> Option<&FromItem>
    ensures { option_copied result ≡ meaning.nth from.now item }
{
    if item == 0 {
        return None;
    }
    from.get(item as usize - 1)
}

fn ty_of_column(columns: &[Column], column: &SqlColumn) -> Option<Ty>
    ensures { result ≡ typing.ty_of_column columns.now column.now }
{
    match column {
        SqlColumn::Pos => Some(Ty::Long),
        SqlColumn::Named { name: _, number } => match columns.get(*number as usize) {
            Some(column) => Some(column.ty),
            None => None,
        },
    }
}

fn column_type(schema: &Schema, from: &[FromItem], col: &SqlCol) -> Option<Single>
    ensures { result ≡ asks.column_type schema.now from.now col.now }
{
    let from = from_item(from, col.item)?;
    let table = schema.tables().get(from.table as usize)?;
    let ty = ty_of_column(table.columns.as_slice(), &col.column)?;
    Some(Single::ScalarOf(ty))
}

fn item_type(schema: &Schema, from: &[FromItem], item: &SqlItem) -> Option<Single>
    ensures { result ≡ asks.item_type schema.now from.now item.now }
{
    match item {
        SqlItem::Whole(item) => match from_item(from, *item) {
            Some(from) => Some(Single::RowOf(from.table)),
            None => None,
        },
        SqlItem::Column(col) => column_type(schema, from, col),
    }
}

/// What a list query lists.
fn element_type(schema: &Schema, q: &ListQuery) -> Option<Single>
    ensures { result ≡ asks.element_type schema.now (listing q.now) q.now.group }
{
    match &q.group {
        None => item_type(schema, q.from.as_slice(), &q.item),
        Some(col) => column_type(schema, q.from.as_slice(), col),
    }
}

fn is_single(a: Single, b: Option<Single>) -> bool
    ensures { result ≡ rules.is_single a b }
{
    match b {
        None => false,
        Some(b) => same_single(a, b),
    }
}

/// Whether it is a query that lists such members.
pub fn lists(schema: &Schema, a: Option<Single>, q: Option<&Query>) -> bool
    ensures { result ≡ rules.lists schema.now a (option_map query (option_copied q.entry)) }
{
    match (a, q) {
        (Some(a), Some(Query::Listing(q))) => is_single(a, element_type(schema, q)),
        _ => false,
    }
}

/// Whether it is a query of a number.
pub fn is_number(q: Option<&Query>) -> bool
    ensures { result ≡ rules.is_number (option_map query (option_copied q.entry)) }
{
    match q {
        Some(Query::Number(_)) => true,
        _ => false,
    }
}

/// Whether it is a query of a truth value.
pub fn is_truth(q: Option<&Query>) -> bool
    ensures { result ≡ rules.is_truth (option_map query (option_copied q.entry)) }
{
    match q {
        Some(Query::Truth(_)) => true,
        _ => false,
    }
}

/// Whether a query, where there is one, has as many parameters as there are arguments.
#[tactic(auto, using(crate::proofs::Columns::same_lengths))]
pub fn fits_query(q: Option<&Query>, args: &[Expr]) -> bool
    ensures { result ≡ rules.fits_query (option_map query (option_copied q.entry)) (expressions args.now) }
{
    match q {
        None => true,
        Some(q) => q.params().len() == args.len(),
    }
}
