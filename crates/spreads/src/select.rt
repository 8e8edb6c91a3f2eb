// The selects that expressions are.
ghost use Rattle.std.specs.Prelude.{◌≡◌, ◌&&◌, IfOk, Some};
ghost use Rattle.std.specs.Option.{option_map};
ghost use Rattle.java_ast.specs.Reading.{expression, expressions};
ghost use Rattle.java_mean.specs.Visible.{names_seen};
ghost use Rattle.java_types.specs.Texts.{read_by};
ghost use Rattle.select_parts.specs.Selects.{is_select as is_select_of};
ghost use Rattle.spreads.specs.Selected.{select_read};
ghost use Rattle.spreads.specs.Spread as spec;
ghost use Rattle.spreads.specs.Staying.{all_stay as all_stay_of};
ghost use Rattle.sql_ast.specs.Reading.{query as query_read, listing};

use crate::staying::all_stay;
use java_ast::{Expr, ExprNode, JTy};
use java_mean::Scope;
use java_types::query_of;
use qbs_base::{NoMemory, Text, boxed};
use schema::Schema;
use select_parts::is_select as is_select_query;
use sql_ast::{ListQuery, Query};
use std::alloc::Global;

/// A select with its arguments.
#[derive(Drop)]
pub struct Select<'a> {
    pub query: Box<ListQuery>,
    pub arguments: &'a [Expr],
}

fn is_taken(schema: &Schema, assigned: &Scope, query: &ListQuery, arguments: &[Expr]) -> bool
    ensures { result ≡ (is_select_of schema.now (listing query.now) && all_stay_of (names_seen assigned.now) (expressions arguments.now)) }
{
    is_select_query(schema.tables(), query) && all_stay(assigned, arguments)
}

fn select_if<'a>(
    schema: &Schema,
    assigned: &Scope,
    query: Box<ListQuery>,
    arguments: &'a [Expr],
) -> Option<Select<'a>>
    ensures { option_map select_read result
        ≡ spec.select_if (is_select_of schema.now (listing query.value) && all_stay_of (names_seen assigned.now) (expressions arguments.now)) (listing query.value) (expressions arguments.now) }
{
    if is_taken(schema, assigned, &query, arguments) {
        Some(Select { query, arguments })
    } else {
        None
    }
}

fn select_in<'a>(
    alloc: Global,
    schema: &Schema,
    assigned: &Scope,
    query: Box<Query>,
    arguments: &'a [Expr],
) -> Result<Option<Select<'a>>, NoMemory>
    ensures { IfOk result (λ o. option_map select_read o ≡ spec.select_of_rows schema.now (names_seen assigned.now) (Some (query_read query.value)) (expressions arguments.now)) }
{
    match Box::into_inner(query) {
        Query::Listing(listing) => {
            let listing = boxed(alloc, listing)?;
            Ok(select_if(schema, assigned, listing, arguments))
        }
        Query::Number(_) | Query::Truth(_) => Ok(None),
    }
}

fn select_asked<'a>(
    alloc: Global,
    schema: &Schema,
    assigned: &Scope,
    text: &Text,
    arguments: &'a [Expr],
) -> Result<Option<Select<'a>>, NoMemory>
    ensures { IfOk result (λ o. option_map select_read o ≡ spec.select_of_rows schema.now (names_seen assigned.now) (read_by schema.now text.now) (expressions arguments.now)) }
{
    match query_of(alloc, schema, text)? {
        None => Ok(None),
        Some(query) => select_in(alloc, schema, assigned, query, arguments),
    }
}

/// The select that an expression is, with its arguments, where these variables are assigned in the loop: a query for rows of one table in
/// their order, all or those of a condition, whose arguments stay. Only want of memory is an error.
#[tactic(auto, using(java_ast::proofs::Nodes::nodes))]
pub fn select_of<'a>(
    alloc: Global,
    schema: &Schema,
    assigned: &Scope,
    e: &'a Expr,
) -> Result<Option<Select<'a>>, NoMemory>
    ensures { IfOk result (λ o. option_map select_read o ≡ spec.select_of schema.now (read_by schema.now) (names_seen assigned.now) (expression e.now)) }
{
    match &e.node {
        ExprNode::Query(element, text, arguments) => match element {
            JTy::Table(_) => select_asked(alloc, schema, assigned, text, arguments),
            _ => Ok(None),
        },
        _ => Ok(None),
    }
}

/// Whether an expression is a select.
pub fn is_select(
    alloc: Global,
    schema: &Schema,
    assigned: &Scope,
    e: &Expr,
) -> Result<bool, NoMemory>
    ensures { IfOk result (λ b. b ≡ spec.is_there (spec.select_of schema.now (read_by schema.now) (names_seen assigned.now) (expression e.now))) }
{
    let select = select_of(alloc, schema, assigned, e)?;
    Ok(select.is_some())
}
