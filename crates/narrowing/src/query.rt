// The query in place of a fetch, with the parts of a condition that it can test.
ghost use Rattle.std.specs.Prelude.{◌≡◌, IfOk, map};
ghost use Rattle.std.specs.Option.{option_map, option_copied};
ghost use Rattle.java_ast.specs.Reading.{expression, expressions, statement, statements};
ghost use Rattle.java_ast.specs.Tree as plain;
ghost use Rattle.java_mean.specs.Visible.{names_seen};
ghost use Rattle.narrowing.specs.Bodies as bodies;
ghost use Rattle.narrowing.specs.Lent.{expressions_lent};
ghost use Rattle.narrowing.specs.Rows.{condition_boxed};
ghost use Rattle.spreads.specs.Narrowed as specs;
ghost use Rattle.spreads.specs.Narrowed.{query_of_body as query_of_body_in};
ghost use Rattle.sql_ast.specs.Canonical.{canonical};
ghost use Rattle.sql_ast.specs.Tree.{Listing};

use crate::arguments::Arguments;
use crate::condition::taken_condition;
use crate::row::Row;
use crate::taken::parts_taken;
use java_ast::build::query;
use java_ast::{Expr, ExprNode, JTy, Stmt, StmtNode};
use java_copies::copy_expression;
use java_mean::Scope;
use qbs_base::{Name, NoMemory, Span, Text, Tys, boxed};
use schema::Schema;
use spreads::names_assigned;
use sql_ast::{Cond, FromItem, FromItems, ListQuery, Query, SqlItem, SqlKeys};
use sql_build::keys::put_position;
use sql_text::print_query;
use std::alloc::Global;

/// The table that is fetched, behind the place of the fetch.
fn table_fetched(e: &Expr) -> Option<(Span, &Name)>
    ensures { option_map (λ p. (p.0, p.1.now)) result ≡ bodies.table_fetched (expression e.now) }
{
    match &e.node {
        ExprNode::Fetch(name) => Some((e.span, name)),
        _ => None,
    }
}

#[tactic(auto, using(java_ast::proofs::Nodes::nodes))]
fn condition_in(s: &Stmt) -> Option<&Expr>
    ensures { option_map expression (option_copied result) ≡ bodies.condition_in (statement s.now) }
{
    match &s.node {
        StmtNode::If {
            cond,
            yes: _,
            other,
        } => match other {
            None => Some(cond),
            Some(_) => None,
        },
        _ => None,
    }
}

/// The condition of a body that is one `if` without `else`.
fn only_condition(body: &[Stmt]) -> Option<&Expr>
    ensures { option_map expression (option_copied result) ≡ bodies.only_condition (statements body.now) }
{
    let (s, rest) = body.split_first()?;
    match rest.split_first() {
        None => condition_in(s),
        Some(_) => None,
    }
}

/// SELECT t1.* FROM this table t1 WHERE this condition ORDER BY t1._pos.
fn listing_text(alloc: Global, name: &Name, table: u32, cond: Box<Cond>) -> Result<Text, NoMemory>
    ensures { IfOk result (λ text. text ≡ canonical (Listing (specs.selecting name.now table (condition_boxed cond)))) }
{
    let name = name.clone()?;
    let mut from = FromItems::new(alloc);
    from.push(FromItem { name, table })?;
    let mut keys = SqlKeys::new(alloc);
    put_position(1, &mut keys)?;
    let query = Query::Listing(ListQuery {
        item: SqlItem::Whole(1),
        from,
        filter: Some(Box::into_inner(cond)),
        group: None,
        keys,
        limit: None,
        params: Tys::new(alloc),
    });
    let query = boxed(alloc, query)?;
    print_query(alloc, &query)
}

fn copies(alloc: Global, es: &[&Expr]) -> Result<Vec<Expr>, NoMemory>
    ensures { IfOk result (λ v. map expression v.items ≡ expressions_lent es.now) }
{
    let mut all = Vec::new(alloc);
    for e in es {
        all.push(copy_expression(alloc, e)?)?;
    }
    Ok(all)
}

/// A query for rows of this table that meet this condition.
#[tactic(auto, using(crate::proofs::Queries::expressions_are))]
fn asked(
    alloc: Global,
    at: Span,
    name: &Name,
    table: u32,
    cond: Box<Cond>,
    args: &Arguments,
) -> Result<Box<Expr>, NoMemory>
    ensures { IfOk result (λ e.
        expression e.value
        ≡ plain.Query at (plain.Table name.now) (canonical (Listing (specs.selecting name.now table (condition_boxed cond)))) (specs.expressions (expressions_lent args.now.items.items))) }
{
    let text = listing_text(alloc, name, table, cond)?;
    let element = JTy::Table(name.clone()?);
    let arguments = copies(alloc, &args.items)?;
    boxed(alloc, query(at, element, text, arguments))
}

/// The query in place of a fetch, where a part of the condition is taken.
fn query_for(
    alloc: Global,
    at: Span,
    name: &Name,
    row: &Row,
    assigned: &Scope,
    c: &Expr,
) -> Result<Option<Box<Expr>>, NoMemory>
    ensures { IfOk result (λ o.
        option_map (λ e. expression e.value) o
        ≡ specs.query_for row.now.schema.now at name.now row.now.table (names_seen assigned.now) row.now.variable.now (expression c.now)) }
{
    let taken = parts_taken(alloc, assigned, row.variable, c)?;
    match taken_condition(alloc, row, &taken.arguments, &taken.parts)? {
        None => Ok(None),
        Some(cond) => Ok(Some(asked(alloc, at, name, row.table, cond, &taken.arguments)?)),
    }
}

#[tactic(auto, using(crate::proofs::Members::bodies, java_mean::proofs::Sets::sets))]
/// The query in place of the list of a for-each with this variable and this body: where the list is the fetch of a table and the body one
/// `if` without `else`, of whose condition a part is plain. Only want of memory is an error.
pub fn query_of_body(
    alloc: Global,
    schema: &Schema,
    list: &Expr,
    variable: &Name,
    body: &[Stmt],
) -> Result<Option<Box<Expr>>, NoMemory>
    ensures { IfOk result (λ o. option_map (λ e. expression e.value) o ≡ query_of_body_in schema.now (expression list.now) variable.now (statements body.now)) }
{
    let Some(fetch) = table_fetched(list) else {
        return Ok(None);
    };
    let Some(c) = only_condition(body) else {
        return Ok(None);
    };
    let Some(table) = schema.table(fetch.1) else {
        return Ok(None);
    };
    let row = Row {
        schema,
        table,
        variable,
    };
    let assigned = names_assigned(alloc, body)?;
    query_for(alloc, fetch.0, fetch.1, &row, &assigned, c)
}
