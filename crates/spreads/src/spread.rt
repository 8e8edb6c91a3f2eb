// The spread of a loop.
ghost use Rattle.std.specs.Prelude.{◌≡◌, IfOk, OnOk, None};
ghost use Rattle.std.specs.Option.{option_map, option_copied};
ghost use Rattle.java_ast.specs.Path.{and_then};
ghost use Rattle.java_ast.specs.Reading.{spelled, expression, statement, statements};
ghost use Rattle.java_ast.specs.Tree as plain;
ghost use Rattle.java_mean.specs.Visible.{names_seen};
ghost use Rattle.java_types.specs.Texts.{read_by};
ghost use Rattle.spreads.specs.Inner.{put_unless};
ghost use Rattle.spreads.specs.Selected.{select_read};
ghost use Rattle.spreads.specs.Spread as spec;
ghost use Rattle.sql_ast.specs.Reading.{filter_of};

use crate::assigned::names_assigned;
use crate::condition::condition_in;
use crate::copy::copy_type;
use crate::inner::{behind_first, have_select, value_declared};
use crate::select::{Select, select_of};
use java_ast::build::{for_each, if_else, if_only, while_loop};
use java_ast::{Expr, ExprNode, JTy, Stmt, StmtNode};
use java_copies::{copy_expression, copy_statement};
use java_mean::Scope;
use qbs_base::{Name, NoMemory, Span, boxed};
use schema::Schema;
use sql_ast::{FromItem, ListQuery};
use std::alloc::Global;

// ---- One statement behind others

#[tactic(auto, using(crate::proofs::Pushed::pushed))]
fn push(all: &mut Vec<Stmt>, s: Stmt) -> Result<(), NoMemory>
    ensures { OnOk result (statements all.new.items ≡ and_then (statements all.old.items) (plain.Then (statement s) plain.Nothing)) }
{
    all.push(s)?;
    Ok(())
}

fn push_copy(alloc: Global, s: &Stmt, all: &mut Vec<Stmt>) -> Result<(), NoMemory>
    ensures { OnOk result (statements all.new.items ≡ and_then (statements all.old.items) (plain.Then (statement s.now) plain.Nothing)) }
{
    let copy = copy_statement(alloc, s)?;
    push(all, copy)?;
    Ok(())
}

fn push_if(
    alloc: Global,
    at: Span,
    cond: &Expr,
    yes: Vec<Stmt>,
    all: &mut Vec<Stmt>,
) -> Result<(), NoMemory>
    ensures { OnOk result (
        statements all.new.items ≡ and_then (statements all.old.items) (plain.Then (plain.If at (expression cond.now) (statements yes.items)) plain.Nothing)) }
{
    let cond = copy_expression(alloc, cond)?;
    push(all, if_only(at, cond, yes))?;
    Ok(())
}

fn push_if_else(
    alloc: Global,
    at: Span,
    cond: &Expr,
    yes: Vec<Stmt>,
    other: Vec<Stmt>,
    all: &mut Vec<Stmt>,
) -> Result<(), NoMemory>
    ensures { OnOk result (
        statements all.new.items
        ≡ and_then (statements all.old.items) (plain.Then (plain.IfElse at (expression cond.now) (statements yes.items) (statements other.items)) plain.Nothing)) }
{
    let cond = copy_expression(alloc, cond)?;
    push(all, if_else(at, cond, yes, other))?;
    Ok(())
}

fn push_while(
    alloc: Global,
    at: Span,
    cond: &Expr,
    body: Vec<Stmt>,
    all: &mut Vec<Stmt>,
) -> Result<(), NoMemory>
    ensures { OnOk result (
        statements all.new.items ≡ and_then (statements all.old.items) (plain.Then (plain.While at (expression cond.now) (statements body.items)) plain.Nothing)) }
{
    let cond = copy_expression(alloc, cond)?;
    push(all, while_loop(at, cond, body))?;
    Ok(())
}

// ---- Walks

fn walk_of(
    alloc: Global,
    at: Span,
    ty: &JTy,
    x: &Name,
    list: Box<Expr>,
    body: Vec<Stmt>,
) -> Result<Stmt, NoMemory>
    ensures { IfOk result (λ s. statement s ≡ plain.ForEach at (spelled ty.now) x.now (expression list.value) (statements body.items)) }
{
    let x = x.clone()?;
    let ty = copy_type(alloc, ty)?;
    Ok(for_each(at, ty, x, Box::into_inner(list), body))
}

fn push_for_each(
    alloc: Global,
    at: Span,
    ty: &JTy,
    x: &Name,
    list: Box<Expr>,
    body: Vec<Stmt>,
    all: &mut Vec<Stmt>,
) -> Result<(), NoMemory>
    ensures { OnOk result (
        statements all.new.items
        ≡ and_then (statements all.old.items) (plain.Then (plain.ForEach at (spelled ty.now) x.now (expression list.value) (statements body.items)) plain.Nothing)) }
{
    let s = walk_of(alloc, at, ty, x, list, body)?;
    push(all, s)?;
    Ok(())
}

fn copy_list(alloc: Global, list: &Expr) -> Result<Box<Expr>, NoMemory>
    ensures { IfOk result (λ e. expression e.value ≡ expression list.now) }
{
    let copy = copy_expression(alloc, list)?;
    boxed(alloc, copy)
}

fn table_name(alloc: Global, from: &[FromItem]) -> Result<Name, NoMemory>
    ensures { IfOk result (λ name. name ≡ spec.table_of from.now) }
{
    match from.split_first() {
        None => Ok(Name::from_str(alloc, "")?),
        Some((first, _)) => Ok(first.name.clone()?),
    }
}

fn fetch_of(alloc: Global, at: Span, query: &ListQuery) -> Result<Box<Expr>, NoMemory>
    ensures { IfOk result (λ e. expression e.value ≡ plain.Fetch at (spec.table_of query.now.from)) }
{
    let node = ExprNode::Fetch(table_name(alloc, query.from.as_slice())?);
    boxed(alloc, Expr { span: at, node })
}

// The body with the condition of a select round it.
fn tested(
    alloc: Global,
    schema: &Schema,
    at: Span,
    x: &Name,
    select: &Select,
    body: Vec<Stmt>,
) -> Result<Vec<Stmt>, NoMemory>
    ensures { IfOk result (λ all.
        statements all.items ≡ spec.tested schema.now at x.now (select_read select.now) (filter_of select.now.query.value.filter) (statements body.items)) }
{
    match &select.query.filter {
        None => Ok(body),
        Some(cond) => {
            let cond = condition_in(alloc, schema, select, at, x, cond)?;
            let mut all = Vec::new(alloc);
            push(&mut all, if_only(at, Box::into_inner(cond), body))?;
            Ok(all)
        }
    }
}

// The walk over the table of a select with its condition round the body.
fn push_walked(
    alloc: Global,
    schema: &Schema,
    at: Span,
    ty: &JTy,
    x: &Name,
    select: &Select,
    body: Vec<Stmt>,
    all: &mut Vec<Stmt>,
) -> Result<(), NoMemory>
    ensures { OnOk result (
        statements all.new.items
        ≡ and_then (statements all.old.items) (plain.Then (spec.walked schema.now at (spelled ty.now) x.now (select_read select.now) (statements body.items)) plain.Nothing)) }
{
    let body = tested(alloc, schema, at, x, select, body)?;
    let list = fetch_of(alloc, at, &select.query)?;
    push_for_each(alloc, at, ty, x, list, body, all)
}

// What is walked: the value that was declared for it, where there is one.
fn value_or<'a>(declared: Option<&'a Expr>, list: &'a Expr) -> &'a Expr
    ensures { expression result.now ≡ spec.value_or (option_map expression (option_copied declared.entry)) (expression list.now) }
{
    match declared {
        None => list,
        Some(value) => value,
    }
}

// The walk of a for-each with this body spread, for which a value may have been declared.
fn push_walk(
    alloc: Global,
    schema: &Schema,
    assigned: &Scope,
    declared: Option<&Expr>,
    at: Span,
    ty: &JTy,
    x: &Name,
    list: &Expr,
    body: Vec<Stmt>,
    all: &mut Vec<Stmt>,
) -> Result<(), NoMemory>
    ensures { OnOk result (
        statements all.new.items
        ≡ and_then (statements all.old.items)
        (plain.Then
        (spec.walked_or schema.now at (spelled ty.now) x.now (expression list.now)
        (spec.select_of schema.now (read_by schema.now) (names_seen assigned.now) (spec.value_or (option_map expression (option_copied declared.entry)) (expression list.now)))
        (statements body.items)) plain.Nothing)) }
{
    match select_of(alloc, schema, assigned, value_or(declared, list))? {
        None => {
            let list = copy_list(alloc, list)?;
            push_for_each(alloc, at, ty, x, list, body, all)
        }
        Some(select) => push_walked(alloc, schema, at, ty, x, &select, body, all),
    }
}

// ---- Statements

// Puts the spread of a statement behind the others, for which a value may have been declared.
#[cycle(spread)]
#[tactic(auto, using(java_ast::proofs::Nodes::nodes))]
fn push_spread(
    alloc: Global,
    schema: &Schema,
    assigned: &Scope,
    declared: Option<&Expr>,
    s: &Stmt,
    all: &mut Vec<Stmt>,
) -> Result<(), NoMemory>
    ensures { OnOk result (
        statements all.new.items
        ≡ and_then (statements all.old.items)
        (plain.Then (spec.spread_in schema.now (read_by schema.now) (names_seen assigned.now) (option_map expression (option_copied declared.entry)) (statement s.now)) plain.Nothing)) }
{
    let at = s.span;
    match &s.node {
        StmtNode::If { cond, yes, other } => {
            let yes = spread_among(alloc, schema, assigned, yes)?;
            match other {
                None => push_if(alloc, at, cond, yes, all),
                Some(other) => {
                    let other = spread_among(alloc, schema, assigned, other)?;
                    push_if_else(alloc, at, cond, yes, other, all)
                }
            }
        }
        StmtNode::ForEach {
            ty,
            name,
            list,
            body,
        } => {
            let body = spread_among(alloc, schema, assigned, body)?;
            push_walk(
                alloc, schema, assigned, declared, at, ty, name, list, body, all,
            )
        }
        StmtNode::While { cond, body } => {
            let body = spread_among(alloc, schema, assigned, body)?;
            push_while(alloc, at, cond, body, all)
        }
        StmtNode::Declare { .. }
        | StmtNode::Assign { .. }
        | StmtNode::Add { .. }
        | StmtNode::Sort { .. }
        | StmtNode::Print { .. }
        | StmtNode::Return { .. }
        | StmtNode::Break => push_copy(alloc, s, all),
    }
}

// The same, where the statement isn't dropped.
#[cycle(spread)]
fn push_unless(
    alloc: Global,
    schema: &Schema,
    assigned: &Scope,
    dropped: bool,
    declared: Option<&Expr>,
    s: &Stmt,
    all: &mut Vec<Stmt>,
) -> Result<(), NoMemory>
    ensures { OnOk result (
        statements all.new.items
        ≡ put_unless dropped (statements all.old.items)
        (spec.spread_in schema.now (read_by schema.now) (names_seen assigned.now) (option_map expression (option_copied declared.entry)) (statement s.now))) }
{
    if dropped {
        return Ok(());
    }
    push_spread(alloc, schema, assigned, declared, s, all)
}

// The spread of a block.
#[cycle(spread)]
fn spread_among(
    alloc: Global,
    schema: &Schema,
    assigned: &Scope,
    block: &[Stmt],
) -> Result<Vec<Stmt>, NoMemory>
    ensures { IfOk result (λ all. statements all.items ≡ spec.spread_among schema.now (read_by schema.now) (names_seen assigned.now) None (statements block.now)) }
{
    let mut all = Vec::new(alloc);
    let mut declared = None;
    let mut rest = block;
    for s in block {
        rest = behind_first(rest);
        let value = value_declared(alloc, schema, assigned, s, rest)?;
        let dropped = value.is_some();
        push_unless(alloc, schema, assigned, dropped, declared, s, &mut all)?;
        declared = value;
    }
    Ok(all)
}

// A walk with this list and the spread of this body.
fn spread_over(
    alloc: Global,
    schema: &Schema,
    assigned: &Scope,
    at: Span,
    ty: &JTy,
    x: &Name,
    list: &Expr,
    body: &[Stmt],
) -> Result<Box<Stmt>, NoMemory>
    ensures { IfOk result (λ b.
        statement b.value
        ≡ plain.ForEach at (spelled ty.now) x.now (expression list.now)
        (spec.spread_among schema.now (read_by schema.now) (names_seen assigned.now) None (statements body.now))) }
{
    let body = spread_among(alloc, schema, assigned, body)?;
    let list = copy_list(alloc, list)?;
    let s = walk_of(alloc, at, ty, x, list, body)?;
    boxed(alloc, s)
}

// The spread of a for-each with this body, where there is a select in it.
fn walk_spread(
    alloc: Global,
    schema: &Schema,
    at: Span,
    ty: &JTy,
    x: &Name,
    list: &Expr,
    body: &[Stmt],
) -> Result<Option<Box<Stmt>>, NoMemory>
    ensures { IfOk result (λ o.
        option_map (λ b. statement b.value) o
        ≡ spec.spread_of schema.now (read_by schema.now) (plain.ForEach at (spelled ty.now) x.now (expression list.now) (statements body.now))) }
{
    let assigned = names_assigned(alloc, body)?;
    let names = &*assigned;
    let found = have_select(alloc, schema, names, body)?;
    if found {
        let s = spread_over(alloc, schema, names, at, ty, x, list, body)?;
        return Ok(Some(s));
    }
    Ok(None)
}

/// The spread of a for-each, where an inner loop of it walks a select of one table, as it stands or declared directly before: each such loop
/// walks the whole table with the condition round its body, and a declaration for it is dropped. None of any other statement. Made parts have
/// the place of their for-each. Only want of memory is an error.
#[tactic(auto, using(java_ast::proofs::Nodes::nodes))]
pub fn spread_of(
    alloc: Global,
    schema: &Schema,
    loop_statement: &Stmt,
) -> Result<Option<Box<Stmt>>, NoMemory>
    ensures { IfOk result (λ o. option_map (λ b. statement b.value) o ≡ spec.spread_of schema.now (read_by schema.now) (statement loop_statement.now)) }
{
    match &loop_statement.node {
        StmtNode::ForEach {
            ty,
            name,
            list,
            body,
        } => walk_spread(alloc, schema, loop_statement.span, ty, name, list, body),
        StmtNode::Declare { .. }
        | StmtNode::Assign { .. }
        | StmtNode::Add { .. }
        | StmtNode::Sort { .. }
        | StmtNode::If { .. }
        | StmtNode::While { .. }
        | StmtNode::Print { .. }
        | StmtNode::Return { .. }
        | StmtNode::Break => Ok(None),
    }
}
