// What stands in place of the statements that a narrowed for-each begins with.
ghost use Rattle.std.specs.Prelude.{◌≡◌, ◌∷◌, [], IfOk, Some, None, if◌then◌else◌};
ghost use Rattle.std.specs.Option.{option_map};
ghost use Rattle.java_ast.specs.Reading.{spelled, expression, statement, statements, program as plain_program};
ghost use Rattle.java_ast.specs.Tree as plain;
ghost use Rattle.java_text.specs.Canonical.{canonical_expression};
ghost use Rattle.spreads.specs.Narrowed.{query_of_body as query_of_body_in};
ghost use Rattle.narrowing.specs.Narrowing.{patch_of as text_of, asked_each, asked_pair};
ghost use Rattle.narrowing.specs.Replacing as specs;
ghost use Rattle.narrowing.specs.Replacing.{replacement};

use crate::blocks::{behind, last_number, outer_at};
use crate::query::query_of_body;
use java_ast::build::for_each;
use java_ast::{Expr, JTy, Path, Program, Stmt, StmtNode};
use java_copies::{copy_expression, copy_statement};
use java_text::print_statements;
use qbs_base::{Name, NoMemory, Span, Text};
use schema::Schema;
use spreads::walks_alone;
use std::alloc::Global;
use text_patches::TextPatch;

/// What gives way to a query: the statements from the number `first` on, up to the for-each, to others, and bytes of the source to a text.
#[derive(Drop)]
pub struct Instead {
    pub first: u64,
    pub others: Vec<Stmt>,
    pub patch: TextPatch,
}

// ---- The text

fn one_of<T: Drop>(alloc: Global, item: T) -> Result<Vec<T>, NoMemory>
    ensures { IfOk result (λ all. all.items ≡ item ∷ []) }
{
    let mut all = Vec::new(alloc);
    all.push(item)?;
    Ok(all)
}

fn return_of(span: Span, value: Expr) -> Stmt
    ensures { statement result ≡ plain.Return span (Some (expression value)) }
{
    let value = Some(value);
    let node = StmtNode::Return { value };
    Stmt { span, node }
}

fn returned(alloc: Global, e: &Expr) -> Result<Vec<Stmt>, NoMemory>
    ensures { IfOk result (λ all. statements all.items ≡ plain.Then (plain.Return e.now.span (Some (expression e.now))) plain.Nothing) }
{
    let copy = copy_expression(alloc, e)?;
    let all = one_of(alloc, return_of(e.span, copy))?;
    Ok(all)
}

// The canonical text of an expression.
fn print_expression(alloc: Global, e: &Expr) -> Result<Text, NoMemory>
    ensures { IfOk result (λ text. text ≡ canonical_expression 8 (expression e.now)) }
{
    let block = returned(alloc, e)?;
    let lines = print_statements(alloc, "", &block)?;
    let Some(rest) = lines.as_str().strip_prefix("return ") else {
        unreachable!();
    };
    match rest.strip_suffix(";\n") {
        Some(text) => {
            let owned = Text::from_str(alloc, text)?;
            Ok(owned)
        }
        None => unreachable!(),
    }
}

// The text of a query in place of the bytes where it stands.
fn patch_of(alloc: Global, e: &Expr) -> Result<TextPatch, NoMemory>
    ensures { IfOk result (λ p. p ≡ text_of (expression e.now)) }
{
    let text = print_expression(alloc, e)?;
    Ok(TextPatch {
        from: e.span.start,
        to: e.span.end,
        text,
    })
}

// ---- The statements

fn with_list(s: Stmt, list: Box<Expr>) -> Stmt
    ensures { statement result ≡ specs.with_list (expression list.value) (statement s) }
{
    let span = s.span;
    match s.node {
        StmtNode::ForEach {
            ty,
            name,
            list: _,
            body,
        } => { for_each(span, ty, name, Box::into_inner(list), body) }
        StmtNode::Declare { .. }
        | StmtNode::Assign { .. }
        | StmtNode::Add { .. }
        | StmtNode::Sort { .. }
        | StmtNode::If { .. }
        | StmtNode::While { .. }
        | StmtNode::Print { .. }
        | StmtNode::Return { .. }
        | StmtNode::Break => s,
    }
}

fn declare(span: Span, ty: JTy, name: Name, value: Expr) -> Stmt
    ensures { statement result ≡ plain.Declare span (spelled ty) name (expression value) }
{
    let node = StmtNode::Declare { ty, name, value };
    Stmt { span, node }
}

fn with_value(s: Stmt, value: Box<Expr>) -> Stmt
    ensures { statement result ≡ specs.with_value (expression value.value) (statement s) }
{
    let span = s.span;
    match s.node {
        StmtNode::Declare { ty, name, value: _ } => {
            declare(span, ty, name, Box::into_inner(value))
        }
        StmtNode::Assign { .. }
        | StmtNode::Add { .. }
        | StmtNode::Sort { .. }
        | StmtNode::If { .. }
        | StmtNode::ForEach { .. }
        | StmtNode::While { .. }
        | StmtNode::Print { .. }
        | StmtNode::Return { .. }
        | StmtNode::Break => s,
    }
}

// A copy of the first of these statements, with another list.
fn listed(alloc: Global, block: &[Stmt], list: Box<Expr>) -> Result<Vec<Stmt>, NoMemory>
    ensures { IfOk result (λ all. statements all.items ≡ specs.listed (statements block.now) (expression list.value)) }
{
    match block.split_first() {
        None => Ok(Vec::new(alloc)),
        Some((s, _)) => {
            let copy = copy_statement(alloc, s)?;
            let all = one_of(alloc, with_list(copy, list))?;
            Ok(all)
        }
    }
}

// Copies of a statement, with another value, and of one behind it.
fn both(alloc: Global, s: &Stmt, t: &Stmt, value: Box<Expr>) -> Result<Vec<Stmt>, NoMemory>
    ensures { IfOk result (λ all.
        statements all.items
        ≡ plain.Then (specs.with_value (expression value.value) (statement s.now)) (plain.Then (statement t.now) plain.Nothing)) }
{
    let first = copy_statement(alloc, s)?;
    let mut all = one_of(alloc, with_value(first, value))?;
    let second = copy_statement(alloc, t)?;
    all.push(second)?;
    Ok(all)
}

// Copies of the first two of these statements, with another value of the first.
#[tactic(auto, using(crate::proofs::Made::none_declared))]
fn declared(alloc: Global, block: &[Stmt], value: Box<Expr>) -> Result<Vec<Stmt>, NoMemory>
    ensures { IfOk result (λ all. statements all.items ≡ specs.declared (statements block.now) (expression value.value)) }
{
    let Some((s, behind)) = block.split_first() else {
        return Ok(Vec::new(alloc));
    };
    let Some((t, _)) = behind.split_first() else {
        return Ok(Vec::new(alloc));
    };
    let all = both(alloc, s, t, value)?;
    Ok(all)
}

// ---- The query

// The query in place of the fetch that is the list of the first of these statements.
fn asked_in_list(
    alloc: Global,
    schema: &Schema,
    block: &[Stmt],
) -> Result<Option<Box<Expr>>, NoMemory>
    ensures { IfOk result (λ o. option_map (λ e. expression e.value) o ≡ asked_each schema.now (statements block.now)) }
{
    match block.split_first() {
        None => Ok(None),
        Some((s, _)) => match &s.node {
            StmtNode::ForEach {
                ty: _,
                name,
                list,
                body,
            } => query_of_body(alloc, schema, list, name, body),
            StmtNode::Declare { .. }
            | StmtNode::Assign { .. }
            | StmtNode::Add { .. }
            | StmtNode::Sort { .. }
            | StmtNode::If { .. }
            | StmtNode::While { .. }
            | StmtNode::Print { .. }
            | StmtNode::Return { .. }
            | StmtNode::Break => Ok(None),
        },
    }
}

// The query where it is asked for.
fn asked_if(
    alloc: Global,
    asks: bool,
    schema: &Schema,
    value: &Expr,
    variable: &Name,
    body: &[Stmt],
) -> Result<Option<Box<Expr>>, NoMemory>
    ensures { IfOk result (λ o.
        option_map (λ e. expression e.value) o
        ≡ (if asks then query_of_body_in schema.now (expression value.now) variable.now (statements body.now) else None)) }
{
    if asks {
        query_of_body(alloc, schema, value, variable, body)
    } else {
        Ok(None)
    }
}

// The query in place of a fetched list that is declared for the first of these statements alone.
fn asked_for(
    alloc: Global,
    schema: &Schema,
    list: &Name,
    value: &Expr,
    block: &[Stmt],
) -> Result<Option<Box<Expr>>, NoMemory>
    ensures { IfOk result (λ o. option_map (λ e. expression e.value) o ≡ specs.asked_for schema.now list.now (expression value.now) (statements block.now)) }
{
    match block.split_first() {
        None => Ok(None),
        Some((s, _)) => match &s.node {
            StmtNode::ForEach {
                ty: _,
                name,
                list: _,
                body,
            } => asked_if(alloc, walks_alone(list, block), schema, value, name, body),
            StmtNode::Declare { .. }
            | StmtNode::Assign { .. }
            | StmtNode::Add { .. }
            | StmtNode::Sort { .. }
            | StmtNode::If { .. }
            | StmtNode::While { .. }
            | StmtNode::Print { .. }
            | StmtNode::Return { .. }
            | StmtNode::Break => Ok(None),
        },
    }
}

// The query in place of the fetch that the first of these statements declares for the second.
fn asked_in_value(
    alloc: Global,
    schema: &Schema,
    block: &[Stmt],
) -> Result<Option<Box<Expr>>, NoMemory>
    ensures { IfOk result (λ o. option_map (λ e. expression e.value) o ≡ asked_pair schema.now (statements block.now)) }
{
    match block.split_first() {
        None => Ok(None),
        Some((s, behind)) => match &s.node {
            StmtNode::Declare { ty: _, name, value } => {
                asked_for(alloc, schema, name, value, behind)
            }
            StmtNode::Assign { .. }
            | StmtNode::Add { .. }
            | StmtNode::Sort { .. }
            | StmtNode::If { .. }
            | StmtNode::ForEach { .. }
            | StmtNode::While { .. }
            | StmtNode::Print { .. }
            | StmtNode::Return { .. }
            | StmtNode::Break => Ok(None),
        },
    }
}

// ---- What stands there instead

fn standing(
    alloc: Global,
    first: u64,
    others: Vec<Stmt>,
    patch: TextPatch,
) -> Result<Option<Box<Instead>>, NoMemory>
    ensures { IfOk result (λ o. option_map (λ i. replacement i.value) o ≡ Some (specs.replacement_of first (statements others.items) patch)) }
{
    let made = Instead {
        first,
        others,
        patch,
    };
    Ok(Some(Box::new(alloc, made)?))
}

fn each_instead(
    alloc: Global,
    schema: &Schema,
    number: u64,
    block: &[Stmt],
) -> Result<Option<Box<Instead>>, NoMemory>
    ensures { IfOk result (λ o. option_map (λ i. replacement i.value) o ≡ specs.each_replaced schema.now number (statements block.now)) }
{
    let asked = asked_in_list(alloc, schema, block)?;
    match asked {
        None => Ok(None),
        Some(query) => {
            let e: &Expr = &query;
            let patch = patch_of(alloc, e)?;
            let others = listed(alloc, block, query)?;
            standing(alloc, number, others, patch)
        }
    }
}

fn pair_instead(
    alloc: Global,
    schema: &Schema,
    number: u64,
    block: &[Stmt],
) -> Result<Option<Box<Instead>>, NoMemory>
    ensures { IfOk result (λ o. option_map (λ i. replacement i.value) o ≡ specs.pair_replaced schema.now number (statements block.now)) }
{
    let asked = asked_in_value(alloc, schema, block)?;
    match asked {
        None => Ok(None),
        Some(query) => {
            let e: &Expr = &query;
            let patch = patch_of(alloc, e)?;
            let others = declared(alloc, block, query)?;
            standing(alloc, number, others, patch)
        }
    }
}

fn before_instead(
    alloc: Global,
    schema: &Schema,
    number: u64,
    block: &[Stmt],
) -> Result<Option<Box<Instead>>, NoMemory>
    ensures { IfOk result (λ o. option_map (λ i. replacement i.value) o ≡ specs.before_replaced schema.now number (statements block.now)) }
{
    if number == 0 {
        Ok(None)
    } else {
        pair_instead(alloc, schema, number - 1, behind(block, number - 1))
    }
}

fn block_instead(
    alloc: Global,
    schema: &Schema,
    number: u64,
    block: &[Stmt],
) -> Result<Option<Box<Instead>>, NoMemory>
    ensures { IfOk result (λ o. option_map (λ i. replacement i.value) o ≡ specs.block_replaced schema.now number (statements block.now)) }
{
    let each = each_instead(alloc, schema, number, behind(block, number))?;
    match each {
        Some(i) => Ok(Some(i)),
        None => before_instead(alloc, schema, number, block),
    }
}

/// What stands in place of statements where the for-each at a path is narrowed, None where it can't be. Only want of memory is an error.
pub fn instead_at(
    alloc: Global,
    schema: &Schema,
    program: &Program,
    path: &Path,
) -> Result<Option<Box<Instead>>, NoMemory>
    ensures { IfOk result (λ o. option_map (λ i. replacement i.value) o ≡ specs.replaced_for schema.now path.now (plain_program program.now)) }
{
    match outer_at(program, path) {
        None => Ok(None),
        Some(block) => block_instead(alloc, schema, last_number(path), block),
    }
}
