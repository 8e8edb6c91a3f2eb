// What is known of a method before it runs: its query texts, each read once, which of them a loop
// repeats, and the numbers of its names and texts.
ghost use Rattle.std.specs.Prelude.{◌≡◌};

use crate::known::Queries;
use crate::numbers::Numbers;
use java_ast::{Expr, ExprNode, Stmt, StmtNode};
use qbs_base::NoMemory;

// Reads the texts of an expression and notes the numbers in it. It calls itself as deep as the tree is.
#[cycle(gather)]
fn in_expression<'a>(
    e: &'a Expr,
    queries: &mut Queries<'a>,
    numbers: &mut Numbers<'a>,
    is_repeated: bool,
) -> Result<(), NoMemory>
    ensures { queries.new.schema ≡ queries.old.schema }
{
    match &e.node {
        ExprNode::Lit(_) => Ok(()),
        ExprNode::Var(x) => numbers.note_name(e.span, x),
        ExprNode::Field(a, _) => in_expression(a, queries, numbers, is_repeated),
        ExprNode::Binary(_, a, b) => {
            in_expression(a, queries, numbers, is_repeated)?;
            in_expression(b, queries, numbers, is_repeated)
        }
        ExprNode::Not(a) => in_expression(a, queries, numbers, is_repeated),
        ExprNode::Equals(a, b) => {
            in_expression(a, queries, numbers, is_repeated)?;
            in_expression(b, queries, numbers, is_repeated)
        }
        ExprNode::Size(x) => numbers.note_name(e.span, x),
        ExprNode::Get(x, a) => {
            numbers.note_name(e.span, x)?;
            in_expression(a, queries, numbers, is_repeated)
        }
        ExprNode::Contains(x, a) => {
            numbers.note_name(e.span, x)?;
            numbers.note_look(e.span, is_repeated)?;
            in_expression(a, queries, numbers, is_repeated)
        }
        ExprNode::Fetch(_) => Ok(()),
        ExprNode::Query(_, text, args) => {
            numbers.note(e.span, queries.read(text, is_repeated)?)?;
            in_expressions(args, queries, numbers, is_repeated)
        }
        ExprNode::QueryLong(text, args) => {
            numbers.note(e.span, queries.read(text, is_repeated)?)?;
            in_expressions(args, queries, numbers, is_repeated)
        }
        ExprNode::QueryBoolean(text, args) => {
            numbers.note(e.span, queries.read(text, is_repeated)?)?;
            in_expressions(args, queries, numbers, is_repeated)
        }
        ExprNode::NewList => Ok(()),
        ExprNode::NewSet(None) => Ok(()),
        ExprNode::NewSet(Some(a)) => in_expression(a, queries, numbers, is_repeated),
    }
}

#[cycle(gather)]
fn in_expressions<'a>(
    es: &'a [Expr],
    queries: &mut Queries<'a>,
    numbers: &mut Numbers<'a>,
    is_repeated: bool,
) -> Result<(), NoMemory>
    ensures { queries.new.schema ≡ queries.old.schema }
{
    for e in es {
        in_expression(e, queries, numbers, is_repeated)?;
    }
    Ok(())
}

// Reads the texts of a statement and of those in it, and notes the numbers.
#[cycle(gather_block)]
fn in_statement<'a>(
    s: &'a Stmt,
    queries: &mut Queries<'a>,
    numbers: &mut Numbers<'a>,
    is_repeated: bool,
) -> Result<(), NoMemory>
    ensures { queries.new.schema ≡ queries.old.schema }
{
    match &s.node {
        StmtNode::Declare { name, value, .. } => {
            numbers.note_name(s.span, name)?;
            in_expression(value, queries, numbers, is_repeated)
        }
        StmtNode::Assign { name, value, .. } => {
            numbers.note_name(s.span, name)?;
            in_expression(value, queries, numbers, is_repeated)
        }
        StmtNode::Add { name, value, .. } => {
            numbers.note_name(s.span, name)?;
            in_expression(value, queries, numbers, is_repeated)
        }
        StmtNode::Sort { name, .. } => numbers.note_name(s.span, name),
        StmtNode::If { cond, yes, other } => {
            in_expression(cond, queries, numbers, is_repeated)?;
            gather(yes, queries, numbers, is_repeated)?;
            match other {
                None => Ok(()),
                Some(other) => gather(other, queries, numbers, is_repeated),
            }
        }
        StmtNode::ForEach {
            name,
            list,
            body,
            ..
        } => {
            numbers.note_name(s.span, name)?;
            in_expression(list, queries, numbers, is_repeated)?;
            gather(body, queries, numbers, true)
        }
        StmtNode::While { cond, body } => {
            in_expression(cond, queries, numbers, true)?;
            gather(body, queries, numbers, true)
        }
        StmtNode::Print { value } => in_expression(value, queries, numbers, is_repeated),
        StmtNode::Return { value: None } => Ok(()),
        StmtNode::Return { value: Some(value) } => in_expression(
            value,
            queries,
            numbers,
            is_repeated,
        ),
        StmtNode::Break => Ok(()),
    }
}

/// Reads the query texts of some statements, each once, and notes the numbers of names and texts, and
/// which queries may be asked many times: all, where the statements are repeated, and else those in
/// the body of a loop and in the test of a `while`. The list of a for-each is asked for once.
#[cycle(gather_block)]
pub fn gather<'a>(
    block: &'a [Stmt],
    queries: &mut Queries<'a>,
    numbers: &mut Numbers<'a>,
    is_repeated: bool,
) -> Result<(), NoMemory>
    ensures { queries.new.schema ≡ queries.old.schema }
{
    for s in block {
        in_statement(s, queries, numbers, is_repeated)?;
    }
    Ok(())
}
