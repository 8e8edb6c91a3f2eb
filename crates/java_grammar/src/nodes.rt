// Expressions made of what was read.
ghost use Rattle.std.specs.Prelude.{◌≡◌, [], IfOk, IfErr, map, option_map};
ghost use Rattle.readers.specs.declared.fault.ReadError.TheVariants.{Memory};
ghost use Rattle.java_ast.specs.Reading.{spelled, expression, node_expression};
ghost use Rattle.java_ast.specs.Tree as plain;
ghost use Rattle.java_grammar.specs.Marks.{nowhere};
ghost use Rattle.java_grammar.specs.Expressions.{created_as};
ghost use Rattle.java_grammar.specs.ReadingExpressions.{gathered};

use crate::places::NOWHERE;
use java_ast::{Expr, ExprNode, JTy, Op};
use qbs_base::{Name, Text};
use readers::ReadError;
use std::alloc::Global;

/// What was read in a box.
pub fn boxed<T: Drop>(alloc: Global, node: T) -> Result<Box<T>, ReadError>
    ensures ok { IfOk result (λ b. b.value ≡ node) }
    ensures err { IfErr result (λ e. e ≡ Memory) }
{
    let node = Box::new(alloc, node)?;
    Ok(node)
}

pub fn field(row: Box<Expr>, member: &Name) -> Result<ExprNode, ReadError>
    ensures ok { IfOk result (λ n. node_expression n ≡ λ at. plain.Field at (expression row.value) member.now) }
    ensures err { IfErr result (λ e. e ≡ Memory) }
{
    let member = member.clone()?;
    Ok(ExprNode::Field(row, member))
}

pub fn binary(op: Op, left: Box<Expr>, right: Box<Expr>) -> ExprNode
    ensures { node_expression result ≡ λ at. plain.Binary at op (expression left.value) (expression right.value) }
{
    ExprNode::Binary(op, left, right)
}

pub fn negation(operand: Box<Expr>) -> ExprNode
    ensures { node_expression result ≡ λ at. plain.Not at (expression operand.value) }
{
    ExprNode::Not(operand)
}

pub fn equals(left: Box<Expr>, right: Box<Expr>) -> ExprNode
    ensures { node_expression result ≡ λ at. plain.Equals at (expression left.value) (expression right.value) }
{
    ExprNode::Equals(left, right)
}

pub fn get(list: Name, index: Box<Expr>) -> ExprNode
    ensures { node_expression result ≡ λ at. plain.Get at list (expression index.value) }
{
    ExprNode::Get(list, index)
}

pub fn contains(list: Name, item: Box<Expr>) -> ExprNode
    ensures { node_expression result ≡ λ at. plain.Contains at list (expression item.value) }
{
    ExprNode::Contains(list, item)
}

pub fn query(ty: JTy, text: &Text, arguments: Vec<Expr>) -> Result<ExprNode, ReadError>
    ensures ok { IfOk result (λ n. node_expression n ≡ λ at. plain.Query at (spelled ty) text.now (gathered (map expression arguments.items))) }
    ensures err { IfErr result (λ e. e ≡ Memory) }
{
    let text = text.clone()?;
    Ok(ExprNode::Query(ty, text, arguments))
}

pub fn query_long(text: &Text, arguments: Vec<Expr>) -> Result<ExprNode, ReadError>
    ensures ok { IfOk result (λ n. node_expression n ≡ λ at. plain.QueryLong at text.now (gathered (map expression arguments.items))) }
    ensures err { IfErr result (λ e. e ≡ Memory) }
{
    let text = text.clone()?;
    Ok(ExprNode::QueryLong(text, arguments))
}

pub fn query_boolean(text: &Text, arguments: Vec<Expr>) -> Result<ExprNode, ReadError>
    ensures ok { IfOk result (λ n. node_expression n ≡ λ at. plain.QueryBoolean at text.now (gathered (map expression arguments.items))) }
    ensures err { IfErr result (λ e. e ≡ Memory) }
{
    let text = text.clone()?;
    Ok(ExprNode::QueryBoolean(text, arguments))
}

/// A new list or set, of a query where there is one. A list is of none.
pub fn creation(set: bool, query: Option<Box<Expr>>) -> ExprNode
    ensures { node_expression result ≡ λ at. created_as set at (option_map (λ e. expression e.value) query) }
{
    if !set {
        return ExprNode::NewList;
    }
    match query {
        None => ExprNode::NewSet(None),
        Some(query) => ExprNode::NewSet(Some(query)),
    }
}

/// Stands for an expression where none is kept.
pub fn nothing(alloc: Global) -> Result<(Name, Box<Expr>), ReadError>
    ensures ok { IfOk result (λ x. (x.0 ≡ []) × (expression x.1.value ≡ plain.Var nowhere [])) }
    ensures err { IfErr result (λ e. e ≡ Memory) }
{
    let name = Text::from_str(alloc, "")?;
    let node = ExprNode::Var(name.clone()?);
    let span = NOWHERE;
    let row = boxed(alloc, Expr { span, node })?;
    Ok((name, row))
}
