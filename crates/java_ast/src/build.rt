// Nodes made of their parts: a binary one, and those that hold lists.
ghost use Rattle.std.specs.Prelude.{◌≡◌};
ghost use Rattle.java_ast.specs.Reading.{spelled, expression, expressions, statement, statements};
ghost use Rattle.java_ast.specs.Tree as plain;

use crate::{Expr, ExprNode, JTy, Op, Stmt, StmtNode};
use qbs_base::{Name, Span, Text};

/// The left operand stands first.
pub fn binary(span: Span, op: Op, left: Box<Expr>, right: Box<Expr>) -> Expr
    ensures { expression result ≡ plain.Binary span op (expression left.value) (expression right.value) }
{
    let node = ExprNode::Binary(op, left, right);
    Expr { span, node }
}

/// A query for rows of this element, its arguments in order.
#[tactic(auto, using(crate::proofs::Rows::expressions_hidden))]
pub fn query(span: Span, element: JTy, text: Text, arguments: Vec<Expr>) -> Expr
    ensures { expression result ≡ plain.Query span (spelled element) text (expressions arguments.items) }
{
    let node = ExprNode::Query(element, text, arguments);
    Expr { span, node }
}

/// A query for a number, its arguments in order.
#[tactic(auto, using(crate::proofs::Rows::expressions_hidden))]
pub fn query_long(span: Span, text: Text, arguments: Vec<Expr>) -> Expr
    ensures { expression result ≡ plain.QueryLong span text (expressions arguments.items) }
{
    let node = ExprNode::QueryLong(text, arguments);
    Expr { span, node }
}

/// A query for a truth value, its arguments in order.
#[tactic(auto, using(crate::proofs::Rows::expressions_hidden))]
pub fn query_boolean(span: Span, text: Text, arguments: Vec<Expr>) -> Expr
    ensures { expression result ≡ plain.QueryBoolean span text (expressions arguments.items) }
{
    let node = ExprNode::QueryBoolean(text, arguments);
    Expr { span, node }
}

/// An `if` without `else`.
#[tactic(auto, using(crate::proofs::Rows::statements_hidden))]
pub fn if_only(span: Span, cond: Expr, yes: Vec<Stmt>) -> Stmt
    ensures { statement result ≡ plain.If span (expression cond) (statements yes.items) }
{
    let node = StmtNode::If {
        cond,
        yes,
        other: None,
    };
    Stmt { span, node }
}

/// An `if` with both branches.
#[tactic(auto, using(crate::proofs::Rows::statements_hidden))]
pub fn if_else(span: Span, cond: Expr, yes: Vec<Stmt>, other: Vec<Stmt>) -> Stmt
    ensures { statement result ≡ plain.IfElse span (expression cond) (statements yes.items) (statements other.items) }
{
    let node = StmtNode::If {
        cond,
        yes,
        other: Some(other),
    };
    Stmt { span, node }
}

/// A loop over the rows of a list.
#[tactic(auto, using(crate::proofs::Rows::statements_hidden))]
pub fn for_each(span: Span, ty: JTy, name: Name, list: Expr, body: Vec<Stmt>) -> Stmt
    ensures { statement result ≡ plain.ForEach span (spelled ty) name (expression list) (statements body.items) }
{
    let node = StmtNode::ForEach {
        ty,
        name,
        list,
        body,
    };
    Stmt { span, node }
}

/// A loop while a condition holds.
#[tactic(auto, using(crate::proofs::Rows::statements_hidden))]
pub fn while_loop(span: Span, cond: Expr, body: Vec<Stmt>) -> Stmt
    ensures { statement result ≡ plain.While span (expression cond) (statements body.items) }
{
    let node = StmtNode::While { cond, body };
    Stmt { span, node }
}
