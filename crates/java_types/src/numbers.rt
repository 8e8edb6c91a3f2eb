// The numbers of a program.
ghost use Rattle.std.specs.Prelude.{◌≡◌, true, map};
ghost use Rattle.java_ast.specs.Reading.{expression, expressions, statement, statements, program};
ghost use Rattle.java_mean.specs.Numbers.{literal_fits, expression_fits, expressions_fit, statement_fits, statements_fit, NumbersFit};

use java_ast::{Expr, ExprNode, Program, Stmt, StmtNode};
use qbs_base::Scalar;

fn read_literal(x: &Scalar)
    ensures { literal_fits x.now ≡ true }
{
    match x {
        Scalar::Long(n) => {
            let _number = *n;
        }
        Scalar::Bool(_) => {}
        Scalar::Text(_) => {}
    }
}

#[cycle(expr)]
#[tactic(auto, using(java_ast::proofs::Nodes::nodes))]
fn read_expression(e: &Expr)
    ensures { expression_fits (expression e.now) ≡ true }
{
    match &e.node {
        ExprNode::Lit(x) => read_literal(x),
        ExprNode::Var(_) => {}
        ExprNode::Field(a, _) => read_expression(a),
        ExprNode::Binary(_, a, b) => {
            read_expression(a);
            read_expression(b);
        }
        ExprNode::Not(a) => read_expression(a),
        ExprNode::Equals(a, b) => {
            read_expression(a);
            read_expression(b);
        }
        ExprNode::Size(_) => {}
        ExprNode::Get(_, a) => read_expression(a),
        ExprNode::Contains(_, a) => read_expression(a),
        ExprNode::Fetch(_) => {}
        ExprNode::Query(_, _, args) => read_expressions(args),
        ExprNode::QueryLong(_, args) => read_expressions(args),
        ExprNode::QueryBoolean(_, args) => read_expressions(args),
        ExprNode::NewList => {}
        ExprNode::NewSet(None) => {}
        ExprNode::NewSet(Some(a)) => read_expression(a),
    }
}

#[cycle(expr)]
fn read_expressions(es: &[Expr])
    ensures { expressions_fit (expressions es.now) ≡ true }
{
    for e in es {
        read_expression(e);
    }
}

#[cycle(statement)]
#[tactic(auto, using(java_ast::proofs::Nodes::nodes))]
fn read_statement(s: &Stmt)
    ensures { statement_fits (statement s.now) ≡ true }
{
    match &s.node {
        StmtNode::Declare { value, .. } => read_expression(value),
        StmtNode::Assign { value, .. } => read_expression(value),
        StmtNode::Add { value, .. } => read_expression(value),
        StmtNode::Sort { .. } => {}
        StmtNode::If { cond, yes, other } => {
            read_expression(cond);
            read_statements(yes);
            match other {
                None => {}
                Some(other) => read_statements(other),
            }
        }
        StmtNode::ForEach { list, body, .. } => {
            read_expression(list);
            read_statements(body);
        }
        StmtNode::While { cond, body } => {
            read_expression(cond);
            read_statements(body);
        }
        StmtNode::Print { value } => read_expression(value),
        StmtNode::Return { value } => match value {
            None => {}
            Some(value) => read_expression(value),
        },
        StmtNode::Break => {}
    }
}

#[cycle(statement)]
fn read_statements(block: &[Stmt])
    ensures { statements_fit (statements block.now) ≡ true }
{
    for s in block {
        read_statement(s);
    }
}

/// Reads each literal of a program: its numbers have 64 bits, as the type of a literal says. It
/// changes nothing.
pub fn read_literals(p: &Program)
    ensures { NumbersFit (program p.now) }
{
    for m in p.methods.as_slice() {
        read_statements(m.body.as_slice());
    }
}
