//! The names that a program mentions.
ghost use Rattle.std.specs.Prelude.{◌≡◌};
ghost use Rattle.std.specs.Str.{bytes_eq};
ghost use Rattle.java_ast.specs.Reading.{expression, expressions, statement, statements};
ghost use Rattle.loop_text.specs.Statements.Fragment.{set_by};
ghost use Rattle.java_ast.specs.Names as specs;
ghost use Rattle.loop_text.specs.Statements.Setting as setting;

use java_ast::{Expr, ExprNode, Stmt, StmtNode};
use qbs_base::Name;

/// Whether two names are one.
pub fn same_name(a: &Name, b: &Name) -> bool
    ensures { result ≡ bytes_eq a.now b.now }
{
    *a == *b
}

/// Whether an expression mentions a variable.
#[cycle(mentions)]
#[tactic(auto, using(crate::proofs::Trees::Mentions::mentions, java_ast::proofs::Nodes::nodes))]
pub fn mentions(e: &Expr, x: &Name) -> bool
    ensures { result ≡ specs.is_among (specs.names_in (expression e.now)) x.now }
{
    match &e.node {
        ExprNode::Lit(_) => false,
        ExprNode::Var(y) => same_name(x, y),
        ExprNode::Field(row, _) => mentions(row, x),
        ExprNode::Binary(_, a, b) => mentions(a, x) || mentions(b, x),
        ExprNode::Not(a) => mentions(a, x),
        ExprNode::Equals(a, b) => mentions(a, x) || mentions(b, x),
        ExprNode::Size(y) => same_name(x, y),
        ExprNode::Get(y, a) => same_name(x, y) || mentions(a, x),
        ExprNode::Contains(y, a) => same_name(x, y) || mentions(a, x),
        ExprNode::Fetch(_) => false,
        ExprNode::Query(_, _, args) => some_mentions(args, x),
        ExprNode::QueryLong(_, args) => some_mentions(args, x),
        ExprNode::QueryBoolean(_, args) => some_mentions(args, x),
        ExprNode::NewList => false,
        ExprNode::NewSet(None) => false,
        ExprNode::NewSet(Some(a)) => mentions(a, x),
    }
}

/// Whether one of some expressions mentions a variable.
#[cycle(mentions)]
#[tactic(auto, using(crate::proofs::Trees::Mentions::mentions))]
pub fn some_mentions(es: &[Expr], x: &Name) -> bool
    ensures { result ≡ specs.is_among (specs.names_among (expressions es.now)) x.now }
{
    for e in es {
        if mentions(e, x) {
            return true;
        }
    }
    false
}

/// Whether a statement mentions a variable, other than to declare it.
#[cycle(statements)]
#[tactic(auto, using(crate::proofs::Trees::Mentions::mentions, java_ast::proofs::Nodes::nodes))]
pub fn statement_mentions(s: &Stmt, x: &Name) -> bool
    ensures { result ≡ specs.is_among (specs.mentioned_in (statement s.now)) x.now }
{
    match &s.node {
        StmtNode::Declare {
            ty: _,
            name: _,
            value,
        } => mentions(value, x),
        StmtNode::Assign { name, value } => same_name(x, name) || mentions(value, x),
        StmtNode::Add { name, value } => same_name(x, name) || mentions(value, x),
        StmtNode::Sort {
            name,
            keys: _,
            down: _,
        } => same_name(x, name),
        StmtNode::If { cond, yes, other } => match other {
            None => mentions(cond, x) || block_mentions(yes, x),
            Some(other) => {
                if block_mentions(yes, x) {
                    return true;
                }
                mentions(cond, x) || block_mentions(other, x)
            }
        },
        StmtNode::ForEach {
            ty: _,
            name: _,
            list,
            body,
        } => mentions(list, x) || block_mentions(body, x),
        StmtNode::While { cond, body } => mentions(cond, x) || block_mentions(body, x),
        StmtNode::Print { value } => mentions(value, x),
        StmtNode::Return { value: None } => false,
        StmtNode::Return { value: Some(value) } => mentions(value, x),
        StmtNode::Break => false,
    }
}

/// Whether a statement of a block mentions a variable.
#[cycle(statements)]
#[tactic(auto, using(crate::proofs::Trees::Mentions::mentions))]
pub fn block_mentions(block: &[Stmt], x: &Name) -> bool
    ensures { result ≡ specs.is_among (specs.mentioned_among (statements block.now)) x.now }
{
    for s in block {
        if statement_mentions(s, x) {
            return true;
        }
    }
    false
}

/// Whether a statement of a run sets a variable.
pub fn sets(s: &Stmt, x: &Name) -> bool
    ensures { result ≡ bytes_eq (set_by (statement s.now)) x.now }
{
    match &s.node {
        StmtNode::Declare {
            ty: _,
            name,
            value: _,
        } => same_name(name, x),
        StmtNode::Assign { name, value: _ } => same_name(name, x),
        StmtNode::Sort {
            name,
            keys: _,
            down: _,
        } => same_name(name, x),
        _ => x.as_slice().is_empty(),
    }
}

/// Whether a statement of a run mentions a variable, to set it or otherwise.
pub fn touches(s: &Stmt, x: &Name) -> bool
    ensures { result ≡ setting.touches x.now (statement s.now) }
{
    sets(s, x) || statement_mentions(s, x)
}
