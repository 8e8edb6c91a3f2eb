// Whether a call stands in statements.
ghost use Rattle.std.specs.Prelude.{◌≡◌};
ghost use Rattle.std.specs.Option.{option_map};
ghost use Rattle.java_ast.specs.Reading.{expression, expressions, statement, statements};
ghost use Rattle.std.specs.declared.option.Option.TheVariants.{None};
ghost use Rattle.java_calls.specs.Rules.{sites_in, sites_among, sites_at, sites_of, sites_returned};
ghost use Rattle.method_texts.specs.Anew.{has_sites};

use call_rules::is_single_name;
use java_ast::{Expr, ExprNode, Stmt, StmtNode};

#[cycle(expressions)]
#[tactic(auto, using(java_ast::proofs::Nodes::nodes, crate::proofs::Sites::sites))]
fn is_in(e: &Expr) -> bool
    ensures { result ≡ has_sites (sites_in None (expression e.now)) }
{
    match &e.node {
        ExprNode::Lit(_) => false,
        ExprNode::Var(_) => false,
        ExprNode::Size(_) => false,
        ExprNode::Fetch(_) => false,
        ExprNode::NewList => false,
        ExprNode::Field(inner, _) => is_in(inner),
        ExprNode::Not(inner) => is_in(inner),
        ExprNode::Get(_, inner) => is_in(inner),
        ExprNode::Contains(_, inner) => is_in(inner),
        ExprNode::Binary(_, a, b) => is_in(a) || is_in(b),
        ExprNode::Equals(a, b) => is_in(a) || is_in(b),
        ExprNode::Query(_, _, arguments) => is_among(arguments),
        ExprNode::QueryBoolean(_, arguments) => is_among(arguments),
        ExprNode::QueryLong(text, arguments) => is_single_name(text) || is_among(arguments),
        ExprNode::NewSet(query) => match query {
            None => false,
            Some(query) => is_in(query),
        },
    }
}

#[cycle(expressions)]
#[tactic(auto, using(crate::proofs::Sites::sites))]
fn is_among(list: &[Expr]) -> bool
    ensures { result ≡ has_sites (sites_among (expressions list.now)) }
{
    for e in list {
        if is_in(e) {
            return true;
        }
    }
    false
}

fn is_returned(value: &Option<Expr>) -> bool
    ensures { result ≡ has_sites (sites_returned (option_map expression value.now)) }
{
    match value {
        None => false,
        Some(e) => is_in(e),
    }
}

#[cycle(statements)]
#[tactic(auto, using(java_ast::proofs::Nodes::nodes, crate::proofs::Sites::sites))]
fn is_at(s: &Stmt) -> bool
    ensures { result ≡ has_sites (sites_at (statement s.now)) }
{
    match &s.node {
        StmtNode::Declare {
            ty: _,
            name: _,
            value,
        } => is_in(value),
        StmtNode::Assign { name: _, value } => is_in(value),
        StmtNode::Add { name: _, value } => is_in(value),
        StmtNode::Sort {
            name: _,
            keys: _,
            down: _,
        } => false,
        StmtNode::If { cond, yes, other } => match other {
            None => is_in(cond) || has_call(yes),
            Some(other) => is_in(cond) || (has_call(yes) || has_call(other)),
        },
        StmtNode::ForEach {
            ty: _,
            name: _,
            list,
            body,
        } => is_in(list) || has_call(body),
        StmtNode::While { cond, body } => is_in(cond) || has_call(body),
        StmtNode::Print { value } => is_in(value),
        StmtNode::Return { value } => is_returned(value),
        StmtNode::Break => false,
    }
}

/// Whether a call stands in some statements or their parts.
#[cycle(statements)]
#[tactic(auto, using(crate::proofs::Sites::sites))]
pub fn has_call(block: &[Stmt]) -> bool
    ensures { result ≡ has_sites (sites_of (statements block.now)) }
{
    for s in block {
        if is_at(s) {
            return true;
        }
    }
    false
}
