//! Which statements a loop of the kernel form may hold.
ghost use Rattle.std.specs.Prelude.{◌≡◌, map, slice_get};
ghost use Rattle.std.specs.Option.{option_map};
ghost use Rattle.java_ast.specs.Reading.{spelled, expression, statement};
ghost use Rattle.loop_text.specs.Kernel.KernelStatements as specs;
ghost use Rattle.loop_text.specs.Sites.Reading.{site_of};
ghost use Rattle.loop_text.specs.Sites.Sites as sites;

use crate::loops::counting::is_while;
use crate::sites::list::{Site, Sites, place_where};
use java_ast::{Expr, ExprNode, JTy, Stmt, StmtNode};
use qbs_base::{Scalar, Span};

/// Whether an expression has a query or a fetch in it.
#[tactic(auto, using(java_ast::proofs::Nodes::nodes))]
pub fn asks(e: &Expr) -> bool
    ensures { result ≡ specs.asks (expression e.now) }
{
    match &e.node {
        ExprNode::Lit(_) => false,
        ExprNode::Var(_) => false,
        ExprNode::Field(row, _) => asks(row),
        ExprNode::Binary(_, a, b) => asks(a) || asks(b),
        ExprNode::Not(a) => asks(a),
        ExprNode::Equals(a, b) => asks(a) || asks(b),
        ExprNode::Size(_) => false,
        ExprNode::Get(_, a) => asks(a),
        ExprNode::Contains(_, a) => asks(a),
        ExprNode::Fetch(_) => true,
        ExprNode::Query(_, _, _) => true,
        ExprNode::QueryLong(_, _) => true,
        ExprNode::QueryBoolean(_, _) => true,
        ExprNode::NewList => false,
        ExprNode::NewSet(None) => false,
        ExprNode::NewSet(Some(_)) => true,
    }
}

fn is_truth(value: &Scalar) -> bool
    ensures { result ≡ specs.is_truth value.now }
{
    match value {
        Scalar::Bool(_) => true,
        _ => false,
    }
}

/// Whether an expression is `true` or `false`.
pub fn is_truth_literal(e: &Expr) -> bool
    ensures { result ≡ specs.is_truth_literal (expression e.now) }
{
    match &e.node {
        ExprNode::Lit(value) => is_truth(value),
        _ => false,
    }
}

fn is_boolean(ty: &JTy) -> bool
    ensures { result ≡ specs.is_boolean (spelled ty.now) }
{
    match ty {
        JTy::Boolean => true,
        _ => false,
    }
}

fn sets_flag(s: &Stmt) -> bool
    ensures { result ≡ specs.sets_flag (statement s.now) }
{
    match &s.node {
        StmtNode::Assign { name: _, value } => is_truth_literal(value),
        _ => false,
    }
}

fn is_after_flag(s: Option<&Stmt>) -> bool
    ensures { result ≡ specs.is_after_flag (option_map (λ p. statement p.now) s.entry) }
{
    match s {
        None => false,
        Some(s) => sets_flag(s),
    }
}

#[tactic(auto, using(crate::proofs::Trees::Rounds::rounds))]
fn is_while_site(all: &Sites, n: usize) -> bool
    ensures { result ≡ specs.is_while_site (slice_get (map site_of all.now) n) }
{
    match all.as_slice().get(n) {
        None => false,
        Some(s) => is_while(s.statement),
    }
}

/// The innermost of some loops.
#[tactic(auto, using(crate::proofs::Trees::Blocks::innermost_last))]
pub fn innermost(loops: &[usize]) -> Option<usize>
    ensures { result ≡ sites.innermost loops.now }
{
    match loops.split_last() {
        None => None,
        Some((n, _)) => Some(*n),
    }
}

// The innermost loop of some is one that counts.
fn is_counted(all: &Sites, n: Option<usize>) -> bool
    ensures { result ≡ specs.is_counted (map site_of all.now) n }
{
    match n {
        None => false,
        Some(n) => is_while_site(all, n),
    }
}

#[tactic(auto, using(java_ast::proofs::Nodes::nodes))]
fn is_allowed(all: &Sites, s: &Site, t: &Stmt) -> bool
    ensures { result ≡ specs.is_allowed (map site_of all.now) (site_of s.now) (statement t.now) }
{
    match &t.node {
        StmtNode::Declare { ty, name: _, value } => is_boolean(ty) && is_truth_literal(value),
        StmtNode::Assign { name: _, value } => !asks(value),
        StmtNode::Add { name: _, value } => !asks(value),
        StmtNode::If {
            cond,
            yes: _,
            other,
        } => match other {
            None => !asks(cond),
            Some(_) => !asks(cond),
        },
        StmtNode::ForEach { .. } => true,
        StmtNode::While { .. } => true,
        StmtNode::Break => {
            is_after_flag(s.previous) && !is_counted(all, innermost(s.round.loops.as_slice()))
        }
        StmtNode::Sort { .. } => false,
        StmtNode::Print { .. } => false,
        StmtNode::Return { .. } => false,
    }
}

/// The place of a site that the loop may not hold.
#[tactic(auto, using(crate::proofs::Trees::Rounds::rounds))]
pub fn broken_statement(all: &Sites, n: usize, s: &Site) -> Option<Span>
    ensures { result ≡ specs.broken_statement (map site_of all.now) n (site_of s.now) }
{
    place_where(!is_allowed(all, s, s.statement), s.statement.span)
}
