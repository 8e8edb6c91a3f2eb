//! Names that a loop updates, literals, and columns of rows.
ghost use Rattle.std.specs.Prelude.{◌≡◌, map};
ghost use Rattle.java_ast.specs.Reading.{expression, statement, statements};
ghost use Rattle.loop_text.specs.Kernel.KernelConditions as specs;
ghost use Rattle.java_ast.specs.Names.{is_among, updated_in, updated_among};
ghost use Rattle.loop_text.specs.Sites.Reading.{site_of};

use crate::sites::bindings::{Binding, row_column_at};
use crate::sites::list::Sites;
use crate::statements::names::same_name;
use java_ast::{Expr, ExprNode, Stmt, StmtNode};
use qbs_base::Name;

/// Whether a statement assigns or adds to a variable.
#[cycle(updates)]
#[tactic(auto, using(java_ast::proofs::Among::both, java_ast::proofs::Nodes::nodes))]
pub fn updates(s: &Stmt, x: &Name) -> bool
    ensures { result ≡ is_among (updated_in (statement s.now)) x.now }
{
    match &s.node {
        StmtNode::Assign { name, value: _ } => same_name(x, name),
        StmtNode::Add { name, value: _ } => same_name(x, name),
        StmtNode::If {
            cond: _,
            yes,
            other,
        } => match other {
            None => block_updates(yes, x),
            Some(other) => block_updates(yes, x) || block_updates(other, x),
        },
        StmtNode::ForEach {
            ty: _,
            name: _,
            list: _,
            body,
        } => block_updates(body, x),
        StmtNode::While { cond: _, body } => block_updates(body, x),
        StmtNode::Declare { .. }
        | StmtNode::Sort { .. }
        | StmtNode::Print { .. }
        | StmtNode::Return { .. }
        | StmtNode::Break => false,
    }
}

#[cycle(updates)]
#[tactic(auto, using(java_ast::proofs::Among::both))]
fn block_updates(block: &[Stmt], x: &Name) -> bool
    ensures { result ≡ is_among (updated_among (statements block.now)) x.now }
{
    for s in block {
        if updates(s, x) {
            return true;
        }
    }
    false
}

/// Whether a name is bound outside of the loop.
pub fn is_outer(b: Binding) -> bool
    ensures { result ≡ specs.is_outer b }
{
    match b {
        Binding::Outer => true,
        _ => false,
    }
}

/// Whether an expression is a literal.
pub fn is_literal(e: &Expr) -> bool
    ensures { result ≡ specs.is_literal (expression e.now) }
{
    match &e.node {
        ExprNode::Lit(_) => true,
        _ => false,
    }
}

/// Whether an expression is a field of a loop variable.
pub fn is_row_column(all: &Sites, n: usize, e: &Expr) -> bool
    ensures { result ≡ specs.is_row_column (map site_of all.now) n (expression e.now) }
{
    match row_column_at(all, n, e) {
        None => false,
        Some(_) => true,
    }
}
