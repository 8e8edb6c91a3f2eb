// Whether a list is declared for one for-each.
ghost use Rattle.std.specs.Prelude.{◌≡◌, ◌++◌, ◌∷◌, ◌&&◌, ◌||◌, not};
ghost use Rattle.java_ast.specs.Names.{is_among, mentioned_among};
ghost use Rattle.java_ast.specs.Reading.{expression, statement, statements};
ghost use Rattle.spreads.specs.Alone.{declared_within, all_declared_within, is_variable as is_var, walks_alone as walks_it_alone};
ghost use Rattle.spreads.specs.Beside.{beside};

use java_ast::{Expr, ExprNode, Stmt, StmtNode};
use loop_text::statements::names::{block_mentions, same_name};
use qbs_base::Name;

fn either(a: bool, b: bool) -> bool
    ensures { result ≡ (a || b) }
{
    a || b
}

// Whether a statement declares the name, at any depth.
#[cycle(declares)]
#[tactic(auto, using(java_ast::proofs::Among::both, java_ast::proofs::Nodes::nodes))]
fn declares(s: &Stmt, x: &Name) -> bool
    ensures { result ≡ is_among (declared_within (statement s.now)) x.now }
{
    match &s.node {
        StmtNode::Declare {
            ty: _,
            name,
            value: _,
        } => same_name(x, name),
        StmtNode::If {
            cond: _,
            yes,
            other,
        } => match other {
            None => block_declares(yes, x),
            Some(other) => either(block_declares(yes, x), block_declares(other, x)),
        },
        StmtNode::ForEach {
            ty: _,
            name,
            list: _,
            body,
        } => same_name(x, name) || block_declares(body, x),
        StmtNode::While { cond: _, body } => block_declares(body, x),
        StmtNode::Assign { .. }
        | StmtNode::Add { .. }
        | StmtNode::Sort { .. }
        | StmtNode::Print { .. }
        | StmtNode::Return { .. }
        | StmtNode::Break => false,
    }
}

// Whether a statement of a block declares the name, at any depth.
#[cycle(declares)]
#[tactic(auto, using(java_ast::proofs::Among::both))]
fn block_declares(block: &[Stmt], x: &Name) -> bool
    ensures { result ≡ is_among (all_declared_within (statements block.now)) x.now }
{
    for s in block {
        if declares(s, x) {
            return true;
        }
    }
    false
}

// Whether a for-each with this variable and body, or the statements behind it, mention or declare a name.
#[tactic(auto, using(java_ast::proofs::Among::both))]
fn mentions_beside(x: &Name, body: &[Stmt], behind: &[Stmt]) -> bool
    ensures { result ≡ is_among (mentioned_among (statements body.now) ++ mentioned_among (statements behind.now)) x.now }
{
    block_mentions(body, x) || block_mentions(behind, x)
}

#[tactic(auto, using(java_ast::proofs::Among::both))]
fn declares_beside(x: &Name, variable: &Name, body: &[Stmt], behind: &[Stmt]) -> bool
    ensures { result ≡ is_among ((variable.now ∷ all_declared_within (statements body.now)) ++ all_declared_within (statements behind.now)) x.now }
{
    same_name(x, variable) || block_declares(body, x) || block_declares(behind, x)
}

#[tactic(auto, using(java_ast::proofs::Among::both))]
fn names_beside(x: &Name, variable: &Name, body: &[Stmt], behind: &[Stmt]) -> bool
    ensures { result ≡ is_among (beside variable.now (statements body.now) (statements behind.now)) x.now }
{
    mentions_beside(x, body, behind) || declares_beside(x, variable, body, behind)
}

fn is_variable(x: &Name, e: &Expr) -> bool
    ensures { result ≡ is_var x.now (expression e.now) }
{
    match &e.node {
        ExprNode::Var(y) => same_name(x, y),
        _ => false,
    }
}

// Whether a for-each over this list, with this variable and body, and the statements behind it name a list that it walks nowhere else.
fn walks_only(x: &Name, variable: &Name, list: &Expr, body: &[Stmt], behind: &[Stmt]) -> bool
    ensures { result ≡ (is_var x.now (expression list.now) && not (is_among (beside variable.now (statements body.now) (statements behind.now)) x.now)) }
{
    is_variable(x, list) && !names_beside(x, variable, body, behind)
}

/// Whether the first of these statements walks the variable, and nothing else in them names it.
pub fn walks_alone(x: &Name, block: &[Stmt]) -> bool
    ensures { result ≡ walks_it_alone x.now (statements block.now) }
{
    match block.split_first() {
        None => false,
        Some((s, behind)) => match &s.node {
            StmtNode::ForEach {
                ty: _,
                name,
                list,
                body,
            } => walks_only(x, name, list, body, behind),
            StmtNode::Declare { .. }
            | StmtNode::Assign { .. }
            | StmtNode::Add { .. }
            | StmtNode::Sort { .. }
            | StmtNode::If { .. }
            | StmtNode::While { .. }
            | StmtNode::Print { .. }
            | StmtNode::Return { .. }
            | StmtNode::Break => false,
        },
    }
}
