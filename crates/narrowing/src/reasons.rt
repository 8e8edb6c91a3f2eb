// Why a for-each stays as it is that can't be narrowed.
ghost use Rattle.std.specs.Prelude.{◌≡◌, ◌&&◌, ◌||◌, if◌then◌else◌};
ghost use Rattle.java_ast.specs.Reading.{expression, statement, statements, program as plain_program};
ghost use Rattle.java_ast.specs.Tree as plain;
ghost use Rattle.spreads.specs.Alone.{walks_alone as walks_it_alone};
ghost use Rattle.narrowing.specs.Reasons as specs;

use crate::blocks::{behind, last_number, outer_at};
use crate::walk::Reason;
use java_ast::{Expr, ExprNode, Path, Program, Stmt, StmtNode};
use qbs_base::Name;
use spreads::walks_alone;

fn is_fetch(e: &Expr) -> bool
    ensures { result ≡ specs.is_fetch (expression e.now) }
{
    match &e.node {
        ExprNode::Fetch(_) => true,
        _ => false,
    }
}

// Whether a list is declared as a fetch for the first of these statements alone.
fn is_fetched_for(list: &Name, value: &Expr, block: &[Stmt]) -> bool
    ensures { result ≡ (specs.is_fetch (expression value.now) && walks_it_alone list.now (statements block.now)) }
{
    is_fetch(value) && walks_alone(list, block)
}

// Whether the first of these statements declares a fetch for the for-each behind it, and its variable is named nowhere else.
fn declares_fetch(block: &[Stmt]) -> bool
    ensures { result ≡ specs.declares_fetch (statements block.now) }
{
    match block.split_first() {
        None => false,
        Some((s, behind)) => match &s.node {
            StmtNode::Declare { ty: _, name, value } => is_fetched_for(name, value, behind),
            StmtNode::Assign { .. }
            | StmtNode::Add { .. }
            | StmtNode::Sort { .. }
            | StmtNode::If { .. }
            | StmtNode::ForEach { .. }
            | StmtNode::While { .. }
            | StmtNode::Print { .. }
            | StmtNode::Return { .. }
            | StmtNode::Break => false,
        },
    }
}

fn is_declared_before(block: &[Stmt], number: u64) -> bool
    ensures { result ≡ specs.is_declared_before number (statements block.now) }
{
    if number == 0 {
        false
    } else {
        declares_fetch(behind(block, number - 1))
    }
}

// The reason of a body of one statement.
#[tactic(auto, using(java_ast::proofs::Nodes::nodes))]
fn reason_of_one(s: &Stmt) -> Reason
    ensures { result ≡ specs.reason_of_body (plain.Then (statement s.now) plain.Nothing) }
{
    match &s.node {
        StmtNode::If {
            cond: _,
            yes: _,
            other,
        } => match other {
            None => Reason::Condition,
            Some(_) => Reason::Body,
        },
        StmtNode::Declare { .. }
        | StmtNode::Assign { .. }
        | StmtNode::Add { .. }
        | StmtNode::Sort { .. }
        | StmtNode::ForEach { .. }
        | StmtNode::While { .. }
        | StmtNode::Print { .. }
        | StmtNode::Return { .. }
        | StmtNode::Break => Reason::Body,
    }
}

#[tactic(auto, using(crate::proofs::Reasoned::of_more))]
fn reason_of_body(body: &[Stmt]) -> Reason
    ensures { result ≡ specs.reason_of_body (statements body.now) }
{
    match body.split_first() {
        None => Reason::Body,
        Some((s, behind)) => match behind.split_first() {
            None => reason_of_one(s),
            Some(_) => Reason::Body,
        },
    }
}

// The reason of a for-each over this list, for which a fetch may have been declared.
fn reason_over(declared: bool, list: &Expr, body: &[Stmt]) -> Reason
    ensures { result ≡ (if specs.is_fetch (expression list.now) || declared then specs.reason_of_body (statements body.now) else Reason.List) }
{
    if is_fetch(list) || declared {
        reason_of_body(body)
    } else {
        Reason::List
    }
}

// The reason of the first of these statements, for which a fetch may have been declared.
fn reason_of(declared: bool, block: &[Stmt]) -> Reason
    ensures { result ≡ specs.reason_of declared (statements block.now) }
{
    match block.split_first() {
        None => Reason::List,
        Some((s, _)) => match &s.node {
            StmtNode::ForEach {
                ty: _,
                name: _,
                list,
                body,
            } => reason_over(declared, list, body),
            StmtNode::Declare { .. }
            | StmtNode::Assign { .. }
            | StmtNode::Add { .. }
            | StmtNode::Sort { .. }
            | StmtNode::If { .. }
            | StmtNode::While { .. }
            | StmtNode::Print { .. }
            | StmtNode::Return { .. }
            | StmtNode::Break => Reason::List,
        },
    }
}

/// Why the for-each at a path stays, the first reason that holds, where it can't be narrowed.
pub fn reason_at(program: &Program, path: &Path) -> Reason
    ensures { result ≡ specs.reason_at path.now (plain_program program.now) }
{
    let number = last_number(path);
    match outer_at(program, path) {
        None => Reason::Inside,
        Some(block) => {
            let declared = is_declared_before(block, number);
            reason_of(declared, behind(block, number))
        }
    }
}
