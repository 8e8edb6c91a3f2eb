//! The parts of blocks: statements by their numbers, branches, and runs.
ghost use Rattle.std.specs.Prelude.{◌≡◌, ◌≤◌, drop, length, option_copied, take};
ghost use Rattle.std.specs.Option.{option_map};
ghost use Rattle.java_ast.specs.Reading.{statement, statements};
ghost use Rattle.java_ast.specs.Path as paths;
ghost use Rattle.loop_text.specs.Statements.Fragment as fragment;

use java_ast::{Stmt, StmtNode};

/// The statement of a block with this number.
pub fn numbered(block: &[Stmt], number: usize) -> Option<&Stmt>
    ensures { option_map statement (option_copied result) ≡ paths.numbered number (statements block.now) }
{
    match block.get(number) {
        Some(s) => Some(s),
        None => None,
    }
}

/// The statements of a block before this number.
pub fn before_number(block: &[Stmt], number: usize) -> &[Stmt]
    ensures { statements result.now ≡ paths.first_of number (statements block.now) }
{
    if number < block.len() {
        &block[..number]
    } else {
        block
    }
}

#[tactic(auto, using(java_ast::proofs::Nodes::nodes))]
fn is_simple(s: &Stmt) -> bool
    ensures { result ≡ fragment.is_simple (statement s.now) }
{
    match &s.node {
        StmtNode::Declare { .. } => true,
        StmtNode::Assign { .. } => true,
        StmtNode::Sort { .. } => true,
        _ => false,
    }
}

// The number at which the run at the end of statements begins.
fn run_start(before: &[Stmt]) -> usize
    ensures within { result ≤ length before.now }
    ensures front { fragment.before_run (statements before.now) ≡ statements (take result before.now) }
    ensures run { fragment.run_of (statements before.now) ≡ statements (drop result before.now) }
{
    let mut start = before.len();
    while start > 0 {
        let last = start - 1;
        if !is_simple(&before[last]) {
            return start;
        }
        start = last;
    }
    start
}

/// The statements before the run at the end of some statements, and the run.
pub fn split_run(before: &[Stmt]) -> (&[Stmt], &[Stmt])
    ensures front { fragment.before_run (statements before.now) ≡ statements result.0.now }
    ensures run { fragment.run_of (statements before.now) ≡ statements result.1.now }
{
    let start = run_start(before);
    (&before[..start], &before[start..])
}
