// The block in which a statement stands to which a path leads, and the statements of a block from a number on.
ghost use Rattle.std.specs.Prelude.{◌≡◌, None, map, slice_get, if◌then◌else◌};
ghost use Rattle.std.specs.Option.{option_map, option_copied};
ghost use Rattle.java_ast.specs.Reading.{statement, statements, method as plain_method, program as plain_program};
ghost use Rattle.java_ast.specs.Path.{numbered, branch_of, behind_of, last_of};
ghost use Rattle.spreads.specs.Narrowed.{is_no_loop as is_none, outer_block, outer_block_at};

use java_ast::{Method, Path, Program, Stmt, StmtNode, branch};

fn numbered_statement(block: &[Stmt], number: u64) -> Option<&Stmt>
    ensures { option_map statement (option_copied result) ≡ numbered number (statements block.now) }
{
    match block.get(number as usize) {
        Some(s) => Some(s),
        None => None,
    }
}

fn numbered_method(methods: &[Method], number: u64) -> Option<&Method>
    ensures { option_map plain_method (option_copied result) ≡ slice_get (map plain_method methods.now) number }
{
    match methods.get(number as usize) {
        Some(m) => Some(m),
        None => None,
    }
}

/// The statements of a block behind the first ones, so many.
pub fn behind(block: &[Stmt], number: u64) -> &[Stmt]
    ensures { statements result.now ≡ behind_of number (statements block.now) }
{
    if (number as usize) < block.len() {
        &block[number as usize..]
    } else {
        &[]
    }
}

fn is_no_loop(s: &Stmt) -> bool
    ensures { result ≡ is_none (statement s.now) }
{
    match &s.node {
        StmtNode::ForEach { .. } | StmtNode::While { .. } => false,
        StmtNode::Declare { .. }
        | StmtNode::Assign { .. }
        | StmtNode::Add { .. }
        | StmtNode::Sort { .. }
        | StmtNode::If { .. }
        | StmtNode::Print { .. }
        | StmtNode::Return { .. }
        | StmtNode::Break => true,
    }
}

// The branch of a statement with this number, if it is no loop.
fn branch_of_no_loop(s: &Stmt, number: u64) -> Option<&[Stmt]>
    ensures { option_map statements (option_copied result) ≡ (if is_none (statement s.now) then branch_of number (statement s.now) else None) }
{
    if is_no_loop(s) {
        branch(s, number)
    } else {
        None
    }
}

// The same, where the path leads behind the number of a statement of this block.
fn outer_below<'a>(block: &'a [Stmt], number: u64, path: &[u64]) -> Option<&'a [Stmt]>
    ensures { option_map statements (option_copied result) ≡ outer_block path.now number (statements block.now) }
{
    let Some((at, below)) = path.split_first() else {
        return Some(block);
    };
    let (further, rest) = below.split_first()?;
    let s = numbered_statement(block, number)?;
    let Some(inner) = branch_of_no_loop(s, *at) else {
        return None;
    };
    outer_below(inner, *further, rest)
}

/// The block in which the statement stands to which a path leads, None where a loop stands round it, or where there is no such block.
pub fn outer_at<'a>(program: &'a Program, path: &Path) -> Option<&'a [Stmt]>
    ensures { option_map statements (option_copied result) ≡ outer_block_at path.now (plain_program program.now) }
{
    let (number, below) = path.as_slice().split_first()?;
    let (further, rest) = below.split_first()?;
    let m = numbered_method(program.methods.as_slice(), *number)?;
    outer_below(m.body.as_slice(), *further, rest)
}

/// The number of the statement in its block that a path leads to.
pub fn last_number(path: &Path) -> u64
    ensures { result ≡ last_of path.now }
{
    match path.as_slice().last() {
        Some(number) => *number,
        None => 0,
    }
}
