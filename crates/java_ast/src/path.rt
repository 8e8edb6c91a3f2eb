// The statement that a path leads to.
ghost use Rattle.std.specs.Prelude.{◌≡◌, ◌==◌, map, slice_get};
ghost use Rattle.std.specs.Option.{option_map, option_copied};
ghost use Rattle.java_ast.specs.Reading.{statement, statements, method as plain_method, program as plain_program};
ghost use Rattle.java_ast.specs.Path.{numbered, first_branch, either_branch, branch_of, statement_in, statement_at};

use crate::{Method, Path, Program, Stmt, StmtNode};

/// The statement of a block with this number.
pub fn numbered_statement(block: &[Stmt], number: u64) -> Option<&Stmt>
    ensures { option_map statement (option_copied result) ≡ numbered number (statements block.now) }
{
    match block.get(number as usize) {
        Some(s) => Some(s),
        None => None,
    }
}

fn only_branch(number: u64, block: &[Stmt]) -> Option<&[Stmt]>
    ensures { option_map statements (option_copied result) ≡ first_branch number (statements block.now) }
{
    if number == 0 { Some(block) } else { None }
}

fn one_branch<'a>(number: u64, first: &'a [Stmt], other: &'a [Stmt]) -> Option<&'a [Stmt]>
    ensures { option_map statements (option_copied result) ≡ either_branch number (statements first.now) (statements other.now) }
{
    if number == 0 {
        Some(first)
    } else if number == 1 {
        Some(other)
    } else {
        None
    }
}

/// The branch of a statement with this number, None where it has none: 0 is its body, or what is done
/// where its condition holds, 1 what is done else.
pub fn branch(s: &Stmt, number: u64) -> Option<&[Stmt]>
    ensures { option_map statements (option_copied result) ≡ branch_of number (statement s.now) }
{
    match &s.node {
        StmtNode::If { yes, other, .. } => match other {
            None => only_branch(number, yes),
            Some(other) => one_branch(number, yes, other),
        },
        StmtNode::ForEach { body, .. } => only_branch(number, body),
        StmtNode::While { body, .. } => only_branch(number, body),
        StmtNode::Declare { .. }
        | StmtNode::Assign { .. }
        | StmtNode::Add { .. }
        | StmtNode::Sort { .. }
        | StmtNode::Print { .. }
        | StmtNode::Return { .. }
        | StmtNode::Break => None,
    }
}

/// Whether this number in a path names what is done where a condition fails.
pub fn names_other(number: u64) -> bool
    ensures { result ≡ (number == 1) }
{
    number == 1
}

/// The method with this number.
pub fn numbered_method(methods: &[Method], number: u64) -> Option<&Method>
    ensures { option_map plain_method (option_copied result) ≡ slice_get (map plain_method methods.now) number }
{
    match methods.get(number as usize) {
        Some(m) => Some(m),
        None => None,
    }
}

/// Where a path leads behind the number of a statement of the block.
fn statement_below<'a>(block: &'a [Stmt], number: u64, path: &[u64]) -> Option<&'a Stmt>
    ensures { option_map statement (option_copied result) ≡ statement_in path.now number (statements block.now) }
{
    let Some((at, below)) = path.split_first() else {
        return numbered_statement(block, number);
    };
    let (further, rest) = below.split_first()?;
    let s = numbered_statement(block, number)?;
    let inner = branch(s, *at)?;
    statement_below(inner, *further, rest)
}

/// The statement that a path leads to, and None exactly where it leads to none. It takes no memory.
pub fn at_path<'a>(program: &'a Program, path: &Path) -> Option<&'a Stmt>
    ensures { option_map statement (option_copied result) ≡ statement_at path.now (plain_program program.now) }
{
    let (number, below) = path.as_slice().split_first()?;
    let (further, rest) = below.split_first()?;
    let m = numbered_method(program.methods.as_slice(), *number)?;
    statement_below(m.body.as_slice(), *further, rest)
}
