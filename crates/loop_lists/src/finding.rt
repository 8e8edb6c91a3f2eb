// The first loop of a program at a line and column. No other loop's path is made, and what is looked at is looked at where it stands.
ghost use Rattle.std.specs.Prelude.{◌≡◌, ◌∷◌, IfOk, map};
ghost use Rattle.java_ast.specs.Reading.{statement, statements, method as plain_method, program as plain_program};
ghost use Rattle.loop_text.specs.Statements.Loops.{loops_of};
ghost use Rattle.loop_lists.specs.Places.{path_to};
ghost use Rattle.loop_lists.specs.Finding.{begins_at, led_by, first_in_loop, first_in, first_among, first_of_methods};

use java_ast::{Method, Path, Program, Stmt, StmtNode};
use qbs_base::{NoMemory, Span};
use std::alloc::Global;

// Whether a stretch of the text begins at this line and column.
fn is_begun(at: Span, line: u64, column: u64) -> bool
    ensures { result ≡ begins_at line column at }
{
    at.line == line && at.column == column
}

// A path behind a number.
fn behind(number: u64, path: Path) -> Result<Path, NoMemory>
    ensures { IfOk result (λ p. p ≡ number ∷ path) }
{
    let mut numbers = path.into_vec();
    numbers.insert(0, number)?;
    Ok(Path::from_vec(numbers))
}

// Where the first loop at this line and column stands in a block, if there is one: its path from the block on.
#[cycle(finding)]
fn find_in_block(
    alloc: Global,
    block: &[Stmt],
    line: u64,
    column: u64,
) -> Result<Option<Path>, NoMemory>
    ensures { IfOk result (λ p. p ≡ first_among line column 0 (statements block.now)) }
{
    for (i, s) in block.iter().enumerate() {
        if let Some(path) = find_in_statement(alloc, s, line, column)? {
            return Ok(Some(behind(i as u64, path)?));
        }
    }
    Ok(None)
}

// The same in a branch of a statement: the path from the statement on.
#[cycle(finding)]
fn find_in_branch(
    alloc: Global,
    branch: u64,
    block: &[Stmt],
    line: u64,
    column: u64,
) -> Result<Option<Path>, NoMemory>
    ensures { IfOk result (λ p. p ≡ led_by branch (first_among line column 0 (statements block.now))) }
{
    match find_in_block(alloc, block, line, column)? {
        None => Ok(None),
        Some(path) => Ok(Some(behind(branch, path)?)),
    }
}

// The same in a loop that stands there, with that body.
#[cycle(finding)]
fn find_in_loop(
    alloc: Global,
    at: Span,
    body: &[Stmt],
    line: u64,
    column: u64,
) -> Result<Option<Path>, NoMemory>
    ensures { IfOk result (λ p. p ≡ first_in_loop line column at (first_among line column 0 (statements body.now))) }
{
    if is_begun(at, line, column) {
        Ok(Some(Path::new(alloc)))
    } else {
        find_in_branch(alloc, 0, body, line, column)
    }
}

// The same in a statement.
#[cycle(finding)]
fn find_in_statement(
    alloc: Global,
    s: &Stmt,
    line: u64,
    column: u64,
) -> Result<Option<Path>, NoMemory>
    ensures { IfOk result (λ p. p ≡ first_in line column (statement s.now)) }
{
    match &s.node {
        StmtNode::If { yes, other, .. } => match other {
            None => find_in_branch(alloc, 0, yes, line, column),
            Some(other) => match find_in_branch(alloc, 0, yes, line, column)? {
                Some(path) => Ok(Some(path)),
                None => find_in_branch(alloc, 1, other, line, column),
            },
        },
        StmtNode::ForEach { body, .. } => find_in_loop(alloc, s.span, body, line, column),
        StmtNode::While { body, .. } => find_in_loop(alloc, s.span, body, line, column),
        StmtNode::Declare { .. }
        | StmtNode::Assign { .. }
        | StmtNode::Add { .. }
        | StmtNode::Sort { .. }
        | StmtNode::Print { .. }
        | StmtNode::Return { .. }
        | StmtNode::Break => Ok(None),
    }
}

// The same in the methods of a program.
fn find_in_methods(
    alloc: Global,
    methods: &[Method],
    line: u64,
    column: u64,
) -> Result<Option<Path>, NoMemory>
    ensures { IfOk result (λ p. p ≡ first_of_methods line column 0 (map plain_method methods.now)) }
{
    for (i, m) in methods.iter().enumerate() {
        if let Some(path) = find_in_block(alloc, m.body.as_slice(), line, column)? {
            return Ok(Some(behind(i as u64, path)?));
        }
    }
    Ok(None)
}

/// The path of the first loop of a program, in text order, at this line and column, None where there is none. The only error is want of
/// memory. The program is walked as far as that loop, and memory is taken for its path alone.
pub fn find_loop(
    alloc: Global,
    program: &Program,
    line: u64,
    column: u64,
) -> Result<Option<Path>, NoMemory>
    ensures { IfOk result (λ p. p ≡ path_to line column (plain_program program.now) (loops_of (plain_program program.now))) }
{
    find_in_methods(alloc, program.methods.as_slice(), line, column)
}
