//! The paths of the loops of a program.
ghost use Rattle.std.specs.Prelude.{◌≡◌, ◌++◌, ◌∷◌, [], OnOk, IfOk};
ghost use Rattle.java_ast.specs.Reading.{statement, statements, method as plain_method, program as plain_program};
ghost use Rattle.loop_text.specs.Statements.Loops as specs;
ghost use Rattle.loop_text.specs.Statements.Loops.{loops_in, loops_among};

use java_ast::{Method, Path, Paths, Program, Stmt, StmtNode};
use qbs_base::NoMemory;
use std::alloc::Global;

/// A path that goes on by one number.
fn longer(alloc: Global, path: &[u64], number: u64) -> Result<Path, NoMemory>
    ensures { IfOk result (λ p. p ≡ path.now ++ number ∷ []) }
{
    let mut all = path.to_vec(alloc)?;
    all.push(number)?;
    Ok(Path::from_vec(all))
}

/// Appends the loops of the statements of a block to which the path leads.
#[cycle(loops)]
fn push_block(
    alloc: Global,
    path: &[u64],
    block: &[Stmt],
    found: &mut Paths,
) -> Result<(), NoMemory>
    ensures { OnOk result (found.new ≡ found.old ++ loops_among path.now 0 (statements block.now)) }
{
    for (i, s) in block.iter().enumerate() {
        push_statement(alloc, path, i as u64, s, found)?;
    }
    Ok(())
}

/// The same of the branch of a statement.
#[cycle(loops)]
fn push_branch(
    alloc: Global,
    path: &[u64],
    branch: u64,
    block: &[Stmt],
    found: &mut Paths,
) -> Result<(), NoMemory>
    ensures { OnOk result (found.new ≡ found.old ++ loops_among (path.now ++ branch ∷ []) 0 (statements block.now)) }
{
    let inside = longer(alloc, path, branch)?;
    push_block(alloc, inside.as_slice(), block, found)
}

/// The same of a loop with that body.
#[cycle(loops)]
fn push_loop(alloc: Global, path: Path, body: &[Stmt], found: &mut Paths) -> Result<(), NoMemory>
    ensures { OnOk result (found.new ≡ found.old ++ path ∷ loops_among (path ++ 0 ∷ []) 0 (statements body.now)) }
{
    let inside = longer(alloc, path.as_slice(), 0)?;
    found.push(path)?;
    push_block(alloc, inside.as_slice(), body, found)
}

/// The same of the statement with this number in the block.
#[cycle(loops)]
fn push_statement(
    alloc: Global,
    path: &[u64],
    number: u64,
    s: &Stmt,
    found: &mut Paths,
) -> Result<(), NoMemory>
    ensures { OnOk result (found.new ≡ found.old ++ loops_in (path.now ++ number ∷ []) (statement s.now)) }
{
    match &s.node {
        StmtNode::If {
            cond: _,
            yes,
            other,
        } => {
            let here = longer(alloc, path, number)?;
            match other {
                None => push_branch(alloc, here.as_slice(), 0, yes, found),
                Some(other) => {
                    push_branch(alloc, here.as_slice(), 0, yes, found)?;
                    push_branch(alloc, here.as_slice(), 1, other, found)
                }
            }
        }
        StmtNode::ForEach {
            ty: _,
            name: _,
            list: _,
            body,
        } => push_loop(alloc, longer(alloc, path, number)?, body, found),
        StmtNode::While { cond: _, body } => {
            push_loop(alloc, longer(alloc, path, number)?, body, found)
        }
        StmtNode::Declare { .. }
        | StmtNode::Assign { .. }
        | StmtNode::Add { .. }
        | StmtNode::Sort { .. }
        | StmtNode::Print { .. }
        | StmtNode::Return { .. }
        | StmtNode::Break => Ok(()),
    }
}

/// The paths of the loops of the method with this number, in text order. The only error is want of memory.
pub fn loops_of_method(alloc: Global, number: u64, m: &Method) -> Result<Paths, NoMemory>
    ensures { IfOk result (λ paths. paths ≡ loops_among (number ∷ []) 0 (plain_method m.now).body) }
{
    let mut found = Paths::new(alloc);
    let path = longer(alloc, &[], number)?;
    push_block(alloc, path.as_slice(), m.body.as_slice(), &mut found)?;
    Ok(found)
}

/// The paths of all loops of a program, for-each and `while`, in text order: a loop before those inside
/// it. The only error is want of memory.
pub fn loops_of(alloc: Global, program: &Program) -> Result<Paths, NoMemory>
    ensures { IfOk result (λ paths. paths ≡ specs.loops_of (plain_program program.now)) }
{
    let mut found = Paths::new(alloc);
    for (i, m) in program.methods.as_slice().iter().enumerate() {
        let path = longer(alloc, &[], i as u64)?;
        push_block(alloc, path.as_slice(), m.body.as_slice(), &mut found)?;
    }
    Ok(found)
}
