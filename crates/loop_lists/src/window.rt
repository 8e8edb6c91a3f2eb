// A stretch of the loops of a method listed: no path is made of a loop before it, and what stands behind it isn't looked at.
ghost use Rattle.std.specs.Prelude.{◌≡◌, ◌∷◌, ◌++◌, [], OnOk, IfOk, map};
ghost use Rattle.java_ast.specs.Reading.{statement, statements, method as plain_method};
ghost use Rattle.loop_text.specs.Statements.Loops.{loops_in, loops_among};
ghost use Rattle.loop_lists.specs.Lists.{loops_numbered};
ghost use Rattle.loop_lists.specs.Windows.{Sees};

use java_ast::{Method, Path, Paths, Stmt, StmtNode};
use qbs_base::NoMemory;
use std::alloc::Global;

/// The paths of a stretch, and how many more loops come up to its end.
#[derive(Drop)]
pub struct Seen {
    pub paths: Paths,
    pub left: usize,
}

// A path that goes on by one number.
fn longer(alloc: Global, path: &[u64], number: u64) -> Result<Path, NoMemory>
    ensures { IfOk result (λ p. p ≡ path.now ++ number ∷ []) }
{
    let mut all = path.to_vec(alloc)?;
    all.push(number)?;
    Ok(Path::from_vec(all))
}

// Lists a loop where it is in the stretch.
fn see(
    alloc: Global,
    path: &[u64],
    number: u64,
    most: usize,
    left: &mut usize,
    found: &mut Paths,
) -> Result<(), NoMemory>
    ensures { OnOk result (Sees most ((path.now ++ number ∷ []) ∷ []) left.old left.new found.old found.new) }
{
    if *left == 0 {
        return Ok(());
    }
    if *left <= most {
        found.push(longer(alloc, path, number)?)?;
    }
    *left -= 1;
    Ok(())
}

// The loops of the statements of a block to which the path leads.
#[cycle(seeing)]
fn see_block(
    alloc: Global,
    path: &[u64],
    block: &[Stmt],
    most: usize,
    left: &mut usize,
    found: &mut Paths,
) -> Result<(), NoMemory>
    ensures { OnOk result (Sees most (loops_among path.now 0 (statements block.now)) left.old left.new found.old found.new) }
{
    for (i, s) in block.iter().enumerate() {
        if *left == 0 {
            return Ok(());
        }
        see_statement(alloc, path, i as u64, s, most, left, found)?;
    }
    Ok(())
}

// The same of a branch of the statement with this number.
#[cycle(seeing)]
fn see_branch(
    alloc: Global,
    path: &[u64],
    number: u64,
    branch: u64,
    block: &[Stmt],
    most: usize,
    left: &mut usize,
    found: &mut Paths,
) -> Result<(), NoMemory>
    ensures { OnOk result (Sees most (loops_among ((path.now ++ number ∷ []) ++ branch ∷ []) 0 (statements block.now)) left.old left.new found.old found.new) }
{
    let here = longer(alloc, path, number)?;
    let inside = longer(alloc, here.as_slice(), branch)?;
    see_block(alloc, inside.as_slice(), block, most, left, found)
}

// The same of the loop with this number and that body.
#[cycle(seeing)]
fn see_loop(
    alloc: Global,
    path: &[u64],
    number: u64,
    body: &[Stmt],
    most: usize,
    left: &mut usize,
    found: &mut Paths,
) -> Result<(), NoMemory>
    ensures { OnOk result (
        Sees most ((path.now ++ number ∷ []) ∷ loops_among ((path.now ++ number ∷ []) ++ 0 ∷ []) 0 (statements body.now)) left.old left.new found.old found.new) }
{
    see(alloc, path, number, most, left, found)?;
    see_branch(alloc, path, number, 0, body, most, left, found)
}

// The same of the statement with this number in the block.
#[cycle(seeing)]
fn see_statement(
    alloc: Global,
    path: &[u64],
    number: u64,
    s: &Stmt,
    most: usize,
    left: &mut usize,
    found: &mut Paths,
) -> Result<(), NoMemory>
    ensures { OnOk result (Sees most (loops_in (path.now ++ number ∷ []) (statement s.now)) left.old left.new found.old found.new) }
{
    match &s.node {
        StmtNode::If {
            cond: _,
            yes,
            other,
        } => match other {
            None => see_branch(alloc, path, number, 0, yes, most, left, found),
            Some(other) => {
                see_branch(alloc, path, number, 0, yes, most, left, found)?;
                see_branch(alloc, path, number, 1, other, most, left, found)
            }
        },
        StmtNode::ForEach {
            ty: _,
            name: _,
            list: _,
            body,
        } => see_loop(alloc, path, number, body, most, left, found),
        StmtNode::While { cond: _, body } => {
            see_loop(alloc, path, number, body, most, left, found)
        }
        StmtNode::Declare { .. }
        | StmtNode::Assign { .. }
        | StmtNode::Add { .. }
        | StmtNode::Sort { .. }
        | StmtNode::Print { .. }
        | StmtNode::Return { .. }
        | StmtNode::Break => Ok(()),
    }
}

// The loops of the body of a method.
fn seen_in_body(
    alloc: Global,
    number: u64,
    body: &[Stmt],
    most: usize,
    left: usize,
) -> Result<Seen, NoMemory>
    ensures { IfOk result (λ s. Sees most (loops_among (number ∷ []) 0 (statements body.now)) left s.left [] s.paths) }
{
    let mut left = left;
    let mut paths = Paths::new(alloc);
    let path = longer(alloc, &[], number)?;
    see_block(alloc, path.as_slice(), body, most, &mut left, &mut paths)?;
    Ok(Seen { paths, left })
}

/// A stretch of the loops of the method with this number, none where there is no such method: up to the one behind the first `left` loops, and the
/// last ones of these, at most so many. Its only error is want of memory.
pub fn seen_in_method(
    alloc: Global,
    methods: &[Method],
    number: usize,
    most: usize,
    left: usize,
) -> Result<Seen, NoMemory>
    ensures { IfOk result (λ s. Sees most (loops_numbered number (map plain_method methods.now)) left s.left [] s.paths) }
{
    match methods.get(number) {
        Some(m) => seen_in_body(alloc, number as u64, m.body.as_slice(), most, left),
        None => Ok(Seen {
            paths: Paths::new(alloc),
            left,
        }),
    }
}
