// The run before a loop.
ghost use Rattle.std.specs.Prelude.{◌≡◌, option_copied};
ghost use Rattle.std.specs.Option.{option_map};
ghost use Rattle.java_ast.specs.Path.{first_of, behind_of};
ghost use Rattle.java_ast.specs.Reading.{statements, program as plain_program};
ghost use Rattle.loop_text.specs.Statements.Fragment.{fragment_at};
ghost use Rattle.loop_places.specs.Runs as specs;
ghost use Rattle.loop_places.specs.RunsThere.{run_of_fragment, run_or_nothing};

use java_ast::{Path, Program, Stmt, branch};
use loop_text::loops::limits::is_loop;
use loop_text::statements::block_parts::{before_number, numbered, split_run};

// The run before the loop with this number in its block.
fn run_here(block: &[Stmt], number: usize) -> Option<&[Stmt]>
    ensures { option_map statements (option_copied result) ≡ specs.run_here (first_of number (statements block.now)) (behind_of number (statements block.now)) }
{
    let Some(looped) = block.get(number) else {
        return None;
    };
    if !is_loop(looped) {
        return None;
    }
    let (_, run) = split_run(before_number(block, number));
    Some(run)
}

// The run before the loop to which a path leads behind the number of a statement of the block.
fn run_below<'a>(block: &'a [Stmt], number: u64, path: &[u64]) -> Option<&'a [Stmt]>
    ensures { option_map statements (option_copied result) ≡ specs.run_in path.now number (statements block.now) }
{
    let Some((at, below)) = path.split_first() else {
        return run_here(block, number as usize);
    };
    let Some((further, rest)) = below.split_first() else {
        return None;
    };
    let Some(s) = numbered(block, number as usize) else {
        return None;
    };
    let Some(inner) = branch(s, *at) else {
        return None;
    };
    run_below(inner, *further, rest)
}

fn run_found<'a>(program: &'a Program, path: &Path) -> Option<&'a [Stmt]>
    ensures { option_map statements (option_copied result) ≡ specs.run_at path.now (plain_program program.now) }
{
    let Some((number, below)) = path.as_slice().split_first() else {
        return None;
    };
    let Some((further, rest)) = below.split_first() else {
        return None;
    };
    let Some(m) = program.methods.as_slice().get(*number as usize) else {
        return None;
    };
    run_below(m.body.as_slice(), *further, rest)
}

/// The run before the loop to which a path leads: the declarations, assignments and sorts directly before it. None where the path
/// leads to no loop. What starts a variable in it is the first of its statements that mentions the variable.
pub fn run_at<'a>(program: &'a Program, path: &Path) -> Option<&'a [Stmt]>
    ensures { option_map statements (option_copied result) ≡ run_of_fragment (fragment_at path.now (plain_program program.now)) }
{
    run_found(program, path)
}

/// The same, empty where the path leads to no loop.
pub fn run_there<'a>(program: &'a Program, path: &Path) -> &'a [Stmt]
    ensures { statements result.now ≡ run_or_nothing (fragment_at path.now (plain_program program.now)) }
{
    match run_at(program, path) {
        Some(found) => found,
        None => &[],
    }
}
