// The spread of a loop of a program, and what is put in the loop's place.
ghost use Rattle.std.specs.Prelude.{◌≡◌, IfOk};
ghost use Rattle.std.specs.Option.{option_map};
ghost use Rattle.java_ast.specs.Path.{found_in, last_of, statement_at};
ghost use Rattle.java_ast.specs.Reading.{statement, statements, program as plain_program};
ghost use Rattle.java_ast.specs.Tree.{Nothing, Then};
ghost use Rattle.java_types.specs.Texts.{read_by};
ghost use Rattle.spreads.specs.Spread.{spread_of as spread_of_loop};
ghost use Rattle.rewrite_core.specs.UnnestingSteps.{alone_or_nothing};

use java_ast::{Path, Program, Stmt, at_path};
use java_copies::copy_statement;
use qbs_base::NoMemory;
use schema::Schema;
use spreads::spread_of;
use std::alloc::Global;

// A statement alone in a block.
fn alone(alloc: Global, s: Box<Stmt>) -> Result<Vec<Stmt>, NoMemory>
    ensures { IfOk result (λ block. statements block.items ≡ Then (statement s.value) Nothing) }
{
    let mut block = Vec::new(alloc);
    block.push(Box::into_inner(s))?;
    Ok(block)
}

// A copy of a statement alone in a block.
fn copied_alone(alloc: Global, s: &Stmt) -> Result<Vec<Stmt>, NoMemory>
    ensures { IfOk result (λ block. statements block.items ≡ Then (statement s.now) Nothing) }
{
    let mut block = Vec::new(alloc);
    block.push(copy_statement(alloc, s)?)?;
    Ok(block)
}

// The spread of a statement alone in a block, where it has one.
fn spread_alone(alloc: Global, schema: &Schema, s: &Stmt) -> Result<Option<Vec<Stmt>>, NoMemory>
    ensures { IfOk result (λ o. option_map (λ block. statements block.items) o ≡ option_map (λ z. Then z Nothing) (spread_of_loop schema.now (read_by schema.now) (statement s.now))) }
{
    match spread_of(alloc, schema, s)? {
        None => Ok(None),
        Some(spread) => Ok(Some(alone(alloc, spread)?)),
    }
}

/// The spread of the loop to which a path leads, alone in a block, where it has one. Only want of memory is an error.
pub fn spread_there(
    alloc: Global,
    schema: &Schema,
    program: &Program,
    path: &Path,
) -> Result<Option<Vec<Stmt>>, NoMemory>
    ensures { IfOk result (λ o.
        option_map (λ block. statements block.items) o
        ≡ option_map (λ z. Then z Nothing) (found_in (spread_of_loop schema.now (read_by schema.now)) (statement_at path.now (plain_program program.now)))) }
{
    match at_path(program, path) {
        None => Ok(None),
        Some(s) => spread_alone(alloc, schema, s),
    }
}

/// A copy of the statement to which a path leads, alone in a block, which is empty where it leads to none. Only want of memory is an error.
pub fn copy_there(alloc: Global, program: &Program, path: &Path) -> Result<Vec<Stmt>, NoMemory>
    ensures { IfOk result (λ block. statements block.items ≡ alone_or_nothing (statement_at path.now (plain_program program.now))) }
{
    match at_path(program, path) {
        None => Ok(Vec::new(alloc)),
        Some(s) => copied_alone(alloc, s),
    }
}

/// The number of the statement in its block to which a path leads.
pub fn last_number(path: &Path) -> u64
    ensures { result ≡ last_of path.now }
{
    match path.as_slice().last() {
        Some(number) => *number,
        None => 0,
    }
}
