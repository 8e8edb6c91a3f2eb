// Statements of a run by their numbers.
ghost use Rattle.std.specs.Prelude.{◌≡◌, ◌-◌, IfOk, OnOk};
ghost use Rattle.java_ast.specs.Path.{and_then, numbered};
ghost use Rattle.java_ast.specs.Reading.{statements};
ghost use Rattle.loop_places.specs.AtNumbers as specs;

use java_ast::Stmt;
use java_copies::copy_statement;
use qbs_base::NoMemory;
use std::alloc::Global;

// One more statement: that with this number, where the first of the run has the number `first`. None, where there is none.
fn push_numbered(
    alloc: Global,
    all: &mut Vec<Stmt>,
    run: &[Stmt],
    first: u64,
    number: u64,
) -> Result<(), NoMemory>
    ensures { OnOk result (
        statements all.new.items
        ≡ and_then (statements all.old.items) (specs.alone (numbered (number - first) (statements run.now)))) }
{
    let Some(s) = run.get(number.saturating_sub(first) as usize) else {
        return Ok(());
    };
    all.push(copy_statement(alloc, s)?)?;
    Ok(())
}

/// The statements of a run with these numbers, copied one after the other, where the first of the run has the number `first`.
pub fn at_numbers(
    alloc: Global,
    run: &[Stmt],
    first: u64,
    numbers: &[u64],
) -> Result<Vec<Stmt>, NoMemory>
    ensures { IfOk result (λ r. statements r.items ≡ specs.at_numbers first (statements run.now) numbers.now) }
{
    let mut all = Vec::new(alloc);
    for number in numbers {
        push_numbered(alloc, &mut all, run, first, *number)?;
    }
    Ok(all)
}
