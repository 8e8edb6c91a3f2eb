// The kept statements of a run, as they stand.
ghost use Rattle.std.specs.Prelude.{◌≡◌, ℕ, List, IfOk};
ghost use Rattle.std.specs.declared.option.Option.{Option};
ghost use Rattle.std.specs.declared.option.Option.TheVariants.{Some};
ghost use Rattle.qbs_base.specs.Values.{Schema};
ghost use Rattle.sql_ast.specs.Tree.{PlainQuery};
ghost use Rattle.java_ast.specs.Reading.{statements, program as plain_program};
ghost use Rattle.java_loops.specs.Kernel.Kernel.{setting_at};
ghost use Rattle.java_loops.specs.Kernel.Setting.{Setting};
ghost use Rattle.java_loops.specs.Lowering.Lowered.{Lowering};
ghost use Rattle.java_loops.specs.Meant.Lowers.{IsLowered};
ghost use Rattle.loop_places.specs.AtNumbers.{at_numbers as at_numbers_in};
ghost use Rattle.loop_places.specs.RunsThere.{run_or_nothing};
ghost use Rattle.loop_text.specs.Statements.Fragment.{fragment_at};
ghost use Rattle.loop_text.specs.Statements.KeptStatements.{with_numbers};

use crate::lowering::lowered::Lowered;
use java_ast::{Path, Program, Stmt};
use loop_places::run::run_there;
use loop_places::statements::at_numbers;
use qbs_base::NoMemory;
use std::alloc::Global;

/// The statements of the run before a loop that a rewrite keeps, copied in their order with their places: those of the run that have the
/// numbers that are kept (`exact`). Where `lower` gave these for the loop, they are the kept ones (`kept`). A path that leads to no loop has
/// no such statements. Each is found by its number, and the rest of the program isn't walked. The error is want of memory.
pub fn kept_statements(
    alloc: Global,
    program: &Program,
    path: &Path,
    lowered: &Lowered,
) -> Result<Vec<Stmt>, NoMemory>
    ensures exact { IfOk result (λ r.
        statements r.items ≡ at_numbers_in lowered.now.first (run_or_nothing (fragment_at path.now (plain_program program.now))) lowered.now.kept) }
    ensures kept { IfOk result (λ r.
        (schema : Schema) (read : List ℕ → Option PlainQuery) (l : Lowering) (w : Setting)
        → IsLowered schema read (plain_program program.now) path.now l lowered.now.first lowered.now.kept
        → setting_at schema read path.now (plain_program program.now) ≡ Some w
        → statements r.items ≡ with_numbers lowered.now.kept lowered.now.first w.fragment.run) }
{
    let run = run_there(program, path);
    at_numbers(alloc, run, lowered.first, lowered.kept.as_slice())
}
