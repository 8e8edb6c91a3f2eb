// The loops of a checked program.
ghost use Rattle.std.specs.Prelude.{◌≡◌, IfOk};
ghost use Rattle.java_ast.specs.Reading.{program as plain_program};
ghost use Rattle.loop_text.specs.Statements.Loops as specs;

use java_ast::Paths;
use java_types::Typed;
use loop_text::statements::walk::loops_of;
use qbs_base::NoMemory;
use std::alloc::Global;

/// The same of a program that was checked.
pub fn loops(alloc: Global, typed: &Typed) -> Result<Paths, NoMemory>
    ensures { IfOk result (λ paths. paths ≡ specs.loops_of (plain_program typed.now.program)) }
{
    loops_of(alloc, typed.program())
}
