// Loops, lowered.
ghost use Rattle.std.specs.Prelude.{◌≡◌, IfOk, IfErr, true, map};
ghost use Rattle.sql_ast.specs.Reading.{query};
ghost use Rattle.java_ast.specs.Reading.{program as plain_program};
ghost use Rattle.java_types.specs.Texts.{read_by};
ghost use Rattle.java_mean.specs.WellTyped.{IsWellTyped};
ghost use Rattle.kernel_lang.specs.Typed.{is_typed};
ghost use Rattle.kernel_lang.specs.Whole.{fragment_of};
ghost use Rattle.java_loops.specs.Kernel.Kernel.{setting_at};
ghost use Rattle.loop_text.specs.Statements.KeptStatements.{with_numbers};
ghost use Rattle.lowering.specs.Lowers.{lowering_in_code, IsOutside};
ghost use Rattle.java_loops.specs.Meant.Lowers.{IsLowered, IsMeant};
ghost use Rattle.java_loops.specs.Kernel.Setting.{Setting};
ghost use Rattle.loop_text.specs.Statements.Walking.{IsLoopOf};
ghost use Rattle.sql_parts.specs.Given.{AreKnownTo};

use crate::lowered_there::lower_located;
use crate::lowering::lowered::Lowered;
use crate::places::located::located;
use java_ast::Path;
use java_types::Typed;
use loop_places::outside::Outside;
use qbs_base::{Fail, NoMemory};
use schema::Schema;
use std::alloc::Global;

/// The lowered fragment of a loop that has the kernel form. Otherwise the error is the rule that the loop breaks first, with
/// the first place in the text that breaks it, or want of memory.
pub fn lower(
    alloc: Global,
    schema: &Schema,
    typed: &Typed,
    path: &Path,
) -> Result<Box<Lowered>, Fail<Outside>>
    requires typed { IsWellTyped schema.now (read_by schema.now) (plain_program typed.now.program) }
    requires loops { IsLoopOf (plain_program typed.now.program) path.now }
    ensures lowered { IfOk result (λ l. IsLowered schema.now (read_by schema.now) (plain_program typed.now.program) path.now (lowering_in_code l.value) l.value.first l.value.kept) }
    ensures outside { IfErr result (IsOutside schema.now (read_by schema.now) (plain_program typed.now.program) path.now) }
    ensures fits { IfOk result (λ l. is_typed schema.now (fragment_of l.value.frag) ≡ true) }
    ensures known { IfOk result (λ l. AreKnownTo schema.now (fragment_of l.value.frag) (map query l.value.known) l.value.known_args) }
    ensures means { IfOk result (λ l.
        (w : Setting)
        → setting_at schema.now (read_by schema.now) path.now (plain_program typed.now.program) ≡ Some w
        → IsMeant schema.now (read_by schema.now) (plain_program typed.now.program) path.now w (with_numbers l.value.kept l.value.first w.fragment.run)) }
{
    match located(alloc, Some(schema), typed.program(), path)? {
        None => unreachable!(),
        Some(there) => lower_located(alloc, schema, &there),
    }
}
