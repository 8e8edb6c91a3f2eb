// The loops of a program that has no text.
ghost use Rattle.std.specs.Prelude.{◌≤◌, IfOk};
ghost use Rattle.java_ast.specs.Reading.{program as plain_program};
ghost use Rattle.java_mean.specs.WellTyped.{IsWellTyped};
ghost use Rattle.java_types.specs.Texts.{read_by};
ghost use Rattle.kernel_lang.specs.declared.prune.PruneAnswer.TheVariants as answers;
ghost use Rattle.kernel_lang.specs.Pools.{IsCandidateOf};
ghost use Rattle.kernel_lang.specs.Whole.{fragment_of};
ghost use Rattle.rewrite_core.specs.Results.{IsReplacementOf};

use crate::progress::try_all;
use java_ast::Program;
use java_types::Typed;
use kernel_lang::{Candidate, KFragment};
use qbs_base::NoMemory;
use query_search::{FurtherPruner, PruneAnswer};
use schema::Schema;
use std::alloc::Global;
use verdicts::Verdicts;

/// The program after all tries, and what is said of each loop in the order of the tries.
#[derive(Drop)]
pub struct Replaced {
    pub program: Program,
    pub verdicts: Verdicts,
}

// With a call that never drops a candidate.
fn replace_past<F: Fn(&KFragment, &Candidate) -> PruneAnswer>(
    alloc: Global,
    schema: &Schema,
    typed: &Typed,
    size: u32,
    budget: u64,
    kept: &FurtherPruner<F>,
) -> Result<Replaced, NoMemory>
    requires typed { IsWellTyped schema.now (read_by schema.now) (plain_program typed.now.program) }
    requires size { size ≤ 8 }
    requires budget { budget ≤ 1000000 }
    requires callable { (f : _) (c : _) → IsCandidateOf (fragment_of f.now) c.now → F.pre kept.now.call f c }
    requires never { (f : _) (c : _) → F.post kept.now.call f c answers.Drop → ⊥ }
    ensures { IfOk result (IsReplacementOf schema.now size budget (plain_program typed.now.program)) }
{
    let all = try_all(alloc, schema, typed, &[], size, budget, &[], kept, false)?;
    Ok(Replaced {
        program: all.program,
        verdicts: all.verdicts,
    })
}

/// As `rewrite`, of a program that needs no text: its loops are tried without pruners, and nothing is written. Only want of memory is an
/// error.
pub fn replace_loops(
    alloc: Global,
    schema: &Schema,
    typed: &Typed,
    size: u32,
    budget: u64,
) -> Result<Replaced, NoMemory>
    requires typed { IsWellTyped schema.now (read_by schema.now) (plain_program typed.now.program) }
    requires size { size ≤ 8 }
    requires budget { budget ≤ 1000000 }
    ensures { IfOk result (IsReplacementOf schema.now size budget (plain_program typed.now.program)) }
{
    let kept = FurtherPruner::new(|_frag: &KFragment, _cand: &Candidate| PruneAnswer::Keep);
    replace_past(alloc, schema, typed, size, budget, &kept)
}
