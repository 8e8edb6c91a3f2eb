// A loop that asks for rows in each turn gives way to one query: what is found for its spread.
ghost use Rattle.std.specs.Prelude.{◌≡◌, ◌≤◌, IfOk, IfSome};
ghost use Rattle.std.specs.Option.{option_map};
ghost use Rattle.java_ast.specs.Path.{last_of, replaced_at};
ghost use Rattle.java_ast.specs.Reading.{statements, program as plain_program};
ghost use Rattle.java_grammar.specs.InGrammar.{IsInGrammar};
ghost use Rattle.java_grammar.specs.Written.{IsWritten};
ghost use Rattle.java_mean.specs.Keeps.{Keeps};
ghost use Rattle.java_mean.specs.Numbers.{NumbersFit};
ghost use Rattle.java_mean.specs.WellTyped.{IsWellTyped};
ghost use Rattle.java_types.specs.Texts.{read_by};
ghost use Rattle.kernel_lang.specs.declared.prune.PruneAnswer.TheVariants as answers;
ghost use Rattle.kernel_lang.specs.Pools.{IsCandidateOf};
ghost use Rattle.kernel_lang.specs.Whole.{fragment_of};
ghost use Rattle.loop_text.specs.Statements.Walking.{IsLoopOf};
ghost use Rattle.rewrite_core.specs.Outcome.{program_with, BeginsBefore};
ghost use Rattle.rewrite_core.specs.Unnesting.{program_unnested};
ghost use Rattle.rewrite_core.specs.UnnestingSteps.{plain_unnested, unnested_with, MayBeTried, IsUnnestedIn};

use crate::outcome::{Outcome, try_loop};
use crate::replacing::put_instead;
use crate::spreading::{last_number, spread_there};
use java_ast::{Path, Program, Stmt};
use java_copies::{copy_program, put_at};
use java_types::Typed;
use kernel_lang::{Candidate, KFragment};
use qbs_base::NoMemory;
use query_search::{FurtherPruner, PruneAnswer, Pruner};
use schema::Schema;
use std::alloc::Global;

/// The program in which a loop gave way, and the number of the candidate that was found, among those of the loop's spread, from 0.
#[derive(Drop)]
pub struct Unnested {
    pub program: Program,
    pub k: u64,
}

// A copy of a program with a block in place of the statement to which a path leads.
fn copy_with(
    alloc: Global,
    program: &Program,
    path: &Path,
    block: Vec<Stmt>,
) -> Result<Typed, NoMemory>
    ensures { IfOk result (λ t. plain_program t.program ≡ replaced_at path.now (last_of path.now) (statements block.items) (plain_program program.now)) }
{
    let copy = copy_program(alloc, program)?;
    let program = put_at(alloc, copy, path, last_number(path), block)?;
    Ok(Typed::of(program))
}

// The program in which a loop gives way, where its outcome says how.
fn unnested_by(
    alloc: Global,
    typed: Typed,
    path: &Path,
    outcome: Outcome,
) -> Result<Option<Unnested>, NoMemory>
    requires numbers { NumbersFit (program_with outcome.way path.now (plain_program typed.program)) }
    requires begins { BeginsBefore path.now outcome.way }
    ensures { IfOk result (λ o. option_map plain_unnested o ≡ unnested_with outcome.way path.now (plain_program typed.program)) }
{
    match outcome.way {
        None => Ok(None),
        Some(way) => {
            let typed = put_instead(alloc, typed, path, way.first, way.others)?;
            Ok(Some(Unnested {
                program: typed.into_program(),
                k: u64::from(way.k),
            }))
        }
    }
}

// What comes of a loop whose spread, alone in a block, stands in its place.
fn unnest_by<F: Fn(&KFragment, &Candidate) -> PruneAnswer>(
    alloc: Global,
    schema: &Schema,
    program: &Program,
    path: &Path,
    spread: Vec<Stmt>,
    size: u32,
    budget: u64,
    pruners: &[Pruner],
    kept: &FurtherPruner<F>,
) -> Result<Option<Unnested>, NoMemory>
    requires tried { MayBeTried schema.now path.now (statements spread.items) (plain_program program.now) }
    requires size { size ≤ 8 }
    requires budget { budget ≤ 1000000 }
    requires callable { (f : _) (c : _) → IsCandidateOf (fragment_of f.now) c.now → F.pre kept.now.call f c }
    requires never { (f : _) (c : _) → F.post kept.now.call f c answers.Drop → ⊥ }
    ensures { IfOk result (IsUnnestedIn schema.now size budget path.now (replaced_at path.now (last_of path.now) (statements spread.items) (plain_program program.now))) }
{
    let typed = copy_with(alloc, program, path, spread)?;
    let outcome = try_loop(alloc, schema, &typed, path, size, budget, pruners, kept)?;
    unnested_by(alloc, typed, path, outcome)
}

// With a further call that never drops a candidate.
fn unnest_past<F: Fn(&KFragment, &Candidate) -> PruneAnswer>(
    alloc: Global,
    schema: &Schema,
    typed: &Typed,
    path: &Path,
    size: u32,
    budget: u64,
    pruners: &[Pruner],
    kept: &FurtherPruner<F>,
) -> Result<Option<Unnested>, NoMemory>
    requires typed { IsWellTyped schema.now (read_by schema.now) (plain_program typed.now.program) }
    requires loops { IsLoopOf (plain_program typed.now.program) path.now }
    requires size { size ≤ 8 }
    requires budget { budget ≤ 1000000 }
    requires callable { (f : _) (c : _) → IsCandidateOf (fragment_of f.now) c.now → F.pre kept.now.call f c }
    requires never { (f : _) (c : _) → F.post kept.now.call f c answers.Drop → ⊥ }
    ensures exact { IfOk result (λ o. option_map plain_unnested o ≡ program_unnested schema.now size budget (plain_program typed.now.program) path.now) }
    ensures typed { IfOk result (λ o. IfSome o (λ u. IsWellTyped schema.now (read_by schema.now) (plain_program u.program))) }
    ensures keeps { IfOk result (λ o. IfSome o (λ u. Keeps (plain_program typed.now.program) (plain_program u.program) schema.now)) }
    ensures written { IfOk result (λ o. IfSome o (λ u.
        IsInGrammar (plain_program typed.now.program)
        → IsWritten (plain_program typed.now.program)
        → IsInGrammar (plain_program u.program) × IsWritten (plain_program u.program))) }
{
    match spread_there(alloc, schema, typed.program(), path)? {
        None => Ok(None),
        Some(spread) => unnest_by(
            alloc,
            schema,
            typed.program(),
            path,
            spread,
            size,
            budget,
            pruners,
            kept,
        ),
    }
}

/// The program in which a loop of a well-typed program gives way as its spread would: the loop has a spread of the kernel form, for which a
/// candidate is found, of at most `size` formulas and among the first ones, as many as the budget. None where it has no inner select, where
/// its spread is outside the kernel form, and where no candidate is found. So it is whatever the pruners drop. Only want of memory is an error.
///
/// The program is well typed, keeps what the first one does, and is of the grammar and can be written if the first one is. The spread itself
/// is never written.
pub fn unnest(
    alloc: Global,
    schema: &Schema,
    typed: &Typed,
    path: &Path,
    size: u32,
    budget: u64,
    pruners: &[Pruner],
) -> Result<Option<Unnested>, NoMemory>
    requires typed { IsWellTyped schema.now (read_by schema.now) (plain_program typed.now.program) }
    requires loops { IsLoopOf (plain_program typed.now.program) path.now }
    requires size { size ≤ 8 }
    requires budget { budget ≤ 1000000 }
    ensures exact { IfOk result (λ o. option_map plain_unnested o ≡ program_unnested schema.now size budget (plain_program typed.now.program) path.now) }
    ensures typed { IfOk result (λ o. IfSome o (λ u. IsWellTyped schema.now (read_by schema.now) (plain_program u.program))) }
    ensures keeps { IfOk result (λ o. IfSome o (λ u. Keeps (plain_program typed.now.program) (plain_program u.program) schema.now)) }
    ensures written { IfOk result (λ o. IfSome o (λ u.
        IsInGrammar (plain_program typed.now.program)
        → IsWritten (plain_program typed.now.program)
        → IsInGrammar (plain_program u.program) × IsWritten (plain_program u.program))) }
{
    let kept = FurtherPruner::new(|_frag: &KFragment, _cand: &Candidate| PruneAnswer::Keep);
    unnest_past(alloc, schema, typed, path, size, budget, pruners, &kept)
}
