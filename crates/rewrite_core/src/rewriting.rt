// The loops of a program in text order, each tried on the program as it stands.
ghost use Rattle.std.specs.Prelude.{◌≡◌, ◌≤◌, IfOk};
ghost use Rattle.java_ast.specs.Reading.{program as plain_program};
ghost use Rattle.java_mean.specs.WellTyped.{IsWellTyped};
ghost use Rattle.java_stretches.specs.Patches.{plain_patches, with_patches as with_patches_in};
ghost use Rattle.java_types.specs.Texts.{read_by};
ghost use Rattle.kernel_lang.specs.declared.prune.PruneAnswer.TheVariants as answers;
ghost use Rattle.kernel_lang.specs.Pools.{IsCandidateOf};
ghost use Rattle.kernel_lang.specs.Refuted.{IsRefuted};
ghost use Rattle.kernel_lang.specs.Whole.{fragment_of};
ghost use Rattle.query_search.specs.Asking.{OneMayDrop, AllMayKeep, SomeMayDrop, EachMayKeep};
ghost use Rattle.rewrite_core.specs.Output.{IsSourceOf};
ghost use Rattle.rewrite_core.specs.Results.{IsRewritingOf};

use crate::progress::{AllTried, try_all};
use crate::rewritten::Rewritten;
use java_stretches::with_patches;
use java_types::Typed;
use kernel_lang::{Candidate, KFragment};
use qbs_base::NoMemory;
use query_search::{FurtherPruner, PruneAnswer, Pruner};
use schema::Schema;
use std::alloc::Global;

// The source with the patches of all tries in place, with what is said and kept.
fn with_output(alloc: Global, source: &[u8], all: AllTried) -> Result<Rewritten, NoMemory>
    ensures program { IfOk result (λ r. r.program ≡ all.program) }
    ensures verdicts { IfOk result (λ r. r.verdicts ≡ all.verdicts) }
    ensures bundle { IfOk result (λ r. r.bundle ≡ all.bundle) }
    ensures dropped { IfOk result (λ r. r.dropped ≡ all.dropped) }
    ensures patches { IfOk result (λ r. r.patches ≡ all.patches) }
    ensures text { IfOk result (λ r. r.text ≡ with_patches_in source.now 0 (plain_patches all.patches)) }
{
    let AllTried {
        program,
        verdicts,
        bundle,
        dropped,
        patches,
        ..
    } = all;
    let text = with_patches(alloc, source, patches.as_slice())?;
    Ok(Rewritten {
        program,
        verdicts,
        bundle,
        dropped,
        patches,
        text,
    })
}

/// The loops of a well-typed program are tried in text order, an outer one before those inside it, each on the program as it stands:
/// the search judges candidates of at most `size` formulas, as many as the budget. A loop with an accepted candidate gives way to its queries
/// and vanishes with all inside it. Only want of memory is an error.
///
/// What comes of it is `IsRewritingOf`: the program after all tries is well typed, keeps what the first one does, and is of the grammar and
/// can be written if the first one is. The loops that stand are those that were tried and found no candidate. `dropped` is the sum over the
/// loops of the candidates that the pruners or the further call dropped, which may drop none but refuted ones.
///
/// The patches are those of the loops that gave way. The output is the source with them in place, which is a text of the program after all
/// tries, but for places: it is read back.
pub fn rewrite_with<F: Fn(&KFragment, &Candidate) -> PruneAnswer>(
    alloc: Global,
    schema: &Schema,
    typed: &Typed,
    source: &[u8],
    size: u32,
    budget: u64,
    pruners: &[Pruner],
    extra: &FurtherPruner<F>,
) -> Result<Rewritten, NoMemory>
    requires typed { IsWellTyped schema.now (read_by schema.now) (plain_program typed.now.program) }
    requires source { IsSourceOf source.now (plain_program typed.now.program) }
    requires size { size ≤ 8 }
    requires budget { budget ≤ 1000000 }
    requires callable { (f : _) (c : _) → IsCandidateOf (fragment_of f.now) c.now → F.pre extra.now.call f c }
    requires justified { (f : _) (c : _)
        → IsCandidateOf (fragment_of f.now) c.now
        → F.post extra.now.call f c answers.Drop
        → ∥ IsRefuted (fragment_of f.now) c.now ∥₁ }
    ensures { IfOk result (
        IsRewritingOf
        (SomeMayDrop fragment_of (λ p. ⟦<Box<dyn Fn(&KFragment, &Candidate) -> PruneAnswer> as Fn(&KFragment, &Candidate) -> PruneAnswer>⟧.post p.call) pruners.now (F.post extra.now.call))
        (EachMayKeep fragment_of (λ p. ⟦<Box<dyn Fn(&KFragment, &Candidate) -> PruneAnswer> as Fn(&KFragment, &Candidate) -> PruneAnswer>⟧.post p.call) pruners.now (F.post extra.now.call))
        schema.now size budget source.now (plain_program typed.now.program)) }
{
    let all = try_all(
        alloc, schema, typed, source, size, budget, pruners, extra, false,
    )?;
    with_output(alloc, source, all)
}

// The same with a further call that never drops a candidate: it doesn't count.
fn rewrite_past<F: Fn(&KFragment, &Candidate) -> PruneAnswer>(
    alloc: Global,
    schema: &Schema,
    typed: &Typed,
    source: &[u8],
    size: u32,
    budget: u64,
    pruners: &[Pruner],
    kept: &FurtherPruner<F>,
) -> Result<Rewritten, NoMemory>
    requires typed { IsWellTyped schema.now (read_by schema.now) (plain_program typed.now.program) }
    requires source { IsSourceOf source.now (plain_program typed.now.program) }
    requires size { size ≤ 8 }
    requires budget { budget ≤ 1000000 }
    requires callable { (f : _) (c : _) → IsCandidateOf (fragment_of f.now) c.now → F.pre kept.now.call f c }
    requires never { (f : _) (c : _) → F.post kept.now.call f c answers.Drop → ⊥ }
    ensures { IfOk result (
        IsRewritingOf
        (OneMayDrop fragment_of (λ p. ⟦<Box<dyn Fn(&KFragment, &Candidate) -> PruneAnswer> as Fn(&KFragment, &Candidate) -> PruneAnswer>⟧.post p.call) pruners.now)
        (AllMayKeep fragment_of (λ p. ⟦<Box<dyn Fn(&KFragment, &Candidate) -> PruneAnswer> as Fn(&KFragment, &Candidate) -> PruneAnswer>⟧.post p.call) pruners.now)
        schema.now size budget source.now (plain_program typed.now.program)) }
{
    rewrite_with(alloc, schema, typed, source, size, budget, pruners, kept)
}

/// As `rewrite_with`, with no further call.
pub fn rewrite(
    alloc: Global,
    schema: &Schema,
    typed: &Typed,
    source: &[u8],
    size: u32,
    budget: u64,
    pruners: &[Pruner],
) -> Result<Rewritten, NoMemory>
    requires typed { IsWellTyped schema.now (read_by schema.now) (plain_program typed.now.program) }
    requires source { IsSourceOf source.now (plain_program typed.now.program) }
    requires size { size ≤ 8 }
    requires budget { budget ≤ 1000000 }
    ensures { IfOk result (
        IsRewritingOf
        (OneMayDrop fragment_of (λ p. ⟦<Box<dyn Fn(&KFragment, &Candidate) -> PruneAnswer> as Fn(&KFragment, &Candidate) -> PruneAnswer>⟧.post p.call) pruners.now)
        (AllMayKeep fragment_of (λ p. ⟦<Box<dyn Fn(&KFragment, &Candidate) -> PruneAnswer> as Fn(&KFragment, &Candidate) -> PruneAnswer>⟧.post p.call) pruners.now)
        schema.now size budget source.now (plain_program typed.now.program)) }
{
    let kept = FurtherPruner::new(|_frag: &KFragment, _cand: &Candidate| PruneAnswer::Keep);
    rewrite_past(alloc, schema, typed, source, size, budget, pruners, &kept)
}
