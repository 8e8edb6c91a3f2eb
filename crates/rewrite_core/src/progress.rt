// How far the tries of a program's loops have come.
ghost use Rattle.std.specs.Prelude.{◌≡◌, ◌≤◌, ◌+◌, [], ◌∷◌, ◌++◌, length, OnOk, IfOk, map};
ghost use Rattle.std.specs.declared.option.Option.TheVariants.{Some};
ghost use Rattle.tor_axioms.specs.Accepts.{proof_of};
ghost use Rattle.deriv_check.specs.Bundles.{entries_of};
ghost use Rattle.java_ast.specs.Reading.{statements, program as plain_program};
ghost use Rattle.java_mean.specs.Numbers.{NumbersFit};
ghost use Rattle.java_mean.specs.WellTyped.{IsWellTyped};
ghost use Rattle.java_stretches.specs.Patches.{plain_patches, put_patch as put_patch_in};
ghost use Rattle.java_types.specs.Texts.{read_by};
ghost use Rattle.kernel_lang.specs.declared.prune.PruneAnswer.TheVariants as answers;
ghost use Rattle.kernel_lang.specs.Pools.{IsCandidateOf};
ghost use Rattle.kernel_lang.specs.Refuted.{IsRefuted};
ghost use Rattle.kernel_lang.specs.Whole.{fragment_of};
ghost use Rattle.loop_text.specs.Statements.Loops.{loops_of};
ghost use Rattle.query_search.specs.Asking.{SomeMayDrop, EachMayKeep};
ghost use Rattle.rewrite_core.specs.Outcome.{program_with, entries_with, standing_with, patches_with, BeginsBefore};
ghost use Rattle.rewrite_core.specs.Progress.{progress_in, starts_at, ends_with, Leads};
ghost use Rattle.rewrite_core.specs.Searches.{none_searched, kept_searches};
ghost use Rattle.rewrite_core.specs.Stages.{IsStage, next_of};
ghost use Rattle.rewrite_core.specs.Trying.{trying, all_tried};

use crate::outcome::{Outcome, try_searched};
use crate::searches::Searches;
use crate::stage::{Stage, give_way, next_path, stage_of, stand};
use deriv_check::{Bundle, BundleEntry};
use java_ast::{Program, Stmt};
use java_copies::copy_program;
use java_stretches::{Patches, put_patch};
use java_types::Typed;
use kernel_lang::{Candidate, KFragment};
use loop_text::statements::walk::loops_of;
use qbs_base::{NoMemory, Span};
use query_search::{FurtherPruner, PruneAnswer, Pruner};
use schema::Schema;
use std::alloc::Global;
use tor_axioms::Derivations;
use verdicts::{LoopVerdict, Verdicts};

/// What is said and kept of the loops that were tried, how many candidates were dropped, the patches of the source, and what was searched,
/// where that is kept.
#[derive(Drop)]
pub struct Report {
    pub verdicts: Verdicts,
    pub bundle: Bundle,
    pub dropped: u64,
    pub patches: Patches,
    pub searches: Option<Searches>,
}

/// The program after all tries, with the same of all its loops.
#[derive(Drop)]
pub struct AllTried {
    pub program: Program,
    pub verdicts: Verdicts,
    pub bundle: Bundle,
    pub dropped: u64,
    pub patches: Patches,
    pub searches: Option<Searches>,
}

// ---- One try

// Adds what is said of a loop, and how many candidates were dropped: memory wants where their sum is too large.
fn note(report: &mut Report, verdict: LoopVerdict, dropped: u64) -> Result<(), NoMemory>
    ensures verdicts { OnOk result (report.new.verdicts ≡ report.old.verdicts ++ verdict ∷ []) }
    ensures dropped { OnOk result (report.new.dropped ≡ report.old.dropped + dropped) }
    ensures bundle { report.new.bundle ≡ report.old.bundle }
    ensures patches { report.new.patches ≡ report.old.patches }
    ensures searches { report.new.searches ≡ report.old.searches }
{
    match report.dropped.checked_add(dropped) {
        None => Err(NoMemory),
        Some(sum) => {
            report.dropped = sum;
            report.verdicts.push(verdict)
        }
    }
}

// Adds an entry for a loop that gives way.
fn note_entry(report: &mut Report, at: Span, k: u32, proofs: Derivations) -> Result<(), NoMemory>
    ensures entries { OnOk result (
        entries_of report.new.bundle ≡ entries_of report.old.bundle ++ record { line = at.line; column = at.column; k = k; proofs = map proof_of proofs } ∷ []) }
    ensures verdicts { report.new.verdicts ≡ report.old.verdicts }
    ensures dropped { report.new.dropped ≡ report.old.dropped }
    ensures patches { report.new.patches ≡ report.old.patches }
    ensures searches { report.new.searches ≡ report.old.searches }
{
    report.bundle.push(BundleEntry {
        line: at.line,
        column: at.column,
        k,
        proofs,
    })
}

// Puts a patch for the stage's next loop, which gives way: others in place of the statements from the number `first` to the loop.
fn note_patch(
    alloc: Global,
    source: &[u8],
    stage: &Stage,
    report: &mut Report,
    first: u64,
    others: &[Stmt],
) -> Result<(), NoMemory>
    requires { stage.now.listed.before ≤ stage.now.standing }
    ensures patches { OnOk result (
        (path : _)
        → next_of stage.now ≡ Some path
        → plain_patches report.new.patches
        ≡ put_patch_in source.now path first (statements others.now) (plain_program stage.now.typed.program) (plain_patches report.old.patches)) }
    ensures verdicts { report.new.verdicts ≡ report.old.verdicts }
    ensures bundle { report.new.bundle ≡ report.old.bundle }
    ensures dropped { report.new.dropped ≡ report.old.dropped }
    ensures searches { report.new.searches ≡ report.old.searches }
{
    match next_path(stage) {
        None => Ok(()),
        Some(path) => put_patch(
            alloc,
            source,
            &mut report.patches,
            stage.typed.program(),
            path,
            first,
            others,
        ),
    }
}

// The stage behind a loop with this outcome.
fn pass(
    alloc: Global,
    source: &[u8],
    stage: Box<Stage>,
    report: &mut Report,
    outcome: Outcome,
) -> Result<Box<Stage>, NoMemory>
    requires lists { IsStage stage.value }
    requires there { (path : _) × (next_of stage.value ≡ Some path) }
    requires numbers { (path : _) → next_of stage.value ≡ Some path → NumbersFit (program_with outcome.way path (plain_program stage.value.typed.program)) }
    requires begins { (path : _) → next_of stage.value ≡ Some path → BeginsBefore path outcome.way }
    ensures program { IfOk result (λ s.
        (path : _)
        → next_of stage.value ≡ Some path
        → plain_program s.value.typed.program ≡ program_with outcome.way path (plain_program stage.value.typed.program)) }
    ensures standing { IfOk result (λ s. s.value.standing ≡ standing_with stage.value.standing outcome.way) }
    ensures lists { IfOk result (λ s. IsStage s.value) }
    ensures verdicts { OnOk result (report.new.verdicts ≡ report.old.verdicts ++ outcome.verdict ∷ []) }
    ensures entries { OnOk result (entries_of report.new.bundle ≡ entries_of report.old.bundle ++ entries_with outcome.verdict.at outcome.way) }
    ensures dropped { OnOk result (report.new.dropped ≡ report.old.dropped + outcome.dropped) }
    ensures patches { OnOk result (
        (path : _)
        → next_of stage.value ≡ Some path
        → plain_patches report.new.patches
        ≡ patches_with source.now outcome.way path (plain_program stage.value.typed.program) (plain_patches report.old.patches)) }
    ensures searches { report.new.searches ≡ report.old.searches }
{
    let Outcome {
        verdict,
        dropped,
        way,
    } = outcome;
    note(report, verdict, dropped)?;
    match way {
        None => stand(alloc, stage),
        Some(way) => {
            note_entry(report, verdict.at, way.k, way.proofs)?;
            note_patch(
                alloc,
                source,
                &stage,
                report,
                way.first,
                way.others.as_slice(),
            )?;
            give_way(alloc, stage, way.first, way.others)
        }
    }
}

// The next loop is tried, where there is one.
fn try_next<F: Fn(&KFragment, &Candidate) -> PruneAnswer>(
    alloc: Global,
    schema: &Schema,
    source: &[u8],
    stage: Box<Stage>,
    report: &mut Report,
    size: u32,
    budget: u64,
    pruners: &[Pruner],
    extra: &FurtherPruner<F>,
) -> Result<Box<Stage>, NoMemory>
    requires typed { IsWellTyped schema.now (read_by schema.now) (plain_program stage.value.typed.program) }
    requires lists { IsStage stage.value }
    requires size { size ≤ 8 }
    requires budget { budget ≤ 1000000 }
    requires callable { (f : _) (c : _) → IsCandidateOf (fragment_of f.now) c.now → F.pre extra.now.call f c }
    requires justified { (f : _) (c : _)
        → IsCandidateOf (fragment_of f.now) c.now
        → F.post extra.now.call f c answers.Drop
        → ∥ IsRefuted (fragment_of f.now) c.now ∥₁ }
    ensures leads { IfOk result (λ s.
        Leads
        (SomeMayDrop fragment_of (λ p. ⟦<Box<dyn Fn(&KFragment, &Candidate) -> PruneAnswer> as Fn(&KFragment, &Candidate) -> PruneAnswer>⟧.post p.call) pruners.now (F.post extra.now.call))
        (EachMayKeep fragment_of (λ p. ⟦<Box<dyn Fn(&KFragment, &Candidate) -> PruneAnswer> as Fn(&KFragment, &Candidate) -> PruneAnswer>⟧.post p.call) pruners.now (F.post extra.now.call))
        schema.now size source.now (trying 1 schema.now size budget (plain_program stage.value.typed.program) stage.value.standing)
        (progress_in stage.value report.old) (progress_in s.value report.new)) }
    ensures typed { IfOk result (λ s. IsWellTyped schema.now (read_by schema.now) (plain_program s.value.typed.program)) }
    ensures lists { IfOk result (λ s. IsStage s.value) }
{
    match next_path(&stage) {
        None => Ok(stage),
        Some(path) => {
            let outcome = try_searched(
                alloc,
                schema,
                &stage.typed,
                path,
                size,
                budget,
                pruners,
                extra,
                &mut report.searches,
            )?;
            pass(alloc, source, stage, report, outcome)
        }
    }
}

// ---- All tries

/// At most so many further loops are tried.
fn try_further<F: Fn(&KFragment, &Candidate) -> PruneAnswer>(
    alloc: Global,
    schema: &Schema,
    source: &[u8],
    stage: Box<Stage>,
    report: &mut Report,
    left: usize,
    size: u32,
    budget: u64,
    pruners: &[Pruner],
    extra: &FurtherPruner<F>,
) -> Result<Box<Stage>, NoMemory>
    requires typed { IsWellTyped schema.now (read_by schema.now) (plain_program stage.value.typed.program) }
    requires lists { IsStage stage.value }
    requires size { size ≤ 8 }
    requires budget { budget ≤ 1000000 }
    requires callable { (f : _) (c : _) → IsCandidateOf (fragment_of f.now) c.now → F.pre extra.now.call f c }
    requires justified { (f : _) (c : _)
        → IsCandidateOf (fragment_of f.now) c.now
        → F.post extra.now.call f c answers.Drop
        → ∥ IsRefuted (fragment_of f.now) c.now ∥₁ }
    ensures leads { IfOk result (λ s.
        Leads
        (SomeMayDrop fragment_of (λ p. ⟦<Box<dyn Fn(&KFragment, &Candidate) -> PruneAnswer> as Fn(&KFragment, &Candidate) -> PruneAnswer>⟧.post p.call) pruners.now (F.post extra.now.call))
        (EachMayKeep fragment_of (λ p. ⟦<Box<dyn Fn(&KFragment, &Candidate) -> PruneAnswer> as Fn(&KFragment, &Candidate) -> PruneAnswer>⟧.post p.call) pruners.now (F.post extra.now.call))
        schema.now size source.now (trying left schema.now size budget (plain_program stage.value.typed.program) stage.value.standing)
        (progress_in stage.value report.old) (progress_in s.value report.new)) }
    ensures typed { IfOk result (λ s. IsWellTyped schema.now (read_by schema.now) (plain_program s.value.typed.program)) }
    ensures lists { IfOk result (λ s. IsStage s.value) }
{
    if left == 0 {
        return Ok(stage);
    }
    if left == 1 {
        return try_next(
            alloc, schema, source, stage, report, size, budget, pruners, extra,
        );
    }
    let half = left / 2;
    let stage = try_further(
        alloc, schema, source, stage, report, half, size, budget, pruners, extra,
    )?;
    try_further(
        alloc,
        schema,
        source,
        stage,
        report,
        left - half,
        size,
        budget,
        pruners,
        extra,
    )
}

// How many loops a program has.
fn count_loops(alloc: Global, program: &Program) -> Result<usize, NoMemory>
    ensures { IfOk result (λ n. n ≡ length (loops_of (plain_program program.now))) }
{
    Ok(loops_of(alloc, program)?.len())
}

// No list, or one with nothing in it.
fn no_searches(alloc: Global, keep: bool) -> Option<Searches>
    ensures { kept_searches result ≡ none_searched keep }
{
    if keep {
        Some(Searches::new(alloc))
    } else {
        None
    }
}

// The report of no tries.
fn no_report(alloc: Global, keep: bool) -> Report
    ensures nothing { (result.verdicts ≡ []) × (result.bundle ≡ []) × (result.dropped ≡ 0) × (result.patches ≡ []) }
    ensures searches { kept_searches result.searches ≡ none_searched keep }
{
    Report {
        verdicts: Verdicts::new(alloc),
        bundle: Bundle::new(alloc),
        dropped: 0,
        patches: Patches::new(alloc),
        searches: no_searches(alloc, keep),
    }
}

// What is reported, with the program as it stands.
fn ended(stage: Box<Stage>, report: Report) -> AllTried
    ensures { ends_with result stage.value.standing ≡ progress_in stage.value report }
{
    let stage = Box::into_inner(stage);
    AllTried {
        program: stage.typed.into_program(),
        verdicts: report.verdicts,
        bundle: report.bundle,
        dropped: report.dropped,
        patches: report.patches,
        searches: report.searches,
    }
}

/// All loops of a program are tried. The program is copied once and its loops are counted once. A loop then costs its own try, and what is
/// looked at of its method; one that gives way has the loops of its method listed anew, and what stands in its place is put there: no
/// other method is looked at. What was written for it is patched: each loop that gives way leaves a patch. What was searched is kept where
/// `keep` says so.
pub fn try_all<F: Fn(&KFragment, &Candidate) -> PruneAnswer>(
    alloc: Global,
    schema: &Schema,
    typed: &Typed,
    source: &[u8],
    size: u32,
    budget: u64,
    pruners: &[Pruner],
    extra: &FurtherPruner<F>,
    keep: bool,
) -> Result<AllTried, NoMemory>
    requires typed { IsWellTyped schema.now (read_by schema.now) (plain_program typed.now.program) }
    requires size { size ≤ 8 }
    requires budget { budget ≤ 1000000 }
    requires callable { (f : _) (c : _) → IsCandidateOf (fragment_of f.now) c.now → F.pre extra.now.call f c }
    requires justified { (f : _) (c : _)
        → IsCandidateOf (fragment_of f.now) c.now
        → F.post extra.now.call f c answers.Drop
        → ∥ IsRefuted (fragment_of f.now) c.now ∥₁ }
    ensures { IfOk result (λ r.
        (n : _)
        × Leads
        (SomeMayDrop fragment_of (λ p. ⟦<Box<dyn Fn(&KFragment, &Candidate) -> PruneAnswer> as Fn(&KFragment, &Candidate) -> PruneAnswer>⟧.post p.call) pruners.now (F.post extra.now.call))
        (EachMayKeep fragment_of (λ p. ⟦<Box<dyn Fn(&KFragment, &Candidate) -> PruneAnswer> as Fn(&KFragment, &Candidate) -> PruneAnswer>⟧.post p.call) pruners.now (F.post extra.now.call))
        schema.now size source.now (all_tried schema.now size budget (plain_program typed.now.program))
        (starts_at (plain_program typed.now.program) keep) (ends_with r n)) }
{
    let left = count_loops(alloc, typed.program())?;
    let copy = copy_program(alloc, typed.program())?;
    let stage = stage_of(alloc, Typed::of(copy), 0, 0, 0)?;
    let mut report = no_report(alloc, keep);
    let stage = try_further(
        alloc,
        schema,
        source,
        stage,
        &mut report,
        left,
        size,
        budget,
        pruners,
        extra,
    )?;
    Ok(ended(stage, report))
}
