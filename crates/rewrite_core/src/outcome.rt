// What comes of one loop of a program.
ghost use Rattle.std.specs.Prelude.{◌≡◌, ◌≤◌, ◌<◌, ◌^◌, ◌++◌, [], ◌∷◌, IfOk, OnOk, map};
ghost use Rattle.std.specs.declared.option.Option.TheVariants.{Some, None};
ghost use Rattle.java_ast.specs.Reading.{program as plain_program};
ghost use Rattle.java_loops.specs.Kernel.Kernel.{setting_at};
ghost use Rattle.java_loops.specs.Kernel.Setting.{Setting};
ghost use Rattle.java_loops.specs.Meant.Lowers.{IsLowered};
ghost use Rattle.java_mean.specs.WellTyped.{IsWellTyped};
ghost use Rattle.java_types.specs.Texts.{read_by};
ghost use Rattle.kernel_lang.specs.declared.prune.PruneAnswer.TheVariants as answers;
ghost use Rattle.kernel_lang.specs.Pools.{IsCandidateOf};
ghost use Rattle.kernel_lang.specs.Refuted.{IsRefuted};
ghost use Rattle.kernel_lang.specs.Whole.{fragment_of};
ghost use Rattle.loop_text.specs.Statements.Walking.{IsLoopOf};
ghost use Rattle.sql_ast.specs.Reading.{query};
ghost use Rattle.sql_parts.specs.Given.{AreKnownTo};
ghost use Rattle.lowering.specs.Lowers.{lowering_in_code};
ghost use Rattle.verdicts.specs.declared.verdict.Said.TheVariants as says;
ghost use Rattle.rewrite_core.specs.Outcome.{try_with, IsOutcomeOf};
ghost use Rattle.rewrite_core.specs.Searches.{and_searched, before_said, kept_searches, plain_search, search_by};
ghost use Rattle.query_search.specs.Counted.{AreCounted};
ghost use Rattle.query_search.specs.Seen.{verdict_in, dropped_in, IsFoundOf};
ghost use Rattle.query_search.specs.Verdicts.{verdict, before};
ghost use Rattle.query_search.specs.Asking.{SomeMayDrop, EachMayKeep, OfCandidate};

use crate::replacing::{place_there, statements_instead};
use crate::searches::{Search, Searches};
use java_ast::{Path, Stmt};
use java_types::Typed;
use kernel_lang::{Candidate, KFragment};
use lowering::{Lowered, lower};
use qbs_base::{Fail, NoMemory, Span, boxed, held};
use query_search::{Found, FurtherPruner, PruneAnswer, Pruner, search_with};
use schema::Schema;
use std::alloc::Global;
use tor_axioms::Derivations;
use verdicts::{LoopVerdict, Said};

/// A loop that gives way: the number of the candidate that was found, the derivations of its conditions, and the statements that come in
/// place of those from the number `first` to the loop.
#[derive(Drop)]
pub struct GivesWay {
    pub k: u32,
    pub proofs: Derivations,
    pub first: u64,
    pub others: Vec<Stmt>,
}

/// What is said of a loop that was tried, how many candidates were dropped, and how it gives way, where it does.
#[derive(Drop)]
pub struct Outcome {
    pub verdict: LoopVerdict,
    pub dropped: u64,
    pub way: Option<GivesWay>,
}

// The outcome of a loop that stands.
fn stands(at: Span, said: Said, dropped: u64) -> Outcome
    ensures verdict { result.verdict ≡ record { at = at; said = said } }
    ensures dropped { result.dropped ≡ dropped }
    ensures way { result.way ≡ None }
{
    Outcome {
        verdict: LoopVerdict { at, said },
        dropped,
        way: None,
    }
}

// The outcome of a loop for which a candidate is found.
fn gives_way(
    at: Span,
    dropped: u64,
    k: u64,
    proofs: Derivations,
    first: u64,
    others: Vec<Stmt>,
) -> Outcome
    requires { k < 2 ^ 32 }
    ensures verdict { result.verdict ≡ record { at = at; said = says.Found k } }
    ensures dropped { result.dropped ≡ dropped }
    ensures way { result.way ≡ Some (record { k = k; proofs = proofs; first = first; others = others }) }
{
    Outcome {
        verdict: LoopVerdict {
            at,
            said: Said::Found { k },
        },
        dropped,
        way: Some(GivesWay {
            k: k as u32,
            proofs,
            first,
            others,
        }),
    }
}

// What the search finds, and how many candidates of the plain fragment were dropped.
fn search_plainly<F: Fn(&KFragment, &Candidate) -> PruneAnswer>(
    alloc: Global,
    frag: &KFragment,
    size: u32,
    budget: u64,
    pruners: &[Pruner],
    extra: &FurtherPruner<F>,
) -> Result<Found, NoMemory>
    requires size { size ≤ 8 }
    requires callable { (f : _) (c : _) → IsCandidateOf (fragment_of f.now) c.now → F.pre extra.now.call f c }
    requires justified { (f : _) (c : _)
        → IsCandidateOf (fragment_of f.now) c.now
        → F.post extra.now.call f c answers.Drop
        → ∥ IsRefuted (fragment_of f.now) c.now ∥₁ }
    ensures exact { IfOk result (λ r. verdict_in r ≡ verdict (fragment_of frag.now) size budget) }
    ensures dropped { IfOk result (λ r.
        AreCounted
        (OfCandidate (fragment_of frag.now) size (SomeMayDrop fragment_of (λ p. ⟦<Box<dyn Fn(&KFragment, &Candidate) -> PruneAnswer> as Fn(&KFragment, &Candidate) -> PruneAnswer>⟧.post p.call) pruners.now (F.post extra.now.call) (fragment_of frag.now)))
        (OfCandidate (fragment_of frag.now) size (EachMayKeep fragment_of (λ p. ⟦<Box<dyn Fn(&KFragment, &Candidate) -> PruneAnswer> as Fn(&KFragment, &Candidate) -> PruneAnswer>⟧.post p.call) pruners.now (F.post extra.now.call) (fragment_of frag.now)))
        0 (before (verdict (fragment_of frag.now) size budget)) (dropped_in r)) }
    ensures found { IfOk result (IsFoundOf (fragment_of frag.now)) }
{
    search_with(alloc, frag, size, budget, pruners, extra)
}

// What comes of a loop that is lowered.
fn try_lowered<F: Fn(&KFragment, &Candidate) -> PruneAnswer>(
    alloc: Global,
    schema: &Schema,
    typed: &Typed,
    path: &Path,
    lowered: &Lowered,
    size: u32,
    budget: u64,
    pruners: &[Pruner],
    extra: &FurtherPruner<F>,
) -> Result<Outcome, NoMemory>
    requires typed { IsWellTyped schema.now (read_by schema.now) (plain_program typed.now.program) }
    requires lowered { IsLowered schema.now (read_by schema.now) (plain_program typed.now.program) path.now (lowering_in_code lowered.now) lowered.now.first lowered.now.kept }
    requires known { AreKnownTo schema.now (fragment_of lowered.now.frag) (map query lowered.now.known) lowered.now.known_args }
    requires size { size ≤ 8 }
    requires budget { budget ≤ 1000000 }
    requires callable { (f : _) (c : _) → IsCandidateOf (fragment_of f.now) c.now → F.pre extra.now.call f c }
    requires justified { (f : _) (c : _)
        → IsCandidateOf (fragment_of f.now) c.now
        → F.post extra.now.call f c answers.Drop
        → ∥ IsRefuted (fragment_of f.now) c.now ∥₁ }
    ensures { IfOk result (λ o.
        (w : Setting)
        × (setting_at schema.now (read_by schema.now) path.now (plain_program typed.now.program) ≡ Some w)
        × IsOutcomeOf
        (SomeMayDrop fragment_of (λ p. ⟦<Box<dyn Fn(&KFragment, &Candidate) -> PruneAnswer> as Fn(&KFragment, &Candidate) -> PruneAnswer>⟧.post p.call) pruners.now (F.post extra.now.call))
        (EachMayKeep fragment_of (λ p. ⟦<Box<dyn Fn(&KFragment, &Candidate) -> PruneAnswer> as Fn(&KFragment, &Candidate) -> PruneAnswer>⟧.post p.call) pruners.now (F.post extra.now.call))
        schema.now size (try_with size budget (plain_program typed.now.program) path.now w) o) }
{
    let at = place_there(typed.program(), path);
    match search_plainly(alloc, &lowered.frag, size, budget, pruners, extra)? {
        Found::Found {
            k,
            cand,
            proofs,
            dropped,
        } => {
            let others = statements_instead(alloc, schema, typed, path, lowered, &cand)?;
            Ok(gives_way(at, dropped, k, proofs, lowered.first, others))
        }
        Found::NoneOf { n, dropped } => Ok(stands(at, Said::NoneOf { n }, dropped)),
        Found::Budget { b, n, dropped } => Ok(stands(at, Said::Budget { b, n }, dropped)),
    }
}

// How many candidates come before what is said of a loop.
fn before(said: Said) -> u64
    ensures { result ≡ before_said said }
{
    match said {
        Said::Found { k } => k,
        Said::NoneOf { n } => n,
        Said::Budget { b, .. } => b,
        Said::Outside { .. } => 0,
    }
}

fn fragment_in(lowered: Box<Lowered>) -> KFragment
    ensures { result ≡ lowered.value.frag }
{
    Box::into_inner(lowered).frag
}

// Adds the fragment of a loop, with how many candidates come before what is said of it.
fn note_search(
    alloc: Global,
    lowered: Box<Lowered>,
    said: Said,
    searches: &mut Searches,
) -> Result<(), NoMemory>
    ensures { OnOk result (
        map plain_search searches.new ≡ map plain_search searches.old ++ record { fragment = fragment_of lowered.value.frag; before = before_said said } ∷ []) }
{
    let frag = boxed(alloc, fragment_in(lowered))?;
    searches.push(Search {
        frag,
        before: before(said),
    })
}

// What comes of a loop that is lowered, and what was searched of it is added where this is kept: the fragment is moved there.
fn try_noted<F: Fn(&KFragment, &Candidate) -> PruneAnswer>(
    alloc: Global,
    schema: &Schema,
    typed: &Typed,
    path: &Path,
    lowered: Box<Lowered>,
    size: u32,
    budget: u64,
    pruners: &[Pruner],
    extra: &FurtherPruner<F>,
    searches: &mut Option<Searches>,
) -> Result<Outcome, NoMemory>
    requires typed { IsWellTyped schema.now (read_by schema.now) (plain_program typed.now.program) }
    requires lowered { IsLowered schema.now (read_by schema.now) (plain_program typed.now.program) path.now (lowering_in_code lowered.value) lowered.value.first lowered.value.kept }
    requires known { AreKnownTo schema.now (fragment_of lowered.value.frag) (map query lowered.value.known) lowered.value.known_args }
    requires size { size ≤ 8 }
    requires budget { budget ≤ 1000000 }
    requires callable { (f : _) (c : _) → IsCandidateOf (fragment_of f.now) c.now → F.pre extra.now.call f c }
    requires justified { (f : _) (c : _)
        → IsCandidateOf (fragment_of f.now) c.now
        → F.post extra.now.call f c answers.Drop
        → ∥ IsRefuted (fragment_of f.now) c.now ∥₁ }
    ensures outcome { IfOk result (λ o.
        (w : Setting)
        × (setting_at schema.now (read_by schema.now) path.now (plain_program typed.now.program) ≡ Some w)
        × IsOutcomeOf
        (SomeMayDrop fragment_of (λ p. ⟦<Box<dyn Fn(&KFragment, &Candidate) -> PruneAnswer> as Fn(&KFragment, &Candidate) -> PruneAnswer>⟧.post p.call) pruners.now (F.post extra.now.call))
        (EachMayKeep fragment_of (λ p. ⟦<Box<dyn Fn(&KFragment, &Candidate) -> PruneAnswer> as Fn(&KFragment, &Candidate) -> PruneAnswer>⟧.post p.call) pruners.now (F.post extra.now.call))
        schema.now size (try_with size budget (plain_program typed.now.program) path.now w) o) }
    ensures searches { OnOk result (
        (w : Setting)
        → setting_at schema.now (read_by schema.now) path.now (plain_program typed.now.program) ≡ Some w
        → kept_searches searches.new
        ≡ and_searched (kept_searches searches.old) (search_by (try_with size budget (plain_program typed.now.program) path.now w).answer)) }
{
    match searches {
        None => try_lowered(
            alloc, schema, typed, path, &lowered, size, budget, pruners, extra,
        ),
        Some(list) => {
            let outcome = held(
                alloc,
                try_lowered(
                    alloc, schema, typed, path, &lowered, size, budget, pruners, extra,
                ),
            )?;
            note_search(alloc, lowered, outcome.verdict.said, list)?;
            Ok(Box::into_inner(outcome))
        }
    }
}

/// What comes of the loop to which a path leads, and what was searched of it is added where this is kept. The only error is want of memory.
pub fn try_searched<F: Fn(&KFragment, &Candidate) -> PruneAnswer>(
    alloc: Global,
    schema: &Schema,
    typed: &Typed,
    path: &Path,
    size: u32,
    budget: u64,
    pruners: &[Pruner],
    extra: &FurtherPruner<F>,
    searches: &mut Option<Searches>,
) -> Result<Outcome, NoMemory>
    requires typed { IsWellTyped schema.now (read_by schema.now) (plain_program typed.now.program) }
    requires loops { IsLoopOf (plain_program typed.now.program) path.now }
    requires size { size ≤ 8 }
    requires budget { budget ≤ 1000000 }
    requires callable { (f : _) (c : _) → IsCandidateOf (fragment_of f.now) c.now → F.pre extra.now.call f c }
    requires justified { (f : _) (c : _)
        → IsCandidateOf (fragment_of f.now) c.now
        → F.post extra.now.call f c answers.Drop
        → ∥ IsRefuted (fragment_of f.now) c.now ∥₁ }
    ensures outcome { IfOk result (λ o.
        (w : Setting)
        × (setting_at schema.now (read_by schema.now) path.now (plain_program typed.now.program) ≡ Some w)
        × IsOutcomeOf
        (SomeMayDrop fragment_of (λ p. ⟦<Box<dyn Fn(&KFragment, &Candidate) -> PruneAnswer> as Fn(&KFragment, &Candidate) -> PruneAnswer>⟧.post p.call) pruners.now (F.post extra.now.call))
        (EachMayKeep fragment_of (λ p. ⟦<Box<dyn Fn(&KFragment, &Candidate) -> PruneAnswer> as Fn(&KFragment, &Candidate) -> PruneAnswer>⟧.post p.call) pruners.now (F.post extra.now.call))
        schema.now size (try_with size budget (plain_program typed.now.program) path.now w) o) }
    ensures searches { OnOk result (
        (w : Setting)
        → setting_at schema.now (read_by schema.now) path.now (plain_program typed.now.program) ≡ Some w
        → kept_searches searches.new
        ≡ and_searched (kept_searches searches.old) (search_by (try_with size budget (plain_program typed.now.program) path.now w).answer)) }
{
    match lower(alloc, schema, typed, path) {
        Ok(lowered) => try_noted(
            alloc, schema, typed, path, lowered, size, budget, pruners, extra, searches,
        ),
        Err(Fail::Fault(outside)) => {
            let at = place_there(typed.program(), path);
            Ok(stands(
                at,
                Said::Outside {
                    rule: outside.rule,
                    at: outside.at,
                },
                0,
            ))
        }
        Err(Fail::NoMemory) => Err(NoMemory),
    }
}

/// The same where nothing is kept of what was searched.
pub fn try_loop<F: Fn(&KFragment, &Candidate) -> PruneAnswer>(
    alloc: Global,
    schema: &Schema,
    typed: &Typed,
    path: &Path,
    size: u32,
    budget: u64,
    pruners: &[Pruner],
    extra: &FurtherPruner<F>,
) -> Result<Outcome, NoMemory>
    requires typed { IsWellTyped schema.now (read_by schema.now) (plain_program typed.now.program) }
    requires loops { IsLoopOf (plain_program typed.now.program) path.now }
    requires size { size ≤ 8 }
    requires budget { budget ≤ 1000000 }
    requires callable { (f : _) (c : _) → IsCandidateOf (fragment_of f.now) c.now → F.pre extra.now.call f c }
    requires justified { (f : _) (c : _)
        → IsCandidateOf (fragment_of f.now) c.now
        → F.post extra.now.call f c answers.Drop
        → ∥ IsRefuted (fragment_of f.now) c.now ∥₁ }
    ensures { IfOk result (λ o.
        (w : Setting)
        × (setting_at schema.now (read_by schema.now) path.now (plain_program typed.now.program) ≡ Some w)
        × IsOutcomeOf
        (SomeMayDrop fragment_of (λ p. ⟦<Box<dyn Fn(&KFragment, &Candidate) -> PruneAnswer> as Fn(&KFragment, &Candidate) -> PruneAnswer>⟧.post p.call) pruners.now (F.post extra.now.call))
        (EachMayKeep fragment_of (λ p. ⟦<Box<dyn Fn(&KFragment, &Candidate) -> PruneAnswer> as Fn(&KFragment, &Candidate) -> PruneAnswer>⟧.post p.call) pruners.now (F.post extra.now.call))
        schema.now size (try_with size budget (plain_program typed.now.program) path.now w) o) }
{
    let mut none = None;
    try_searched(
        alloc, schema, typed, path, size, budget, pruners, extra, &mut none,
    )
}
