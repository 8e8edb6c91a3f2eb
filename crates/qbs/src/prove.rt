// The command `prove`.
ghost use Rattle.std.specs.Prelude.{◌≡◌, ◌≤◌, ◌++◌, IfOk, length, ◌∷◌};
ghost use Rattle.std.specs.List.{flat_map};
ghost use Rattle.java_ast.specs.Reading.{program as plain_program};
ghost use Rattle.deriv_check.specs.Bundles.{entries_of};
ghost use Rattle.deriv_check.specs.Texts.{bundle_text};
ghost use Rattle.deliveries.specs.Code.{OrMemory};
ghost use Rattle.plans.specs.Opening.{IsProgramOf};
ghost use Rattle.deliveries.specs.Limits.{most_source};
ghost use Rattle.deliveries.specs.Plan.{given};
ghost use Rattle.deliveries.specs.Reads.{looks, OnlyReads};
ghost use Rattle.verdicts.specs.Reports.{verdict_line, pruned_line};
ghost use Rattle.qbs.specs.ByMap.{proves_by};
ghost use Rattle.qbs.specs.Opened.{reads_all};
ghost use Rattle.qbs.specs.Pruners.{may, with_bank};
ghost use Rattle.qbs.specs.Prove.{Proves, prove_of};
ghost use Rattle.qbs.specs.Proven.{IsProven};
ghost use Rattle.qbs.specs.Rewrite.{size_of as size_in, budget_of as budget_in};
ghost use Rattle.qbs.specs.Store.{store_names};
ghost use Rattle.qbs.specs.Within.{AreWithin};

use crate::opened::{Fetched, fetch_files, open_files};
use crate::prove_by_view::plan_source_by_view;
use crate::rewrite::{budget_of, size_of};
use crate::stored::rewrite_past_store;
use deliveries::Plan;
use deliveries::fetch::Stop;
use deriv_check::print_bundle;
use files_sinks::Files;
use java_types::Typed;
use kernel_lang::{Candidate, KFragment, PruneAnswer};
use proof_store::Bank;
use qbs_base::{Bytes, NoMemory, Status, Text};
use query_search::Pruner;
use rewrite_core::Rewritten;
use schema::Schema;
use std::alloc::Global;
use verdicts::{Verdicts, report};
use words::Options;

/// What is due for the files of a schema and a source, and of the store that the options may name, by the bytes of a map where there are any.
pub fn plan_prove<F: Files>(
    alloc: Global,
    files: &mut F,
    options: &Options,
    map: &Option<Bytes>,
    schema: &Text,
    source: &Text,
    pruners: &[Pruner],
) -> Result<Plan, Stop>
    requires { AreWithin options.now }
    ensures reads { OnlyReads (looks F.told F.faults F.may_fail F.by_read) (schema.now ∷ source.now ∷ store_names options.now.store) files.old files.new }
    ensures due { OrMemory result (reads_all (given F.told F.faults F.may_fail files.old files.new) schema.now source.now options.now.store
        (proves_by
        (may (λ p. ⟦<Box<dyn Fn(&KFragment, &Candidate) -> PruneAnswer> as Fn(&KFragment, &Candidate) -> PruneAnswer>⟧.post p.call) pruners.now)
        options.now map.now)) }
{
    let fetched = fetch_files(alloc, files, schema, source, &options.store)?;
    plan_texts(alloc, options, map, &fetched, pruners)
}

// What is due for their bytes.
fn plan_texts(
    alloc: Global,
    options: &Options,
    map: &Option<Bytes>,
    files: &Fetched,
    pruners: &[Pruner],
) -> Result<Plan, Stop>
    requires within { AreWithin options.now }
    requires short { length files.now.source ≤ most_source }
    ensures { OrMemory result (proves_by
        (may (λ p. ⟦<Box<dyn Fn(&KFragment, &Candidate) -> PruneAnswer> as Fn(&KFragment, &Candidate) -> PruneAnswer>⟧.post p.call) pruners.now)
        options.now map.now files.now.schema files.now.source files.now.store) }
{
    match map {
        None => plan_source(alloc, options, files, pruners),
        Some(map) => plan_source_by_view(alloc, options, map.as_slice(), files, pruners),
    }
}

// What is due for them without a map.
fn plan_source(
    alloc: Global,
    options: &Options,
    files: &Fetched,
    pruners: &[Pruner],
) -> Result<Plan, Stop>
    requires within { AreWithin options.now }
    requires short { length files.now.source ≤ most_source }
    ensures { OrMemory result (prove_of
        (may (λ p. ⟦<Box<dyn Fn(&KFragment, &Candidate) -> PruneAnswer> as Fn(&KFragment, &Candidate) -> PruneAnswer>⟧.post p.call) pruners.now)
        options.now files.now.schema files.now.source files.now.store) }
{
    let opened = open_files(alloc, files)?;
    plan_program(
        alloc,
        options,
        &opened.schema,
        files.source.as_slice(),
        &opened.typed,
        pruners,
        &opened.bank,
    )
}

// The text of the entries.
fn entries_text(alloc: Global, rewritten: &Rewritten) -> Result<Bytes, NoMemory>
    ensures { IfOk result (λ text. text ≡ bundle_text (entries_of rewritten.now.bundle)) }
{
    let text = print_bundle(alloc, &rewritten.bundle)?;
    Ok(Bytes::from_vec(text.into_vec()))
}

/// The bundle of a program's loops that give way, what is said of each loop that was tried, and how many candidates were dropped.
#[derive(Drop)]
pub struct Proven {
    pub bundle: Bytes,
    pub verdicts: Verdicts,
    pub dropped: u64,
}

/// What a program's loops are tried for, which was read from a source. Only want of memory is an error.
pub fn prove_program(
    alloc: Global,
    options: &Options,
    schema: &Schema,
    source: &[u8],
    typed: &Typed,
    pruners: &[Pruner],
    bank: &Option<Bank>,
) -> Result<Proven, NoMemory>
    requires within { AreWithin options.now }
    requires short { length source.now ≤ most_source }
    requires program { IsProgramOf schema.now source.now (plain_program typed.now.program) }
    ensures { IfOk result (IsProven
        (with_bank (may (λ p. ⟦<Box<dyn Fn(&KFragment, &Candidate) -> PruneAnswer> as Fn(&KFragment, &Candidate) -> PruneAnswer>⟧.post p.call) pruners.now) bank.now)
        schema.now (size_in options.now) (budget_in options.now) (plain_program typed.now.program)) }
{
    let size = size_of(options);
    let budget = budget_of(options);
    let rewritten = rewrite_past_store(alloc, schema, typed, source, size, budget, pruners, bank)?;
    let bundle = entries_text(alloc, &rewritten)?;
    Ok(Proven {
        bundle,
        verdicts: rewritten.verdicts,
        dropped: rewritten.dropped,
    })
}

// The bundle of the loops that give way, and the report.
fn plan_program(
    alloc: Global,
    options: &Options,
    schema: &Schema,
    source: &[u8],
    typed: &Typed,
    pruners: &[Pruner],
    bank: &Option<Bank>,
) -> Result<Plan, Stop>
    requires within { AreWithin options.now }
    requires short { length source.now ≤ most_source }
    requires program { IsProgramOf schema.now source.now (plain_program typed.now.program) }
    ensures { OrMemory result (Proves
        (with_bank (may (λ p. ⟦<Box<dyn Fn(&KFragment, &Candidate) -> PruneAnswer> as Fn(&KFragment, &Candidate) -> PruneAnswer>⟧.post p.call) pruners.now) bank.now)
        schema.now (size_in options.now) (budget_in options.now) (plain_program typed.now.program)) }
{
    let proven = prove_program(alloc, options, schema, source, typed, pruners, bank)?;
    Ok(plan_proven(alloc, proven)?)
}

// The text of the entries, and the report.
fn plan_proven(alloc: Global, proven: Proven) -> Result<Plan, NoMemory>
    ensures { IfOk result (λ plan.
        plan ≡ record { status = Status.Ok; out = proven.bundle; rep = flat_map verdict_line proven.verdicts ++ pruned_line proven.dropped }) }
{
    let rep = report(alloc, proven.verdicts.as_slice(), proven.dropped)?;
    Ok(Plan {
        status: Status::Ok,
        out: proven.bundle,
        rep,
    })
}
