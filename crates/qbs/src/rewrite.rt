// The command `rewrite`.
ghost use Rattle.std.specs.Prelude.{◌≡◌, ◌≤◌, ◌++◌, IfOk, ◌∷◌};
ghost use Rattle.std.specs.List.{flat_map};
ghost use Rattle.java_ast.specs.Reading.{program as plain_program};
ghost use Rattle.deliveries.specs.Code.{OrMemory};
ghost use Rattle.plans.specs.Opening.{IsProgramOf};
ghost use Rattle.deliveries.specs.Plan.{given};
ghost use Rattle.deliveries.specs.Reads.{looks, OnlyReads};
ghost use Rattle.verdicts.specs.Reports.{verdict_line, pruned_line};
ghost use Rattle.qbs.specs.Pruners.{may, with_bank};
ghost use Rattle.qbs.specs.Rewrite.{size_of as size_in, budget_of as budget_in, Rewrites, rewrite_of, rewrite as rewrites};
ghost use Rattle.qbs.specs.Store.{store_names};
ghost use Rattle.qbs.specs.Within.{AreWithin};

use crate::again::read_again;
use crate::opened::{Fetched, fetch_files, open_files};
use crate::stored::rewrite_past_store;
use deliveries::Plan;
use deliveries::fetch::Stop;
use files_sinks::Files;
use java_types::Typed;
use kernel_lang::{Candidate, KFragment, PruneAnswer};
use proof_store::Bank;
use qbs_base::{NoMemory, Status, Text};
use query_search::Pruner;
use rewrite_core::Rewritten;
use schema::Schema;
use std::alloc::Global;
use verdicts::report;
use words::Options;

/// What is due for the files of a schema and a source, and of the store that the options may name.
pub fn plan_rewrite<F: Files>(
    alloc: Global,
    files: &mut F,
    options: &Options,
    schema: &Text,
    source: &Text,
    pruners: &[Pruner],
) -> Result<Plan, Stop>
    requires { AreWithin options.now }
    ensures reads { OnlyReads (looks F.told F.faults F.may_fail F.by_read) (schema.now ∷ source.now ∷ store_names options.now.store) files.old files.new }
    ensures due { OrMemory result (rewrites (given F.told F.faults F.may_fail files.old files.new)
        (may (λ p. ⟦<Box<dyn Fn(&KFragment, &Candidate) -> PruneAnswer> as Fn(&KFragment, &Candidate) -> PruneAnswer>⟧.post p.call) pruners.now)
        options.now schema.now source.now) }
{
    let fetched = fetch_files(alloc, files, schema, source, &options.store)?;
    plan_texts(alloc, options, &fetched, pruners)
}

// What is due for their bytes.
fn plan_texts(
    alloc: Global,
    options: &Options,
    files: &Fetched,
    pruners: &[Pruner],
) -> Result<Plan, Stop>
    requires { AreWithin options.now }
    ensures { OrMemory result (rewrite_of
        (may (λ p. ⟦<Box<dyn Fn(&KFragment, &Candidate) -> PruneAnswer> as Fn(&KFragment, &Candidate) -> PruneAnswer>⟧.post p.call) pruners.now)
        options.now files.now.schema files.now.source files.now.store) }
{
    let opened = open_files(alloc, files)?;
    plan_program(
        alloc,
        options,
        &opened.schema,
        files.source.as_slice(),
        &opened.typed,
        pruners,
        &opened.bank,
    )
}

/// The most formulas of a candidate, where the words give none.
pub fn size_of(options: &Options) -> u32
    requires { AreWithin options.now }
    ensures is { result ≡ size_in options.now }
    ensures within { result ≤ 8 }
{
    match options.size {
        Some(n) => n as u32,
        None => 4,
    }
}

/// The most candidates of a loop that are judged, where the words give none.
pub fn budget_of(options: &Options) -> u64
    requires { AreWithin options.now }
    ensures is { result ≡ budget_in options.now }
    ensures within { result ≤ 1000000 }
{
    match options.candidates {
        Some(n) => n,
        None => 20000,
    }
}

// The output of the program that is left, and the report.
fn plan_program(
    alloc: Global,
    options: &Options,
    schema: &Schema,
    source: &[u8],
    typed: &Typed,
    pruners: &[Pruner],
    bank: &Option<Bank>,
) -> Result<Plan, Stop>
    requires within { AreWithin options.now }
    requires program { IsProgramOf schema.now source.now (plain_program typed.now.program) }
    ensures { OrMemory result (Rewrites
        (with_bank (may (λ p. ⟦<Box<dyn Fn(&KFragment, &Candidate) -> PruneAnswer> as Fn(&KFragment, &Candidate) -> PruneAnswer>⟧.post p.call) pruners.now) bank.now)
        schema.now (size_in options.now) (budget_in options.now) source.now (plain_program typed.now.program)) }
{
    let size = size_of(options);
    let budget = budget_of(options);
    let rewritten = rewrite_past_store(alloc, schema, typed, source, size, budget, pruners, bank)?;
    read_again(alloc, schema, rewritten.text.as_slice())?;
    Ok(plan_left(alloc, rewritten)?)
}

// The output, and the report.
fn plan_left(alloc: Global, rewritten: Rewritten) -> Result<Plan, NoMemory>
    ensures { IfOk result (λ plan.
        plan ≡ record { status = Status.Ok; out = rewritten.text; rep = flat_map verdict_line rewritten.verdicts ++ pruned_line rewritten.dropped }) }
{
    let rep = report(alloc, rewritten.verdicts.as_slice(), rewritten.dropped)?;
    Ok(Plan {
        status: Status::Ok,
        out: rewritten.text,
        rep,
    })
}
