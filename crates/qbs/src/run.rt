// The command `run`.
ghost use Rattle.std.specs.Prelude.{◌≡◌, IfOk, length, ◌∷◌, []};
ghost use Rattle.java_ast.specs.Reading.{program as plain_program};
ghost use Rattle.java_interp.specs.Reached.{outcome_in};
ghost use Rattle.java_mean.specs.WellTyped.{IsWellTyped};
ghost use Rattle.java_types.specs.Texts.{read_by};
ghost use Rattle.rewrite_core.specs.Output.{IsSourceOf};
ghost use Rattle.rewrite_core.specs.Trying.{rewritten as rewritten_in};
ghost use Rattle.deliveries.specs.Code.{OrMemory, one_run};
ghost use Rattle.deliveries.specs.Plan.{given};
ghost use Rattle.deliveries.specs.Reads.{looks};
ghost use Rattle.plans.specs.Tables.{over_tables};
ghost use Rattle.qbs.specs.Code.{call_in, run_called};
ghost use Rattle.qbs.specs.Rewrite.{size_of as size_in, budget_of as budget_in, IsRewriting};
ghost use Rattle.qbs.specs.Run.{run as runs, run_of, IsChosen, chooses, call_of, turns_of as turns_in, comes_to};
ghost use Rattle.qbs.specs.Top.{ReadsTables, ReadsTablesOf};
ghost use Rattle.qbs.specs.Within.{AreWithin};

use crate::rewrite::{budget_of, size_of};
use deliveries::Plan;
use deliveries::choice::program_run;
use deliveries::fetch::{MOST_TABLES, Stop, fetch_schema, fetch_source, refused};
use files_sinks::Files;
use java_interp::{Outcome, run_method};
use java_mean::TypeRule;
use java_types::Typed;
use plans::arguments::{find_method, read_arguments};
use plans::lines::{fault_refused, word_refused};
use plans::opening::{open_program, open_schema};
use plans::results::output;
use plans::tables::{TableTexts, fetch_tables, load_tables};
use qbs_base::{Bytes, NoMemory, Status, Table, Text, Words};
use query_search::Pruner;
use rewrite_core::rewrite;
use schema::Schema;
use std::alloc::Global;
use words::Options;

/// What the words of a run ask for besides files: a method by its name, and a word for each argument.
#[derive(Clone, Copy)]
pub struct Asked<'a> {
    pub method: &'a Text,
    pub words: &'a Words,
}

/// What is due for a schema, a source, the files of the tables in a folder, and a call of a method.
pub fn plan_run<F: Files>(
    alloc: Global,
    files: &mut F,
    options: &Options,
    schema: &Text,
    source: &Text,
    folder: &Text,
    call: &Asked,
    pruners: &[Pruner],
) -> Result<Plan, Stop>
    requires { AreWithin options.now }
    ensures reads { ReadsTables (looks F.told F.faults F.may_fail F.by_read) (schema.now ∷ source.now ∷ []) folder.now schema.now files.old files.new }
    ensures due { OrMemory result (runs (given F.told F.faults F.may_fail files.old files.new) options.now schema.now source.now folder.now (call_in call.now)) }
{
    let schema = fetch_schema(alloc, files, schema)?;
    let source = fetch_source(alloc, files, source)?;
    plan_tables(
        alloc,
        files,
        options,
        schema.as_slice(),
        source.as_slice(),
        folder,
        call,
        pruners,
    )
}

// What is due for the bytes of a schema and a source, and the files of the tables.
fn plan_tables<F: Files>(
    alloc: Global,
    files: &mut F,
    options: &Options,
    schema: &[u8],
    source: &[u8],
    folder: &Text,
    call: &Asked,
    pruners: &[Pruner],
) -> Result<Plan, Stop>
    requires { AreWithin options.now }
    ensures reads { ReadsTablesOf (looks F.told F.faults F.may_fail F.by_read) folder.now schema.now files.old files.new }
    ensures due { OrMemory result (
        over_tables (given F.told F.faults F.may_fail files.old files.new) folder.now schema.now (λ tables texts.
        run_of options.now tables (call_in call.now) source.now texts)) }
{
    let schema = open_schema(alloc, schema)?;
    let mut texts = TableTexts::new(alloc);
    fetch_tables(
        schema.tables(),
        alloc,
        files,
        folder,
        MOST_TABLES,
        &mut texts,
    )?;
    plan_source(
        alloc,
        options,
        &schema,
        source,
        texts.as_slice(),
        call,
        pruners,
    )
}

// What is due for the bytes of a source and the texts of tables.
fn plan_source(
    alloc: Global,
    options: &Options,
    schema: &Schema,
    source: &[u8],
    texts: &[Bytes],
    call: &Asked,
    pruners: &[Pruner],
) -> Result<Plan, Stop>
    requires within { AreWithin options.now }
    requires tables { length texts.now ≡ length schema.now }
    ensures { OrMemory result (run_of options.now schema.now (call_in call.now) source.now texts.now) }
{
    let typed = open_program(alloc, schema, source)?;
    plan_chosen(alloc, options, schema, source, &typed, texts, call, pruners)
}

// What is due for the program, or for the rewritten one.
#[tactic(auto, using(crate::proofs::Rewritten::run_chosen))]
fn plan_chosen(
    alloc: Global,
    options: &Options,
    schema: &Schema,
    source: &[u8],
    typed: &Typed,
    texts: &[Bytes],
    call: &Asked,
    pruners: &[Pruner],
) -> Result<Plan, Stop>
    requires within { AreWithin options.now }
    requires tables { length texts.now ≡ length schema.now }
    requires typed { IsWellTyped schema.now (read_by schema.now) (plain_program typed.now.program) }
    requires source { IsSourceOf source.now (plain_program typed.now.program) }
    ensures { OrMemory result (
        chooses options.now schema.now (plain_program typed.now.program) (call_of schema.now texts.now (call_in call.now) (turns_in options.now))) }
{
    let turns = turns_of(options);
    let other = rewritten_if_asked(alloc, options, schema, source, typed, pruners)?;
    let chosen = program_run(typed, &other);
    plan_call(alloc, schema, chosen, texts, call, turns)
}

// The turns of a run, where the words give none.
fn turns_of(options: &Options) -> u64
    ensures { result ≡ turns_in options.now }
{
    options.turns.unwrap_or(1000000)
}

// The program after all tries, where the options ask for it.
#[tactic(auto, using(crate::proofs::Rewritten::chosen_plainly, crate::proofs::Rewritten::chosen_rewritten))]
fn rewritten_if_asked(
    alloc: Global,
    options: &Options,
    schema: &Schema,
    source: &[u8],
    typed: &Typed,
    pruners: &[Pruner],
) -> Result<Option<Typed>, NoMemory>
    requires within { AreWithin options.now }
    requires typed { IsWellTyped schema.now (read_by schema.now) (plain_program typed.now.program) }
    requires source { IsSourceOf source.now (plain_program typed.now.program) }
    ensures chosen { IfOk result (λ other.
        IsChosen options.now.rewritten schema.now (size_in options.now) (budget_in options.now) (plain_program typed.now.program) (plain_program (one_run typed.now other).program)) }
    ensures typed { IfOk result (λ other. IsWellTyped schema.now (read_by schema.now) (plain_program (one_run typed.now other).program)) }
{
    if !options.rewritten {
        return Ok(None);
    }
    let other = rewritten(alloc, options, schema, source, typed, pruners)?;
    Ok(Some(other))
}

// The program after all tries.
fn rewritten(
    alloc: Global,
    options: &Options,
    schema: &Schema,
    source: &[u8],
    typed: &Typed,
    pruners: &[Pruner],
) -> Result<Typed, NoMemory>
    requires within { AreWithin options.now }
    requires typed { IsWellTyped schema.now (read_by schema.now) (plain_program typed.now.program) }
    requires source { IsSourceOf source.now (plain_program typed.now.program) }
    ensures is { IfOk result (λ t.
        plain_program t.program ≡ rewritten_in schema.now (size_in options.now) (budget_in options.now) (plain_program typed.now.program)) }
    ensures rewriting { IfOk result (λ _. IsRewriting schema.now (size_in options.now) (budget_in options.now) (plain_program typed.now.program)) }
{
    let size = size_of(options);
    let budget = budget_of(options);
    let rewritten = rewrite(alloc, schema, typed, source, size, budget, pruners)?;
    Ok(Typed::of(rewritten.program))
}

// What is due for a call of a method of a well-typed program.
fn plan_call(
    alloc: Global,
    schema: &Schema,
    typed: &Typed,
    texts: &[Bytes],
    call: &Asked,
    turns: u64,
) -> Result<Plan, Stop>
    requires tables { length texts.now ≡ length schema.now }
    requires typed { IsWellTyped schema.now (read_by schema.now) (plain_program typed.now.program) }
    ensures { OrMemory result (run_called schema.now texts.now (call_in call.now) turns (plain_program typed.now.program)) }
{
    let methods = typed.program().methods.as_slice();
    let Some(number) = find_method(methods, call.method) else {
        return Err(word_refused(alloc, TypeRule::Unknown));
    };
    let args = read_arguments(alloc, methods[number].params.as_slice(), call.words)?;
    let db = load_tables(alloc, schema, texts)?;
    let outcome = run_method(alloc, schema, typed, &db, number as u64, &args, turns)?;
    plan_outcome(alloc, schema.tables(), outcome)
}

fn plan_outcome(alloc: Global, tables: &[Table], outcome: Outcome) -> Result<Plan, Stop>
    ensures { OrMemory result (comes_to tables.now (outcome_in outcome)) }
{
    match outcome {
        Outcome::Done { prints, result } => Ok(output(alloc, tables, prints.as_slice(), &result)?),
        Outcome::Faulted { fault, at } => Err(fault_refused(alloc, fault, at)),
        Outcome::OutOfTurns => Err(refused(alloc, Status::Turns, "qbs: turns", "")),
    }
}
