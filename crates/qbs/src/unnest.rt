// The command `unnest`.
ghost use Rattle.std.specs.Prelude.{◌≡◌, ◌++◌, IfOk, ◌∷◌, [], length};
ghost use Rattle.std.specs.List.{flat_map};
ghost use Rattle.java_ast.specs.Reading.{program as plain_program};
ghost use Rattle.deliveries.specs.Code.{OrMemory};
ghost use Rattle.deliveries.specs.Plan.{given};
ghost use Rattle.deliveries.specs.Reads.{looks, OnlyReads};
ghost use Rattle.plans.specs.Opening.{IsProgramOf};
ghost use Rattle.verdicts.specs.Reports.{verdict_line, unnested_line};
ghost use Rattle.qbs.specs.Rewrite.{size_of as size_in, budget_of as budget_in};
ghost use Rattle.qbs.specs.Unnest.{Unnests, unnest as unnests, unnest_of};
ghost use Rattle.qbs.specs.Within.{AreWithin};

use crate::again::read_again;
use crate::rewrite::{budget_of, size_of};
use deliveries::Plan;
use deliveries::fetch::{Stop, fetch_schema, fetch_source};
use files_sinks::Files;
use java_types::Typed;
use plans::opening::{open_program, open_schema};
use qbs_base::{NoMemory, Status, Text};
use rewrite_core::{Unnesting, unnest_loops};
use schema::Schema;
use std::alloc::Global;
use verdicts::unnest_report;
use words::Options;

/// What is due for the files of a schema and a source.
pub fn plan_unnest<F: Files>(
    alloc: Global,
    files: &mut F,
    options: &Options,
    schema: &Text,
    source: &Text,
) -> Result<Plan, Stop>
    requires { AreWithin options.now }
    ensures reads { OnlyReads (looks F.told F.faults F.may_fail F.by_read) (schema.now ∷ source.now ∷ []) files.old files.new }
    ensures due { OrMemory result (unnests (given F.told F.faults F.may_fail files.old files.new) options.now schema.now source.now) }
{
    let schema = fetch_schema(alloc, files, schema)?;
    let source = fetch_source(alloc, files, source)?;
    plan_texts(alloc, options, schema.as_slice(), source.as_slice())
}

// What is due for their bytes.
fn plan_texts(alloc: Global, options: &Options, schema: &[u8], source: &[u8]) -> Result<Plan, Stop>
    requires { AreWithin options.now }
    ensures { OrMemory result (unnest_of options.now schema.now source.now) }
{
    let tables = open_schema(alloc, schema)?;
    let typed = open_program(alloc, &tables, source)?;
    Ok(plan_program(alloc, options, &tables, source, &typed)?)
}

// The output of the program that is left, and the report.
fn plan_program(
    alloc: Global,
    options: &Options,
    schema: &Schema,
    source: &[u8],
    typed: &Typed,
) -> Result<Plan, NoMemory>
    requires within { AreWithin options.now }
    requires program { IsProgramOf schema.now source.now (plain_program typed.now.program) }
    ensures { IfOk result (Unnests schema.now (size_in options.now) (budget_in options.now) source.now (plain_program typed.now.program)) }
{
    let size = size_of(options);
    let budget = budget_of(options);
    let unnesting = unnest_loops(alloc, schema, typed, source, size, budget)?;
    read_again(alloc, schema, unnesting.text.as_slice())?;
    plan_left(alloc, unnesting)
}

// The output, and the report.
fn plan_left(alloc: Global, unnesting: Unnesting) -> Result<Plan, NoMemory>
    ensures { IfOk result (λ plan.
        plan ≡ record { status = Status.Ok; out = unnesting.text; rep = flat_map verdict_line unnesting.verdicts ++ unnested_line (length unnesting.verdicts) }) }
{
    let rep = unnest_report(alloc, unnesting.verdicts.as_slice())?;
    Ok(Plan {
        status: Status::Ok,
        out: unnesting.text,
        rep,
    })
}
