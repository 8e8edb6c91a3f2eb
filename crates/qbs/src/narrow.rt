// The command `narrow`.
ghost use Rattle.std.specs.Prelude.{◌≡◌, ◌++◌, IfOk, OnOk, ◌∷◌, []};
ghost use Rattle.std.specs.List.{flat_map};
ghost use Rattle.java_ast.specs.Reading.{program as plain_program};
ghost use Rattle.deliveries.specs.Code.{OrMemory};
ghost use Rattle.deliveries.specs.Plan.{given};
ghost use Rattle.deliveries.specs.Reads.{looks, OnlyReads};
ghost use Rattle.plans.specs.Opening.{IsSchemaOf, IsProgramOf};
ghost use Rattle.qbs.specs.Narrow.{start_found, covered_in, Narrows, narrow as narrows, narrow_of};

use crate::again::read_again;
use deliveries::Plan;
use deliveries::fetch::{Stop, fetch_schema, fetch_source};
use files_sinks::Files;
use java_copies::copy_program;
use java_types::Typed;
use kept_texts::text_for;
use narrowing::{Narrowed, narrow_walks, report};
use plans::opening::{open_program, open_schema};
use qbs_base::{Items, NoMemory, Status, Text};
use query_search::Pruner;
use rewrite_core::rewrite;
use schema::Schema;
use std::alloc::Global;
use text_patches::with_texts;
use verdicts::{LoopVerdict, Said};

/// The most formulas of a candidate of a loop that a query may stand for, and the most candidates of each.
const SIZE: u32 = 4;

const BUDGET: u64 = 20000;

/// What is due for the files of a schema and a source.
pub fn plan_narrow<F: Files>(
    alloc: Global,
    files: &mut F,
    schema: &Text,
    source: &Text,
    pruners: &[Pruner],
) -> Result<Plan, Stop>
    ensures reads { OnlyReads (looks F.told F.faults F.may_fail F.by_read) (schema.now ∷ source.now ∷ []) files.old files.new }
    ensures due { OrMemory result (narrows (given F.told F.faults F.may_fail files.old files.new) schema.now source.now) }
{
    let schema = fetch_schema(alloc, files, schema)?;
    let source = fetch_source(alloc, files, source)?;
    plan_texts(alloc, schema.as_slice(), source.as_slice(), pruners)
}

// What is due for their bytes.
fn plan_texts(alloc: Global, schema: &[u8], source: &[u8], pruners: &[Pruner]) -> Result<Plan, Stop>
    ensures { OrMemory result (narrow_of schema.now source.now) }
{
    let tables = open_schema(alloc, schema)?;
    let typed = open_program(alloc, &tables, source)?;
    Ok(plan_program(alloc, schema, &tables, source, &typed, pruners)?)
}

fn push_start(starts: &mut Items<u64>, verdict: LoopVerdict) -> Result<(), NoMemory>
    ensures { OnOk result (starts.new ≡ starts.old ++ start_found verdict) }
{
    match verdict.said {
        Said::Found { k: _ } => starts.push(verdict.at.start),
        _ => Ok(()),
    }
}

// Where those loops begin that gave way.
fn starts_of(alloc: Global, verdicts: &[LoopVerdict]) -> Result<Items<u64>, NoMemory>
    ensures { IfOk result (λ starts. starts ≡ flat_map start_found verdicts.now) }
{
    let mut starts = Items::new(alloc);
    for verdict in verdicts {
        push_start(&mut starts, *verdict)?;
    }
    Ok(starts)
}

// Where those loops of a program begin that a query stands for.
fn covered(
    alloc: Global,
    schema: &Schema,
    source: &[u8],
    typed: &Typed,
    pruners: &[Pruner],
) -> Result<Items<u64>, NoMemory>
    requires { IsProgramOf schema.now source.now (plain_program typed.now.program) }
    ensures { IfOk result (λ starts. starts ≡ covered_in schema.now (plain_program typed.now.program)) }
{
    let rewritten = rewrite(alloc, schema, typed, source, SIZE, BUDGET, pruners)?;
    starts_of(alloc, rewritten.verdicts.as_slice())
}

// The output of the narrowed program, and the report.
fn plan_program(
    alloc: Global,
    bytes: &[u8],
    schema: &Schema,
    source: &[u8],
    typed: &Typed,
    pruners: &[Pruner],
) -> Result<Plan, NoMemory>
    requires schema { IsSchemaOf bytes.now schema.now }
    requires program { IsProgramOf schema.now source.now (plain_program typed.now.program) }
    ensures { IfOk result (Narrows schema.now source.now (plain_program typed.now.program)) }
{
    let covered = covered(alloc, schema, source, typed, pruners)?;
    let copy = Box::new(alloc, copy_program(alloc, typed.program())?)?;
    let Narrowed {
        program,
        walks,
        patches,
    } = narrow_walks(alloc, schema, copy, covered.as_slice())?;
    let text = with_texts(alloc, source, patches.as_slice())?;
    let out = text_for(alloc, text, &program)?;
    let rep = report(alloc, walks.as_slice())?;
    read_again(alloc, schema, out.as_slice())?;
    Ok(Plan {
        status: Status::Ok,
        out,
        rep,
    })
}
