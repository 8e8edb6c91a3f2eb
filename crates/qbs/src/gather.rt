// The command `gather`.
ghost use Rattle.std.specs.Prelude.{◌≡◌, ◌≤◌, ◌++◌, IfOk, OnOk, ◌∷◌, [], true, length, map};
ghost use Rattle.std.specs.List.{AllByRecursion, flat_map};
ghost use Rattle.java_ast.specs.Reading.{program as plain_program};
ghost use Rattle.kernel_lang.specs.Typed.{is_typed};
ghost use Rattle.kernel_lang.specs.Whole.{fragment_of};
ghost use Rattle.templates.specs.Numbered.{candidates_of};
ghost use Rattle.verdicts.specs.Reports.{verdict_line, pruned_line};
ghost use Rattle.proof_store.specs.Grammar.{HasStore, IsItemOf};
ghost use Rattle.proof_store.specs.Texts.{store_text};
ghost use Rattle.rewrite_core.specs.Searches.{plain_search};
ghost use Rattle.deliveries.specs.Code.{OrMemory};
ghost use Rattle.deliveries.specs.Plan.{given};
ghost use Rattle.deliveries.specs.Reads.{looks, OnlyReads};
ghost use Rattle.plans.specs.Opening.{IsProgramOf};
ghost use Rattle.qbs.specs.Gather.{SearchesGather, GathersStore, gather as gathers, gather_of};
ghost use Rattle.qbs.specs.Rewrite.{size_of as size_in, budget_of as budget_in};
ghost use Rattle.qbs.specs.Within.{AreWithin};

use crate::rewrite::{budget_of, size_of};
use deliveries::Plan;
use deliveries::fetch::{Stop, fetch_schema, fetch_source};
use files_sinks::Files;
use java_types::Typed;
use plans::opening::{open_program, open_schema};
use proof_store::{Bank, gather, print_store};
use qbs_base::{Bytes, NoMemory, Status, Text};
use rewrite_core::{Search, search_loops};
use schema::Schema;
use std::alloc::Global;
use verdicts::{LoopVerdict, report};
use words::Options;

/// What is due for the files of a schema and a source.
pub fn plan_gather<F: Files>(
    alloc: Global,
    files: &mut F,
    options: &Options,
    schema: &Text,
    source: &Text,
) -> Result<Plan, Stop>
    requires { AreWithin options.now }
    ensures reads { OnlyReads (looks F.told F.faults F.may_fail F.by_read) (schema.now ∷ source.now ∷ []) files.old files.new }
    ensures due { OrMemory result (gathers (given F.told F.faults F.may_fail files.old files.new) options.now schema.now source.now) }
{
    let schema = fetch_schema(alloc, files, schema)?;
    let source = fetch_source(alloc, files, source)?;
    plan_texts(alloc, options, schema.as_slice(), source.as_slice())
}

// What is due for their bytes.
fn plan_texts(alloc: Global, options: &Options, schema: &[u8], source: &[u8]) -> Result<Plan, Stop>
    requires { AreWithin options.now }
    ensures { OrMemory result (gather_of options.now schema.now source.now) }
{
    let tables = open_schema(alloc, schema)?;
    let typed = open_program(alloc, &tables, source)?;
    Ok(plan_program(alloc, options, &tables, source, &typed)?)
}

// What is searched leaves its items in the bank. The list is halved.
fn gather_all(
    alloc: Global,
    schema: &Schema,
    size: u32,
    searches: &[Search],
    bank: &mut Bank,
) -> Result<(), NoMemory>
    requires size { size ≤ 8 }
    requires fit { AllByRecursion (λ s. is_typed schema.now (fragment_of s.frag.value) ≡ true) searches.now }
    requires before { AllByRecursion (λ s. s.before ≤ length (candidates_of (fragment_of s.frag.value) size)) searches.now }
    ensures gathers { OnOk result (SearchesGather schema.now size (map plain_search searches.now) bank.old bank.new) }
    ensures items { AllByRecursion (IsItemOf schema.now) bank.old → OnOk result (AllByRecursion (IsItemOf schema.now) bank.new) }
{
    if searches.is_empty() {
        return Ok(());
    }
    if searches.len() == 1 {
        let search = &searches[0];
        return gather(alloc, schema, &search.frag, size, search.before, bank);
    }
    let (first, others) = searches.split_at(searches.len() / 2);
    gather_all(alloc, schema, size, first, &mut *bank)?;
    gather_all(alloc, schema, size, others, bank)
}

// The store of what is gathered, and the report.
fn plan_program(
    alloc: Global,
    options: &Options,
    schema: &Schema,
    source: &[u8],
    typed: &Typed,
) -> Result<Plan, NoMemory>
    requires within { AreWithin options.now }
    requires program { IsProgramOf schema.now source.now (plain_program typed.now.program) }
    ensures { IfOk result (GathersStore schema.now (size_in options.now) (budget_in options.now) (plain_program typed.now.program)) }
{
    let size = size_of(options);
    let budget = budget_of(options);
    let searching = search_loops(alloc, schema, typed, size, budget)?;
    let mut bank = Bank::new(alloc);
    gather_all(
        alloc,
        schema,
        size,
        searching.searches.as_slice(),
        &mut bank,
    )?;
    plan_bank(alloc, schema, &bank, searching.verdicts.as_slice())
}

// The text of a bank, and the report.
fn plan_bank(
    alloc: Global,
    schema: &Schema,
    bank: &Bank,
    verdicts: &[LoopVerdict],
) -> Result<Plan, NoMemory>
    requires { AllByRecursion (IsItemOf schema.now) bank.now }
    ensures plan { IfOk result (λ plan.
        plan ≡ record { status = Status.Ok; out = store_text bank.now; rep = flat_map verdict_line verdicts.now ++ pruned_line 0 }) }
    ensures store { OnOk result (HasStore schema.now (store_text bank.now) bank.now) }
{
    let text = print_store(alloc, schema, bank)?;
    let rep = report(alloc, verdicts, 0)?;
    Ok(Plan {
        status: Status::Ok,
        out: Bytes::from_vec(text.into_vec()),
        rep,
    })
}
