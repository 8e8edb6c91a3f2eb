// The command `sql`.
ghost use Rattle.std.specs.Prelude.{◌≡◌, Some, length, ◌∷◌, []};
ghost use Rattle.java_mean.specs.Rules.{has_order as query_has_order};
ghost use Rattle.java_types.specs.Texts.{read_by};
ghost use Rattle.sql_ast.specs.Reading.{query as query_of};
ghost use Rattle.sql_exec.specs.Answered.{answered as meaning_of, IsAnswerable};
ghost use Rattle.deliveries.specs.Code.{OrMemory};
ghost use Rattle.deliveries.specs.Plan.{given};
ghost use Rattle.deliveries.specs.Reads.{looks};
ghost use Rattle.plans.specs.Tables.{over_tables};
ghost use Rattle.qbs.specs.Code.{answer_of, answer_ordered};
ghost use Rattle.qbs.specs.Sql.{sql as sqls, sql_of, answer_plan};
ghost use Rattle.qbs.specs.Top.{ReadsTables, ReadsTablesOf};

use deliveries::Plan;
use deliveries::fetch::{MOST_TABLES, Stop, fetch_schema};
use files_sinks::Files;
use java_mean::{RunFault, TypeRule};
use plans::lines::{fault_refused, nowhere, word_refused};
use plans::opening::{open_query, open_schema};
use plans::results::output;
use plans::tables::{TableTexts, fetch_tables, load_tables};
use qbs_base::{Scalars, Table, Text, Value};
use schema::Schema;
use sql_ast::{Query, order_complete};
use sql_exec::{Answer, answer_indexed};
use std::alloc::Global;

/// What is due for a schema, the files of its tables in a folder, and a query.
pub fn plan_sql<F: Files>(
    alloc: Global,
    files: &mut F,
    schema: &Text,
    folder: &Text,
    query: &Text,
) -> Result<Plan, Stop>
    ensures reads { ReadsTables (looks F.told F.faults F.may_fail F.by_read) (schema.now ∷ []) folder.now schema.now files.old files.new }
    ensures due { OrMemory result (sqls (given F.told F.faults F.may_fail files.old files.new) schema.now folder.now query.now) }
{
    let schema = fetch_schema(alloc, files, schema)?;
    plan_tables(alloc, files, schema.as_slice(), folder, query)
}

// What is due for the bytes of a schema, and the files of the tables.
fn plan_tables<F: Files>(
    alloc: Global,
    files: &mut F,
    schema: &[u8],
    folder: &Text,
    query: &Text,
) -> Result<Plan, Stop>
    ensures reads { ReadsTablesOf (looks F.told F.faults F.may_fail F.by_read) folder.now schema.now files.old files.new }
    ensures due { OrMemory result (
        over_tables (given F.told F.faults F.may_fail files.old files.new) folder.now schema.now (λ tables texts. sql_of tables query.now texts)) }
{
    let schema = open_schema(alloc, schema)?;
    let mut texts = TableTexts::new(alloc);
    fetch_tables(
        schema.tables(),
        alloc,
        files,
        folder,
        MOST_TABLES,
        &mut texts,
    )?;
    plan_query(alloc, &schema, &texts, query)
}

#[tactic(auto, using(crate::proofs::Asked::answerable, crate::proofs::Asked::asked))]
fn plan_query(alloc: Global, schema: &Schema, texts: &TableTexts, text: &Text) -> Result<Plan, Stop>
    requires { length texts.now ≡ length schema.now }
    ensures { OrMemory result (λ plan. plan ≡ answer_of schema.now texts.now (read_by schema.now text.now)) }
{
    let _size = text.as_str().len();
    let query = open_query(alloc, schema, text)?;
    let q = Box::new(alloc, query)?;
    plan_ordered(alloc, schema, texts, &q)
}

fn plan_ordered(alloc: Global, schema: &Schema, texts: &TableTexts, q: &Query) -> Result<Plan, Stop>
    requires tables { length texts.now ≡ length schema.now }
    requires answerable { IsAnswerable (query_of q.now) }
    ensures { OrMemory result (λ plan. plan ≡ answer_ordered schema.now texts.now (query_of q.now) (query_has_order (Some (query_of q.now)))) }
{
    if !order_complete(q) {
        return Err(word_refused(alloc, TypeRule::UnorderedQuery));
    }
    if !q.params().is_empty() {
        return Err(word_refused(alloc, TypeRule::Arity));
    }
    let db = load_tables(alloc, schema, texts.as_slice())?;
    let found = answer_indexed(alloc, q, &db, &Scalars::new(alloc))?;
    plan_answer(alloc, schema.tables(), found)
}

fn plan_answer(alloc: Global, tables: &[Table], found: Answer) -> Result<Plan, Stop>
    ensures { OrMemory result (λ plan. plan ≡ answer_plan tables.now (meaning_of found)) }
{
    match found {
        Answer::Rows(rows) => Ok(output(alloc, tables, &[], &Some(Value::Many(rows)))?),
        Answer::One(x) => Ok(output(alloc, tables, &[], &Some(Value::One(x)))?),
        Answer::SumTooLarge => Err(fault_refused(alloc, RunFault::SumTooLarge, nowhere())),
    }
}
