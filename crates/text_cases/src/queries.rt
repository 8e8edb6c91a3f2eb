// Texts of queries.
ghost use Rattle.std.specs.Prelude.{IfOk};
ghost use Rattle.sql_ast.specs.Reading.{query};
ghost use Rattle.sql_exec.specs.Answered.{IsAnswerable};

use crate::answers::put_answer;
use crate::boxes::boxed;
use crate::escapes::put_line;
use crate::joins::put_joined;
use crate::places::text_of;
use qbs_base::{Fail, NoMemory, Text};
use schema::Schema;
use schema_text::parse_schema;
use sql_ast::{Query, order_complete};
use sql_parse::{SqlFault, parse_query};
use sql_text::print_query;
use std::alloc::Global;

static TABLES: &str =
    "CREATE TABLE User (id BIGINT, name TEXT, roleId BIGINT, age BIGINT, active BOOLEAN);
CREATE TABLE Role (id BIGINT, name TEXT);
CREATE TABLE Pair (count BIGINT, min BIGINT);";

static NUMBERS: &str = "CREATE TABLE T (number BIGINT);";

static JOINED: &str =
    "CREATE TABLE User (id BIGINT, roleId BIGINT, place BIGINT); CREATE TABLE Role (id BIGINT);";

fn put_query(out: &mut String, alloc: Global, query: &Query) -> Result<(), NoMemory> {
    let text = print_query(alloc, query)?;
    put_line(out, text.as_str())?;
    Ok(())
}

fn put_order(out: &mut String, query: &Query) -> Result<(), NoMemory> {
    let is_complete = order_complete(query);
    out.push_str(if is_complete {
        "complete"
    } else {
        "not complete"
    })?;
    Ok(())
}

// The query that a text has, in a box, or the rule that the text breaks.
#[tactic(auto, using(crate::proofs::Answerable::answerable))]
fn query_of(alloc: Global, schema: &Schema, text: &Text) -> Result<Box<Query>, Fail<SqlFault>>
    ensures { IfOk result (λ q. IsAnswerable (query q.value)) }
{
    let _size = text.as_str().len();
    match parse_query(alloc, schema, text) {
        Ok(q) => Ok(Box::new(alloc, q)?),
        Err(fail) => Err(fail),
    }
}

// What is said of a query. Behind the text of one that is answered stand the numbers of the table.
fn put_of_query(
    out: &mut String,
    alloc: Global,
    kind: &str,
    q: &Query,
    numbers: &[Vec<u8>],
) -> Result<(), NoMemory>
    requires { IsAnswerable (query q.now) }
{
    match kind {
        "order" => put_order(out, q),
        "answer" => put_answer(out, alloc, q, numbers),
        "joined" => put_joined(out, alloc, q, numbers),
        _ => put_query(out, alloc, q),
    }
}

/// Appends the canonical text of the query of a text, whether its order is complete, its answer, or how often it
/// joins; or the rule that the text breaks.
pub fn put_found(
    out: &mut String,
    alloc: Global,
    kind: &str,
    fields: &[Vec<u8>],
) -> Result<(), NoMemory> {
    let Some((text, numbers)) = fields.split_first() else {
        return Ok(());
    };
    let tables = match kind {
        "answer" => NUMBERS,
        "joined" => JOINED,
        _ => TABLES,
    };
    let Ok(schema) = boxed(alloc, parse_schema(alloc, tables.as_bytes())) else {
        return Err(NoMemory);
    };
    let text = text_of(alloc, text)?;
    match query_of(alloc, &schema, &text) {
        Ok(q) => put_of_query(out, alloc, kind, &q, numbers),
        Err(Fail::Fault(fault)) => {
            let rule = fault.rule;
            Ok(write!(out, "{rule:?}")?)
        }
        Err(Fail::NoMemory) => Err(NoMemory),
    }
}
