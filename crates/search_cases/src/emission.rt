// The queries that stand for the first accumulators of fragments.
ghost use Rattle.std.specs.Prelude.{◌≡◌, true};
ghost use Rattle.kernel_lang.specs.Whole.{fragment_of};
ghost use Rattle.sql_parts.specs.Given.{IsOutermost};

use crate::known::{arguments_of, queries_of};
use crate::words::{numbers_from, word_at};
use kernel_lang::{Candidate, KFragment};
use qbs_base::{NoMemory, NumberLists};
use schema_text::parse_schema;
use sql_ast::Queries;
use sql_emit::{Emitted, emit_exactly};
use sql_text::print_query;
use std::alloc::Global;

/// The tables that fragments are over.
pub static TABLES: &str =
    "CREATE TABLE User (id BIGINT, name TEXT, roleId BIGINT, age BIGINT, active BOOLEAN);
CREATE TABLE Role (id BIGINT, label TEXT);";

fn stands_outside(frag: &KFragment) -> bool
    ensures { result ≡ true → IsOutermost (fragment_of frag.now) 0 }
{
    match frag.accs.as_slice().get(0) {
        Some(acc) => acc.base == 0,
        None => false,
    }
}

fn emitted(
    alloc: Global,
    frag: &KFragment,
    candidate: &Candidate,
    known: &Queries,
    arguments: &NumberLists,
) -> Result<Box<Emitted>, NoMemory>
    requires { IsOutermost (fragment_of frag.now) 0 }
{
    let Ok(schema) = parse_schema(alloc, TABLES.as_bytes()) else {
        return Err(NoMemory);
    };
    match emit_exactly(alloc, &schema, frag, candidate, 0, known, arguments) {
        Ok(emitted) => Ok(Box::new(alloc, emitted)?),
        Err(NoMemory) => Err(NoMemory),
    }
}

/// Appends a query, with the entries that its parameters are.
pub fn put_query(out: &mut String, alloc: Global, emitted: &Emitted) -> Result<(), NoMemory> {
    let text = print_query(alloc, &emitted.query)?;
    out.push_str(text.as_str())?;
    for entry in emitted.entries.as_slice() {
        write!(out, " entry {entry}")?;
    }
    out.push('\n')?;
    Ok(())
}

/// Appends the query of the first accumulator, with the entries that its parameters are, for known queries of a label and a candidate.
pub fn put_emitted(
    out: &mut String,
    alloc: Global,
    frag: &KFragment,
    words: &[&str],
) -> Result<(), NoMemory> {
    if !stands_outside(frag) {
        out.push_str("in a loop\n")?;
        return Ok(());
    }
    let known = queries_of(alloc, word_at(words, 1))?;
    let arguments = arguments_of(alloc, word_at(words, 1))?;
    let candidate = numbers_from(alloc, words, 2)?;
    let emitted = emitted(alloc, frag, &candidate, &known, &arguments)?;
    put_query(out, alloc, &emitted)
}
