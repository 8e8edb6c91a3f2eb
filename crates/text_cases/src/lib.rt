//! Answers to cases, a line each: what the readers read of words, schemas, tables, sources and queries, and what is made of values.
#![tactic(auto)]

mod answers;
mod boxes;
mod changes;
mod checked;
mod commands;
mod escapes;
mod fronts;
mod joins;
mod options;
mod parts;
mod places;
mod programs;
mod queries;
mod repeats;
mod schemas;
mod sources;
mod stores;
mod tokens;
mod values;

use crate::escapes::bytes_of;
use qbs_base::{NoMemory, boxed};
use std::alloc::Global;

// What is said of sources and of what is changed in them.
fn put_of_source(
    out: &mut String,
    alloc: Global,
    kind: &str,
    fields: &[Vec<u8>],
) -> Result<(), NoMemory> {
    match kind {
        "copied" | "replaced" | "put" | "placed" => changes::put_changed(out, alloc, kind, fields),
        _ => sources::put_answer(out, alloc, kind, fields),
    }
}

// What is said of values and of what holds them.
fn put_of_value(
    out: &mut String,
    alloc: Global,
    kind: &str,
    fields: &[Vec<u8>],
) -> Result<(), NoMemory> {
    match kind {
        "one" | "whole" | "many" => values::put_value(out, alloc, kind, fields),
        "database" => values::put_database(out, alloc, fields),
        "files" | "clean" | "sink" => stores::put_answers(out, alloc, kind, fields),
        _ => put_of_source(out, alloc, kind, fields),
    }
}

// What the readers answer to the fields of a case of this kind.
fn put_answer(
    out: &mut String,
    alloc: Global,
    kind: &str,
    fields: &[Vec<u8>],
) -> Result<(), NoMemory> {
    match kind {
        "words" => commands::put_command(out, alloc, fields),
        "options" => options::put_run(out, alloc, fields),
        "schema" | "table" | "tall" => schemas::put_answer(out, alloc, kind, fields),
        "fronts" => fronts::put_fronts(out, alloc, fields),
        "names" => fronts::put_names(out, alloc, fields),
        "query" | "order" | "answer" | "joined" => queries::put_found(out, alloc, kind, fields),
        _ => put_of_value(out, alloc, kind, fields),
    }
}

// The line of a case: its kind and its fields, with tabs between them.
fn put_case(out: &mut String, alloc: Global, line: &str) -> Result<(), NoMemory> {
    let mut fields = boxed(alloc, Vec::new(alloc))?;
    for field in line.split('\t').skip(1) {
        fields.push(bytes_of(alloc, field)?)?;
    }
    let kind = line.split('\t').next().unwrap_or("");
    put_answer(out, alloc, kind, &fields)?;
    out.push('\n')?;
    Ok(())
}

/// The answers to cases, one behind the other, each with a line end. A case is a line: its kind, and then its fields, each behind a tab.
/// In a field `\n`, `\r`, `\t` and `\\` stand for these bytes, and `\xHH` for any byte. A kind that isn't known is answered so.
pub fn text_of_answers(alloc: Global, cases: &str) -> Result<String, NoMemory> {
    let mut out = String::new(alloc);
    for line in cases.lines() {
        put_case(&mut out, alloc, line)?;
    }
    Ok(out)
}
