// What is said of the loops of a source text.
ghost use Rattle.std.specs.Prelude.{◌≡◌};
ghost use Rattle.java_ast.specs.Reading.{program as plain_program};
ghost use Rattle.java_types.specs.Texts.{read_by};
ghost use Rattle.java_mean.specs.WellTyped.{IsWellTyped};
ghost use Rattle.loop_text.specs.Statements.Loops.{loops_of};

use crate::shown::put_lowered;
use java_ast::{Path, Paths, Program, at_path};
use java_lex::{Tokens, lex};
use java_parser::parse;
use java_types::{Typed, check};
use lowering::{Lowered, Outside, loops, lower, needed};
use qbs_base::{Fail, NoMemory, Span, Text};
use schema::Schema;
use schema_text::parse_schema;
use std::alloc::{AllocError, Global};

/// How much is said of a loop of the kernel form.
#[derive(Clone, Copy)]
pub enum Detail {
    Verdict,
    Fragment,
}

fn put_place(out: &mut String, at: &Span) -> Result<(), AllocError> {
    let line = at.line;
    let column = at.column;
    write!(out, "{line}:{column}")
}

// The place of the loop to which a path leads.
fn put_loop(out: &mut String, program: &Program, path: &Path) -> Result<(), AllocError> {
    out.push_str("loop ")?;
    match at_path(program, path) {
        Some(s) => put_place(out, &s.span),
        None => out.push_str("nowhere"),
    }
}

fn put_outside(out: &mut String, outside: &Outside) -> Result<(), AllocError> {
    let rule = outside.rule;
    write!(out, " outside K{rule} at ")?;
    put_place(out, &outside.at)?;
    out.push_str("\n")
}

fn put_inside(
    out: &mut String,
    alloc: Global,
    typed: &Typed,
    path: &Path,
    lowered: &Lowered,
    detail: Detail,
) -> Result<(), NoMemory> {
    match detail {
        Detail::Verdict => Ok(out.push_str(" lowered\n")?),
        Detail::Fragment => {
            let needed = needed(alloc, typed.program(), path)?;
            out.push_str("\n")?;
            put_lowered(out, alloc, lowered, &needed)
        }
    }
}

// What is said of the loop with this number.
fn put_number(
    out: &mut String,
    alloc: Global,
    schema: &Schema,
    typed: &Typed,
    paths: &Paths,
    number: usize,
    detail: Detail,
) -> Result<(), NoMemory>
    requires typed { IsWellTyped schema.now (read_by schema.now) (plain_program typed.now.program) }
    requires loops { paths.now ≡ loops_of (plain_program typed.now.program) }
{
    let Some(path) = paths.as_slice().get(number) else {
        return Ok(());
    };
    put_loop(out, typed.program(), path)?;
    match lower(alloc, schema, typed, path) {
        Ok(lowered) => put_inside(out, alloc, typed, path, &lowered, detail),
        Err(Fail::Fault(outside)) => Ok(put_outside(out, &outside)?),
        Err(Fail::NoMemory) => Err(NoMemory),
    }
}

fn put_typed(
    out: &mut String,
    alloc: Global,
    schema: &Schema,
    typed: &Typed,
    detail: Detail,
) -> Result<(), NoMemory>
    requires typed { IsWellTyped schema.now (read_by schema.now) (plain_program typed.now.program) }
{
    let paths = loops(alloc, typed)?;
    for number in 0..paths.len() {
        put_number(out, alloc, schema, typed, &paths, number, detail)?;
    }
    Ok(())
}

fn put_program(
    out: &mut String,
    alloc: Global,
    schema: &Schema,
    program: &Program,
    detail: Detail,
) -> Result<(), NoMemory> {
    match check(alloc, schema, program) {
        Ok(typed) => put_typed(out, alloc, schema, &typed, detail),
        Err(Fail::Fault(fault)) => {
            let rule = fault.rule;
            write!(out, "{rule:?} at ")?;
            Ok(put_place(out, &fault.at)?)
        }
        Err(Fail::NoMemory) => Err(NoMemory),
    }
}

fn put_tokens(
    out: &mut String,
    alloc: Global,
    schema: &Schema,
    tokens: &Tokens,
    detail: Detail,
) -> Result<(), NoMemory> {
    match parse(alloc, tokens) {
        Ok(program) => put_program(out, alloc, schema, &program, detail),
        Err(Fail::Fault(fault)) => {
            let rule = fault.rule;
            write!(out, "{rule:?} at ")?;
            Ok(put_place(out, &fault.at)?)
        }
        Err(Fail::NoMemory) => Err(NoMemory),
    }
}

fn put_source(
    out: &mut String,
    alloc: Global,
    schema: &Schema,
    source: &[u8],
    detail: Detail,
) -> Result<(), NoMemory> {
    match lex(alloc, source) {
        Ok(tokens) => put_tokens(out, alloc, schema, &tokens, detail),
        Err(Fail::Fault(fault)) => {
            let rule = fault.rule;
            write!(out, "{rule:?} at ")?;
            Ok(put_place(out, &fault.at)?)
        }
        Err(Fail::NoMemory) => Err(NoMemory),
    }
}

/// What is said of the loops of a source text under a schema, in text order: a line for each, and behind that of a loop
/// of the kernel form its fragment where that is asked for; or why it is no well-typed program.
pub fn said_of_loops(
    alloc: Global,
    schema: &[u8],
    source: &[u8],
    detail: Detail,
) -> Result<Text, NoMemory> {
    let mut out = String::new(alloc);
    match parse_schema(alloc, schema) {
        Ok(schema) => put_source(&mut out, alloc, &schema, source, detail)?,
        Err(Fail::Fault(_)) => out.push_str("no schema")?,
        Err(Fail::NoMemory) => return Err(NoMemory),
    }
    Ok(Text::from_string(out))
}
