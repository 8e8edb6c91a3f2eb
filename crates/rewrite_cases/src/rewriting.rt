// The loops of a program in text order, each tried on the program as it stands.
ghost use Rattle.std.specs.Prelude.{◌≤◌};
ghost use Rattle.java_ast.specs.Reading.{program as plain_program};
ghost use Rattle.java_mean.specs.WellTyped.{IsWellTyped};
ghost use Rattle.java_types.specs.Texts.{read_by};
ghost use Rattle.rewrite_core.specs.Output.{IsSourceOf};

use crate::limits::Limits;
use java_ast::Program;
use java_text::print_program;
use java_types::{Typed, check};
use qbs_base::{Fail, NoMemory, Span};
use rewrite_core::rewrite;
use schema::Schema;
use std::alloc::{AllocError, Global};
use verdicts::{LoopVerdict, Said};

fn put_place(out: &mut String, at: &Span) -> Result<(), AllocError> {
    let line = at.line;
    let column = at.column;
    write!(out, "{line}:{column}")
}

fn put_said(out: &mut String, said: &Said) -> Result<(), AllocError> {
    match said {
        Said::Found { k } => write!(out, "found {k}"),
        Said::NoneOf { n } => write!(out, "none of {n}"),
        Said::Budget { b, n } => write!(out, "budget {b} of {n}"),
        Said::Outside { rule, at } => {
            write!(out, "outside K{rule} at ")?;
            put_place(out, at)
        }
    }
}

fn put_verdict(out: &mut String, verdict: &LoopVerdict) -> Result<(), AllocError> {
    out.push_str("loop ")?;
    put_place(out, &verdict.at)?;
    out.push(' ')?;
    put_said(out, &verdict.said)?;
    out.push('\n')
}

fn put_bytes(out: &mut String, bytes: &[u8]) -> Result<(), AllocError> {
    match str::from_utf8(bytes) {
        Ok(text) => out.push_str(text),
        Err(_) => out.push_str("no UTF-8\n"),
    }
}

// The same of a program that is well typed.
fn put_typed(
    out: &mut String,
    alloc: Global,
    schema: &Schema,
    source: &[u8],
    typed: &Typed,
    limits: Limits,
) -> Result<(), NoMemory>
    requires typed { IsWellTyped schema.now (read_by schema.now) (plain_program typed.now.program) }
    requires source { IsSourceOf source.now (plain_program typed.now.program) }
    requires size { limits.size ≤ 8 }
    requires budget { limits.budget ≤ 1000000 }
{
    let rewritten = rewrite(
        alloc,
        schema,
        typed,
        source,
        limits.size,
        limits.budget,
        &[],
    )?;
    for verdict in rewritten.verdicts.as_slice() {
        put_verdict(out, verdict)?;
    }
    put_bytes(out, rewritten.text.as_slice())?;
    Ok(())
}

/// Appends a line for each loop that is tried, and the output of the program after all tries. Nothing is said where the size is over 8 or
/// the budget over 1,000,000.
pub fn put_rewritten(
    out: &mut String,
    alloc: Global,
    schema: &Schema,
    source: &[u8],
    program: &Program,
    limits: Limits,
) -> Result<(), NoMemory>
    requires { IsSourceOf source.now (plain_program program.now) }
{
    if limits.size > 8 || limits.budget > 1_000_000 {
        return Ok(());
    }
    match check(alloc, schema, program) {
        Ok(typed) => put_typed(out, alloc, schema, source, &typed, limits),
        Err(Fail::Fault(_)) => {
            out.push_str("not well typed\n")?;
            out.push_str(print_program(alloc, program)?.as_str())?;
            Ok(())
        }
        Err(Fail::NoMemory) => Err(NoMemory),
    }
}
