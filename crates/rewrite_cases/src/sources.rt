// Sources under schemas.
ghost use Rattle.std.specs.Prelude.{◌≡◌, Ok};
ghost use Rattle.java_lex.specs.Lexing.{lexed};

use crate::limits::Limits;
use crate::rewriting::put_rewritten;
use java_lex::{Tokens, lex};
use java_parser::parse;
use qbs_base::{Fail, NoMemory};
use schema::Schema;
use schema_text::parse_schema;
use std::alloc::Global;

fn put_tokens(
    out: &mut String,
    alloc: Global,
    schema: &Schema,
    source: &[u8],
    tokens: &Tokens,
    limits: Limits,
) -> Result<(), NoMemory>
    requires { lexed source.now ≡ Ok tokens.now }
{
    match parse(alloc, tokens) {
        Ok(program) => put_rewritten(out, alloc, schema, source, &program, limits),
        Err(Fail::Fault(_)) => Ok(out.push_str("no program\n")?),
        Err(Fail::NoMemory) => Err(NoMemory),
    }
}

fn put_lexed(
    out: &mut String,
    alloc: Global,
    schema: &Schema,
    source: &[u8],
    limits: Limits,
) -> Result<(), NoMemory> {
    match lex(alloc, source) {
        Ok(tokens) => put_tokens(out, alloc, schema, source, &tokens, limits),
        Err(Fail::Fault(_)) => Ok(out.push_str("no tokens\n")?),
        Err(Fail::NoMemory) => Err(NoMemory),
    }
}

/// Appends what is said of the loops of a source under a schema, and the source in which those have given way for which a candidate was
/// found; or why it is no program.
pub fn put_source(
    out: &mut String,
    alloc: Global,
    schema: &[u8],
    source: &[u8],
    limits: Limits,
) -> Result<(), NoMemory> {
    match parse_schema(alloc, schema) {
        Ok(schema) => put_lexed(out, alloc, &schema, source, limits),
        Err(Fail::Fault(_)) => Ok(out.push_str("no schema\n")?),
        Err(Fail::NoMemory) => Err(NoMemory),
    }
}
