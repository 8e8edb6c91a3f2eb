// The type rules.
use crate::boxes::boxed;
use crate::parts::put_refusal;
use crate::places::put_place;
use java_ast::Program;
use java_lex::Tokens;
use java_parser::parse;
use java_types::check;
use qbs_base::{Fail, NoMemory};
use schema::Schema;
use schema_text::parse_schema;
use std::alloc::Global;

fn put_verdict(
    out: &mut String,
    alloc: Global,
    schema: &Schema,
    program: &Program,
) -> Result<(), NoMemory> {
    match boxed(alloc, check(alloc, schema, program)) {
        Ok(_) => Ok(out.push_str("well typed")?),
        Err(Fail::Fault(fault)) => {
            let rule = fault.rule;
            write!(out, "{rule:?} at ")?;
            Ok(put_place(out, &fault.at)?)
        }
        Err(Fail::NoMemory) => Err(NoMemory),
    }
}

fn put_program(out: &mut String, alloc: Global, program: &Program) -> Result<(), NoMemory> {
    match parse_schema(alloc, b"CREATE TABLE User (id BIGINT);") {
        Ok(schema) => put_verdict(out, alloc, &schema, program),
        Err(_) => Err(NoMemory),
    }
}

/// Appends whether the program of these tokens is well typed under a schema of one table, or the
/// fault that is kept.
pub fn put_checked(out: &mut String, alloc: Global, tokens: &Tokens) -> Result<(), NoMemory> {
    match boxed(alloc, parse(alloc, tokens)) {
        Ok(program) => put_program(out, alloc, &program),
        Err(refusal) => put_refusal(out, &refusal),
    }
}
