// Cases about sources.
use crate::checked::put_checked;
use crate::parts::{put_expression, put_key, put_parsed_type};
use crate::places::field;
use crate::programs::{put_grammar, put_memory, put_outcome, put_parsed, put_stop};
use crate::repeats::source_of;
use crate::tokens::{put_fault, put_tokens};
use java_lex::{Tokens, lex};
use qbs_base::{Fail, NoMemory};
use std::alloc::Global;

fn put_read(
    out: &mut String,
    alloc: Global,
    kind: &str,
    fields: &[Vec<u8>],
    tokens: &Tokens,
) -> Result<(), NoMemory> {
    match kind {
        "tokens" => Ok(put_tokens(out, tokens)?),
        "class" => put_parsed(out, alloc, tokens, false),
        "program" => put_parsed(out, alloc, tokens, true),
        "outcome" => put_outcome(out, alloc, tokens),
        "stop" => put_stop(out, alloc, field(fields, 0), tokens),
        "grammar" => put_grammar(out, alloc, tokens),
        "memory" => put_memory(out, alloc, tokens),
        "type" => put_parsed_type(out, alloc, tokens),
        "key" => put_key(out, tokens),
        "expression" => put_expression(out, alloc, tokens),
        "types" => put_checked(out, alloc, tokens),
        _ => Ok(out.push_str("no such case")?),
    }
}

/// Appends what is read of the source that the fields make together.
pub fn put_answer(
    out: &mut String,
    alloc: Global,
    kind: &str,
    fields: &[Vec<u8>],
) -> Result<(), NoMemory> {
    let source = source_of(alloc, fields)?;
    match lex(alloc, source.as_slice()) {
        Ok(tokens) => put_read(out, alloc, kind, fields, &tokens),
        Err(Fail::Fault(fault)) => Ok(put_fault(out, &fault)?),
        Err(Fail::NoMemory) => Err(NoMemory),
    }
}
