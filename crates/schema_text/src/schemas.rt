// Schemas from bytes.
ghost use Rattle.std.specs.Prelude.{◌≡◌, List, IfOk, IfErr, Ok};
ghost use Rattle.qbs_base.specs.declared.columns.Table.{Table as PlainTable};
ghost use Rattle.qbs_base.specs.Memory.{Answers};
ghost use Rattle.schema.specs.Tokens.{tokens_of, kinds_of};
ghost use Rattle.schema.specs.Grammar.{HasSchema};
ghost use Rattle.schema.specs.Rules.{IsSchema, AreNamed};
ghost use Rattle.schema.specs.Reading.{read_of};
ghost use Rattle.schema.specs.Schemas.{left_of, schema_from, schema_of};
ghost use Rattle.schema.specs.Faults.{IsRightFault};

use crate::lexing::{Tokens, lex};
use crate::marking::tables;
use crate::names::first_broken;
use crate::parsing::read;
use qbs_base::{Fail, Tables};
use readers::{Fault, ReadError};
use schema::token::first_span;
use schema::{Schema, SchemaFault, SchemaRule};
use std::alloc::Global;

/// How many tokens are left from a fault on.
fn left(fault: Fault) -> usize
    ensures { result ≡ left_of fault }
{
    match fault {
        Fault::Unexpected(left) => left,
        Fault::TooDeep(left) => left,
    }
}

/// The tables of the tokens, or their fault.
fn judge(alloc: Global, tokens: &Tokens) -> Result<Tables, Fail<SchemaFault>>
    ensures { Answers result (schema_from tokens.now.end tokens.now.list.items (read_of (kinds_of tokens.now.list.items))) }
{
    let list = tokens.list.as_slice();
    let fault = match read(alloc, list) {
        Ok(drafts) => {
            return match first_broken(alloc, list, 0)? {
                Some(fault) => Err(Fail::Fault(fault)),
                None => Ok(tables(alloc, drafts.as_slice())?),
            };
        }
        Err(ReadError::Memory) => return Err(Fail::NoMemory),
        Err(ReadError::Fault(fault)) => fault,
    };
    let behind = left(fault);
    match first_broken(alloc, list, behind)? {
        Some(fault) => Err(Fail::Fault(fault)),
        None => Err(Fail::Fault(SchemaFault {
            rule: SchemaRule::BadToken,
            at: first_span(tokens.end, &list[list.len() - behind..]),
        })),
    }
}

/// The tables of a text, or its fault.
#[tactic(auto, unfolding(schema::specs::Schemas::schema_of))]
fn tables_of(alloc: Global, bytes: &[u8]) -> Result<Tables, Fail<SchemaFault>>
    ensures { Answers result (schema_of bytes.now) }
{
    let tokens = lex(alloc, bytes)?;
    judge(alloc, &tokens)
}

/// Reads a schema. The fault is the first in the text, and at one name the rule of the smallest
/// number. `BadToken` stands at the first token, or the first byte that begins no token, with which
/// no schema goes on, or at the end of the text; every other rule at the name that breaks it, which
/// is the second of two equal names, the name of the 65th table or that of a 33rd column.
pub fn parse_schema(alloc: Global, bytes: &[u8]) -> Result<Schema, Fail<SchemaFault>>
    ensures value { Answers result (schema_of bytes.now) }
    // What is read is a schema by the grammar and the rules.
    ensures found { IfOk result (λ schema. HasSchema (kinds_of (tokens_of bytes.now)) schema) }
    ensures sound { IfOk result (λ schema. IsSchema schema) }
    ensures named { IfOk result (λ schema. AreNamed schema) }
    // What is one is read.
    ensures only { (tables : List PlainTable) → HasSchema (kinds_of (tokens_of bytes.now)) tables → IsSchema tables → Answers result (Ok tables) }
    ensures fault { IfErr result (IsRightFault bytes.now) }
{
    match tables_of(alloc, bytes) {
        Ok(tables) => Ok(Schema::from_tables(tables)),
        Err(fail) => Err(fail),
    }
}
