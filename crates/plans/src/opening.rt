// What commands begin with: a schema, a map, a source with a well-typed program, a bundle, and the query of a text.
ghost use Rattle.std.specs.Prelude.{◌≡◌};
ghost use Rattle.deriv_check.specs.Bundles.{entries_of};
ghost use Rattle.deriv_check.specs.Grammar.{HasBundle};
ghost use Rattle.java_ast.specs.Reading.{program as plain_program};
ghost use Rattle.java_mean.specs.WellTyped.{IsWellTyped};
ghost use Rattle.java_grammar.specs.Grammar.{IsReadable};
ghost use Rattle.java_types.specs.Texts.{read_by};
ghost use Rattle.sql_ast.specs.Reading.{query as plain_query};
ghost use Rattle.sql_ast.specs.Texts.{HasQuery};
ghost use Rattle.deliveries.specs.Code.{Goes};
ghost use Rattle.plans.specs.Opening.{IsSchemaOf, BreaksSchema, schema_refusal, IsMapOf, BreaksMap, map_refusal, HasTokens, LacksTokens, lex_refusal, HasKept, parse_refusal, HasLeast, type_refusal, IsProgramOf, HasNoProgram, BreaksBundle, bundle_refusal, HasNoQuery};
ghost use Rattle.deliveries.specs.Steps.{refused};

use crate::lines::{
    bundle_refused, lex_refused, map_refused, parse_refused, schema_refused, type_refused,
    word_refused,
};
use deliveries::fetch::Stop;
use deliveries::found::{fault_of, value_of};
use deriv_check::{Bundle, parse_bundle};
use java_ast::Program;
use java_lex::{Tokens, lex};
use java_mean::TypeRule;
use java_parser::parse;
use java_types::{Typed, check};
use qbs_base::{Fail, Text};
use schema::Schema;
use schema_text::parse_schema;
use sql_ast::Query;
use sql_parse::parse_query;
use std::alloc::Global;
use view_map::{ViewMap, parse_map};

/// The schema that bytes are, or the refusal of its first fault.
#[tactic(auto, using(crate::proofs::Opened::schema_stops))]
pub fn open_schema(alloc: Global, bytes: &[u8]) -> Result<Schema, Stop>
    ensures { Goes result (IsSchemaOf bytes.now) (refused (BreaksSchema bytes.now) schema_refusal) }
{
    match parse_schema(alloc, bytes) {
        Ok(schema) => Ok(schema),
        Err(Fail::Fault(fault)) => Err(schema_refused(alloc, &fault)),
        Err(Fail::NoMemory) => Err(Stop::Memory),
    }
}

/// The map that bytes are under a schema, or the refusal of its first fault.
#[tactic(auto, using(crate::proofs::Opened::map_stops))]
pub fn open_map(alloc: Global, schema: &Schema, bytes: &[u8]) -> Result<ViewMap, Stop>
    ensures { Goes result (IsMapOf schema.now bytes.now) (refused (BreaksMap schema.now bytes.now) (map_refusal bytes.now)) }
{
    match parse_map(alloc, schema, bytes) {
        Ok(map) => Ok(map),
        Err(Fail::Fault(fault)) => Err(map_refused(alloc, bytes, &fault)),
        Err(Fail::NoMemory) => Err(Stop::Memory),
    }
}

/// The tokens that bytes have, or the refusal of their first fault.
#[tactic(auto, using(crate::proofs::Opened::tokens_stop))]
pub fn open_tokens(alloc: Global, bytes: &[u8]) -> Result<Tokens, Stop>
    ensures { Goes result (HasTokens bytes.now) (refused (LacksTokens bytes.now) lex_refusal) }
{
    match lex(alloc, bytes) {
        Ok(tokens) => Ok(tokens),
        Err(Fail::Fault(fault)) => Err(lex_refused(alloc, &fault)),
        Err(Fail::NoMemory) => Err(Stop::Memory),
    }
}

#[tactic(auto, using(crate::proofs::Opened::program_stops))]
fn open_tree(alloc: Global, tokens: &Tokens) -> Result<Program, Stop>
    ensures { Goes result (λ p. IsReadable tokens.now.list (plain_program p)) (refused (HasKept tokens.now) parse_refusal) }
{
    match parse(alloc, tokens) {
        Ok(program) => Ok(program),
        Err(Fail::Fault(fault)) => Err(parse_refused(alloc, &fault)),
        Err(Fail::NoMemory) => Err(Stop::Memory),
    }
}

// The program as one that was checked.
#[tactic(auto, using(crate::proofs::Opened::types_stop))]
fn open_typed(alloc: Global, schema: &Schema, program: Program) -> Result<Typed, Stop>
    ensures same { Goes result (λ t. plain_program t.program ≡ plain_program program) (λ plan. Unit {0}) }
    ensures typed { Goes result (λ t. IsWellTyped schema.now (read_by schema.now) (plain_program t.program))
        (refused (HasLeast schema.now (plain_program program)) type_refusal) }
{
    match fault_of(check(alloc, schema, &program)) {
        Ok(None) => Ok(Typed::of(program)),
        Ok(Some(fault)) => Err(type_refused(alloc, &fault)),
        Err(_) => Err(Stop::Memory),
    }
}

/// The well-typed program that bytes are under a schema, or the refusal of their first fault.
pub fn open_program(alloc: Global, schema: &Schema, bytes: &[u8]) -> Result<Typed, Stop>
    ensures { Goes result (λ t. IsProgramOf schema.now bytes.now (plain_program t.program)) (HasNoProgram schema.now bytes.now) }
{
    let tokens = open_tokens(alloc, bytes)?;
    let program = open_tree(alloc, &tokens)?;
    open_typed(alloc, schema, program)
}

/// The bundle that bytes are, or the refusal of the first byte with which no bundle goes on.
#[tactic(auto, using(crate::proofs::Opened::bundle_stops))]
pub fn open_bundle(alloc: Global, bytes: &[u8]) -> Result<Bundle, Stop>
    ensures { Goes result (λ b. HasBundle bytes.now (entries_of b)) (refused (BreaksBundle bytes.now) bundle_refusal) }
{
    match parse_bundle(alloc, bytes) {
        Ok(bundle) => Ok(bundle),
        Err(Fail::Fault(fault)) => Err(bundle_refused(alloc, &fault)),
        Err(Fail::NoMemory) => Err(Stop::Memory),
    }
}

/// The query that a text has under a schema, or the refusal of a text that has none.
#[tactic(auto, using(crate::proofs::Opened::query_stops))]
pub fn open_query(alloc: Global, schema: &Schema, text: &Text) -> Result<Query, Stop>
    ensures { Goes result (λ q. HasQuery schema.now text.now (plain_query q)) (HasNoQuery schema.now text.now) }
{
    match value_of(parse_query(alloc, schema, text)) {
        Ok(Some(query)) => Ok(query),
        Ok(None) => Err(word_refused(alloc, TypeRule::BadQuery)),
        Err(_) => Err(Stop::Memory),
    }
}
