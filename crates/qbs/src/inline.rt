// The command `inline`.
ghost use Rattle.std.specs.Prelude.{◌≡◌, ◌∷◌, []};
ghost use Rattle.java_ast.specs.Reading.{program as plain_program};
ghost use Rattle.java_mean.specs.WellTyped.{IsWellTyped};
ghost use Rattle.java_types.specs.Texts.{read_by};
ghost use Rattle.inlining.specs.Inlined.{IsWhole};
ghost use Rattle.deliveries.specs.Code.{Goes, OrMemory, StopsWith};
ghost use Rattle.deliveries.specs.Plan.{given};
ghost use Rattle.deliveries.specs.Reads.{looks, OnlyReads};
ghost use Rattle.qbs.specs.Inline.{IsProgramWithCallsOf, HasNoProgramWithCalls, place_in, helper_refusal, has_no_calls_left, types_and_writes, Inlines, inline as inlines, inline_of};

use crate::again::read_again;
use call_reader::read_helpers;
use call_rules::HelperFault;
use deliveries::Plan;
use deliveries::fetch::{Stop, fetch_schema, fetch_source};
use deliveries::found::fault_of;
use files_sinks::Files;
use inlining::{Inlined, inline_helpers};
use java_ast::Program;
use java_types::check;
use kept_texts::text_for;
use method_texts::text_anew;
use plans::lines::{parse_refused, rule_refused, type_refused};
use plans::opening::{open_schema, open_tokens};
use qbs_base::{Bytes, Fail, Place, Span, Status, Text};
use schema::Schema;
use std::alloc::Global;

/// What is due for the files of a schema and a source.
pub fn plan_inline<F: Files>(
    alloc: Global,
    files: &mut F,
    schema: &Text,
    source: &Text,
) -> Result<Plan, Stop>
    ensures reads { OnlyReads (looks F.told F.faults F.may_fail F.by_read) (schema.now ∷ source.now ∷ []) files.old files.new }
    ensures due { OrMemory result (inlines (given F.told F.faults F.may_fail files.old files.new) schema.now source.now) }
{
    let schema = fetch_schema(alloc, files, schema)?;
    let source = fetch_source(alloc, files, source)?;
    plan_texts(alloc, schema.as_slice(), source.as_slice())
}

// What is due for their bytes.
fn plan_texts(alloc: Global, schema: &[u8], source: &[u8]) -> Result<Plan, Stop>
    ensures { OrMemory result (inline_of schema.now source.now) }
{
    let schema = open_schema(alloc, schema)?;
    let read = open_calls(alloc, source)?;
    plan_read(alloc, &schema, source, &read)
}

// The program with calls that bytes are, or the refusal of their first fault.
fn open_calls(alloc: Global, source: &[u8]) -> Result<Box<Program>, Stop>
    ensures { Goes result (λ p. IsProgramWithCallsOf source.now (plain_program p.value)) (HasNoProgramWithCalls source.now) }
{
    let tokens = open_tokens(alloc, source)?;
    match read_helpers(alloc, &tokens) {
        Ok(program) => Ok(Box::new(alloc, program)?),
        Err(Fail::Fault(fault)) => Err(parse_refused(alloc, &fault)),
        Err(Fail::NoMemory) => Err(Stop::Memory),
    }
}

// The place of the byte of a source with this number, or of its end.
fn place_of(source: &[u8], number: u64) -> Span
    ensures { result ≡ place_in source.now number }
{
    let number = (number as usize).min(source.len());
    let place = Place::FIRST.after(&source[..number]);
    place.span_to(place)
}

// The refusal of a program that breaks a rule of helpers.
fn helper_refused(alloc: Global, source: &[u8], fault: HelperFault) -> Stop
    ensures { StopsWith (helper_refusal source.now fault) result }
{
    let at = place_of(source, fault.at.start);
    let number = fault.rule.number();
    let name = fault.rule.name();
    rule_refused(alloc, Status::Types, "qbs: helpers: ", number, name, at)
}

// What is due for the program that was read.
fn plan_read(alloc: Global, schema: &Schema, source: &[u8], read: &Program) -> Result<Plan, Stop>
    requires { IsProgramWithCallsOf source.now (plain_program read.now) }
    ensures { OrMemory result (has_no_calls_left source.now (plain_program read.now) (λ q. types_and_writes schema.now source.now (plain_program read.now) q)) }
{
    match inline_helpers(alloc, read)? {
        Inlined::Whole(whole) => plan_whole(alloc, schema, source, read, &whole),
        Inlined::Broken(fault) => Err(helper_refused(alloc, source, fault)),
    }
}

// What is due for the program in which no call is left.
fn plan_whole(
    alloc: Global,
    schema: &Schema,
    source: &[u8],
    read: &Program,
    whole: &Program,
) -> Result<Plan, Stop>
    requires read { IsProgramWithCallsOf source.now (plain_program read.now) }
    requires whole { IsWhole (plain_program read.now) (plain_program whole.now) }
    ensures { OrMemory result (types_and_writes schema.now source.now (plain_program read.now) (plain_program whole.now)) }
{
    match fault_of(check(alloc, schema, whole)) {
        Ok(None) => plan_written(alloc, schema, source, read, whole),
        Ok(Some(fault)) => Err(type_refused(alloc, &fault)),
        Err(_) => Err(Stop::Memory),
    }
}

// The text of that program, where it is well typed.
fn plan_written(
    alloc: Global,
    schema: &Schema,
    source: &[u8],
    read: &Program,
    whole: &Program,
) -> Result<Plan, Stop>
    requires read { IsProgramWithCallsOf source.now (plain_program read.now) }
    requires whole { IsWhole (plain_program read.now) (plain_program whole.now) }
    requires typed { IsWellTyped schema.now (read_by schema.now) (plain_program whole.now) }
    ensures { OrMemory result (Inlines schema.now source.now (plain_program read.now) (plain_program whole.now)) }
{
    let text = text_anew(alloc, source, read, whole)?;
    let out = text_for(alloc, text, whole)?;
    read_again(alloc, schema, out.as_slice())?;
    Ok(Plan {
        status: Status::Ok,
        out,
        rep: Bytes::new(alloc),
    })
}
