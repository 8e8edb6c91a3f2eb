// The lines of refusals by numbered rules.
ghost use Rattle.std.specs.Prelude.{◌≡◌, ◌++◌, [], IfOk, string_bytes};
ghost use Rattle.verdicts.specs.Lines.{line};
ghost use Rattle.plans.specs.Calls.{word_refusal};
ghost use Rattle.plans.specs.Opening.{bundle_refusal, map_refusal, schema_refusal, lex_refusal, parse_refusal, type_refusal};
ghost use Rattle.deliveries.specs.Code.{StopsWith};
ghost use Rattle.plans.specs.Lines.{nowhere as no_place, bundle_fault_text, data_text, row_text, fault_text, rule_text};
ghost use Rattle.deliveries.specs.Plan.{refusal};

use deliveries::Plan;
use deliveries::fetch::Stop;
use deriv_check::BundleFault;
use java_lex::LexFault;
use java_mean::{RunFault, TypeFault, TypeRule};
use java_parser::ParseFault;
use qbs_base::{Bytes, Name, Span, Status};
use schema::{DataFault, SchemaFault};
use std::alloc::{AllocError, Global};
use text_places::span_in;
use view_map::MapFault;

// A rule by its number and name, and its place, behind a text.
fn rule_line(
    alloc: Global,
    text: &str,
    number: u64,
    name: &str,
    at: Span,
) -> Result<String, AllocError>
    ensures { IfOk result (λ s. string_bytes s ≡ line (text.now ++ rule_text number name.now at)) }
{
    let row = at.line;
    let column = at.column;
    let line = format!(in alloc; "{text}{number} {name} at {row}:{column}\n")?;
    Ok(line)
}

fn stop(alloc: Global, status: Status, line: String) -> Stop
    ensures { result ≡ Stop.Due (record { status = status; out = []; rep = string_bytes line }) }
{
    Stop::Due(Plan {
        status,
        out: Bytes::new(alloc),
        rep: Bytes::from_vec(line.into_bytes()),
    })
}

/// The refusal for a rule by its number and name, behind a text, at a place.
pub fn rule_refused(
    alloc: Global,
    status: Status,
    text: &str,
    number: u64,
    name: &str,
    at: Span,
) -> Stop
    ensures { StopsWith (refusal status (text.now ++ rule_text number name.now at)) result }
{
    match rule_line(alloc, text, number, name, at) {
        Ok(line) => stop(alloc, status, line),
        Err(_) => Stop::Memory,
    }
}

/// The refusal of a source without tokens.
pub fn lex_refused(alloc: Global, fault: &LexFault) -> Stop
    ensures { StopsWith (lex_refusal fault.now) result }
{
    let number = fault.rule.number();
    let name = fault.rule.name();
    rule_refused(
        alloc,
        Status::Source,
        "qbs: source: lex ",
        number,
        name,
        fault.at,
    )
}

/// The refusal of a text that is no schema.
pub fn schema_refused(alloc: Global, fault: &SchemaFault) -> Stop
    ensures { StopsWith (schema_refusal fault.now) result }
{
    let number = fault.rule.number();
    let name = fault.rule.name();
    rule_refused(
        alloc,
        Status::Schema,
        "qbs: schema: ",
        number,
        name,
        fault.at,
    )
}

/// The refusal of a text that is no map.
pub fn map_refused(alloc: Global, bytes: &[u8], fault: &MapFault) -> Stop
    ensures { StopsWith (map_refusal bytes.now fault.now) result }
{
    let number = fault.rule.number();
    let name = fault.rule.name();
    let at = span_in(bytes, fault.at);
    rule_refused(alloc, Status::View, "qbs: map: ", number, name, at)
}

/// The refusal of tokens without a program.
pub fn parse_refused(alloc: Global, fault: &ParseFault) -> Stop
    ensures { StopsWith (parse_refusal fault.now) result }
{
    let number = fault.rule.number();
    let name = fault.rule.name();
    rule_refused(
        alloc,
        Status::Source,
        "qbs: source: parse ",
        number,
        name,
        fault.at,
    )
}

/// The refusal of a program that breaks a type rule.
pub fn type_refused(alloc: Global, fault: &TypeFault) -> Stop
    ensures { StopsWith (type_refusal fault.now) result }
{
    let number = fault.rule.number();
    let name = fault.rule.name();
    rule_refused(alloc, Status::Types, "qbs: types: ", number, name, fault.at)
}

/// The place of what stands in no text that was read.
pub fn nowhere() -> Span
    ensures { result ≡ no_place }
{
    Span {
        line: 0,
        column: 0,
        start: 0,
        end: 0,
    }
}

/// The refusal of a word beside the source that breaks a type rule.
pub fn word_refused(alloc: Global, rule: TypeRule) -> Stop
    ensures { StopsWith (word_refusal rule) result }
{
    type_refused(
        alloc,
        &TypeFault {
            rule,
            at: nowhere(),
        },
    )
}

fn row_line(
    alloc: Global,
    table: &str,
    number: u64,
    name: &str,
    row: u64,
) -> Result<String, AllocError>
    ensures { IfOk result (λ s. string_bytes s ≡ line (row_text table.now number name.now row)) }
{
    let line = format!(in alloc; "qbs: data: {table}: {number} {name} at row {row}\n")?;
    Ok(line)
}

/// The refusal of a table's rows.
pub fn data_refused(alloc: Global, table: &Name, fault: &DataFault) -> Stop
    ensures { StopsWith (refusal Status.Data (data_text table.now fault.now)) result }
{
    let number = fault.rule.number();
    let name = fault.rule.name();
    match row_line(alloc, table.as_str(), number, name, fault.row) {
        Ok(line) => stop(alloc, Status::Data, line),
        Err(_) => Stop::Memory,
    }
}

fn offset_line(alloc: Global, fault: &BundleFault) -> Result<String, AllocError>
    ensures { IfOk result (λ s. string_bytes s ≡ line (bundle_fault_text fault.now)) }
{
    let offset = fault.offset;
    let line = format!(in alloc; "qbs: bundle: at {offset}\n")?;
    Ok(line)
}

/// The refusal of bytes that are no bundle.
pub fn bundle_refused(alloc: Global, fault: &BundleFault) -> Stop
    ensures { StopsWith (bundle_refusal fault.now) result }
{
    match offset_line(alloc, fault) {
        Ok(line) => stop(alloc, Status::Bundle, line),
        Err(_) => Stop::Memory,
    }
}

/// The refusal of a run that ended with a fault at this place.
pub fn fault_refused(alloc: Global, fault: RunFault, at: Span) -> Stop
    ensures { StopsWith (refusal Status.Faulted (fault_text fault at)) result }
{
    let number = fault.number();
    let name = fault.name();
    match rule_line(alloc, "qbs: fault: ", number, name, at) {
        Ok(line) => stop(alloc, Status::Faulted, line),
        Err(_) => Stop::Memory,
    }
}
