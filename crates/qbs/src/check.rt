// The command `check`.
ghost use Rattle.std.specs.Prelude.{◌≡◌, IfOk, [], string_bytes, ◌∷◌};
ghost use Rattle.java_ast.specs.Reading.{program as plain_program};
ghost use Rattle.java_mean.specs.WellTyped.{IsWellTyped};
ghost use Rattle.java_types.specs.Texts.{read_by};
ghost use Rattle.deriv_check.specs.Bundles.{entries_of};
ghost use Rattle.deliveries.specs.Code.{OrMemory};
ghost use Rattle.deliveries.specs.Plan.{given};
ghost use Rattle.deliveries.specs.Reads.{looks, OnlyReads};
ghost use Rattle.qbs.specs.ByMap.{checks_by};
ghost use Rattle.qbs.specs.Check.{accepted_line, refused_line, checks, check_of, reads_evidence};

use crate::check_by_view::plan_source_by_view;
use deliveries::Plan;
use deliveries::fetch::{MOST_BUNDLE, Stop, fetch, fetch_schema, fetch_source};
use deriv_check::Bundle;
use files_sinks::Files;
use java_types::Typed;
use plans::opening::{open_bundle, open_program, open_schema};
use qbs_base::{Bytes, Status, Text};
use rewrite_core::{Checked, check_bundle};
use schema::Schema;
use std::alloc::{AllocError, Global};

/// What is due for the files of a schema, a source and a bundle, by the bytes of a map where there are any.
pub fn plan_check<F: Files>(
    alloc: Global,
    files: &mut F,
    map: &Option<Bytes>,
    schema: &Text,
    source: &Text,
    bundle: &Text,
) -> Result<Plan, Stop>
    ensures reads { OnlyReads (looks F.told F.faults F.may_fail F.by_read) (schema.now ∷ source.now ∷ bundle.now ∷ []) files.old files.new }
    ensures due { OrMemory result (reads_evidence (given F.told F.faults F.may_fail files.old files.new) schema.now source.now bundle.now (checks_by map.now)) }
{
    let schema = fetch_schema(alloc, files, schema)?;
    let source = fetch_source(alloc, files, source)?;
    let bundle = fetch(alloc, files, bundle, MOST_BUNDLE, "bundle")?;
    plan_texts(
        alloc,
        map,
        schema.as_slice(),
        source.as_slice(),
        bundle.as_slice(),
    )
}

// What is due for their bytes.
fn plan_texts(
    alloc: Global,
    map: &Option<Bytes>,
    schema: &[u8],
    source: &[u8],
    bundle: &[u8],
) -> Result<Plan, Stop>
    ensures { OrMemory result (checks_by map.now schema.now source.now bundle.now) }
{
    match map {
        None => plan_source(alloc, schema, source, bundle),
        Some(map) => plan_source_by_view(alloc, map.as_slice(), schema, source, bundle),
    }
}

// What is due for them without a map.
fn plan_source(alloc: Global, schema: &[u8], source: &[u8], bundle: &[u8]) -> Result<Plan, Stop>
    ensures { OrMemory result (check_of schema.now source.now bundle.now) }
{
    let schema = open_schema(alloc, schema)?;
    let typed = open_program(alloc, &schema, source)?;
    let bundle = open_bundle(alloc, bundle)?;
    plan_bundle(alloc, &schema, &typed, &bundle)
}

/// How many entries are accepted, or which is the first that isn't.
pub fn plan_bundle(
    alloc: Global,
    schema: &Schema,
    typed: &Typed,
    bundle: &Bundle,
) -> Result<Plan, Stop>
    requires { IsWellTyped schema.now (read_by schema.now) (plain_program typed.now.program) }
    ensures { OrMemory result (checks schema.now (plain_program typed.now.program) (entries_of bundle.now)) }
{
    match check_bundle(alloc, schema, typed, bundle)? {
        Checked::All { n, .. } => {
            let line = accepted(alloc, n)?;
            Ok(told(alloc, Status::Ok, line))
        }
        Checked::Refused { ordinal } => {
            let line = refused(alloc, ordinal)?;
            Ok(told(alloc, Status::Refused, line))
        }
    }
}

fn told(alloc: Global, status: Status, line: String) -> Plan
    ensures { result ≡ record { status = status; out = string_bytes line; rep = [] } }
{
    Plan {
        status,
        out: Bytes::from_vec(line.into_bytes()),
        rep: Bytes::new(alloc),
    }
}

// All entries are accepted, so many.
fn accepted(alloc: Global, n: u64) -> Result<String, AllocError>
    ensures { IfOk result (λ s. string_bytes s ≡ accepted_line n) }
{
    let text = format!(in alloc; "ok {n}\n")?;
    Ok(text)
}

// The first entry that isn't accepted, counted from 1.
fn refused(alloc: Global, ordinal: u64) -> Result<String, AllocError>
    ensures { IfOk result (λ s. string_bytes s ≡ refused_line ordinal) }
{
    let text = format!(in alloc; "refused {ordinal}\n")?;
    Ok(text)
}
