// The command `make`.
ghost use Rattle.std.specs.Prelude.{◌≡◌, ◌<◌, ◌^◌, ◌++◌, [], Some, IfOk, OnOk, length, slice_get, string_bytes};
ghost use Rattle.std.specs.List.{count_by};
ghost use Rattle.java_ast.specs.Reading.{method as plain_method, program as plain_program};
ghost use Rattle.java_interp.specs.Reached.{outcome_in};
ghost use Rattle.java_mean.specs.WellTyped.{IsWellTyped};
ghost use Rattle.java_types.specs.Texts.{read_by};
ghost use Rattle.qbs_base.specs.Values.{IsDatabaseOf};
ghost use Rattle.deliveries.specs.Code.{Goes, OrMemory};
ghost use Rattle.plans.specs.Results.{names_of};
ghost use Rattle.qbs.specs.Code.{HasRun, HasNoRun};
ghost use Rattle.qbs.specs.Make as specs;

use deliveries::Plan;
use deliveries::fetch::{Stop, refused};
use java_ast::Method;
use java_interp::{Outcome, run_method};
use java_types::Typed;
use plans::lines::fault_refused;
use plans::results::table_names;
use qbs_base::{Bytes, Db, Name, Names, NoMemory, Scalars, Status, Value, print_value};
use rewrite_core::replace_loops;
use sample::{sample_class, sample_schema};
use sample_data::sample_tables;
use schema::Schema;
use std::alloc::{AllocError, Global};
use verdicts::{LoopVerdict, Said};

// ---- The summary

fn is_found(verdict: &LoopVerdict) -> bool
    ensures { result ≡ specs.is_found verdict.now }
{
    match verdict.said {
        Said::Found { .. } => true,
        Said::NoneOf { .. } | Said::Budget { .. } | Said::Outside { .. } => false,
    }
}

fn count_found(verdicts: &[LoopVerdict]) -> usize
    ensures { result ≡ count_by specs.is_found verdicts.now }
{
    verdicts.iter().filter(|v| is_found(*v)).count()
}

// How many loops were tried, and of how many a candidate was found.
fn loops_line(alloc: Global, verdicts: &[LoopVerdict]) -> Result<String, AllocError>
    ensures { IfOk result (λ s. string_bytes s ≡ specs.loops_text verdicts.now) }
{
    let tried = verdicts.len();
    let found = count_found(verdicts);
    let text = format!(in alloc; "loops {tried} found {found}\n")?;
    Ok(text)
}

fn list_line(alloc: Global, count: usize) -> Result<String, AllocError>
    ensures { IfOk result (λ s. string_bytes s ≡ specs.list_text count) }
{
    let text = format!(in alloc; "list {count}\n")?;
    Ok(text)
}

// What is written of a value, behind what is there.
fn push_value(
    alloc: Global,
    names: &Names,
    value: &Value,
    out: &mut Vec<u8>,
) -> Result<(), NoMemory>
    ensures { OnOk result (out.new.items ≡ out.old.items ++ specs.brief_text names.now value.now) }
{
    match value {
        Value::Many(rows) => {
            let text = list_line(alloc, rows.len())?;
            out.extend_from_slice(text.as_bytes())?;
        }
        Value::One(_) | Value::Whole(_) => {
            let text = print_value(alloc, names, value)?;
            out.extend_from_slice(text.as_slice())?;
        }
    }
    Ok(())
}

fn push_result(
    alloc: Global,
    names: &Names,
    value: &Option<Value>,
    out: &mut Vec<u8>,
) -> Result<(), NoMemory>
    ensures { OnOk result (out.new.items ≡ out.old.items ++ specs.outcome_text names.now value.now) }
{
    match value {
        None => {
            out.push(b'\n')?;
            Ok(())
        }
        Some(value) => push_value(alloc, names, value, out),
    }
}

// A method's name and its result, behind what is there.
fn push_method(
    alloc: Global,
    names: &Names,
    method: &Name,
    value: &Option<Value>,
    out: &mut Vec<u8>,
) -> Result<(), NoMemory>
    ensures { OnOk result (out.new.items ≡ out.old.items ++ specs.method_text names.now method.now value.now) }
{
    out.extend_from_slice(method.as_slice())?;
    out.push(b' ')?;
    push_result(alloc, names, value, out)
}

// ---- The runs

// The result of a run that is done, or what is due where it isn't.
fn result_of(alloc: Global, outcome: Outcome) -> Result<Option<Value>, Stop>
    ensures { Goes result (specs.IsResult (outcome_in outcome)) (specs.IsNotDone (outcome_in outcome)) }
{
    match outcome {
        Outcome::Done { prints: _, result } => Ok(result),
        Outcome::Faulted { fault, at } => Err(fault_refused(alloc, fault, at)),
        Outcome::OutOfTurns => Err(refused(alloc, Status::Turns, "qbs: turns", "")),
    }
}

fn count_methods(typed: &Typed) -> usize
    ensures { result ≡ length (plain_program typed.now.program).methods }
{
    typed.program().methods.len()
}

// The method with a number.
#[tactic(auto, using(java_interp::proofs::Called::method_found, java_interp::proofs::Called::is_within))]
fn method_at<'a>(typed: &'a Typed, number: usize) -> &'a Method
    requires { number < length (plain_program typed.now.program).methods }
    ensures { slice_get (plain_program typed.now.program).methods number ≡ Some (plain_method result.now) }
{
    let methods = typed.program().methods.as_slice();
    &methods[number]
}

// Runs the method with a number on no arguments, and writes its name and its result behind what is there.
#[tactic(auto, using(crate::proofs::Made::has_run, crate::proofs::Made::has_no_run))]
fn push_run(
    alloc: Global,
    schema: &Schema,
    typed: &Typed,
    db: &Db,
    names: &Names,
    number: usize,
    none: &Scalars,
    out: &mut Vec<u8>,
) -> Result<(), Stop>
    requires typed { IsWellTyped schema.now (read_by schema.now) (plain_program typed.now.program) }
    requires tables { IsDatabaseOf schema.now db.now }
    requires plain { specs.TakeNone (plain_program typed.now.program).methods }
    requires names { names.now ≡ names_of schema.now }
    requires number { number < length (plain_program typed.now.program).methods }
    requires none { none.now ≡ [] }
    ensures { Goes result (λ _. HasRun schema.now db.now (plain_program typed.now.program).methods number out.old.items out.new.items)
        (HasNoRun schema.now db.now (plain_program typed.now.program).methods number) }
{
    let method = method_at(typed, number);
    let outcome = run_method(alloc, schema, typed, db, number as u64, none, 1000000)?;
    let value = result_of(alloc, outcome)?;
    push_method(alloc, names, &method.name, &value, out)?;
    Ok(())
}

// What is due for the runs of all methods in their order, behind what is written.
fn plan_runs(
    alloc: Global,
    schema: &Schema,
    typed: &Typed,
    db: &Db,
    written: Vec<u8>,
) -> Result<Plan, Stop>
    requires typed { IsWellTyped schema.now (read_by schema.now) (plain_program typed.now.program) }
    requires tables { IsDatabaseOf schema.now db.now }
    requires plain { specs.TakeNone (plain_program typed.now.program).methods }
    ensures { OrMemory result (specs.runs schema.now db.now written.items (plain_program typed.now.program).methods) }
{
    let names = table_names(alloc, schema.tables())?;
    let none = Scalars::new(alloc);
    let mut out = written;
    for number in 0..count_methods(typed) {
        push_run(alloc, schema, typed, db, &names, number, &none, &mut out)?;
    }
    Ok(Plan {
        status: Status::Ok,
        out: Bytes::from_vec(out),
        rep: Bytes::new(alloc),
    })
}

// ---- The command

// What is due for a program, which is rewritten first.
fn plan_program(alloc: Global, schema: &Schema, typed: &Typed, db: &Db) -> Result<Plan, Stop>
    requires typed { IsWellTyped schema.now (read_by schema.now) (plain_program typed.now.program) }
    requires tables { IsDatabaseOf schema.now db.now }
    requires plain { specs.TakeNone (plain_program typed.now.program).methods }
    ensures { OrMemory result (specs.make_of schema.now db.now (plain_program typed.now.program)) }
{
    let left = replace_loops(alloc, schema, typed, 4, 20000)?;
    let text = loops_line(alloc, left.verdicts.as_slice())?;
    let other = Typed::of(left.program);
    plan_runs(alloc, schema, &other, db, text.into_bytes())
}

/// What is due for so many users. It takes linear time and memory.
pub fn plan_make(alloc: Global, n: u64) -> Result<Plan, Stop>
    requires { n < 2 ^ 63 }
    ensures { OrMemory result (specs.make n) }
{
    let schema = sample_schema(alloc)?;
    let db = sample_tables(alloc, n)?;
    let class = sample_class(alloc)?;
    let typed = Typed::of(class);
    plan_program(alloc, &schema, &typed, &db)
}
