// What a call of a method comes to.
ghost use Rattle.std.specs.Prelude.{◌≡◌, ◌<◌, IfOk, IfSome, length, map, option_map, slice_get};
ghost use Rattle.qbs_base.specs.Values.{IsDatabaseOf};
ghost use Rattle.java_ast.specs.Reading.{param as plain_param, method as plain_method, program};
ghost use Rattle.java_mean.specs.Outcome.{Done, outcome, world_with, store_of};
ghost use Rattle.java_mean.specs.Types.{AreArguments};
ghost use Rattle.java_mean.specs.WellTyped.{IsWellTyped};
ghost use Rattle.java_types.specs.Texts.{read_by};
ghost use Rattle.java_steps.specs.Held.{value_in};
ghost use Rattle.java_steps.specs.Running.{world};
ghost use Rattle.java_interp.specs.Reached.{reached, outcome_in};

use crate::running::run_block;
use crate::way::Way;
use java_ast::{Method, Param};
use java_mean::{Ending, RunFault};
use java_steps::gather::gather;
use java_steps::held::{Held, Variable, value};
use java_steps::known::Queries;
use java_steps::machine::{MOST_PRINTED, Machine};
use java_steps::numbers::Numbers;
use java_steps::source::Source;
use java_steps::stop::Stop;
use java_steps::store::Store;
use java_types::Typed;
use qbs_base::{Db, NoMemory, Scalar, Scalars, Span, Texts, Value, copy_scalar};
use schema::Schema;
use std::alloc::Global;

/// What a call of a method comes to: the printed lines and the returned value or none, a fault and
/// its place, or too few turns.
#[derive(Drop)]
pub enum Outcome {
    Done {
        prints: Texts,
        result: Option<Value>,
    },
    Faulted {
        fault: RunFault,
        at: Span,
    },
    OutOfTurns,
}

// The same, and that the method is stuck.
#[derive(Drop)]
enum Reached {
    Comes(Outcome),
    Stuck,
}

// The parameters with the arguments' values, in a store for so many names.
#[tactic(auto, using(crate::proofs::Called::store_step, crate::proofs::Called::store_none))]
fn parameters<'a>(
    alloc: Global,
    params: &'a [Param],
    args: &[Scalar],
    size: usize,
) -> Result<Store<'a>, NoMemory>
    ensures { IfOk result (λ store. store ≡ store_of (map plain_param params.now) args.now) }
{
    let mut store = Store::new(alloc, size)?;
    let mut i = params.len().min(args.len());
    while i > 0 {
        i -= 1;
        let held = Held::One(copy_scalar(alloc, &args[i])?);
        let is_set = false;
        store.replace(size, &params[i].name, Variable { held, is_set })?;
    }
    Ok(store)
}

fn returned(alloc: Global, prints: Texts, held: Option<Held>) -> Result<Outcome, NoMemory>
    ensures { IfOk result (λ o. outcome_in o ≡ Done prints (option_map value_in held.entry)) }
{
    let result = match held {
        None => None,
        Some(held) => Some(value(alloc, held)?),
    };
    Ok(Outcome::Done { prints, result })
}

fn reach<'a>(
    source: &Source<'a>,
    m: &'a Method,
    args: &Scalars,
    turns: u64,
) -> Result<Reached, NoMemory>
    ensures { IfOk result (λ r. reached r ≡ outcome (world source.now) (plain_method m.now) args.now turns) }
{
    let alloc = source.alloc;
    let mut machine = Machine {
        store: parameters(
            alloc,
            m.params.as_slice(),
            args.as_slice(),
            source.numbers.len(),
        )?,
        lines: Texts::new(alloc),
        room: MOST_PRINTED,
        turns,
        returned: None,
    };
    let run = run_block(m.body.as_slice(), source, &mut machine);
    let prints = machine.lines;
    match run {
        Ok(Way::On) => Ok(Reached::Comes(returned(alloc, prints, None)?)),
        Ok(Way::Leaves) => Ok(Reached::Stuck),
        Ok(Way::Returns) => Ok(Reached::Comes(returned(alloc, prints, machine.returned)?)),
        Err(Stop::Memory) => Err(NoMemory),
        Err(Stop::Ends(Ending::Faulted(fault, at))) => {
            Ok(Reached::Comes(Outcome::Faulted { fault, at }))
        }
        Err(Stop::Ends(Ending::OutOfTurns)) => Ok(Reached::Comes(Outcome::OutOfTurns)),
        Err(Stop::Ends(Ending::Stuck)) => Ok(Reached::Stuck),
    }
}

// Reads the query texts of a method, each once, notes the numbers of its names, makes lookups for the
// queries that are repeated, and runs it.
fn call<'a>(
    alloc: Global,
    schema: &'a Schema,
    m: &'a Method,
    db: &'a Db,
    args: &Scalars,
    turns: u64,
) -> Result<Reached, NoMemory>
    ensures { IfOk result (λ r. reached r ≡ outcome (world_with schema.now (read_by schema.now) db.now) (plain_method m.now) args.now turns) }
{
    let mut queries = Queries::new(alloc, schema);
    let mut numbers = Numbers::new(alloc);
    gather(m.body.as_slice(), &mut queries, &mut numbers, false)?;
    let tables = queries.tables(db)?;
    let source = Source {
        alloc,
        queries,
        numbers,
        tables,
    };
    reach(&source, m, args, turns)
}

// The method with a number.
#[tactic(auto, using(crate::proofs::Called::method_found, crate::proofs::Called::is_within))]
fn method_at<'a>(typed: &'a Typed, number: u64) -> &'a Method
    requires { number < length (program typed.now.program).methods }
    ensures { slice_get (program typed.now.program).methods number ≡ Some (plain_method result.now) }
{
    let methods = typed.program().methods.as_slice();
    &methods[number as usize]
}

/// What the method with this number comes to on these arguments, with so many turns.
///
/// A turn is taken by each member that a for-each comes to and by each true test of a `while`. The
/// only error is want of memory, and nothing grows with the turns but what the method itself keeps. What it prints may take 64 MiB.
pub fn run_method<'a>(
    alloc: Global,
    schema: &'a Schema,
    typed: &'a Typed,
    db: &'a Db,
    method: u64,
    args: &Scalars,
    turns: u64,
) -> Result<Outcome, NoMemory>
    requires typed { IsWellTyped schema.now (read_by schema.now) (program typed.now.program) }
    requires tables { IsDatabaseOf schema.now db.now }
    requires number { method < length (program typed.now.program).methods }
    requires arguments { IfSome (slice_get (program typed.now.program).methods method) (λ m. AreArguments schema.now m.params args.now) }
    ensures exact { IfOk result (λ o.
        IfSome (slice_get (program typed.now.program).methods method) (λ m.
        outcome_in o ≡ outcome (world_with schema.now (read_by schema.now) db.now) m args.now turns)) }
{
    let m = method_at(typed, method);
    match call(alloc, schema, m, db, args, turns)? {
        Reached::Comes(outcome) => Ok(outcome),
        Reached::Stuck => unreachable!(),
    }
}
