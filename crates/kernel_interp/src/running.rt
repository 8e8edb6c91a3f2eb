// What accumulators have while they run.
ghost use Rattle.std.specs.Prelude.{◌≡◌, true, IfOk, Some};
ghost use Rattle.qbs_base.specs.declared.scalar.Scalar.TheVariants as scalars;
ghost use Rattle.tor_terms.specs.Evaluation as found;
ghost use Rattle.tor_terms.specs.Value as spec;
ghost use Rattle.kernel_lang.specs.Plain.{accumulator};
ghost use Rattle.kernel_lang.specs.Running as kernel;
ghost use Rattle.kernel_lang.specs.Validity.{starts_as, is_number, is_false, starts_rightly};
ghost use Rattle.kernel_interp.specs.Ends.{Gives, update_of, data_of, NumberFits};
ghost use Rattle.kernel_interp.specs.Reading.{rows_in};

use crate::place::{Place, row_at};
use kernel_lang::{Acc, Update};
use kernel_steps::{Stop, sum, ticked, with_row};
use qbs_base::{Items, NoMemory, Row, Rows, Scalar, Value};
use std::alloc::Global;
use tor_terms::{Elem, Way, better, number_of, plain_row};

/// An accumulator's update with what it has so far.
#[derive(Drop)]
pub enum Running {
    Push(Elem, Rows),
    PushNew(Elem, Rows),
    Tick(i64),
    Plus(Elem, i64),
    Best(Way, Elem, i64),
    Mark(bool),
}

/// An element at a place.
pub fn elem_at(alloc: Global, e: Elem, place: &Place) -> Result<Row, NoMemory>
    ensures { IfOk result (λ r. r ≡ spec.elem_at (rows_in place.now) e) }
{
    match e {
        Elem::Whole(j) => Ok(row_at(place, j).clone()?),
        Elem::Field(j, c) => plain_row(alloc, row_at(place, j).cells.as_slice().get(c as usize)),
    }
}

// The number that an element is, where it is one.
fn number_at(e: Elem, place: &Place) -> Option<i64>
    ensures { result ≡ found.number_of (spec.elem_at (rows_in place.now) e) }
{
    match e {
        Elem::Whole(j) => number_of(row_at(place, j)),
        Elem::Field(j, c) => match row_at(place, j).cells.as_slice().get(c as usize) {
            Some(Scalar::Long(n)) => Some(*n),
            _ => None,
        },
    }
}

/// What an accumulator has after its update at a place.
pub fn updated(alloc: Global, running: Running, place: &Place) -> Result<Running, Stop>
    requires { NumberFits (update_of running) (rows_in place.now) }
    ensures { Gives result (update_of running) (kernel.checked (update_of running) (rows_in place.now) (data_of running)) }
{
    match running {
        Running::Push(e, rows) => {
            let mut all = rows;
            all.push(elem_at(alloc, e, place)?)?;
            Ok(Running::Push(e, all))
        }
        Running::PushNew(e, rows) => {
            let row = elem_at(alloc, e, place)?;
            Ok(Running::PushNew(e, with_row(rows, row)?))
        }
        Running::Tick(n) => Ok(Running::Tick(ticked(n)?)),
        Running::Plus(e, n) => match number_at(e, place) {
            Some(m) => Ok(Running::Plus(e, sum(n, m)?)),
            None => unreachable!(),
        },
        Running::Best(way, e, n) => match number_at(e, place) {
            Some(m) => Ok(Running::Best(way, e, better(way, n, m))),
            None => Ok(Running::Best(way, e, n)),
        },
        Running::Mark(_) => Ok(Running::Mark(true)),
    }
}

fn start_number(start: &Option<Scalar>) -> i64
    requires { starts_as is_number start.now ≡ true }
    ensures { start.now ≡ Some (scalars.Long result) }
{
    match start {
        Some(Scalar::Long(n)) => *n,
        _ => unreachable!(),
    }
}

fn start_truth(start: &Option<Scalar>) -> bool
    requires { starts_as is_false start.now ≡ true }
    ensures { start.now ≡ Some (scalars.Bool result) }
{
    match start {
        Some(Scalar::Bool(b)) => *b,
        _ => unreachable!(),
    }
}

/// What an accumulator has before its first update.
pub fn started(alloc: Global, acc: &Acc) -> Running
    requires { starts_rightly (accumulator acc.now) ≡ true }
    ensures update { update_of result ≡ acc.now.update }
    ensures data { data_of result ≡ kernel.started acc.now.start }
{
    match acc.update {
        Update::Push(e) => Running::Push(e, Items::new(alloc)),
        Update::PushNew(e) => Running::PushNew(e, Items::new(alloc)),
        Update::Tick => Running::Tick(start_number(&acc.start)),
        Update::Plus(e) => Running::Plus(e, start_number(&acc.start)),
        Update::Best(way, e) => Running::Best(way, e, start_number(&acc.start)),
        Update::Mark => Running::Mark(start_truth(&acc.start)),
    }
}

/// What the variable of the source is.
#[tactic(auto, using(crate::proofs::Lists::rows_back))]
pub fn source_value(running: Running, opposite: bool) -> Value
    ensures { result ≡ kernel.source_value (update_of running) opposite (data_of running) }
{
    match running {
        Running::Push(_, rows) => Value::Many(rows),
        Running::PushNew(_, rows) => Value::Many(rows),
        Running::Tick(n) => Value::One(Scalar::Long(n)),
        Running::Plus(_, n) => Value::One(Scalar::Long(n)),
        Running::Best(_, _, n) => Value::One(Scalar::Long(n)),
        Running::Mark(b) => Value::One(Scalar::Bool(b != opposite)),
    }
}
