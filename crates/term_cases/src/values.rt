// The value of a sum.
use crate::words::whole_at;
use qbs_base::{Items, NoMemory, Scalar, Value, boxed};
use std::alloc::Global;
use tor_eval::eval;
use tor_terms::{Env, Term};

// An environment that holds one number, and nothing else.
fn holding(alloc: Global, number: i64) -> Result<Box<Env>, NoMemory> {
    let mut holds = Items::new(alloc);
    holds.push(Value::One(Scalar::Long(number)))?;
    let env = Env {
        lists: Items::new(alloc),
        at: Items::new(alloc),
        cur: Items::new(alloc),
        entries: Items::new(alloc),
        known: Items::new(alloc),
        holds,
        flags: Items::new(alloc),
    };
    Ok(Box::new(alloc, env)?)
}

// The number held and another one.
fn sum(alloc: Global, other: i64) -> Result<Box<Term>, NoMemory> {
    let held = boxed(alloc, Term::Hold(0))?;
    let more = boxed(alloc, Term::Lit(Scalar::Long(other)))?;
    boxed(alloc, Term::Add(held, more))
}

fn number_in(value: Option<Value>) -> Option<i64> {
    match value {
        Some(Value::One(Scalar::Long(number))) => Some(number),
        _ => None,
    }
}

fn sum_with(alloc: Global, held: i64, other: i64) -> Result<Option<i64>, NoMemory> {
    let env = holding(alloc, held)?;
    let sum = sum(alloc, other)?;
    let atoms = Items::new(alloc);
    Ok(number_in(eval(alloc, &sum, &atoms, &env)?))
}

/// Appends the value of the sum of a number that is held and another one, or that it has none.
pub fn put_sum(out: &mut String, alloc: Global, words: &[&str]) -> Result<(), NoMemory> {
    match sum_with(alloc, whole_at(words, 1), whole_at(words, 2))? {
        Some(number) => Ok(write!(out, "{number}")?),
        None => Ok(out.push_str("none")?),
    }
}
