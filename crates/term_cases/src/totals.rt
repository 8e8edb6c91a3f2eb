// The sum of a table, which is checked at each turn.
ghost use Rattle.std.specs.Prelude.{◌≡◌, IfOk, IfSome};
ghost use Rattle.kernel_lang.specs.Parts.{parts_of};
ghost use Rattle.kernel_lang.specs.Plain.{accumulator};
ghost use Rattle.kernel_lang.specs.Whole.{fragment_of};
ghost use Rattle.term_cases.specs.Sums.{numbers, nothing, number_row, sum_of_column, sum_of_numbers};

use crate::words::whole_at;
use kernel_interp::run_fragment;
use kernel_lang::{Acc, Entry, KFragment, ListDef, Parts, Update};
use kernel_steps::FragmentEnd;
use qbs_base::{Db, Items, Kind, NoMemory, Row, Scalar, Text, Value};
use std::alloc::Global;
use tor_terms::Elem;

fn number_row_of(alloc: Global, n: i64) -> Result<Row, NoMemory>
    ensures { IfOk result (λ row. row ≡ number_row n) }
{
    let mut cells = Items::new(alloc);
    cells.push(Scalar::Long(n))?;
    Ok(Row {
        kind: Kind::Table(0),
        cells,
    })
}

fn pay(alloc: Global, ns: &[i64]) -> Result<Db, NoMemory>
    ensures { IfOk result (λ db. db ≡ numbers ns.now) }
{
    let mut db = Db::new(alloc);
    db.add_table(Text::from_str(alloc, "Pay")?)?;
    for n in ns {
        db.put_row(0, number_row_of(alloc, *n)?)?;
    }
    Ok(db)
}

fn sum_acc(alloc: Global) -> Result<Acc, NoMemory>
    ensures { IfOk result (λ a. accumulator a ≡ sum_of_column) }
{
    let mut chain = Items::new(alloc);
    chain.push(0)?;
    let mut guards = Items::new(alloc);
    guards.push(None)?;
    Ok(Acc {
        chain,
        base: 0,
        guards,
        update: Update::Plus(Elem::Field(0, 0)),
        start: Some(Scalar::Long(0)),
        opposite: false,
        pool: Items::new(alloc),
    })
}

fn sum_parts(alloc: Global) -> Result<Parts, NoMemory>
    ensures { IfOk result (λ p. parts_of p ≡ sum_of_numbers) }
{
    let mut lists = Items::new(alloc);
    lists.push(ListDef {
        table: 0,
        keys: Items::new(alloc),
        limit: None,
    })?;
    let mut accs = Items::new(alloc);
    accs.push(sum_acc(alloc)?)?;
    Ok(Parts {
        lists,
        atoms: Items::new(alloc),
        accs,
        entries: Items::new(alloc),
        known: 0,
    })
}

fn sum_fragment(alloc: Global) -> Result<Option<KFragment>, NoMemory>
    ensures { IfOk result (λ o. IfSome o (λ f. fragment_of f ≡ sum_of_numbers)) }
{
    match KFragment::from_parts(sum_parts(alloc)?) {
        Ok(frag) => Ok(Some(frag)),
        Err(_) => Ok(None),
    }
}

fn nothing_given(alloc: Global) -> Entry
    ensures { result ≡ nothing }
{
    Entry {
        values: Items::new(alloc),
        known: Items::new(alloc),
    }
}

fn number_of(end: FragmentEnd) -> Option<i64> {
    match end {
        FragmentEnd::Store(values) => first_number(values.as_slice()),
        FragmentEnd::Overflow => None,
    }
}

fn first_number(values: &[Value]) -> Option<i64> {
    match values.first() {
        Some(Value::One(Scalar::Long(n))) => Some(*n),
        _ => None,
    }
}

fn run_sum(alloc: Global, frag: &KFragment, ns: &[i64]) -> Result<Option<i64>, NoMemory>
    requires { fragment_of frag.now ≡ sum_of_numbers }
{
    let db = pay(alloc, ns)?;
    let entry = nothing_given(alloc);
    Ok(number_of(run_fragment(alloc, frag, &db, &entry)?))
}

// The sum of numbers, and none where it overflows.
fn sum(alloc: Global, ns: &[i64]) -> Result<Option<i64>, NoMemory> {
    match sum_fragment(alloc)? {
        Some(frag) => run_sum(alloc, &frag, ns),
        None => Ok(None),
    }
}

/// Appends the sum of numbers, or that it overflows.
pub fn put_total(out: &mut String, alloc: Global, words: &[&str]) -> Result<(), NoMemory> {
    let mut numbers = Vec::new(alloc);
    for n in 1..words.len() {
        numbers.push(whole_at(words, n))?;
    }
    match sum(alloc, &numbers)? {
        Some(number) => Ok(write!(out, "{number}")?),
        None => Ok(out.push_str("overflow")?),
    }
}
