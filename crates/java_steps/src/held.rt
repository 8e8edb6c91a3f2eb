// What variables hold.
ghost use Rattle.std.specs.Prelude.{◌≡◌, IfOk};
ghost use Rattle.java_steps.specs.Held.{rows_in, value_in};

use crate::members::Members;
use qbs_base::{NoMemory, Row, Rows, Scalar, Value, copy_row, copy_rows, copy_scalar};
use std::alloc::Global;
use std::rc::Rc;

/// Rows of a list: those of a table, lent by the database, rows that variables share, or a list or set
/// that knows its members, which they share too.
#[derive(Drop)]
pub enum List<'a> {
    Lent(&'a [Row]),
    Shared(Rc<Rows>),
    Indexed(Rc<Members>),
}

/// What a variable holds or an expression gives: a scalar, a row of its own or one that the database
/// lends, or a list. No list is copied until it is changed while something else holds it.
#[derive(Drop)]
pub enum Held<'a> {
    One(Scalar),
    Whole(Row),
    Lent(&'a Row),
    Many(List<'a>),
}

/// A variable: what it holds, and whether it is a set.
#[derive(Drop)]
pub struct Variable<'a> {
    pub held: Held<'a>,
    pub is_set: bool,
}

/// The rows of a list.
pub fn rows<'b, 'a>(list: &'b List<'a>) -> &'b [Row]
    ensures { result.now ≡ rows_in list.now }
{
    match list {
        List::Lent(rows) => rows,
        List::Shared(rows) => rows.as_slice(),
        List::Indexed(members) => members.as_slice(),
    }
}

/// The same list once more.
pub fn list_again<'a>(list: &List<'a>) -> Result<List<'a>, NoMemory>
    ensures { IfOk result (λ l. rows_in l ≡ rows_in list.now) }
{
    match list {
        List::Lent(rows) => Ok(List::Lent(rows)),
        List::Shared(rows) => Ok(List::Shared(rows.clone()?)),
        List::Indexed(members) => Ok(List::Indexed(members.clone()?)),
    }
}

/// The same value once more.
#[inline(never)]
pub fn held_again<'a>(alloc: Global, held: &Held<'a>) -> Result<Held<'a>, NoMemory>
    ensures { IfOk result (λ h. value_in h ≡ value_in held.now) }
{
    match held {
        Held::One(x) => Ok(Held::One(copy_scalar(alloc, x)?)),
        Held::Whole(row) => Ok(Held::Whole(copy_row(alloc, row)?)),
        Held::Lent(row) => Ok(Held::Lent(row)),
        Held::Many(list) => Ok(Held::Many(list_again(list)?)),
    }
}

// Rows that variables share, as rows of their own.
fn unshared(alloc: Global, rows: Rc<Rows>) -> Result<Rows, NoMemory>
    ensures { IfOk result (λ own. own ≡ rows.value) }
{
    match Rc::try_unwrap(rows) {
        Ok(rows) => Ok(rows),
        Err(rows) => copy_rows(alloc, rows.as_slice()),
    }
}

/// The rows of a list as rows of its own: they are copied only where something else holds them.
pub fn own_rows(alloc: Global, list: List) -> Result<Rows, NoMemory>
    ensures { IfOk result (λ rows. rows ≡ rows_in list.entry) }
{
    match list {
        List::Lent(rows) => copy_rows(alloc, rows),
        List::Shared(rows) => unshared(alloc, rows),
        List::Indexed(members) => match Rc::try_unwrap(members) {
            Ok(members) => Ok(members.into_rows()),
            Err(members) => copy_rows(alloc, members.as_slice()),
        },
    }
}

/// The rows of a list as rows of its own that know their members: each row is met anew only where the
/// list didn't know them before, or something else holds it.
pub fn own_members(alloc: Global, list: List) -> Result<Members, NoMemory>
    ensures { IfOk result (λ members. members ≡ rows_in list.entry) }
{
    match list {
        List::Lent(rows) => Members::from_rows(alloc, copy_rows(alloc, rows)?),
        List::Shared(rows) => Members::from_rows(alloc, unshared(alloc, rows)?),
        List::Indexed(members) => match Rc::try_unwrap(members) {
            Ok(members) => Ok(members),
            Err(members) => Members::from_rows(alloc, copy_rows(alloc, members.as_slice())?),
        },
    }
}

/// A list of these rows.
pub fn list_of<'a>(alloc: Global, rows: Rows) -> Result<List<'a>, NoMemory>
    ensures { IfOk result (λ l. rows_in l ≡ rows) }
{
    Ok(List::Shared(Rc::new(alloc, rows)?))
}

// Rows as a list that knows its members, where nothing else holds them.
fn indexed_alone<'a>(alloc: Global, rows: Rc<Rows>) -> Result<List<'a>, NoMemory>
    ensures { IfOk result (λ l. rows_in l ≡ rows.value) }
{
    match Rc::try_unwrap(rows) {
        Ok(rows) => list_of_members(alloc, Members::from_rows(alloc, rows)?),
        Err(rows) => Ok(List::Shared(rows)),
    }
}

// A list that knows its members. Rows that something else holds too stay as they are, since they would be copied.
fn indexed<'a>(alloc: Global, list: List<'a>) -> Result<List<'a>, NoMemory>
    ensures { IfOk result (λ l. rows_in l ≡ rows_in list.entry) }
{
    match list {
        List::Lent(rows) => {
            let rows = copy_rows(alloc, rows)?;
            list_of_members(alloc, Members::from_rows(alloc, rows)?)
        }
        List::Shared(rows) => indexed_alone(alloc, rows),
        List::Indexed(members) => Ok(List::Indexed(members)),
    }
}

/// The same value for a variable in which members are looked for again and again, where `looks` says so: its list knows them from
/// then on.
pub fn held_to_look_in<'a>(alloc: Global, looks: bool, held: Held<'a>) -> Result<Held<'a>, NoMemory>
    ensures { IfOk result (λ h. value_in h ≡ value_in held.entry) }
{
    if !looks {
        return Ok(held);
    }
    match held {
        Held::Many(list) => Ok(Held::Many(indexed(alloc, list)?)),
        other => Ok(other),
    }
}

/// A list of the rows of one that knows its members.
pub fn list_of_members<'a>(alloc: Global, members: Members) -> Result<List<'a>, NoMemory>
    ensures { IfOk result (λ l. rows_in l ≡ members) }
{
    Ok(List::Indexed(Rc::new(alloc, members)?))
}

/// The value as one that stands alone.
pub fn value(alloc: Global, held: Held) -> Result<Value, NoMemory>
    ensures { IfOk result (λ v. v ≡ value_in held.entry) }
{
    match held {
        Held::One(x) => Ok(Value::One(x)),
        Held::Whole(row) => Ok(Value::Whole(row)),
        Held::Lent(row) => Ok(Value::Whole(copy_row(alloc, row)?)),
        Held::Many(list) => Ok(Value::Many(own_rows(alloc, list)?)),
    }
}
