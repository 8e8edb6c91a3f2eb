// A join of users with their roles, answered again and again.
ghost use Rattle.std.specs.Prelude.{◌≡◌, []};
ghost use Rattle.sql_ast.specs.Reading.{query};
ghost use Rattle.sql_exec.specs.Answered.{IsAnswerable};

use crate::answers::{number_of, put_row};
use qbs_base::{Db, NoMemory, Row, Scalar, Scalars, Text};
use sql_ast::Query;
use sql_exec::{Answer, answer_indexed};
use std::alloc::Global;

fn put_tables(db: &mut Db, alloc: Global) -> Result<(), NoMemory>
    requires { db.old ≡ [] }
{
    db.add_table(Text::from_string(String::new(alloc)))?;
    let role = Text::from_str(alloc, "Role")?;
    if db.table(&role).is_none() {
        db.add_table(role)?;
    }
    Ok(())
}

// The key of a user and of a role with this number: the number itself, or one key for all.
fn key(shared: i64, number: i64) -> i64 {
    if shared < 0 { number } else { shared }
}

// Adds so many users, each with its place in its last column, and as many roles.
fn put_users_and_roles(db: &mut Db, alloc: Global, count: i64, shared: i64) -> Result<(), NoMemory>
    requires { db.old ≡ [] }
{
    put_tables(db, alloc)?;
    for number in 0..count {
        let id = key(shared, number);
        put_row(db, alloc, 0, &[id, id, number])?;
        put_row(db, alloc, 1, &[id])?;
    }
    Ok(())
}

// Whether the users come in order, each so many times.
fn are_in_order(rows: &[Row], each: usize) -> bool {
    for (k, row) in rows.iter().enumerate() {
        let place = k.checked_div(each).unwrap_or(0);
        match row.cells.as_slice().get(2) {
            Some(Scalar::Long(number)) => {
                if *number != place as i64 {
                    return false;
                }
            }
            _ => return false,
        }
    }
    true
}

// How many rows the answer has, where the users come in order.
fn joined(alloc: Global, q: &Query, db: &Db, each: usize) -> Result<Option<usize>, NoMemory>
    requires { IsAnswerable (query q.now) }
{
    match answer_indexed(alloc, q, db, &Scalars::new(alloc))? {
        Answer::Rows(rows) => {
            if are_in_order(rows.as_slice(), each) {
                Ok(Some(rows.len()))
            } else {
                Ok(None)
            }
        }
        Answer::One(_) => Ok(None),
        Answer::SumTooLarge => Ok(None),
    }
}

fn number_at(alloc: Global, fields: &[Vec<u8>], at: usize) -> Result<i64, NoMemory> {
    match fields.get(at) {
        Some(digits) => number_of(alloc, digits),
        None => Ok(0),
    }
}

fn put_times(
    out: &mut String,
    alloc: Global,
    q: &Query,
    db: &Db,
    fields: &[Vec<u8>],
) -> Result<(), NoMemory>
    requires { IsAnswerable (query q.now) }
{
    let times = number_at(alloc, fields, 2)?;
    let each = number_at(alloc, fields, 3)?;
    let each = if each < 0 { 0 } else { each as usize };
    let mut rows = None;
    for _ in 0..times {
        rows = joined(alloc, q, db, each)?;
        if rows.is_none() {
            break;
        }
    }
    match rows {
        Some(rows) => Ok(write!(out, "{times} times {rows} rows in order")?),
        None => Ok(out.push_str("not in order")?),
    }
}

/// Appends how many rows the answer of a query has over so many users and roles, which have the key in the second field, or their own where it
/// is less than nought. It is answered as often as the third field says, and each time each user comes as often as the fourth one says, in order.
pub fn put_joined(
    out: &mut String,
    alloc: Global,
    q: &Query,
    fields: &[Vec<u8>],
) -> Result<(), NoMemory>
    requires { IsAnswerable (query q.now) }
{
    let count = number_at(alloc, fields, 0)?;
    let shared = number_at(alloc, fields, 1)?;
    let mut db = Db::new(alloc);
    match put_users_and_roles(&mut db, alloc, count, shared) {
        Ok(_) => put_times(out, alloc, q, &db, fields),
        Err(NoMemory) => Err(NoMemory),
    }
}
