// What the postconditions of a candidate say.
ghost use Rattle.std.specs.Prelude.{◌≡◌, ◌↔◌, ◌++◌, IsTrue, IfOk, OnOk, []};
ghost use Rattle.qbs_base.specs.Scalar.{scalar_same};
ghost use Rattle.qbs_base.specs.declared.scalar.Scalar.TheVariants as scalars;
ghost use Rattle.qbs_base.specs.declared.scalar.Value.TheVariants as values;
ghost use Rattle.tor_terms.specs.Evaluation as found;
ghost use Rattle.tor_terms.specs.Worlds.{same_rows as are_same_rows};
ghost use Rattle.kernel_lang.specs.Fitting.{PartsFit};
ghost use Rattle.kernel_lang.specs.Postcondition.{postconditions};
ghost use Rattle.kernel_lang.specs.Whole.{fragment_of};
ghost use Rattle.kernel_interp.specs.Members.{forms_lent, member_seen, members_seen};
ghost use Rattle.kernel_interp.specs.Claiming.{chosen_world, taken, element_for, number_value, best_from, claim_of, said, all_said, same_value, same_values};
ghost use Rattle.kernel_interp.specs.Reading.{rows_in, plain_of};

use crate::choice::all_hold;
use crate::claims::Claims;
use crate::flag::flag_end;
use crate::given::rows_of;
use crate::list::all_listed;
use crate::member::Member;
use crate::members::members;
use crate::place::Place;
use crate::running::elem_at;
use crate::setting::Setting;
use kernel_lang::{Acc, Candidate, Entry, KFragment, Update};
use qbs_base::{Db, Items, Kind, NoMemory, Row, Rows, Scalar, Value, Values};
use std::alloc::Global;
use tor_terms::{Elem, Formula, Way, better, has_row, number_of, same_cell, same_row};

// Pushes an element of all rows at which these loops come to what stands in them, and at which all
// formulas hold.
fn push_taken(
    claims: Claims,
    fs: &[&Formula],
    e: Elem,
    loops: &[u32],
    place: &Place,
    all: &mut Rows,
) -> Result<(), NoMemory>
    ensures { OnOk result (all.new ≡ all.old ++ taken (chosen_world claims.entry) (plain_of claims.entry.setting).atoms (forms_lent fs.now) e loops.now (rows_in place.now)) }
{
    match loops.split_first() {
        None => {
            if all_hold(claims, fs, place) {
                all.push(elem_at(claims.setting.alloc, e, place)?)?;
            }
            Ok(())
        }
        Some((over, inner)) => {
            let rows = rows_of(claims.setting, *over);
            for row in rows {
                let here = Place::In(*over, row, &*place);
                push_taken(claims, fs, e, inner, &here, &mut *all)?;
            }
            Ok(())
        }
    }
}

fn element_of(update: Update) -> Elem
    ensures { result ≡ element_for update }
{
    match update {
        Update::Push(e) => e,
        Update::PushNew(e) => e,
        Update::Tick => Elem::Whole(0),
        Update::Plus(e) => e,
        Update::Best(_, e) => e,
        Update::Mark => Elem::Whole(0),
    }
}

fn copied(row: &Row) -> Result<Row, NoMemory>
    ensures { IfOk result (λ copy. copy ≡ row.now) }
{
    Ok(row.clone()?)
}

// Appends a row where it isn't among those that are there.
fn push_new(rows: &mut Rows, row: Row) -> Result<(), NoMemory>
    ensures { OnOk result (rows.new ≡ found.with_row rows.old row) }
{
    if !has_row(rows.as_slice(), &row) {
        rows.push(row)?;
    }
    Ok(())
}

fn first_rows(alloc: Global, rows: &[Row]) -> Result<Rows, NoMemory>
    ensures { IfOk result (λ seen. seen ≡ found.first_rows [] rows.now) }
{
    let mut seen = Items::new(alloc);
    for row in rows {
        push_new(&mut seen, copied(row)?)?;
    }
    Ok(seen)
}

// The sum of all, where all are numbers. It has more than 64 bits where they are many.
fn sum_of(rows: &[Row]) -> Option<i128>
    ensures { result ≡ found.sum_of rows.now }
{
    let mut sum: i128 = 0;
    for row in rows {
        match number_of(row) {
            Some(n) => sum += n as i128,
            None => return None,
        }
    }
    Some(sum)
}

// The greatest or least of a number and of all elements, where all are numbers.
fn best_of(way: Way, start: i64, rows: &[Row]) -> Option<i64>
    ensures { result ≡ found.best_of way start rows.now }
{
    let mut best = start;
    for row in rows {
        match number_of(row) {
            Some(n) => best = better(way, best, n),
            None => return None,
        }
    }
    Some(best)
}

fn same_rows(rs: &[Row], ss: &[Row]) -> bool
    ensures { result ≡ are_same_rows rs.now ss.now }
{
    match rs.split_first() {
        None => ss.is_empty(),
        Some((r, rest)) => match ss.split_first() {
            None => false,
            Some((s, others)) => same_row(r, s) && same_rows(rest, others),
        },
    }
}

fn are_rows(v: &Value, rows: &[Row]) -> bool
    ensures { result ≡ same_value v.now (values.Many rows.now) }
{
    match v {
        Value::Many(own) => same_rows(own.as_slice(), rows),
        _ => false,
    }
}

fn is_scalar(v: &Value, x: &Scalar) -> bool
    ensures { result ≡ same_value v.now (values.One x.now) }
{
    match v {
        Value::One(own) => same_cell(own, x),
        _ => false,
    }
}

fn is_long(x: &Scalar, n: i128) -> bool
    ensures { result ≡ scalar_same x.now (scalars.Long n) }
{
    match x {
        Scalar::Long(own) => *own as i128 == n,
        _ => false,
    }
}

fn is_truth(v: &Value, b: bool) -> bool
    ensures { result ≡ same_value v.now (values.One (scalars.Bool b)) }
{
    is_scalar(v, &Scalar::Bool(b))
}

// Whether a value is this number, where there is one. It may have more than 64 bits.
fn is_number(v: &Value, n: Option<i128>) -> bool
    ensures { result ≡ same_value v.now (number_value n) }
{
    match n {
        Some(n) => match v {
            Value::One(own) => is_long(own, n),
            _ => false,
        },
        None => is_truth(v, false),
    }
}

fn is_best(way: Way, start: &Option<Scalar>, rows: &[Row], v: &Value) -> bool
    ensures { result ≡ same_value v.now (number_value (best_from way start.now rows.now)) }
{
    match start {
        Some(Scalar::Long(first)) => match best_of(way, *first, rows) {
            Some(n) => is_number(v, Some(n as i128)),
            None => is_number(v, None),
        },
        _ => is_number(v, None),
    }
}

// Whether a value is what an accumulator makes of elements.
fn is_made(alloc: Global, acc: &Acc, rows: &[Row], v: &Value) -> Result<bool, NoMemory>
    ensures { IfOk result (λ b. b ≡ same_value v.now (claim_of acc.now.update acc.now.start acc.now.opposite rows.now)) }
{
    match acc.update {
        Update::Push(_) => Ok(are_rows(v, rows)),
        Update::PushNew(_) => {
            let first = first_rows(alloc, rows)?;
            Ok(are_rows(v, first.as_slice()))
        }
        Update::Tick => Ok(is_number(v, Some(rows.len() as i128))),
        Update::Plus(_) => Ok(is_number(v, sum_of(rows))),
        Update::Best(way, _) => Ok(is_best(way, &acc.start, rows, v)),
        Update::Mark => Ok(is_truth(v, flag_end(rows.is_empty(), acc.opposite))),
    }
}

fn is_said(claims: Claims, member: &Member, v: &Value) -> Result<bool, NoMemory>
    ensures { IfOk result (λ b. b ≡ same_value v.now (said (plain_of claims.entry.setting).atoms (chosen_world claims.entry) (member_seen member.now))) }
{
    let alloc = claims.setting.alloc;
    let outside = Place::Outside(claims.setting.no_row);
    let mut rows = Items::new(alloc);
    push_taken(
        claims,
        member.chosen.as_slice(),
        element_of(member.acc.update),
        member.acc.chain.as_slice(),
        &outside,
        &mut rows,
    )?;
    is_made(alloc, member.acc, rows.as_slice(), v)
}

fn are_said(claims: Claims, members: &[Member], ends: &[Value]) -> Result<bool, NoMemory>
    ensures { IfOk result (λ b. b ≡ same_values ends.now (all_said (plain_of claims.entry.setting).atoms (chosen_world claims.entry) (members_seen members.now))) }
{
    match members.split_first() {
        None => Ok(ends.is_empty()),
        Some((member, rest)) => {
            if member.acc.base != 0 {
                return are_said(claims, rest, ends);
            }
            match ends.split_first() {
                None => Ok(false),
                Some((end, others)) => {
                    if is_said(claims, member, end)? {
                        are_said(claims, rest, others)
                    } else {
                        Ok(false)
                    }
                }
            }
        }
    }
}

/// Whether these values are what the postconditions of a candidate say over the rows of a database,
/// with these entry values and known lists. The parts of the fragment have to fit them.
pub fn ends_as_claimed(
    alloc: Global,
    frag: &KFragment,
    cand: &Candidate,
    db: &Db,
    entry: &Entry,
    ends: &Values,
) -> Result<bool, NoMemory>
    requires { PartsFit (fragment_of frag.now) db.now entry.now }
    ensures exact { IfOk result (λ b. IsTrue b ↔ (ends.now ≡ postconditions (fragment_of frag.now) cand.now db.now entry.now)) }
{
    let lists = all_listed(alloc, db, frag.lists.as_slice())?;
    let chosen = members(alloc, frag, cand.as_slice())?;
    let no_row = Row {
        kind: Kind::Plain,
        cells: Items::new(alloc),
    };
    let setting = Setting {
        alloc,
        frag,
        lists: lists.as_slice(),
        given: entry,
        no_row: &no_row,
    };
    let claims = Claims {
        setting,
        members: chosen.as_slice(),
    };
    are_said(claims, claims.members, ends.as_slice())
}
