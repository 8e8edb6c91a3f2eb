// Variables and columns.
ghost use Rattle.std.specs.Prelude.{◌≡◌, option_copied};
ghost use Rattle.view_rules.specs.Names as specs;
ghost use Rattle.view_rules.specs.Seen as seen;
ghost use Rattle.view_rules.specs.Setting.{within_of};

use crate::sight::find_sighted;
use crate::steps::{here, is_at, is_name_among, next, past};
use crate::{ColumnName, JavaType, Param, Sighted, Within};
use view_map::Member;

/// The variable that an item names.
pub fn variable_at<'a>(w: &Within, sight: &'a [Sighted], i: usize) -> Option<&'a Sighted>
    ensures { option_copied result ≡ specs.variable_at (within_of w.now) sight.now i }
{
    match w.items.get(i) {
        Some(item) => find_sighted(sight, item.bytes.as_slice()),
        None => None,
    }
}

fn stands_alone(java: JavaType) -> bool
    ensures { result ≡ specs.stands_alone java }
{
    matches!(java, JavaType::Scalar(_) | JavaType::Row(_))
}

fn own_type(v: &Sighted) -> Option<JavaType>
    ensures { result ≡ specs.own_type v.now }
{
    if !v.outside && (!v.column.is_some() && stands_alone(v.java)) {
        Some(v.java)
    } else {
        None
    }
}

/// Whether a variable from outside may be read: the method doesn't test it for null, or a guard stands before.
pub fn may_be_read(w: &Within, v: &Sighted) -> bool
    ensures { result ≡ specs.may_be_read (within_of w.now) v.now }
{
    !is_name_among(v.name.as_slice(), w.tested)
}

fn is_column_of(a: Option<u32>, b: Option<u32>) -> bool
    ensures { result ≡ specs.is_column_of a b }
{
    match (a, b) {
        (Some(a), Some(b)) => a == b,
        (None, None) => true,
        _ => false,
    }
}

/// Whether a parameter is this variable, or this column of it.
pub fn is_param(param: Option<&Param>, name: &[u8], column: Option<u32>) -> bool
    ensures { result ≡ specs.is_param (option_copied param.entry) name.now column }
{
    match param {
        Some(p) => p.variable.as_slice() == name && is_column_of(p.column, column),
        None => false,
    }
}

fn is_scalar_type(java: JavaType) -> bool
    ensures { result ≡ specs.is_scalar_type java }
{
    matches!(java, JavaType::Scalar(_))
}

fn outer_type(w: &Within, number: usize, v: &Sighted) -> Option<JavaType>
    ensures { result ≡ specs.outer_type (within_of w.now) number v.now }
{
    if v.outside
        && (is_scalar_type(v.java)
            && (may_be_read(w, v) && is_param(w.params.get(number), v.name.as_slice(), None)))
    {
        Some(v.java)
    } else {
        None
    }
}

fn stands_for(w: &Within, row: usize, class: u32, member: u32, column: &Option<ColumnName>) -> bool
    ensures { result ≡ specs.stands_for (within_of w.now) row class member column.now }
{
    match column {
        Some(c) => (c.class == class && c.member == member) && is_at(w, row, c.row.as_slice()),
        None => false,
    }
}

fn column_type(w: &Within, row: usize, class: u32, member: u32, v: &Sighted) -> Option<JavaType>
    ensures { result ≡ specs.column_type (within_of w.now) row class member v.now }
{
    if !v.outside && stands_for(w, row, class, member, &v.column) {
        Some(v.java)
    } else {
        None
    }
}

// ---- Columns

/// The member of a class of the map.
pub fn member_of<'a>(w: &Within<'a>, class: u32, member: u32) -> Option<&'a Member>
    ensures { option_copied result ≡ specs.member_of (within_of w.now) class member }
{
    let c = w.map.classes.as_slice().get(class as usize)?;
    c.members.as_slice().get(member as usize)
}

fn past_call(w: &Within, is_call: bool, i: usize) -> Option<usize>
    ensures { result ≡ specs.past_call (within_of w.now) is_call i }
{
    if is_call {
        past(w, b")", past(w, b"(", i)?)
    } else {
        Some(i)
    }
}

/// The number behind `.m` or `.m()`, as the map has the member, and its type.
pub fn past_member(w: &Within, class: u32, member: u32, i: usize) -> Option<(usize, JavaType)>
    ensures { result ≡ specs.past_member (within_of w.now) class member i }
{
    let m = member_of(w, class, member)?;
    let j = past(w, b".", i)?;
    let k = past(w, m.name.as_slice(), j)?;
    let l = past_call(w, m.is_call, k)?;
    Some((l, JavaType::Scalar(m.java)))
}

/// Whether a type is that of a row of a class.
pub fn is_row_of(class: u32, java: JavaType) -> bool
    ensures { result ≡ specs.is_row_of class java }
{
    match java {
        JavaType::Row(c) => c == class,
        _ => false,
    }
}

fn column_of_member(member: Option<&Member>) -> Option<u32>
    ensures { result ≡ specs.column_of_member (option_copied member.entry) }
{
    match member {
        Some(m) => Some(m.column),
        None => None,
    }
}

fn is_outer_row(w: &Within, class: u32, member: u32, number: usize, v: &Sighted) -> bool
    ensures { result ≡ specs.is_outer_row (within_of w.now) class member number v.now }
{
    (v.outside && (is_row_of(class, v.java) && may_be_read(w, v)))
        && is_param(
            w.params.get(number),
            v.name.as_slice(),
            column_of_member(member_of(w, class, member)),
        )
}

/// The schema's name of the column that a member gives.
pub fn column_name<'a>(w: &Within<'a>, class: u32, member: u32) -> Option<&'a [u8]>
    ensures { option_copied result ≡ specs.column_name (within_of w.now) class member }
{
    let c = w.map.classes.as_slice().get(class as usize)?;
    let m = c.members.as_slice().get(member as usize)?;
    let t = w.tables.get(c.table as usize)?;
    let column = t.columns.as_slice().get(m.column as usize)?;
    Some(column.name.as_slice())
}

// ---- As expressions

pub fn own_variable_at(
    w: &Within,
    sight: &[Sighted],
    at: usize,
    i: usize,
) -> Option<(usize, JavaType)>
    ensures { result ≡ seen.own_variable_at (within_of w.now) sight.now at i }
{
    let h = here(at, i)?;
    let v = variable_at(w, sight, h)?;
    let java = own_type(v)?;
    let j = next(w, h)?;
    Some((j, java))
}

pub fn parameter_at(
    w: &Within,
    sight: &[Sighted],
    at: usize,
    number: usize,
    i: usize,
) -> Option<(usize, JavaType)>
    ensures { result ≡ seen.parameter_at (within_of w.now) sight.now at number i }
{
    let h = here(at, i)?;
    let v = variable_at(w, sight, h)?;
    let java = outer_type(w, number, v)?;
    let j = next(w, h)?;
    Some((j, java))
}

pub fn named_column_at(
    w: &Within,
    sight: &[Sighted],
    at: usize,
    row: usize,
    class: u32,
    member: u32,
    i: usize,
) -> Option<(usize, JavaType)>
    ensures { result ≡ seen.named_column_at (within_of w.now) sight.now at row class member i }
{
    let h = here(at, i)?;
    let v = variable_at(w, sight, h)?;
    let java = column_type(w, row, class, member, v)?;
    let j = next(w, h)?;
    Some((j, java))
}

pub fn outer_column_at(
    w: &Within,
    sight: &[Sighted],
    at: usize,
    class: u32,
    member: u32,
    number: usize,
    i: usize,
) -> Option<(usize, JavaType)>
    ensures { result ≡ seen.outer_column_at (within_of w.now) sight.now at class member number i }
{
    let h = here(at, i)?;
    let v = variable_at(w, sight, h)?;
    if is_outer_row(w, class, member, number, v) {
        let j = next(w, h)?;
        past_member(w, class, member, j)
    } else {
        None
    }
}
