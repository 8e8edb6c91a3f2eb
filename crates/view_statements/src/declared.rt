// Statements that declare.
ghost use Rattle.std.specs.Prelude.{◌≡◌, IfOk};
ghost use Rattle.view_rules.specs.Reading.{expression};
ghost use Rattle.view_statements.specs.Places.{frame_of};
ghost use Rattle.view_statements.specs.Places as places;
ghost use Rattle.view_statements.specs.Statements as specs;

use crate::bodies::to_end;
use crate::sights::{copied, may_be_hashed, own_from_here, push_own};
use crate::steps::{declared_at, inferred_at, is_inferred, value_to};
use crate::{Frame, Place};
use qbs_base::NoMemory;
use std::alloc::Global;
use view_rules::{
    ColumnName, Expression, JavaType, Sighted, bytes_at, here, is_int, is_scalar, may_be_assigned,
    next, past, same_type,
};

/// The number behind a sign, an expression and a semicolon behind a name, and the expression's type.
pub fn assigned_to(
    f: &Frame,
    sight: &[Sighted],
    sign: &[u8],
    name: usize,
    value: &Expression,
) -> Option<(usize, JavaType)>
    ensures { result ≡ specs.assigned_to (frame_of f.now) sight.now sign.now name (expression value.now) }
{
    let i = next(f.within, name)?;
    let j = past(f.within, sign, i)?;
    value_to(f, sight, value, &[b";"], j)
}

/// Whether a query is narrowed to an `int` only for a variable that is one.
pub fn is_narrowed_well(java: JavaType, value: &Expression) -> bool
    ensures { result ≡ specs.is_narrowed_well java (expression value.now) }
{
    match value {
        Expression::Query { cast, .. } => !*cast || is_int(java),
        _ => true,
    }
}

fn is_value_of(
    f: &Frame,
    declared: JavaType,
    java: JavaType,
    name: usize,
    value: &Expression,
    e: (usize, JavaType),
) -> bool
    ensures { result ≡ specs.is_value_of (frame_of f.now) declared java name (expression value.now) e }
{
    same_type(declared, java)
        && (may_be_assigned(java, e.1)
            && (is_narrowed_well(java, value) && may_be_hashed(f, name, value, e.0)))
}

/// The number behind `T x = e;`.
pub fn declaration(
    f: &Frame,
    sight: &[Sighted],
    at: usize,
    name: usize,
    java: JavaType,
    value: &Expression,
    i: usize,
) -> Option<usize>
    ensures { result ≡ specs.declaration (frame_of f.now) sight.now at name java (expression value.now) i }
{
    let h = here(at, i)?;
    let declared = declared_at(f, sight, name, h)?;
    let e = assigned_to(f, sight, b"=", name, value)?;
    if is_value_of(f, declared, java, name, value, e) {
        Some(e.0)
    } else {
        None
    }
}

/// The number behind `var x = e;`.
pub fn inferred(
    f: &Frame,
    sight: &[Sighted],
    at: usize,
    name: usize,
    java: JavaType,
    value: &Expression,
    i: usize,
) -> Option<usize>
    ensures { result ≡ specs.inferred (frame_of f.now) sight.now at name java (expression value.now) i }
{
    let h = here(at, i)?;
    let n = inferred_at(f, sight, name, h)?;
    let e = assigned_to(f, sight, b"=", n, value)?;
    if same_type(e.1, java) && is_inferred(java) {
        Some(e.0)
    } else {
        None
    }
}

/// The number behind `T v = x.m();` in a loop.
pub fn named_column(
    f: &Frame,
    p: Place,
    sight: &[Sighted],
    at: usize,
    name: usize,
    java: JavaType,
    value: &Expression,
    i: usize,
) -> Option<usize>
    ensures { result ≡ specs.named_column (frame_of f.now) p sight.now at name java (expression value.now) i }
{
    if !p.looped {
        return None;
    }
    let h = here(at, i)?;
    let declared = declared_at(f, sight, name, h)?;
    let e = assigned_to(f, sight, b"=", name, value)?;
    if same_type(declared, java) && (is_scalar(java) && may_be_assigned(java, e.1)) {
        Some(e.0)
    } else {
        None
    }
}

// ---- In sight

/// The number behind a statement that declares a variable, which is in sight from there on.
pub fn declare(
    alloc: Global,
    f: &Frame,
    sight: &mut Vec<Sighted>,
    name: usize,
    java: JavaType,
    passed: Option<usize>,
) -> Result<Option<usize>, NoMemory>
    ensures { IfOk result (λ r. specs.with_sight sight.new.items r ≡ specs.with_sight (places.with_own (frame_of f.now) sight.old.items name java) passed) }
{
    match passed {
        Some(i) => {
            push_own(alloc, bytes_at(f.within, name), java, None, sight)?;
            Ok(Some(i))
        }
        None => Ok(None),
    }
}

/// The number behind a statement that sets a list or set from outside first, which is the slice's own from there on.
pub fn make_own(
    f: &Frame,
    sight: &mut Vec<Sighted>,
    name: usize,
    passed: Option<usize>,
) -> Option<usize>
    ensures { specs.with_sight sight.new.items result ≡ specs.with_sight (places.own_from_here (places.name_at (frame_of f.now) name) sight.old.items) passed }
{
    match passed {
        Some(i) => {
            own_from_here(bytes_at(f.within, name), sight);
            Some(i)
        }
        None => None,
    }
}

fn column_name(
    alloc: Global,
    f: &Frame,
    at: usize,
    class: u32,
    member: u32,
) -> Result<ColumnName, NoMemory>
    ensures { IfOk result (λ c. c ≡ specs.column_named (frame_of f.now) at class member) }
{
    let row = copied(alloc, bytes_at(f.within, at))?;
    Ok(ColumnName { row, class, member })
}

/// The column of a row of the slice's own that a value is.
fn column_of(alloc: Global, f: &Frame, value: &Expression) -> Result<Option<ColumnName>, NoMemory>
    ensures { IfOk result (λ c. c ≡ specs.column_of (frame_of f.now) (expression value.now)) }
{
    match value {
        Expression::Column {
            row,
            dot: _,
            class,
            member,
        } => column_in(alloc, f, row, *class, *member),
        _ => Ok(None),
    }
}

fn column_in(
    alloc: Global,
    f: &Frame,
    row: &Expression,
    class: u32,
    member: u32,
) -> Result<Option<ColumnName>, NoMemory>
    ensures { IfOk result (λ c. c ≡ specs.column_in (frame_of f.now) (expression row.now) class member) }
{
    match row {
        Expression::Variable { at } => {
            let column = column_name(alloc, f, *at, class, member)?;
            Ok(Some(column))
        }
        _ => Ok(None),
    }
}

fn push_column(
    alloc: Global,
    f: &Frame,
    sight: &mut Vec<Sighted>,
    name: usize,
    java: JavaType,
    column: Option<ColumnName>,
) -> Result<bool, NoMemory>
    ensures { IfOk result (λ r. specs.told r sight.new.items ≡ specs.with_columned (frame_of f.now) sight.old.items name java column) }
{
    match column {
        Some(column) => {
            push_own(alloc, bytes_at(f.within, name), java, Some(column), sight)?;
            Ok(true)
        }
        None => Ok(false),
    }
}

/// The number behind a statement that gives a column a local name, which is in sight from there on.
pub fn name_column(
    alloc: Global,
    f: &Frame,
    sight: &mut Vec<Sighted>,
    name: usize,
    java: JavaType,
    value: &Expression,
    passed: Option<usize>,
) -> Result<Option<usize>, NoMemory>
    ensures { IfOk result (λ r. specs.with_sight sight.new.items r ≡ specs.with_named (specs.with_columned (frame_of f.now) sight.old.items name java (specs.column_of (frame_of f.now) (expression value.now))) passed) }
{
    let column = column_of(alloc, f, value)?;
    if push_column(alloc, f, sight, name, java, column)? {
        Ok(passed)
    } else {
        Ok(None)
    }
}

/// The number behind a statement whose last item is that of a number.
pub fn ended(f: &Frame, end: usize, passed: Option<usize>) -> Option<usize>
    ensures { result ≡ specs.ended (frame_of f.now) end passed }
{
    to_end(f, end, passed?)
}
