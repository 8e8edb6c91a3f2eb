// The variables in sight: names that are new, what is declared, and hash sets.
ghost use Rattle.std.specs.Prelude.{◌≡◌, ◌++◌, ◌∷◌, [], Some, IfOk, OnOk, is_some, option_copied, take};
ghost use Rattle.view_rules.specs.Reading.{expression};
ghost use Rattle.view_rules.specs.Setting.{within_of};
ghost use Rattle.view_rules.specs.Spelled.{bytes_at as bytes_of};
ghost use Rattle.view_statements.specs.Places as specs;
ghost use Rattle.view_statements.specs.Places.{frame_of};

use crate::Frame;
use crate::words::{is_among, is_reserved};
use qbs_base::{Bytes, Items, NoMemory};
use std::alloc::Global;
use view_rules::{
    ColumnName, Expression, JavaType, Sighted, Within, bytes_at, find_sighted, next, past,
};
use view_shapes::{is_mention, is_plain_name};

/// A copy of bytes.
pub fn copied(alloc: Global, bytes: &[u8]) -> Result<Bytes, NoMemory>
    ensures { IfOk result (λ copy. copy ≡ bytes.now) }
{
    let copy = bytes.to_vec(alloc)?;
    Ok(Items::from_vec(copy))
}

/// Whether a name is no word of the source language, nor that of the database there.
pub fn is_no_word(name: &[u8]) -> bool
    ensures { result ≡ specs.is_no_word name.now }
{
    !is_reserved(name) && !(name == b"db".as_slice())
}

/// Whether an item is a name that both languages take for one.
pub fn is_seen_name(w: &Within, k: usize) -> bool
    ensures { result ≡ specs.is_seen_name (within_of w.now) k }
{
    is_plain_name(w.items, k) && is_no_word(bytes_at(w, k))
}

fn is_there(v: Option<&Sighted>) -> bool
    ensures { result ≡ is_some (option_copied v.entry) }
{
    match v {
        Some(_) => true,
        None => false,
    }
}

/// Whether an item is such a name, and no variable in sight has it.
pub fn is_new_name(f: &Frame, sight: &[Sighted], k: usize) -> bool
    ensures { result ≡ specs.is_new_name (frame_of f.now) sight.now k }
{
    is_seen_name(f.within, k) && !is_there(find_sighted(sight, bytes_at(f.within, k)))
}

/// Adds an item to a list. It fails only by want of memory.
pub fn push_onto<T: Drop>(list: &mut Vec<T>, item: T) -> Result<(), NoMemory>
    ensures { OnOk result (list.new.items ≡ list.old.items ++ item ∷ []) }
{
    list.push(item)?;
    Ok(())
}

/// Adds a variable of the slice's own.
pub fn push_own(
    alloc: Global,
    name: &[u8],
    java: JavaType,
    column: Option<ColumnName>,
    sight: &mut Vec<Sighted>,
) -> Result<(), NoMemory>
    ensures { OnOk result (sight.new.items ≡ sight.old.items ++ specs.own name.now java column ∷ []) }
{
    let name = copied(alloc, name)?;
    push_onto(
        sight,
        Sighted {
            name,
            java,
            outside: false,
            column,
        },
    )
}

fn make_own(v: &mut Sighted, name: &[u8])
    ensures { v.new ≡ specs.made_own name.now v.old }
{
    v.outside = v.outside && !(v.name.as_slice() == name);
}

/// The variable of a name isn't from outside any more.
#[tactic(auto, using(crate::proofs::Changed::changed_on))]
pub fn own_from_here(name: &[u8], sight: &mut Vec<Sighted>)
    ensures { sight.new.items ≡ specs.own_from_here name.now sight.old.items }
{
    for v in sight.iter_mut() {
        make_own(v, name);
    }
}

fn is_column_of(row: &[u8], column: &Option<ColumnName>) -> bool
    ensures { result ≡ specs.is_column_of row.now column.now }
{
    match column {
        Some(c) => c.row.as_slice() == row,
        None => false,
    }
}

/// Whether a local name stands for a column of this row.
pub fn has_columns(sight: &[Sighted], row: &[u8]) -> bool
    ensures { result ≡ specs.has_columns sight.now row.now }
{
    sight.iter().any(|v| is_column_of(row, &v.column))
}

// ---- Hash sets

/// Whether a value is a hash set.
pub fn is_hashed(e: &Expression) -> bool
    ensures { result ≡ specs.is_hashed (expression e.now) }
{
    match e {
        Expression::NewSet { hashed, .. } => *hashed,
        Expression::NewSetOf { hashed, .. } => *hashed,
        Expression::Group { inner, .. } => is_hashed(inner),
        _ => false,
    }
}

fn past_asked(w: &Within, i: usize) -> Option<usize>
    ensures { result ≡ specs.past_asked (within_of w.now) i }
{
    if is_among(bytes_at(w, i), &[b"add", b"contains", b"size", b"isEmpty"]) {
        past(w, b"(", next(w, i)?)
    } else {
        None
    }
}

fn past_use(w: &Within, k: usize) -> Option<usize>
    ensures { result ≡ specs.past_use (within_of w.now) k }
{
    let i = next(w, k)?;
    let j = past(w, b".", i)?;
    past_asked(w, j)
}

fn is_unordered_at(w: &Within, name: &[u8], k: usize) -> bool
    ensures { result ≡ specs.is_unordered_at (within_of w.now) name.now k }
{
    !is_mention(w.items, name, k) || past_use(w, k).is_some()
}

#[tactic(auto, using(view_shapes::proofs::Numbers::all_but, view_shapes::proofs::Numbers::all_next, view_shapes::proofs::Numbers::all_end))]
fn is_unordered(f: &Frame, name: &[u8], from: usize) -> bool
    ensures { result ≡ specs.is_unordered (frame_of f.now) name.now from }
{
    for k in from..f.end {
        if !is_unordered_at(f.within, name, k) {
            return false;
        }
    }
    true
}

/// Whether the value of a variable that is declared may be this one, behind a number: nobody walks it where it is a hash set.
pub fn may_be_hashed(f: &Frame, name: usize, value: &Expression, from: usize) -> bool
    ensures { result ≡ specs.may_be_hashed (frame_of f.now) name (expression value.now) from }
{
    !is_hashed(value) || is_unordered(f, bytes_at(f.within, name), from)
}
