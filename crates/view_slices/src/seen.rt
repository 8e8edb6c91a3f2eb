// How the items of a slice are seen as its statements.
ghost use Rattle.std.specs.Prelude.{◌≡◌, ◌++◌, ◌-◌, ◌∷◌, [], IfOk, option_copied};
ghost use Rattle.view_shapes.specs.Mentions.{numbers};
ghost use Rattle.view_slices.specs.Reading.{slice as plain, group as plain_group, ending as plain_ending};
ghost use Rattle.view_slices.specs.Slices as specs;
ghost use Rattle.view_slices.specs.Slices.{file_of};
ghost use Rattle.view_statements.specs.Places.{frame_of};
ghost use Rattle.view_statements.specs.Reading.{statement};
ghost use Rattle.view_statements.specs.Statements.{with_sight};

use qbs_base::NoMemory;
use std::alloc::Global;
use view_items::Item;
use view_rules::{ColumnName, Sighted, find_sighted, past_all, same_type, truth};
use view_shapes::{File, is_one_of_signs, is_one_of_words, is_word};
use view_statements::{
    Ending, Frame, Group, Place, Slice, Statement, at_top, check_statement, check_statements,
    copied, push_onto, push_own, truth_word,
};

fn is_walk(st: &Statement) -> bool
    ensures { result ≡ specs.is_walk (statement st.now) }
{
    matches!(st, Statement::ForEach { .. })
}

fn is_effect(items: &[Item], k: usize) -> bool
    ensures { result ≡ specs.is_effect items.now k }
{
    is_one_of_signs(&["=", "+=", "-=", "++", "--", "+", "-", "*"], items, k)
        || is_one_of_words(&["get", "add", "sort", "break", "while", "do"], items, k)
}

#[tactic(auto, using(view_shapes::proofs::Numbers::any_here, view_shapes::proofs::Numbers::any_next, view_shapes::proofs::Numbers::any_end))]
fn has_effects(items: &[Item], from: usize, to: usize) -> bool
    ensures { result ≡ specs.has_effects items.now from to }
{
    for k in from..to {
        if is_effect(items, k) {
            return true;
        }
    }
    false
}

fn is_return(items: &[Item], k: usize) -> bool
    ensures { result ≡ specs.is_return items.now k }
{
    is_word("return", items, k)
}

#[tactic(auto, using(view_shapes::proofs::Numbers::any_here, view_shapes::proofs::Numbers::any_next, view_shapes::proofs::Numbers::any_end))]
fn has_return(items: &[Item], from: usize, to: usize) -> bool
    ensures { result ≡ specs.has_return items.now (numbers from (to - from)) }
{
    for k in from..to {
        if is_return(items, k) {
            return true;
        }
    }
    false
}

#[tactic(auto, using(crate::proofs::Once::once_here, crate::proofs::Once::once_next, crate::proofs::Once::once_end))]
fn returns_once(items: &[Item], from: usize, to: usize) -> bool
    ensures { result ≡ specs.returns_once items.now from to }
{
    for k in from..to {
        if is_return(items, k) {
            return !has_return(items, k + 1, to);
        }
    }
    false
}

fn in_group(value: bool) -> Place
    ensures { result ≡ specs.in_group value }
{
    Place {
        looped: false,
        top: false,
        direct: false,
        found: Some(value),
    }
}

fn past_walk(file: &File, from: usize, to: usize) -> Option<usize>
    ensures { result ≡ specs.past_walk (file_of file.now) from to }
{
    if !has_effects(file.items, from, to) && returns_once(file.items, from, to) {
        Some(to)
    } else {
        None
    }
}

fn past_return(f: &Frame, value: bool, i: usize) -> Option<usize>
    ensures { result ≡ specs.past_return (frame_of f.now) value i }
{
    past_all(f.within, &[b"return", truth_word(!value), b";"], i)
}

fn past_group(f: &Frame, file: &File, value: bool, from: usize, to: usize) -> Option<usize>
    ensures { result ≡ specs.past_group (frame_of f.now) (file_of file.now) value from to }
{
    let i = past_walk(file, from, to)?;
    past_return(f, value, i)
}

fn find_group(
    alloc: Global,
    f: &Frame,
    file: &File,
    group: &Group,
    from: usize,
    sight: &mut Vec<Sighted>,
    walked: Option<usize>,
) -> Result<Option<usize>, NoMemory>
    ensures { IfOk result (λ r. with_sight sight.new.items r ≡ specs.group_found (frame_of f.now) (file_of file.now) group.now.variable group.now.value from (with_sight sight.old.items walked)) }
{
    let Some(to) = walked else {
        return Ok(None);
    };
    push_own(alloc, group.variable.as_slice(), truth(), None, sight)?;
    Ok(past_group(f, file, group.value, from, to))
}

fn check_group(
    alloc: Global,
    f: &Frame,
    file: &File,
    sight: &mut Vec<Sighted>,
    group: &Group,
    i: usize,
) -> Result<Option<usize>, NoMemory>
    ensures { IfOk result (λ r. with_sight sight.new.items r ≡ specs.group_of (frame_of f.now) (file_of file.now) sight.old.items (plain_group group.now) i) }
{
    if !is_walk(&group.walk) {
        return Ok(None);
    }
    let walked = check_statement(alloc, f, in_group(group.value), sight, &group.walk, i)?;
    find_group(alloc, f, file, group, i, sight, walked)
}

// ---- The `return` of a variable

fn is_own_truth(v: Option<&Sighted>) -> bool
    ensures { result ≡ specs.is_own_truth (option_copied v.entry) }
{
    match v {
        Some(v) => same_type(v.java, truth()) && (!v.outside && !v.column.is_some()),
        None => false,
    }
}

fn past_returned(f: &Frame, sight: &[Sighted], variable: &[u8], i: usize) -> Option<usize>
    ensures { result ≡ specs.past_returned (frame_of f.now) sight.now variable.now i }
{
    if is_own_truth(find_sighted(sight, variable)) {
        past_all(f.within, &[b"return", variable, b";"], i)
    } else {
        None
    }
}

// ---- The sight before a slice

fn copied_column(alloc: Global, column: &Option<ColumnName>) -> Result<Option<ColumnName>, NoMemory>
    ensures { IfOk result (λ copy. copy ≡ column.now) }
{
    match column {
        Some(c) => {
            let row = copied(alloc, c.row.as_slice())?;
            Ok(Some(ColumnName {
                row,
                class: c.class,
                member: c.member,
            }))
        }
        None => Ok(None),
    }
}

fn push_copy(alloc: Global, v: &Sighted, sight: &mut Vec<Sighted>) -> Result<(), NoMemory>
    ensures { IfOk result (λ r. sight.new.items ≡ sight.old.items ++ v.now ∷ []) }
{
    let column = copied_column(alloc, &v.column)?;
    let name = copied(alloc, v.name.as_slice())?;
    push_onto(
        sight,
        Sighted {
            name,
            java: v.java,
            outside: v.outside,
            column,
        },
    )
}

fn copied_sight(alloc: Global, outside: &[Sighted]) -> Result<Vec<Sighted>, NoMemory>
    ensures { IfOk result (λ sight. sight.items ≡ outside.now) }
{
    let mut sight = Vec::new(alloc);
    for v in outside {
        push_copy(alloc, v, &mut sight)?;
    }
    Ok(sight)
}

// ---- All of it

fn check_ending(
    alloc: Global,
    f: &Frame,
    file: &File,
    sight: &mut Vec<Sighted>,
    ending: &Ending,
    i: usize,
) -> Result<Option<usize>, NoMemory>
    ensures { IfOk result (λ r. with_sight sight.new.items r ≡ specs.ended_by (frame_of f.now) (file_of file.now) (plain_ending ending.now) sight.old.items i) }
{
    match ending {
        Ending::Open => Ok(Some(i)),
        Ending::Grouped(g) => check_group(alloc, f, file, sight, g, i),
        Ending::Returned(variable) => Ok(past_returned(
            f,
            sight.as_slice(),
            variable.as_slice(),
            i,
        )),
    }
}

fn check_rest(
    alloc: Global,
    f: &Frame,
    file: &File,
    sight: &mut Vec<Sighted>,
    ending: &Ending,
    passed: Option<usize>,
) -> Result<Option<usize>, NoMemory>
    ensures { IfOk result (λ r. with_sight sight.new.items r ≡ specs.seen_behind (frame_of f.now) (file_of file.now) (plain_ending ending.now) (with_sight sight.old.items passed)) }
{
    match passed {
        Some(i) => check_ending(alloc, f, file, sight, ending, i),
        None => Ok(None),
    }
}

/// The number behind the statements of a slice, with the sight there in the list that is lent, which holds that before.
pub fn check_seen(
    alloc: Global,
    f: &Frame,
    file: &File,
    slice: &Slice,
    sight: &mut Vec<Sighted>,
) -> Result<Option<usize>, NoMemory>
    ensures { IfOk result (λ r. with_sight sight.new.items r ≡ specs.seen_from (frame_of f.now) (file_of file.now) sight.old.items (plain slice.now)) }
{
    let passed = check_statements(
        alloc,
        f,
        at_top(),
        sight,
        slice.statements.as_slice(),
        slice.from,
    )?;
    check_rest(alloc, f, file, sight, &slice.ending, passed)
}

/// The variables in sight before a slice.
pub fn sight_before(alloc: Global, slice: &Slice) -> Result<Vec<Sighted>, NoMemory>
    ensures { IfOk result (λ sight. sight.items ≡ slice.now.outside) }
{
    copied_sight(alloc, slice.outside.as_slice())
}
