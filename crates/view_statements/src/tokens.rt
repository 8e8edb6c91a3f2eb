// The tokens of statements, up to their bodies.
ghost use Rattle.std.specs.Prelude.{◌≡◌, ◌++◌, OnOk};
ghost use Rattle.view_rules.specs.Cells as exprs;
ghost use Rattle.view_rules.specs.Reading.{expression};
ghost use Rattle.view_rules.specs.Setting.{within_of};
ghost use Rattle.view_statements.specs.Cells as specs;

use crate::{SortKey, SortPart, Step};
use qbs_base::NoMemory;
use std::alloc::Global;
use view_items::Cells;
use view_rules::{
    Expression, JavaType, Within, bytes_at, column_name, push_all_made, push_item, push_made,
    push_made_of, push_type, put_expression, put_wrapped,
};

// ---- Variables that are set

/// Pushes `x = e;`, or with another sign.
pub fn put_set(
    alloc: Global,
    w: &Within,
    name: usize,
    sign: &[u8],
    value: &Expression,
    end: usize,
    cells: &mut Cells,
) -> Result<(), NoMemory>
    ensures { OnOk result (cells.new ≡ cells.old ++ specs.set_cells (within_of w.now) name name sign.now (exprs.expression_cells (within_of w.now) (expression value.now)) end) }
{
    push_item(alloc, w, name, cells)?;
    push_made(alloc, w, name, sign, cells)?;
    put_expression(alloc, w, value, cells)?;
    push_made(alloc, w, end, b";", cells)
}

/// Pushes `T x = e;`.
pub fn put_declared(
    alloc: Global,
    w: &Within,
    at: usize,
    name: usize,
    java: JavaType,
    value: &Expression,
    end: usize,
    cells: &mut Cells,
) -> Result<(), NoMemory>
    ensures { OnOk result (cells.new ≡ cells.old ++ specs.declared_cells (within_of w.now) at name java (exprs.expression_cells (within_of w.now) (expression value.now)) end) }
{
    push_type(alloc, w, at, java, cells)?;
    put_set(alloc, w, name, b"=", value, end, cells)
}

/// Pushes `x = x` and a sign.
fn put_changed(
    alloc: Global,
    w: &Within,
    from: usize,
    name: usize,
    sign: &[u8],
    cells: &mut Cells,
) -> Result<(), NoMemory>
    ensures { OnOk result (cells.new ≡ cells.old ++ specs.changed_front (within_of w.now) from name sign.now) }
{
    push_made(alloc, w, from, bytes_at(w, name), cells)?;
    push_made(alloc, w, name, b"=", cells)?;
    push_item(alloc, w, name, cells)?;
    push_made(alloc, w, name, sign, cells)
}

/// Pushes `x = x - (e);`.
pub fn put_lessened(
    alloc: Global,
    w: &Within,
    name: usize,
    value: &Expression,
    end: usize,
    cells: &mut Cells,
) -> Result<(), NoMemory>
    ensures { OnOk result (cells.new ≡ cells.old ++ specs.lessened_cells (within_of w.now) name (exprs.expression_cells (within_of w.now) (expression value.now)) end) }
{
    put_changed(alloc, w, name, name, b"-", cells)?;
    push_made(alloc, w, name, b"(", cells)?;
    put_expression(alloc, w, value, cells)?;
    push_made(alloc, w, end, b")", cells)?;
    push_made(alloc, w, end, b";", cells)
}

fn put_one_more(
    alloc: Global,
    w: &Within,
    at: usize,
    name: usize,
    sign: &[u8],
    end: usize,
    cells: &mut Cells,
) -> Result<(), NoMemory>
    ensures { OnOk result (cells.new ≡ cells.old ++ specs.one_more_cells (within_of w.now) at name sign.now end) }
{
    put_changed(alloc, w, at, name, sign, cells)?;
    push_made(alloc, w, name, b"1", cells)?;
    push_made(alloc, w, end, b";", cells)
}

/// Pushes `x++;`, or `x = x + 1;` or `x = x - 1;`.
pub fn put_stepped(
    alloc: Global,
    w: &Within,
    at: usize,
    step: Step,
    name: usize,
    sign: usize,
    end: usize,
    cells: &mut Cells,
) -> Result<(), NoMemory>
    ensures { OnOk result (cells.new ≡ cells.old ++ specs.stepped_cells (within_of w.now) at step name sign end) }
{
    match step {
        Step::Up => {
            push_item(alloc, w, name, cells)?;
            push_made(alloc, w, sign, b"++", cells)?;
            push_made(alloc, w, end, b";", cells)
        }
        Step::UpFirst => put_one_more(alloc, w, at, name, b"+", end, cells),
        Step::Down | Step::DownFirst => put_one_more(alloc, w, at, name, b"-", end, cells),
    }
}

fn extreme_sign(greatest: bool) -> &'static [u8]
    ensures { result.now ≡ specs.extreme_sign greatest }
{
    if greatest { b">" } else { b"<" }
}

/// Pushes `if (e > x) { x = e; }`.
pub fn put_extreme(
    alloc: Global,
    w: &Within,
    name: usize,
    greatest: bool,
    value: &Expression,
    end: usize,
    cells: &mut Cells,
) -> Result<(), NoMemory>
    ensures { OnOk result (cells.new ≡ cells.old ++ specs.extreme_cells (within_of w.now) name greatest (expression value.now) end) }
{
    push_all_made(alloc, w, name, &[b"if", b"("], cells)?;
    put_wrapped(alloc, w, 5, name, value, name, cells)?;
    push_made(alloc, w, name, extreme_sign(greatest), cells)?;
    push_item(alloc, w, name, cells)?;
    push_made(alloc, w, name, b")", cells)?;
    push_made(alloc, w, name, b"{", cells)?;
    put_set(alloc, w, name, b"=", value, end, cells)?;
    push_made(alloc, w, end, b"}", cells)
}

/// Pushes `xs.add(e);`.
pub fn put_added(
    alloc: Global,
    w: &Within,
    name: usize,
    value: &Expression,
    close: usize,
    end: usize,
    cells: &mut Cells,
) -> Result<(), NoMemory>
    ensures { OnOk result (cells.new ≡ cells.old ++ specs.added_cells (within_of w.now) name (exprs.expression_cells (within_of w.now) (expression value.now)) close end) }
{
    push_item(alloc, w, name, cells)?;
    push_all_made(alloc, w, name, &[b".", b"add", b"("], cells)?;
    put_expression(alloc, w, value, cells)?;
    push_made(alloc, w, close, b")", cells)?;
    push_made(alloc, w, end, b";", cells)
}

// ---- Orders

fn put_key(
    alloc: Global,
    w: &Within,
    call: &[u8],
    key: SortKey,
    cells: &mut Cells,
) -> Result<(), NoMemory>
    ensures { OnOk result (cells.new ≡ cells.old ++ specs.key_cells (within_of w.now) call.now key) }
{
    push_all_made(
        alloc,
        w,
        key.at,
        &[call, b"(", b"x", b"->", b"x", b"."],
        cells,
    )?;
    push_made_of(
        alloc,
        w,
        key.at,
        column_name(w, key.class, key.member),
        cells,
    )?;
    push_made(alloc, w, key.at, b")", cells)
}

fn put_further_key(
    alloc: Global,
    w: &Within,
    key: SortKey,
    cells: &mut Cells,
) -> Result<(), NoMemory>
    ensures { OnOk result (cells.new ≡ cells.old ++ specs.further_key (within_of w.now) key) }
{
    push_made(alloc, w, key.at, b".", cells)?;
    put_key(alloc, w, b"thenComparing", key, cells)
}

fn put_further_part(
    alloc: Global,
    w: &Within,
    part: SortPart,
    cells: &mut Cells,
) -> Result<(), NoMemory>
    ensures { OnOk result (cells.new ≡ cells.old ++ specs.further_part (within_of w.now) part) }
{
    match part {
        SortPart::Key(key) => put_further_key(alloc, w, key, cells),
        SortPart::Reversed(at) => {
            push_all_made(alloc, w, at, &[b".", b"reversed", b"(", b")"], cells)
        }
    }
}

fn put_further_parts(
    alloc: Global,
    w: &Within,
    parts: &[SortPart],
    cells: &mut Cells,
) -> Result<(), NoMemory>
    ensures { OnOk result (cells.new ≡ cells.old ++ specs.further_cells (within_of w.now) parts.now) }
{
    match parts {
        [] => Ok(()),
        [part, parts @ ..] => {
            put_further_part(alloc, w, *part, cells)?;
            put_further_parts(alloc, w, parts, cells)
        }
    }
}

fn put_first_key(alloc: Global, w: &Within, key: SortKey, cells: &mut Cells) -> Result<(), NoMemory>
    ensures { OnOk result (cells.new ≡ cells.old ++ specs.first_key (within_of w.now) key) }
{
    push_all_made(alloc, w, key.at, &[b"Comparator", b"."], cells)?;
    put_key(alloc, w, b"comparing", key, cells)
}

fn put_first_part(
    alloc: Global,
    w: &Within,
    part: SortPart,
    cells: &mut Cells,
) -> Result<(), NoMemory>
    ensures { OnOk result (cells.new ≡ cells.old ++ specs.first_part (within_of w.now) part) }
{
    match part {
        SortPart::Key(key) => put_first_key(alloc, w, key, cells),
        SortPart::Reversed(_) => Ok(()),
    }
}

fn put_comparator(
    alloc: Global,
    w: &Within,
    parts: &[SortPart],
    cells: &mut Cells,
) -> Result<(), NoMemory>
    ensures { OnOk result (cells.new ≡ cells.old ++ specs.comparator_cells (within_of w.now) parts.now) }
{
    match parts {
        [] => Ok(()),
        [part, parts @ ..] => {
            put_first_part(alloc, w, *part, cells)?;
            put_further_parts(alloc, w, parts, cells)
        }
    }
}

/// Pushes `xs.sort(C);`.
pub fn put_sort(
    alloc: Global,
    w: &Within,
    at: usize,
    list: usize,
    parts: &[SortPart],
    end: usize,
    cells: &mut Cells,
) -> Result<(), NoMemory>
    ensures { OnOk result (cells.new ≡ cells.old ++ specs.sort_cells (within_of w.now) at list parts.now end) }
{
    push_made(alloc, w, at, bytes_at(w, list), cells)?;
    push_all_made(alloc, w, at, &[b".", b"sort", b"("], cells)?;
    put_comparator(alloc, w, parts, cells)?;
    push_all_made(alloc, w, end, &[b")", b";"], cells)
}

// ---- Heads

/// Pushes `if (c)` or the like.
pub fn put_head(
    alloc: Global,
    w: &Within,
    at: usize,
    word: &[u8],
    condition: &Expression,
    close: usize,
    cells: &mut Cells,
) -> Result<(), NoMemory>
    ensures { OnOk result (cells.new ≡ cells.old ++ specs.head_cells (within_of w.now) at word.now (exprs.expression_cells (within_of w.now) (expression condition.now)) close) }
{
    push_made(alloc, w, at, word, cells)?;
    push_made(alloc, w, at, b"(", cells)?;
    put_expression(alloc, w, condition, cells)?;
    push_made(alloc, w, close, b")", cells)
}

fn put_each_front(
    alloc: Global,
    w: &Within,
    at: usize,
    name: usize,
    java: JavaType,
    cells: &mut Cells,
) -> Result<(), NoMemory>
    ensures { OnOk result (cells.new ≡ cells.old ++ specs.each_front (within_of w.now) at name java) }
{
    push_all_made(alloc, w, at, &[b"for", b"("], cells)?;
    push_type(alloc, w, name, java, cells)?;
    push_item(alloc, w, name, cells)?;
    push_made(alloc, w, name, b":", cells)
}

/// Pushes `for (T x : e)`.
pub fn put_each(
    alloc: Global,
    w: &Within,
    at: usize,
    name: usize,
    java: JavaType,
    walked: &Expression,
    close: usize,
    cells: &mut Cells,
) -> Result<(), NoMemory>
    ensures { OnOk result (cells.new ≡ cells.old ++ specs.each_cells (within_of w.now) at name java (exprs.expression_cells (within_of w.now) (expression walked.now)) close) }
{
    put_each_front(alloc, w, at, name, java, cells)?;
    put_expression(alloc, w, walked, cells)?;
    push_made(alloc, w, close, b")", cells)
}

/// Pushes `for (T x : xs)`.
pub fn put_each_name(
    alloc: Global,
    w: &Within,
    at: usize,
    name: usize,
    java: JavaType,
    list: usize,
    cells: &mut Cells,
) -> Result<(), NoMemory>
    ensures { OnOk result (cells.new ≡ cells.old ++ specs.each_cells (within_of w.now) at name java (exprs.item_cells (within_of w.now) list) name) }
{
    put_each_front(alloc, w, at, name, java, cells)?;
    push_item(alloc, w, list, cells)?;
    push_made(alloc, w, name, b")", cells)
}

fn put_other(
    alloc: Global,
    w: &Within,
    at: usize,
    close: usize,
    condition: &Expression,
    cells: &mut Cells,
) -> Result<(), NoMemory>
    ensures { OnOk result (cells.new ≡ cells.old ++ specs.other_way_cells (within_of w.now) at close (expression condition.now)) }
{
    match condition {
        Expression::Not { at: _, of } => put_expression(alloc, w, of, cells),
        e => {
            push_all_made(alloc, w, at, &[b"!", b"("], cells)?;
            put_expression(alloc, w, e, cells)?;
            push_made(alloc, w, close, b")", cells)
        }
    }
}

/// Pushes `if (!(c))`, or `if (d)` where c is `!d`.
pub fn put_other_way(
    alloc: Global,
    w: &Within,
    at: usize,
    condition: &Expression,
    close: usize,
    cells: &mut Cells,
) -> Result<(), NoMemory>
    ensures { OnOk result (cells.new ≡ cells.old ++ specs.head_cells (within_of w.now) at (specs.if_word) (specs.other_way_cells (within_of w.now) at close (expression condition.now)) close) }
{
    push_made(alloc, w, at, b"if", cells)?;
    push_made(alloc, w, at, b"(", cells)?;
    put_other(alloc, w, at, close, condition, cells)?;
    push_made(alloc, w, close, b")", cells)
}

/// Pushes `found = l;`.
pub fn put_found(
    alloc: Global,
    w: &Within,
    found: &[u8],
    at: usize,
    literal: usize,
    end: usize,
    cells: &mut Cells,
) -> Result<(), NoMemory>
    ensures { OnOk result (cells.new ≡ cells.old ++ specs.found_cells (within_of w.now) found.now at literal end) }
{
    push_made(alloc, w, at, found, cells)?;
    push_made(alloc, w, at, b"=", cells)?;
    push_item(alloc, w, literal, cells)?;
    push_made(alloc, w, end, b";", cells)
}
