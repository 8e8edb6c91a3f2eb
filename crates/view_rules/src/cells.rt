// Tokens of what is seen, pushed one by one.
ghost use Rattle.std.specs.Prelude.{◌≡◌, ◌++◌, [], OnOk, IfOk, map, option_copied};
ghost use Rattle.view_rules.specs.Cells as specs;
ghost use Rattle.view_rules.specs.Setting.{within_of};

use crate::spelled::{element_of_type, element_word, kind_word, table_of};
use crate::steps::bytes_at;
use crate::{ClassConstant, JavaType, Param, Within};
use qbs_base::{Bytes, Items, NoMemory};
use std::alloc::Global;
use view_items::{Cell, Cells, Item};
use view_map::{Constant, FetchPattern, Literal, QueryKind, Template};

fn copy_bytes(alloc: Global, bytes: &[u8]) -> Result<Bytes, NoMemory>
    ensures { IfOk result (λ copy. copy ≡ bytes.now) }
{
    let copy = bytes.to_vec(alloc)?;
    Ok(Items::from_vec(copy))
}

fn push_from(
    alloc: Global,
    item: Option<&Item>,
    bytes: &[u8],
    cells: &mut Cells,
) -> Result<(), NoMemory>
    ensures { OnOk result (cells.new ≡ cells.old ++ specs.cell_from (option_copied item.entry) bytes.now) }
{
    match item {
        Some(item) => {
            let bytes = copy_bytes(alloc, bytes)?;
            cells.push(Cell {
                bytes,
                from: item.from,
                to: item.to,
            })
        }
        None => Ok(()),
    }
}

/// Pushes a token of a rule's, in place of an item.
pub fn push_made(
    alloc: Global,
    w: &Within,
    i: usize,
    bytes: &[u8],
    cells: &mut Cells,
) -> Result<(), NoMemory>
    ensures { OnOk result (cells.new ≡ cells.old ++ specs.made (within_of w.now) i bytes.now) }
{
    push_from(alloc, w.items.get(i), bytes, cells)
}

/// Pushes tokens of a rule's, in place of one item.
pub fn push_all_made(
    alloc: Global,
    w: &Within,
    i: usize,
    words: &[&[u8]],
    cells: &mut Cells,
) -> Result<(), NoMemory>
    ensures { OnOk result (cells.new ≡ cells.old ++ specs.all_made (within_of w.now) i (map (λ word. word.now) words.now)) }
{
    match words {
        [] => Ok(()),
        [word, words @ ..] => {
            push_made(alloc, w, i, word, cells)?;
            push_all_made(alloc, w, i, words, cells)
        }
    }
}

/// Pushes an item as it stands.
pub fn push_item(alloc: Global, w: &Within, i: usize, cells: &mut Cells) -> Result<(), NoMemory>
    ensures { OnOk result (cells.new ≡ cells.old ++ specs.item_cells (within_of w.now) i) }
{
    push_made(alloc, w, i, bytes_at(w, i), cells)
}

pub fn push_made_of(
    alloc: Global,
    w: &Within,
    i: usize,
    bytes: Option<&[u8]>,
    cells: &mut Cells,
) -> Result<(), NoMemory>
    ensures { OnOk result (cells.new ≡ cells.old ++ specs.made_of (within_of w.now) i (option_copied bytes.entry)) }
{
    match bytes {
        Some(bytes) => push_made(alloc, w, i, bytes, cells),
        None => Ok(()),
    }
}

/// Pushes the tokens of a type, in place of an item.
pub fn push_type(
    alloc: Global,
    w: &Within,
    i: usize,
    java: JavaType,
    cells: &mut Cells,
) -> Result<(), NoMemory>
    ensures { OnOk result (cells.new ≡ cells.old ++ specs.type_cells (within_of w.now) i java) }
{
    match java {
        JavaType::Scalar(t) => push_all_made(alloc, w, i, &[kind_word(t.kind)], cells),
        JavaType::Row(class) => push_all_made(alloc, w, i, &[table_of(w, class)], cells),
        JavaType::Rows(class) => {
            push_all_made(
                alloc,
                w,
                i,
                &[b"List", b"<", table_of(w, class), b">"],
                cells,
            )
        }
        JavaType::Scalars(kind) => {
            push_all_made(
                alloc,
                w,
                i,
                &[b"List", b"<", element_word(kind), b">"],
                cells,
            )
        }
        JavaType::Distinct(kind) => {
            push_all_made(
                alloc,
                w,
                i,
                &[b"Set", b"<", element_word(kind), b">"],
                cells,
            )
        }
    }
}

fn push_literal(
    alloc: Global,
    w: &Within,
    i: usize,
    value: &Literal,
    cells: &mut Cells,
) -> Result<(), NoMemory>
    ensures { OnOk result (cells.new ≡ cells.old ++ specs.literal_cells (within_of w.now) i value.now) }
{
    if value.negative {
        push_made(alloc, w, i, b"-", cells)?;
    }
    push_made(alloc, w, i, value.bytes.as_slice(), cells)
}

pub fn push_constant(
    alloc: Global,
    w: &Within,
    i: usize,
    constant: Option<&ClassConstant>,
    cells: &mut Cells,
) -> Result<(), NoMemory>
    ensures { OnOk result (cells.new ≡ cells.old ++ specs.constant_cells (within_of w.now) i (option_copied constant.entry)) }
{
    match constant {
        Some(c) => push_literal(alloc, w, i, &c.value, cells),
        None => Ok(()),
    }
}

pub fn push_map_constant(
    alloc: Global,
    w: &Within,
    i: usize,
    constant: Option<&Constant>,
    cells: &mut Cells,
) -> Result<(), NoMemory>
    ensures { OnOk result (cells.new ≡ cells.old ++ specs.map_constant_cells (within_of w.now) i (option_copied constant.entry)) }
{
    match constant {
        Some(c) => push_literal(alloc, w, i, &c.value, cells),
        None => Ok(()),
    }
}

pub fn push_param(
    alloc: Global,
    w: &Within,
    i: usize,
    param: Option<&Param>,
    cells: &mut Cells,
) -> Result<(), NoMemory>
    ensures { OnOk result (cells.new ≡ cells.old ++ specs.param_cells (within_of w.now) i (option_copied param.entry)) }
{
    match param {
        Some(p) => push_made(alloc, w, i, p.name.as_slice(), cells),
        None => Ok(()),
    }
}

fn push_front(
    alloc: Global,
    w: &Within,
    i: usize,
    kind: QueryKind,
    java: JavaType,
    cells: &mut Cells,
) -> Result<(), NoMemory>
    ensures { OnOk result (cells.new ≡ cells.old ++ specs.query_front (within_of w.now) i kind java) }
{
    match kind {
        QueryKind::List => {
            push_all_made(alloc, w, i, &[b"db", b".", b"query", b"("], cells)?;
            push_made(alloc, w, i, element_of_type(w, java), cells)?;
            push_all_made(alloc, w, i, &[b".", b"class", b","], cells)
        }
        QueryKind::Long => push_all_made(alloc, w, i, &[b"db", b".", b"queryLong", b"("], cells),
        QueryKind::Boolean => {
            push_all_made(alloc, w, i, &[b"db", b".", b"queryBoolean", b"("], cells)
        }
    }
}

fn push_query_of(
    alloc: Global,
    w: &Within,
    i: usize,
    template: Option<&Template>,
    java: JavaType,
    cells: &mut Cells,
) -> Result<(), NoMemory>
    ensures { OnOk result (cells.new ≡ cells.old ++ specs.query_of (within_of w.now) i (option_copied template.entry) java) }
{
    match template {
        Some(t) => push_front(alloc, w, i, t.kind, java, cells),
        None => Ok(()),
    }
}

pub fn push_query(
    alloc: Global,
    w: &Within,
    i: usize,
    number: u32,
    java: JavaType,
    cells: &mut Cells,
) -> Result<(), NoMemory>
    ensures { OnOk result (cells.new ≡ cells.old ++ specs.query_cells (within_of w.now) i number java) }
{
    push_query_of(
        alloc,
        w,
        i,
        w.map.templates.as_slice().get(number as usize),
        java,
        cells,
    )
}

pub fn push_fetch(
    alloc: Global,
    w: &Within,
    i: usize,
    pattern: Option<&FetchPattern>,
    cells: &mut Cells,
) -> Result<(), NoMemory>
    ensures { OnOk result (cells.new ≡ cells.old ++ specs.fetch_cells (within_of w.now) i (option_copied pattern.entry)) }
{
    match pattern {
        Some(f) => {
            push_all_made(alloc, w, i, &[b"db", b".", b"fetch", b"("], cells)?;
            push_made(alloc, w, i, table_of(w, f.table), cells)?;
            push_all_made(alloc, w, i, &[b".", b"class", b")"], cells)
        }
        None => Ok(()),
    }
}
