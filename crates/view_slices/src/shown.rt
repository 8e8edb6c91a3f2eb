// The method that a slice is seen as.
ghost use Rattle.std.specs.Prelude.{◌≡◌, ◌++◌, ◌∷◌, [], OnOk, option_copied};
ghost use Rattle.view_rules.specs.Cells.{all_made};
ghost use Rattle.view_rules.specs.Setting.{within_of};
ghost use Rattle.view_slices.specs.Reading.{slice as plain, group as plain_group, ending as plain_ending};
ghost use Rattle.view_slices.specs.Shown as specs;
ghost use Rattle.view_statements.specs.Reading.{statement};

use qbs_base::{Column, NoMemory, Table};
use std::alloc::Global;
use view_items::Cells;
use view_map::{RowClass, ScalarKind};
use view_rules::{JavaType, Param, Within, kind_word, push_all_made, push_made, table_of};
use view_statements::{
    Ending, Group, Printed, Slice, Statement, put_statement, put_statements, truth_word,
};

// ---- The head

fn put_pair(
    alloc: Global,
    w: &Within,
    i: usize,
    kind: &[u8],
    name: &[u8],
    cells: &mut Cells,
) -> Result<(), NoMemory>
    ensures { OnOk result (cells.new ≡ cells.old ++ all_made (within_of w.now) i (kind.now ∷ name.now ∷ [])) }
{
    push_all_made(alloc, w, i, &[kind, name], cells)
}

fn put_param(
    alloc: Global,
    w: &Within,
    i: usize,
    kind: ScalarKind,
    p: &Param,
    cells: &mut Cells,
) -> Result<(), NoMemory>
    ensures { OnOk result (cells.new ≡ cells.old ++ all_made (within_of w.now) i (specs.param_words kind p.now)) }
{
    put_pair(alloc, w, i, kind_word(kind), p.name.as_slice(), cells)
}

fn put_further_params(
    alloc: Global,
    w: &Within,
    i: usize,
    params: &[Param],
    kinds: &[ScalarKind],
    cells: &mut Cells,
) -> Result<(), NoMemory>
    ensures { OnOk result (cells.new ≡ cells.old ++ specs.further_param_cells (within_of w.now) i params.now kinds.now) }
{
    match params {
        [] => Ok(()),
        [p, params @ ..] => match kinds {
            [] => Ok(()),
            [kind, kinds @ ..] => {
                push_made(alloc, w, i, b",", cells)?;
                put_param(alloc, w, i, *kind, p, cells)?;
                put_further_params(alloc, w, i, params, kinds, cells)
            }
        },
    }
}

fn put_params(
    alloc: Global,
    w: &Within,
    i: usize,
    params: &[Param],
    kinds: &[ScalarKind],
    cells: &mut Cells,
) -> Result<(), NoMemory>
    ensures { OnOk result (cells.new ≡ cells.old ++ specs.param_cells (within_of w.now) i params.now kinds.now) }
{
    match params {
        [] => Ok(()),
        [p, params @ ..] => match kinds {
            [] => Ok(()),
            [kind, kinds @ ..] => {
                put_param(alloc, w, i, *kind, p, cells)?;
                put_further_params(alloc, w, i, params, kinds, cells)
            }
        },
    }
}

fn put_head(
    alloc: Global,
    w: &Within,
    name: &[u8],
    slice: &Slice,
    cells: &mut Cells,
) -> Result<(), NoMemory>
    ensures { OnOk result (cells.new ≡ cells.old ++ specs.head_cells (within_of w.now) name.now (plain slice.now)) }
{
    push_all_made(alloc, w, slice.from, &[b"void", name, b"("], cells)?;
    put_params(
        alloc,
        w,
        slice.from,
        slice.params.as_slice(),
        slice.kinds.as_slice(),
        cells,
    )?;
    push_all_made(alloc, w, slice.from, &[b")", b"{"], cells)
}

// ---- The prints

fn put_print_front(alloc: Global, w: &Within, i: usize, cells: &mut Cells) -> Result<(), NoMemory>
    ensures { OnOk result (cells.new ≡ cells.old ++ all_made (within_of w.now) i specs.println_words) }
{
    push_all_made(
        alloc,
        w,
        i,
        &[b"System", b".", b"out", b".", b"println", b"("],
        cells,
    )
}

fn put_print_back(alloc: Global, w: &Within, i: usize, cells: &mut Cells) -> Result<(), NoMemory>
    ensures { OnOk result (cells.new ≡ cells.old ++ all_made (within_of w.now) i specs.closing_words) }
{
    push_all_made(alloc, w, i, &[b")", b";"], cells)
}

fn put_scalar_print(
    alloc: Global,
    w: &Within,
    i: usize,
    name: &[u8],
    cells: &mut Cells,
) -> Result<(), NoMemory>
    ensures { OnOk result (cells.new ≡ cells.old ++ specs.scalar_print (within_of w.now) i name.now) }
{
    put_print_front(alloc, w, i, cells)?;
    push_made(alloc, w, i, name, cells)?;
    put_print_back(alloc, w, i, cells)
}

fn put_size_print(
    alloc: Global,
    w: &Within,
    i: usize,
    name: &[u8],
    cells: &mut Cells,
) -> Result<(), NoMemory>
    ensures { OnOk result (cells.new ≡ cells.old ++ specs.size_print (within_of w.now) i name.now) }
{
    put_print_front(alloc, w, i, cells)?;
    push_all_made(alloc, w, i, &[name, b".", b"size", b"(", b")"], cells)?;
    put_print_back(alloc, w, i, cells)
}

fn put_column_print(
    alloc: Global,
    w: &Within,
    i: usize,
    row: &[u8],
    column: &[u8],
    cells: &mut Cells,
) -> Result<(), NoMemory>
    ensures { OnOk result (cells.new ≡ cells.old ++ specs.column_print (within_of w.now) i row.now column.now) }
{
    put_print_front(alloc, w, i, cells)?;
    push_all_made(alloc, w, i, &[row, b".", column], cells)?;
    put_print_back(alloc, w, i, cells)
}

fn put_column_prints(
    alloc: Global,
    w: &Within,
    i: usize,
    row: &[u8],
    columns: &[Column],
    cells: &mut Cells,
) -> Result<(), NoMemory>
    ensures { OnOk result (cells.new ≡ cells.old ++ specs.column_prints (within_of w.now) i row.now columns.now) }
{
    match columns {
        [] => Ok(()),
        [c, columns @ ..] => {
            put_column_print(alloc, w, i, row, c.name.as_slice(), cells)?;
            put_column_prints(alloc, w, i, row, columns, cells)
        }
    }
}

fn columns_of_table<'a>(table: Option<&'a Table>) -> &'a [Column]
    ensures { result.now ≡ specs.columns_of_table (option_copied table.entry) }
{
    match table {
        Some(t) => t.columns.as_slice(),
        None => &[],
    }
}

fn columns_of_class<'a>(w: &Within<'a>, class: Option<&RowClass>) -> &'a [Column]
    ensures { result.now ≡ specs.columns_of_class (within_of w.now) (option_copied class.entry) }
{
    match class {
        Some(c) => columns_of_table(w.tables.get(c.table as usize)),
        None => &[],
    }
}

fn put_row_prints(
    alloc: Global,
    w: &Within,
    i: usize,
    row: &[u8],
    class: u32,
    cells: &mut Cells,
) -> Result<(), NoMemory>
    ensures { OnOk result (cells.new ≡ cells.old ++ specs.row_prints (within_of w.now) i row.now class) }
{
    put_column_prints(
        alloc,
        w,
        i,
        row,
        columns_of_class(w, w.map.classes.as_slice().get(class as usize)),
        cells,
    )
}

fn put_each_front(
    alloc: Global,
    w: &Within,
    i: usize,
    element: &[u8],
    each: &[u8],
    name: &[u8],
    cells: &mut Cells,
) -> Result<(), NoMemory>
    ensures { OnOk result (cells.new ≡ cells.old ++ specs.each_front (within_of w.now) i element.now each.now name.now) }
{
    put_size_print(alloc, w, i, name, cells)?;
    push_all_made(
        alloc,
        w,
        i,
        &[b"for", b"(", element, each, b":", name, b")", b"{"],
        cells,
    )
}

fn put_rows_print(
    alloc: Global,
    w: &Within,
    i: usize,
    each: &[u8],
    name: &[u8],
    class: u32,
    cells: &mut Cells,
) -> Result<(), NoMemory>
    ensures { OnOk result (cells.new ≡ cells.old ++ specs.rows_print (within_of w.now) i each.now name.now class) }
{
    put_each_front(alloc, w, i, table_of(w, class), each, name, cells)?;
    put_row_prints(alloc, w, i, each, class, cells)?;
    push_made(alloc, w, i, b"}", cells)
}

fn put_scalars_print(
    alloc: Global,
    w: &Within,
    i: usize,
    each: &[u8],
    name: &[u8],
    kind: ScalarKind,
    cells: &mut Cells,
) -> Result<(), NoMemory>
    ensures { OnOk result (cells.new ≡ cells.old ++ specs.scalars_print (within_of w.now) i each.now name.now kind) }
{
    put_each_front(alloc, w, i, kind_word(kind), each, name, cells)?;
    put_scalar_print(alloc, w, i, each, cells)?;
    push_made(alloc, w, i, b"}", cells)
}

fn put_print(
    alloc: Global,
    w: &Within,
    i: usize,
    each: &[u8],
    p: &Printed,
    cells: &mut Cells,
) -> Result<(), NoMemory>
    ensures { OnOk result (cells.new ≡ cells.old ++ specs.print_cells (within_of w.now) i each.now p.now.name p.now.java) }
{
    let name = p.name.as_slice();
    match p.java {
        JavaType::Scalar(_) => put_scalar_print(alloc, w, i, name, cells),
        JavaType::Row(class) => put_row_prints(alloc, w, i, name, class, cells),
        JavaType::Rows(class) => put_rows_print(alloc, w, i, each, name, class, cells),
        JavaType::Scalars(kind) => put_scalars_print(alloc, w, i, each, name, kind, cells),
        JavaType::Distinct(kind) => put_scalars_print(alloc, w, i, each, name, kind, cells),
    }
}

fn put_prints(
    alloc: Global,
    w: &Within,
    i: usize,
    each: &[u8],
    prints: &[Printed],
    cells: &mut Cells,
) -> Result<(), NoMemory>
    ensures { OnOk result (cells.new ≡ cells.old ++ specs.prints_cells (within_of w.now) i each.now prints.now) }
{
    match prints {
        [] => Ok(()),
        [p, prints @ ..] => {
            put_print(alloc, w, i, each, p, cells)?;
            put_prints(alloc, w, i, each, prints, cells)
        }
    }
}

// ---- The method

fn walk_at(st: &Statement) -> usize
    ensures { result ≡ specs.walk_at (statement st.now) }
{
    match st {
        Statement::ForEach { at, .. } => *at,
        _ => 0,
    }
}

fn put_truth(
    alloc: Global,
    w: &Within,
    i: usize,
    name: &[u8],
    value: &[u8],
    cells: &mut Cells,
) -> Result<(), NoMemory>
    ensures { OnOk result (cells.new ≡ cells.old ++ all_made (within_of w.now) i (specs.truth_words name.now value.now)) }
{
    push_all_made(alloc, w, i, &[b"boolean", name, b"=", value, b";"], cells)
}

fn put_group(alloc: Global, w: &Within, g: &Group, cells: &mut Cells) -> Result<(), NoMemory>
    ensures { OnOk result (cells.new ≡ cells.old ++ specs.group_cells (within_of w.now) (plain_group g.now)) }
{
    let name = g.variable.as_slice();
    put_truth(
        alloc,
        w,
        walk_at(&g.walk),
        name,
        truth_word(!g.value),
        cells,
    )?;
    put_statement(alloc, w, name, &g.walk, cells)
}

fn put_ending(alloc: Global, w: &Within, ending: &Ending, cells: &mut Cells) -> Result<(), NoMemory>
    ensures { OnOk result (cells.new ≡ cells.old ++ specs.ending_cells (within_of w.now) (plain_ending ending.now)) }
{
    match ending {
        Ending::Grouped(g) => put_group(alloc, w, g, cells),
        Ending::Open | Ending::Returned(_) => Ok(()),
    }
}

fn before(i: usize) -> usize
    ensures { result ≡ specs.before i }
{
    if i == 0 { 0 } else { i - 1 }
}

/// Pushes the tokens of the method that a slice is seen as: its head comes from the slice's first item, and its prints from the last one.
pub fn put_method(
    alloc: Global,
    w: &Within,
    name: &[u8],
    slice: &Slice,
    cells: &mut Cells,
) -> Result<(), NoMemory>
    ensures { OnOk result (cells.new ≡ cells.old ++ specs.method_cells (within_of w.now) name.now (plain slice.now)) }
{
    put_head(alloc, w, name, slice, cells)?;
    put_statements(alloc, w, &[], slice.statements.as_slice(), cells)?;
    put_ending(alloc, w, &slice.ending, cells)?;
    put_prints(
        alloc,
        w,
        before(slice.to),
        slice.each.as_slice(),
        slice.prints.as_slice(),
        cells,
    )?;
    push_made(alloc, w, before(slice.to), b"}", cells)
}
