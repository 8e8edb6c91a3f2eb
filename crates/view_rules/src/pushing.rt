// The tokens that are seen of an expression.
ghost use Rattle.std.specs.Prelude.{◌≡◌, ◌++◌, OnOk};
ghost use Rattle.view_rules.specs.Cells as specs;
ghost use Rattle.view_rules.specs.Reading.{expression, arguments_of};
ghost use Rattle.view_rules.specs.Levels.{level_of as level_of_it};
ghost use Rattle.view_rules.specs.Setting.{within_of};

use crate::cells::{
    push_all_made, push_constant, push_fetch, push_item, push_made, push_made_of,
    push_map_constant, push_param, push_query,
};
use crate::levels::level_of;
use crate::names::column_name;
use crate::steps::bytes_at;
use crate::{Arguments, Expression, Within};
use qbs_base::NoMemory;
use std::alloc::Global;
use view_items::Cells;

/// Pushes the tokens that are seen of an expression whose tree passed the check.
#[cycle(push)]
pub fn put_expression(
    alloc: Global,
    w: &Within,
    e: &Expression,
    cells: &mut Cells,
) -> Result<(), NoMemory>
    ensures { OnOk result (cells.new ≡ cells.old ++ specs.expression_cells (within_of w.now) (expression e.now)) }
{
    match e {
        Expression::Literal { at } | Expression::Variable { at } => {
            push_item(alloc, w, *at, cells)
        }
        Expression::Negative { at, digits } => {
            push_item(alloc, w, *at, cells)?;
            push_item(alloc, w, *digits, cells)
        }
        Expression::Parameter { at, number } => {
            push_param(alloc, w, *at, w.params.get(*number), cells)
        }
        Expression::NamedColumn {
            at,
            row,
            class,
            member,
        } => {
            push_made(alloc, w, *at, bytes_at(w, *row), cells)?;
            push_made(alloc, w, *at, b".", cells)?;
            push_made_of(alloc, w, *at, column_name(w, *class, *member), cells)
        }
        Expression::ClassConstant { at, number } => {
            push_constant(alloc, w, *at, w.constants.get(*number), cells)
        }
        Expression::MapConstant { at, number } => push_map_constant(
            alloc,
            w,
            *at,
            w.map.constants.as_slice().get(*number as usize),
            cells,
        ),
        Expression::Column {
            row,
            dot,
            class,
            member,
        } => {
            put_expression(alloc, w, row, cells)?;
            push_item(alloc, w, *dot, cells)?;
            push_made_of(alloc, w, *dot, column_name(w, *class, *member), cells)
        }
        Expression::OuterColumn {
            at,
            class: _,
            member: _,
            number,
        } => push_param(alloc, w, *at, w.params.get(*number), cells),
        Expression::Fetch { at, number } => push_fetch(
            alloc,
            w,
            *at,
            w.map.fetches.as_slice().get(*number as usize),
            cells,
        ),
        Expression::Group { at, inner, close } => {
            push_item(alloc, w, *at, cells)?;
            put_expression(alloc, w, inner, cells)?;
            push_item(alloc, w, *close, cells)
        }
        Expression::Not { at, of } => {
            push_item(alloc, w, *at, cells)?;
            put_expression(alloc, w, of, cells)
        }
        Expression::Binary {
            operator: _,
            left,
            at,
            right,
        } => {
            put_expression(alloc, w, left, cells)?;
            push_item(alloc, w, *at, cells)?;
            put_expression(alloc, w, right, cells)
        }
        Expression::Equals {
            at,
            texts,
            left,
            dot,
            right,
            close,
        } => {
            if *texts {
                put_expression(alloc, w, left, cells)?;
                push_all_made(alloc, w, *dot, &[b".", b"equals", b"("], cells)?;
                put_expression(alloc, w, right, cells)?;
                push_made(alloc, w, *close, b")", cells)
            } else {
                push_made(alloc, w, *at, b"(", cells)?;
                put_expression(alloc, w, left, cells)?;
                push_made(alloc, w, *dot, b"==", cells)?;
                put_wrapped(alloc, w, 4, *dot, right, *close, cells)?;
                push_made(alloc, w, *close, b")", cells)
            }
        }
        Expression::ObjectsEquals {
            at,
            texts,
            left,
            comma,
            right,
            close,
        } => {
            if *texts {
                put_expression(alloc, w, left, cells)?;
                push_all_made(alloc, w, *comma, &[b".", b"equals", b"("], cells)?;
                put_expression(alloc, w, right, cells)?;
                push_made(alloc, w, *close, b")", cells)
            } else {
                push_made(alloc, w, *at, b"(", cells)?;
                put_wrapped(alloc, w, 3, *at, left, *comma, cells)?;
                push_made(alloc, w, *comma, b"==", cells)?;
                put_wrapped(alloc, w, 4, *comma, right, *close, cells)?;
                push_made(alloc, w, *close, b")", cells)
            }
        }
        Expression::Unboxed { of, dot: _ } => put_expression(alloc, w, of, cells),
        Expression::TestedBefore {
            all: _,
            tests: _,
            kept,
        } => put_expression(alloc, w, kept, cells),
        Expression::TestedBehind {
            all: _,
            kept,
            tests: _,
        } => put_expression(alloc, w, kept, cells),
        Expression::Size { at } => {
            push_item(alloc, w, *at, cells)?;
            push_all_made(alloc, w, *at, &[b".", b"size", b"(", b")"], cells)
        }
        Expression::IsEmpty { at } => {
            push_made(alloc, w, *at, b"(", cells)?;
            push_item(alloc, w, *at, cells)?;
            push_all_made(alloc, w, *at, &[b".", b"size", b"(", b")"], cells)?;
            push_all_made(alloc, w, *at, &[b"==", b"0", b")"], cells)
        }
        Expression::Get { at, place, close } => {
            push_item(alloc, w, *at, cells)?;
            push_all_made(alloc, w, *at, &[b".", b"get", b"("], cells)?;
            put_expression(alloc, w, place, cells)?;
            push_item(alloc, w, *close, cells)
        }
        Expression::Contains { at, value, close } => {
            push_item(alloc, w, *at, cells)?;
            push_all_made(alloc, w, *at, &[b".", b"contains", b"("], cells)?;
            put_expression(alloc, w, value, cells)?;
            push_item(alloc, w, *close, cells)
        }
        Expression::NewList { at, java: _ } => push_all_made(
            alloc,
            w,
            *at,
            &[b"new", b"ArrayList", b"<", b">", b"(", b")"],
            cells,
        ),
        Expression::NewSet {
            at,
            hashed: _,
            java: _,
        } => {
            push_new_set(alloc, w, *at, cells)?;
            push_made(alloc, w, *at, b")", cells)
        }
        Expression::Query {
            at,
            cast: _,
            number,
            text,
            java,
            arguments,
        } => {
            push_query(alloc, w, *at, *number, *java, cells)?;
            push_item(alloc, w, *text, cells)?;
            put_arguments(alloc, w, *text, arguments, cells)?;
            push_made(alloc, w, *text, b")", cells)
        }
        Expression::NewSetOf {
            at,
            hashed: _,
            java: _,
            query,
            close,
        } => {
            push_new_set(alloc, w, *at, cells)?;
            put_expression(alloc, w, query, cells)?;
            push_item(alloc, w, *close, cells)
        }
    }
}

fn push_new_set(alloc: Global, w: &Within, i: usize, cells: &mut Cells) -> Result<(), NoMemory>
    ensures { OnOk result (cells.new ≡ cells.old ++ specs.all_made (within_of w.now) i specs.new_set_front) }
{
    push_all_made(
        alloc,
        w,
        i,
        &[b"new", b"LinkedHashSet", b"<", b">", b"("],
        cells,
    )
}

#[cycle(push)]
pub fn put_wrapped(
    alloc: Global,
    w: &Within,
    least: u8,
    front: usize,
    e: &Expression,
    close: usize,
    cells: &mut Cells,
) -> Result<(), NoMemory>
    ensures { OnOk result (cells.new ≡ cells.old ++ specs.wrapped (within_of w.now) least (level_of_it (expression e.now)) front close (specs.expression_cells (within_of w.now) (expression e.now))) }
{
    if level_of(e) < least {
        push_made(alloc, w, front, b"(", cells)?;
        put_expression(alloc, w, e, cells)?;
        push_made(alloc, w, close, b")", cells)
    } else {
        put_expression(alloc, w, e, cells)
    }
}

#[cycle(push)]
fn put_arguments(
    alloc: Global,
    w: &Within,
    text: usize,
    arguments: &Arguments,
    cells: &mut Cells,
) -> Result<(), NoMemory>
    ensures { OnOk result (cells.new ≡ cells.old ++ specs.argument_cells (within_of w.now) text (arguments_of arguments.now)) }
{
    match arguments {
        Arguments::End => Ok(()),
        Arguments::Next { value, rest } => {
            push_made(alloc, w, text, b",", cells)?;
            put_expression(alloc, w, value, cells)?;
            put_arguments(alloc, w, text, rest, cells)
        }
    }
}
