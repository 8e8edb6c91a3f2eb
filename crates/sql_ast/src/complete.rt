// Which queries have one answer.
ghost use Rattle.std.specs.Prelude.{◌≡◌, length};
ghost use Rattle.std.specs.List.{list_any};
ghost use Rattle.sql_ast.specs.Answers.{is_order_complete};
ghost use Rattle.sql_ast.specs.Keys.{is_position, is_position_of, names_position, name_positions, same_column, same_col, takes_column, is_least_position, is_grouped};
ghost use Rattle.sql_ast.specs.Reading.{listing, query};

use crate::tree::{ListQuery, Query, SqlCol, SqlColumn, SqlItem, SqlKey};

fn is_position(column: &SqlColumn) -> bool
    ensures { result ≡ is_position column.now }
{
    matches!(column, SqlColumn::Pos)
}

fn is_position_of(item: usize, col: &SqlCol) -> bool
    ensures { result ≡ is_position_of item col.now }
{
    col.item as usize == item && is_position(&col.column)
}

fn names_position(item: usize, key: &SqlKey) -> bool
    ensures { result ≡ names_position item key.now }
{
    !key.least && is_position_of(item, &key.col)
}

fn some_names_position(item: usize, keys: &[SqlKey]) -> bool
    ensures { result ≡ list_any (names_position item) keys.now }
{
    keys.iter().any(|key| names_position(item, key))
}

fn names_each_position(q: &ListQuery) -> bool
    ensures { result ≡ name_positions (length (listing q.now).from) (listing q.now).keys }
{
    for i in 0..q.from.len() {
        if !some_names_position(i + 1, q.keys.as_slice()) {
            return false;
        }
    }
    true
}

fn same_column(a: &SqlColumn, b: &SqlColumn) -> bool
    ensures { result ≡ same_column a.now b.now }
{
    match (a, b) {
        (SqlColumn::Pos, SqlColumn::Pos) => true,
        (
            SqlColumn::Named { name, number },
            SqlColumn::Named {
                name: other,
                number: place,
            },
        ) => name == other && number == place,
        _ => false,
    }
}

fn same_col(a: &SqlCol, b: &SqlCol) -> bool
    ensures { result ≡ same_col a.now b.now }
{
    a.item == b.item && same_column(&a.column, &b.column)
}

fn takes_column(col: &SqlCol, item: &SqlItem) -> bool
    ensures { result ≡ takes_column col.now item.now }
{
    match item {
        SqlItem::Whole(_) => false,
        SqlItem::Column(taken) => same_col(taken, col),
    }
}

fn is_least_position(keys: &[SqlKey]) -> bool
    ensures { result ≡ is_least_position keys.now }
{
    match keys {
        [key] => key.least && !key.down && is_position_of(1, &key.col),
        _ => false,
    }
}

/// Whether a query has one FROM item, takes the grouped column, and has MIN of that item's `_pos`
/// as its only key.
pub fn is_grouped(q: &ListQuery) -> bool
    ensures { result ≡ is_grouped (listing q.now) }
{
    match &q.group {
        None => false,
        Some(col) => {
            q.from.len() == 1 && takes_column(col, &q.item) && is_least_position(q.keys.as_slice())
        }
    }
}

/// Whether a query has exactly one answer: a list query that is grouped or whose keys name `_pos`
/// of every FROM item, and every query for a number or a truth value.
pub fn order_complete(q: &Query) -> bool
    ensures { result ≡ is_order_complete (query q.now) }
{
    match q {
        Query::Listing(q) => is_grouped(q) || names_each_position(q),
        Query::Number(_) => true,
        Query::Truth(_) => true,
    }
}
