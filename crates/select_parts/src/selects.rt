// Queries that select rows of one table in their order.
ghost use Rattle.std.specs.Prelude.{◌≡◌};
ghost use Rattle.sql_ast.specs.Reading.{listing};
ghost use Rattle.select_parts.specs.Selects.{is_first_row as is_first, by_position_alone as is_by_position, is_select as is_selected};

use crate::conditions::{is_plain_filter, is_position};
use qbs_base::Table;
use sql_ast::{ListQuery, SqlItem, SqlKey};

fn is_first_row(item: &SqlItem) -> bool
    ensures { result ≡ is_first item.now }
{
    match item {
        SqlItem::Whole(number) => *number == 1,
        SqlItem::Column(_) => false,
    }
}

fn by_position_alone(keys: &[SqlKey]) -> bool
    ensures { result ≡ is_by_position keys.now }
{
    match keys {
        [key] => is_position(&key.col.column) && !key.down && !key.least,
        _ => false,
    }
}

/// Whether a query selects rows of one table in their order, all of them or those of a condition that the source language can say.
pub fn is_select(schema: &[Table], q: &ListQuery) -> bool
    ensures { result ≡ is_selected schema.now (listing q.now) }
{
    q.from.len() == 1
        && is_first_row(&q.item)
        && q.group.is_none()
        && q.limit.is_none()
        && by_position_alone(q.keys.as_slice())
        && is_plain_filter(schema, q)
}
