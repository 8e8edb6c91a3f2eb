// Conditions that the source language can say.
ghost use Rattle.std.specs.Prelude.{◌≡◌};
ghost use Rattle.sql_ast.specs.Keys.{is_position as is_position_of};
ghost use Rattle.sql_ast.specs.Reading.{condition, filter_of, listing};
ghost use Rattle.sql_ast.specs.Typing.{orders as has_order};
ghost use Rattle.select_parts.specs.Selects.{is_plain_operand as is_plain_opnd, is_plain_condition as is_plain_test};
ghost use Rattle.select_parts.specs.Selects.{is_plain_filter as is_plain_where};

use crate::types::is_text_operand;
use qbs_base::Table;
use sql_ast::{Cmp, Cond, ListQuery, SqlColumn, SqlOpnd};

pub fn is_position(column: &SqlColumn) -> bool
    ensures { result ≡ is_position_of column.now }
{
    matches!(column, SqlColumn::Pos)
}

fn is_plain_operand(opnd: &SqlOpnd) -> bool
    ensures { result ≡ is_plain_opnd opnd.now }
{
    match opnd {
        SqlOpnd::Column(col) => !is_position(&col.column),
        SqlOpnd::Lit(_) | SqlOpnd::Param(_) => true,
    }
}

fn orders(cmp: Cmp) -> bool
    ensures { result ≡ has_order cmp }
{
    match cmp {
        Cmp::Eq | Cmp::Ne => false,
        Cmp::Lt | Cmp::Le | Cmp::Gt | Cmp::Ge => true,
    }
}

/// Whether a condition of a query has columns that the source language knows, compares texts by `=` and `<>` alone, and has no inner SELECT.
pub fn is_plain_condition(schema: &[Table], q: &ListQuery, cond: &Cond) -> bool
    ensures { result ≡ is_plain_test schema.now (listing q.now) (condition cond.now) }
{
    match cond {
        Cond::Both(a, b) | Cond::Either(a, b) => {
            is_plain_condition(schema, q, a) && is_plain_condition(schema, q, b)
        }
        Cond::Not(a) => is_plain_condition(schema, q, a),
        Cond::Compare(cmp, a, b) => {
            is_plain_operand(a)
                && is_plain_operand(b)
                && !(orders(*cmp) && is_text_operand(schema, q, a))
        }
        Cond::Bare(col) => !is_position(&col.column),
        Cond::Exists { .. } | Cond::Within { .. } => false,
    }
}

pub fn is_plain_filter(schema: &[Table], q: &ListQuery) -> bool
    ensures { result ≡ is_plain_where schema.now (listing q.now) (filter_of q.now.filter) }
{
    match &q.filter {
        None => true,
        Some(cond) => is_plain_condition(schema, q, cond),
    }
}
