// The types of operands of a query.
ghost use Rattle.std.specs.Prelude.{◌≡◌};
ghost use Rattle.std.specs.Option.{option_copied};
ghost use Rattle.sql_ast.specs.Meaning.{nth};
ghost use Rattle.sql_ast.specs.Reading.{listing};
ghost use Rattle.sql_ast.specs.Typing.{ty_of_scalar as ty_of_scalar_of, ty_of_column as ty_of_column_of};
ghost use Rattle.sql_ast.specs.Typing.{ty_of_col as ty_of_col_of, ty_of_opnd as ty_of_opnd_of};
ghost use Rattle.select_parts.specs.Selects.{is_text as is_text_ty, is_text_operand as is_text_opnd};

use qbs_base::{Column, Scalar, Table, Ty, same_ty};
use sql_ast::{FromItem, ListQuery, SqlCol, SqlColumn, SqlOpnd};

fn ty_of_column(columns: &[Column], column: &SqlColumn) -> Option<Ty>
    ensures { result ≡ ty_of_column_of columns.now column.now }
{
    match column {
        SqlColumn::Pos => Some(Ty::Long),
        SqlColumn::Named { name: _, number } => Some(columns.get(*number as usize)?.ty),
    }
}

/// The FROM item of a number, counted from 1.
fn item_at(froms: &[FromItem], number: u32) -> Option<&FromItem>
    ensures { option_copied result ≡ nth froms.now number }
{
    match number {
        0 => None,
        _ => froms.get(number as usize - 1),
    }
}

fn ty_of_col(schema: &[Table], froms: &[FromItem], col: &SqlCol) -> Option<Ty>
    ensures { result ≡ ty_of_col_of schema.now froms.now col.now }
{
    let from = item_at(froms, col.item)?;
    let table = schema.get(from.table as usize)?;
    ty_of_column(table.columns.as_slice(), &col.column)
}

fn ty_of_scalar(scalar: &Scalar) -> Ty
    ensures { result ≡ ty_of_scalar_of scalar.now }
{
    match scalar {
        Scalar::Long(_) => Ty::Long,
        Scalar::Bool(_) => Ty::Bool,
        Scalar::Text(_) => Ty::Text,
    }
}

/// The type of a parameter, counted from 1.
fn param_ty(params: &[Ty], number: u32) -> Option<Ty>
    ensures { result ≡ nth params.now number }
{
    match number {
        0 => None,
        _ => params.get(number as usize - 1).copied(),
    }
}

fn ty_of_opnd(params: &[Ty], schema: &[Table], froms: &[FromItem], opnd: &SqlOpnd) -> Option<Ty>
    ensures { result ≡ ty_of_opnd_of (nth params.now) schema.now froms.now opnd.now }
{
    match opnd {
        SqlOpnd::Column(col) => ty_of_col(schema, froms, col),
        SqlOpnd::Lit(scalar) => Some(ty_of_scalar(scalar)),
        SqlOpnd::Param(number) => param_ty(params, *number),
    }
}

fn is_text(ty: Option<Ty>) -> bool
    ensures { result ≡ is_text_ty ty }
{
    match ty {
        Some(ty) => same_ty(ty, Ty::Text),
        None => false,
    }
}

/// Whether an operand of a query is a text.
pub fn is_text_operand(schema: &[Table], q: &ListQuery, opnd: &SqlOpnd) -> bool
    ensures { result ≡ is_text_opnd schema.now (listing q.now) opnd.now }
{
    is_text(ty_of_opnd(q.params.as_slice(), schema, q.from.as_slice(), opnd))
}
