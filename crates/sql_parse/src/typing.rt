// The types of columns, operands and parameters, and whether those of a condition fit.
ghost use Rattle.std.specs.Prelude.{◌≡◌, ◌++◌, map, length, take, IfOk, OnOk, option_map};
ghost use Rattle.sql_ast.specs.Reading.{condition as plain_condition, filter_of as plain_filter};
ghost use Rattle.sql_ast.specs.Meaning.{nth};
ghost use Rattle.sql_ast.specs.Typing.{ty_of_scalar as ty_of_scalar_of, ty_of_column as ty_of_column_of, ty_of_col as ty_of_col_of, ty_beside, tys_beside, orders as has_order, is_compared_by as is_compared, pair_fits as pair_fits_of, ty_of_opnd as ty_of_opnd_of, is_of as is_of_ty, condition_fits, kind_fits as kind_fits_of};
ghost use Rattle.sql_parse.specs.Types.{froms_of, param_at, seen_ty, seen_all};

use qbs_base::{Column, NoMemory, Scalar, Table, Ty, same_ty};
use sql_ast::{Cmp, Cond, FromItem, NumberKind, SqlCol, SqlColumn, SqlOpnd};

/// The types of the columns that a parameter is compared with, as far as they were seen.
#[derive(Clone, Copy)]
pub enum Seen {
    Nothing,
    One(Ty),
    Several,
}

// ---- columns and operands, over the FROM items in sight

fn ty_of_column(columns: &[Column], column: &SqlColumn) -> Option<Ty>
    ensures { result ≡ ty_of_column_of columns.now column.now }
{
    match column {
        SqlColumn::Pos => Some(Ty::Long),
        SqlColumn::Named { name: _, number } => Some(columns.get(*number as usize)?.ty),
    }
}

/// The FROM item of a number.
#[tactic(auto, using(crate::proofs::Froms::item_past, crate::proofs::Froms::item_here))]
fn item_at<'a>(froms: &[&'a FromItem], number: u32) -> Option<&'a FromItem>
    ensures { option_map (λ f. f.now) result ≡ nth (froms_of froms.now) number }
{
    if number == 0 {
        return None;
    }
    if froms.len() < number as usize {
        return None;
    }
    Some(froms[number as usize - 1])
}

pub fn ty_of_col(schema: &[Table], froms: &[&FromItem], col: &SqlCol) -> Option<Ty>
    ensures { result ≡ ty_of_col_of schema.now (froms_of froms.now) col.now }
{
    let from = item_at(froms, col.item)?;
    let table = schema.get(from.table as usize)?;
    ty_of_column(table.columns.as_slice(), &col.column)
}

fn ty_of_scalar(scalar: &Scalar) -> Ty
    ensures { result ≡ ty_of_scalar_of scalar.now }
{
    match scalar {
        Scalar::Long(_) => Ty::Long,
        Scalar::Bool(_) => Ty::Bool,
        Scalar::Text(_) => Ty::Text,
    }
}

/// The type of a parameter, in a table that has those of the parameters from 0 on.
pub fn param_ty_at(params: &[Option<Ty>], number: usize) -> Option<Ty>
    ensures { result ≡ param_at params.now number }
{
    *params.get(number)?
}

fn ty_of_opnd(
    params: &[Option<Ty>],
    schema: &[Table],
    froms: &[&FromItem],
    opnd: &SqlOpnd,
) -> Option<Ty>
    ensures { result ≡ ty_of_opnd_of (param_at params.now) schema.now (froms_of froms.now) opnd.now }
{
    match opnd {
        SqlOpnd::Column(col) => ty_of_col(schema, froms, col),
        SqlOpnd::Lit(scalar) => Some(ty_of_scalar(scalar)),
        SqlOpnd::Param(number) => param_ty_at(params, *number as usize),
    }
}

// ---- what a parameter is compared with

fn with_ty(seen: Seen, ty: Ty) -> Seen
    ensures { result ≡ seen_ty seen ty }
{
    match seen {
        Seen::Nothing => Seen::One(ty),
        Seen::One(other) if same_ty(other, ty) => seen,
        _ => Seen::Several,
    }
}

/// Where an operand is the parameter of that number, the type of the column beside it is seen.
fn beside_col(
    schema: &[Table],
    froms: &[&FromItem],
    number: u32,
    opnd: &SqlOpnd,
    col: &SqlCol,
    seen: Seen,
) -> Seen
    ensures { result ≡ seen_all seen (ty_beside schema.now (froms_of froms.now) number opnd.now (SqlOpnd.Column col.now)) }
{
    match opnd {
        SqlOpnd::Param(other) if *other == number => match ty_of_col(schema, froms, col) {
            Some(ty) => with_ty(seen, ty),
            None => seen,
        },
        _ => seen,
    }
}

/// Where the first operand is the parameter of that number and the second a column, the column's
/// type is seen.
fn beside(
    schema: &[Table],
    froms: &[&FromItem],
    number: u32,
    first: &SqlOpnd,
    second: &SqlOpnd,
    seen: Seen,
) -> Seen
    ensures { result ≡ seen_all seen (ty_beside schema.now (froms_of froms.now) number first.now second.now) }
{
    match second {
        SqlOpnd::Column(col) => beside_col(schema, froms, number, first, col, seen),
        _ => seen,
    }
}

/// Puts FROM items of an inner SELECT in sight.
pub fn enter<'a>(froms: &mut Vec<&'a FromItem>, own: &'a [FromItem]) -> Result<(), NoMemory>
    ensures added { OnOk result (froms_of froms.new.items ≡ froms_of froms.old.items ++ own.now) }
    ensures kept { OnOk result (take (length froms.old.items) froms.new.items ≡ froms.old.items) }
{
    for from in own {
        froms.push(from)?;
    }
    Ok(())
}

/// What is seen in a condition, in addition. Items of inner SELECTs may be left in sight where
/// memory runs out.
#[tactic(auto, using(crate::proofs::Parameters::seen_both))]
pub fn seen_in<'a>(
    schema: &[Table],
    froms: &mut Vec<&'a FromItem>,
    number: u32,
    cond: &'a Cond,
    seen: Seen,
) -> Result<Seen, NoMemory>
    ensures value { IfOk result (λ s. s ≡ seen_all seen (tys_beside schema.now (froms_of froms.old.items) number (plain_condition cond.now))) }
    ensures same { OnOk result (froms.new.items ≡ froms.old.items) }
{
    match cond {
        Cond::Both(a, b) | Cond::Either(a, b) => {
            let seen = seen_in(schema, froms, number, a, seen)?;
            seen_in(schema, froms, number, b, seen)
        }
        Cond::Not(a) => seen_in(schema, froms, number, a, seen),
        Cond::Compare(_, a, b) => {
            let seen = beside(schema, froms, number, a, b, seen);
            Ok(beside(schema, froms, number, b, a, seen))
        }
        Cond::Bare(_) => Ok(seen),
        Cond::Exists { from, filter } => match filter {
            None => Ok(seen),
            Some(a) => {
                let around = froms.len();
                enter(froms, from.as_slice())?;
                let seen = seen_in(schema, froms, number, a, seen)?;
                froms.truncate(around);
                Ok(seen)
            }
        },
        Cond::Within {
            opnd,
            negated: _,
            col,
            from,
            filter,
        } => {
            let around = froms.len();
            enter(froms, from.as_slice())?;
            let seen = beside_col(schema, froms, number, opnd, col, seen);
            match filter {
                None => {
                    froms.truncate(around);
                    Ok(seen)
                }
                Some(a) => {
                    let seen = seen_in(schema, froms, number, a, seen)?;
                    froms.truncate(around);
                    Ok(seen)
                }
            }
        }
    }
}

// ---- what fits

fn orders(cmp: Cmp) -> bool
    ensures { result ≡ has_order cmp }
{
    match cmp {
        Cmp::Eq | Cmp::Ne => false,
        Cmp::Lt | Cmp::Le | Cmp::Gt | Cmp::Ge => true,
    }
}

/// Numbers and texts have an order, truth values none.
fn is_compared_by(cmp: Cmp, ty: Ty) -> bool
    ensures { result ≡ is_compared cmp ty }
{
    !(orders(cmp) && same_ty(ty, Ty::Bool))
}

/// Whether the types that are known are one type, which has that comparison.
fn pair_fits(cmp: Cmp, first: Option<Ty>, second: Option<Ty>) -> bool
    ensures { result ≡ pair_fits_of cmp first second }
{
    match (first, second) {
        (Some(a), Some(b)) => same_ty(a, b) && is_compared_by(cmp, a),
        (Some(a), None) => is_compared_by(cmp, a),
        (None, Some(b)) => is_compared_by(cmp, b),
        (None, None) => true,
    }
}

fn is_of(ty: Ty, other: Option<Ty>) -> bool
    ensures { result ≡ is_of_ty ty other }
{
    match other {
        Some(other) => same_ty(ty, other),
        None => false,
    }
}

/// Whether the types of a condition's comparisons fit, given those of the parameters. Items of
/// inner SELECTs may be left in sight where memory runs out.
pub fn fits<'a>(
    params: &[Option<Ty>],
    schema: &[Table],
    froms: &mut Vec<&'a FromItem>,
    cond: &'a Cond,
) -> Result<bool, NoMemory>
    ensures value { IfOk result (λ b. b ≡ condition_fits (param_at params.now) schema.now (froms_of froms.old.items) (plain_condition cond.now)) }
    ensures same { OnOk result (froms.new.items ≡ froms.old.items) }
{
    match cond {
        Cond::Both(a, b) | Cond::Either(a, b) => {
            let first = fits(params, schema, froms, a)?;
            let second = fits(params, schema, froms, b)?;
            Ok(first && second)
        }
        Cond::Not(a) => fits(params, schema, froms, a),
        Cond::Compare(cmp, a, b) => {
            let first = ty_of_opnd(params, schema, froms, a);
            let second = ty_of_opnd(params, schema, froms, b);
            Ok(pair_fits(*cmp, first, second))
        }
        Cond::Bare(col) => Ok(is_of(Ty::Bool, ty_of_col(schema, froms, col))),
        Cond::Exists { from, filter } => match filter {
            None => Ok(true),
            Some(a) => {
                let around = froms.len();
                enter(froms, from.as_slice())?;
                let inner = fits(params, schema, froms, a)?;
                froms.truncate(around);
                Ok(inner)
            }
        },
        Cond::Within {
            opnd,
            negated: _,
            col,
            from,
            filter,
        } => {
            let first = ty_of_opnd(params, schema, froms, opnd);
            let around = froms.len();
            enter(froms, from.as_slice())?;
            let second = ty_of_col(schema, froms, col);
            let pair = pair_fits(Cmp::Eq, first, second);
            match filter {
                None => {
                    froms.truncate(around);
                    Ok(pair)
                }
                Some(a) => {
                    let inner = fits(params, schema, froms, a)?;
                    froms.truncate(around);
                    Ok(pair && inner)
                }
            }
        }
    }
}

/// Whether the column of a total is of numbers.
pub fn kind_fits(schema: &[Table], froms: &[&FromItem], kind: &NumberKind) -> bool
    ensures { result ≡ kind_fits_of schema.now (froms_of froms.now) kind.now }
{
    match kind {
        NumberKind::Count => true,
        NumberKind::Sum(col, _) => is_of(Ty::Long, ty_of_col(schema, froms, col)),
        NumberKind::Max(col, _) => is_of(Ty::Long, ty_of_col(schema, froms, col)),
        NumberKind::Min(col, _) => is_of(Ty::Long, ty_of_col(schema, froms, col)),
    }
}
