// The condition of a query that the parts of another are.
ghost use Rattle.std.specs.Prelude.{◌≡◌, IfOk};
ghost use Rattle.std.specs.Option.{option_map};
ghost use Rattle.java_ast.specs.Reading.{expression};
ghost use Rattle.narrowing.specs.Lent.{expressions_lent};
ghost use Rattle.narrowing.specs.Rows.{columns_of, condition_boxed};
ghost use Rattle.spreads.specs.Narrowed as specs;
ghost use Rattle.sql_ast.specs.Tree as sql;

use crate::arguments::{Arguments, number_of};
use crate::row::Row;
use java_ast::{Expr, ExprNode, Op};
use qbs_base::{Name, NoMemory, Scalar, boxed};
use sql_ast::{Cmp, Cond, SqlCol, SqlColumn, SqlOpnd};
use sql_build::conditions::{both, either, opposite};
use std::alloc::Global;

fn column_at(row: &Row, f: &Name) -> Result<Option<SqlCol>, NoMemory>
    ensures { IfOk result (λ o. o ≡ specs.column_at (columns_of row.now) f.now) }
{
    match row.schema.column(row.table, f) {
        None => Ok(None),
        Some(number) => {
            let name = f.clone()?;
            let column = SqlColumn::Named { name, number };
            Ok(Some(SqlCol { item: 1, column }))
        }
    }
}

fn column_operand(row: &Row, f: &Name) -> Result<Option<SqlOpnd>, NoMemory>
    ensures { IfOk result (λ o. o ≡ option_map SqlOpnd.Column (specs.column_at (columns_of row.now) f.now)) }
{
    match column_at(row, f)? {
        None => Ok(None),
        Some(col) => Ok(Some(SqlOpnd::Column(col))),
    }
}

fn argument_operand(args: &Arguments, e: &Expr) -> Option<SqlOpnd>
    ensures { result ≡ option_map SqlOpnd.Param (specs.number_of (expression e.now) (expressions_lent args.now.items.items)) }
{
    match number_of(&args.items, e) {
        None => None,
        Some(n) => Some(SqlOpnd::Param(n)),
    }
}

fn operand_of(row: &Row, args: &Arguments, e: &Expr) -> Result<Option<SqlOpnd>, NoMemory>
    ensures { IfOk result (λ o. o ≡ specs.operand_of (columns_of row.now) row.now.variable.now (expressions_lent args.now.items.items) (expression e.now)) }
{
    match &e.node {
        ExprNode::Lit(value) => Ok(Some(SqlOpnd::Lit(value.clone()?))),
        ExprNode::Field(of, f) => match &of.node {
            ExprNode::Var(y) => {
                if *row.variable == *y {
                    column_operand(row, f)
                } else {
                    Ok(argument_operand(args, e))
                }
            }
            _ => Ok(argument_operand(args, e)),
        },
        _ => Ok(argument_operand(args, e)),
    }
}

fn compared(
    alloc: Global,
    row: &Row,
    args: &Arguments,
    cmp: Cmp,
    a: &Expr,
    b: &Expr,
) -> Result<Option<Box<Cond>>, NoMemory>
    ensures { IfOk result (λ o.
        option_map condition_boxed o
        ≡ specs.compared (columns_of row.now) row.now.variable.now (expressions_lent args.now.items.items) cmp (expression a.now) (expression b.now)) }
{
    let Some(a) = operand_of(row, args, a)? else {
        return Ok(None);
    };
    let Some(b) = operand_of(row, args, b)? else {
        return Ok(None);
    };
    Ok(Some(boxed(alloc, Cond::Compare(cmp, a, b))?))
}

/// A column of the row is TRUE.
fn is_true_column(alloc: Global, row: &Row, e: &Expr) -> Result<Option<Box<Cond>>, NoMemory>
    ensures { IfOk result (λ o. option_map condition_boxed o ≡ specs.is_true_column (columns_of row.now) (expression e.now)) }
{
    match &e.node {
        ExprNode::Field(of, f) => match &of.node {
            ExprNode::Var(_) => match column_operand(row, f)? {
                None => Ok(None),
                Some(col) => {
                    let cond = Cond::Compare(Cmp::Eq, col, SqlOpnd::Lit(Scalar::Bool(true)));
                    Ok(Some(boxed(alloc, cond)?))
                }
            },
            _ => Ok(None),
        },
        _ => Ok(None),
    }
}

/// Both conditions, where both are there.
fn both_there(
    alloc: Global,
    a: Option<Box<Cond>>,
    b: Option<Box<Cond>>,
) -> Result<Option<Box<Cond>>, NoMemory>
    ensures { IfOk result (λ o. option_map condition_boxed o ≡ specs.both_there sql.Both (option_map condition_boxed a) (option_map condition_boxed b)) }
{
    let Some(a) = a else {
        return Ok(None);
    };
    let Some(b) = b else {
        return Ok(None);
    };
    Ok(Some(both(alloc, a, b)?))
}

/// One of the conditions, where both are there.
fn either_there(
    alloc: Global,
    a: Option<Box<Cond>>,
    b: Option<Box<Cond>>,
) -> Result<Option<Box<Cond>>, NoMemory>
    ensures { IfOk result (λ o. option_map condition_boxed o ≡ specs.both_there sql.Either (option_map condition_boxed a) (option_map condition_boxed b)) }
{
    let Some(a) = a else {
        return Ok(None);
    };
    let Some(b) = b else {
        return Ok(None);
    };
    Ok(Some(either(alloc, a, b)?))
}

fn opposite_there(alloc: Global, a: Option<Box<Cond>>) -> Result<Option<Box<Cond>>, NoMemory>
    ensures { IfOk result (λ o. option_map condition_boxed o ≡ option_map sql.Not (option_map condition_boxed a)) }
{
    match a {
        None => Ok(None),
        Some(a) => Ok(Some(opposite(alloc, a)?)),
    }
}

/// The condition that a plain part is.
fn condition_of(
    alloc: Global,
    row: &Row,
    args: &Arguments,
    e: &Expr,
) -> Result<Option<Box<Cond>>, NoMemory>
    ensures { IfOk result (λ o.
        option_map condition_boxed o ≡ specs.condition_of (columns_of row.now) row.now.variable.now (expressions_lent args.now.items.items) (expression e.now)) }
{
    match &e.node {
        ExprNode::Binary(op, a, b) => match op {
            Op::And => {
                let a = condition_of(alloc, row, args, a)?;
                let b = condition_of(alloc, row, args, b)?;
                both_there(alloc, a, b)
            }
            Op::Or => {
                let a = condition_of(alloc, row, args, a)?;
                let b = condition_of(alloc, row, args, b)?;
                either_there(alloc, a, b)
            }
            Op::Eq => compared(alloc, row, args, Cmp::Eq, a, b),
            Op::Ne => compared(alloc, row, args, Cmp::Ne, a, b),
            Op::Lt => compared(alloc, row, args, Cmp::Lt, a, b),
            Op::Le => compared(alloc, row, args, Cmp::Le, a, b),
            Op::Gt => compared(alloc, row, args, Cmp::Gt, a, b),
            Op::Ge => compared(alloc, row, args, Cmp::Ge, a, b),
            Op::Add | Op::Sub | Op::Mul => Ok(None),
        },
        ExprNode::Not(a) => {
            let a = condition_of(alloc, row, args, a)?;
            opposite_there(alloc, a)
        }
        ExprNode::Equals(a, b) => compared(alloc, row, args, Cmp::Eq, a, b),
        _ => is_true_column(alloc, row, e),
    }
}

#[tactic(auto, using(crate::proofs::Conditions::one_more))]
/// The condition that the parts that are taken are together. Its only error is want of memory.
pub fn taken_condition(
    alloc: Global,
    row: &Row,
    args: &Arguments,
    parts: &[&Expr],
) -> Result<Option<Box<Cond>>, NoMemory>
    ensures { IfOk result (λ o.
        option_map condition_boxed o
        ≡ specs.taken_condition (columns_of row.now) row.now.variable.now (expressions_lent args.now.items.items) (expressions_lent parts.now)) }
{
    let Some((first, rest)) = parts.split_first() else {
        return Ok(None);
    };
    let mut all = condition_of(alloc, row, args, first)?;
    for e in rest {
        let next = condition_of(alloc, row, args, e)?;
        all = both_there(alloc, all, next)?;
    }
    Ok(all)
}
