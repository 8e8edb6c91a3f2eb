// The condition of a select in the source language.
ghost use Rattle.std.specs.Prelude.{◌≡◌, IfOk};
ghost use Rattle.std.specs.Option.{option_map, option_copied};
ghost use Rattle.java_ast.specs.Reading.{expression, expressions};
ghost use Rattle.java_ast.specs.Tree as plain;
ghost use Rattle.select_parts.specs.Selects.{is_text_operand as is_text_opnd};
ghost use Rattle.spreads.specs.Conditions as specs;
ghost use Rattle.sql_ast.specs.Canonical.{column_text};
ghost use Rattle.sql_ast.specs.Meaning.{nth};
ghost use Rattle.sql_ast.specs.Reading.{condition, listing};

use crate::select::Select;
use java_ast::build::binary;
use java_ast::{Expr, ExprNode, Op};
use java_copies::copy_placed;
use qbs_base::{Name, NoMemory, Scalar, Span, Text, boxed};
use schema::Schema;
use select_parts::is_text_operand;
use sql_ast::{Cmp, Cond, SqlCol, SqlColumn, SqlOpnd};
use std::alloc::Global;

// The argument of a number, counted from 1.
fn numbered_argument(arguments: &[Expr], number: u32) -> Option<&Expr>
    ensures { option_copied result ≡ nth arguments.now number }
{
    match number {
        0 => None,
        _ => arguments.get(number as usize - 1),
    }
}

#[tactic(auto, using(crate::proofs::Arguments::argument_is))]
fn argument(arguments: &[Expr], number: u32) -> Option<&Expr>
    ensures { option_map expression (option_copied result) ≡ specs.argument (expressions arguments.now) number }
{
    numbered_argument(arguments, number)
}

fn no_list(alloc: Global, at: Span) -> Result<Box<Expr>, NoMemory>
    ensures { IfOk result (λ e. expression e.value ≡ plain.NewList at) }
{
    let node = ExprNode::NewList;
    boxed(alloc, Expr { span: at, node })
}

fn argument_in(
    alloc: Global,
    at: Span,
    arguments: &[Expr],
    number: u32,
) -> Result<Box<Expr>, NoMemory>
    ensures { IfOk result (λ e. expression e.value ≡ specs.argument_at at (specs.argument (expressions arguments.now) number)) }
{
    match argument(arguments, number) {
        None => no_list(alloc, at),
        Some(e) => {
            let copy = copy_placed(alloc, at, e)?;
            boxed(alloc, copy)
        }
    }
}

fn column_name(alloc: Global, column: &SqlColumn) -> Result<Name, NoMemory>
    ensures { IfOk result (λ name. name ≡ column_text column.now) }
{
    match column {
        SqlColumn::Pos => Ok(Text::from_str(alloc, "_pos")?),
        SqlColumn::Named { name, number: _ } => Ok(name.clone()?),
    }
}

fn variable(alloc: Global, at: Span, name: &Name) -> Result<Box<Expr>, NoMemory>
    ensures { IfOk result (λ e. expression e.value ≡ plain.Var at name.now) }
{
    let node = ExprNode::Var(name.clone()?);
    boxed(alloc, Expr { span: at, node })
}

fn column_in(alloc: Global, at: Span, row: &Name, col: &SqlCol) -> Result<Box<Expr>, NoMemory>
    ensures { IfOk result (λ e. expression e.value ≡ specs.column_in at row.now col.now) }
{
    let name = column_name(alloc, &col.column)?;
    let row = variable(alloc, at, row)?;
    let node = ExprNode::Field(row, name);
    boxed(alloc, Expr { span: at, node })
}

fn literal(alloc: Global, at: Span, value: &Scalar) -> Result<Box<Expr>, NoMemory>
    ensures { IfOk result (λ e. expression e.value ≡ plain.Lit at value.now) }
{
    let node = ExprNode::Lit(value.clone()?);
    boxed(alloc, Expr { span: at, node })
}

fn operand_in(
    alloc: Global,
    at: Span,
    row: &Name,
    arguments: &[Expr],
    opnd: &SqlOpnd,
) -> Result<Box<Expr>, NoMemory>
    ensures { IfOk result (λ e. expression e.value ≡ specs.operand_in at row.now (expressions arguments.now) opnd.now) }
{
    match opnd {
        SqlOpnd::Column(col) => column_in(alloc, at, row, col),
        SqlOpnd::Lit(value) => literal(alloc, at, value),
        SqlOpnd::Param(number) => argument_in(alloc, at, arguments, *number),
    }
}

fn op_of(cmp: Cmp) -> Op
    ensures { result ≡ specs.op_of cmp }
{
    match cmp {
        Cmp::Eq => Op::Eq,
        Cmp::Ne => Op::Ne,
        Cmp::Lt => Op::Lt,
        Cmp::Le => Op::Le,
        Cmp::Gt => Op::Gt,
        Cmp::Ge => Op::Ge,
    }
}

fn equal(alloc: Global, at: Span, a: Box<Expr>, b: Box<Expr>) -> Result<Box<Expr>, NoMemory>
    ensures { IfOk result (λ e. expression e.value ≡ plain.Equals at (expression a.value) (expression b.value)) }
{
    let node = ExprNode::Equals(a, b);
    boxed(alloc, Expr { span: at, node })
}

fn negated(alloc: Global, at: Span, e: Box<Expr>) -> Result<Box<Expr>, NoMemory>
    ensures { IfOk result (λ r. expression r.value ≡ plain.Not at (expression e.value)) }
{
    let node = ExprNode::Not(e);
    boxed(alloc, Expr { span: at, node })
}

// Texts by `equals`.
fn compared_in(
    alloc: Global,
    text: bool,
    at: Span,
    cmp: Cmp,
    a: Box<Expr>,
    b: Box<Expr>,
) -> Result<Box<Expr>, NoMemory>
    ensures { IfOk result (λ e. expression e.value ≡ specs.compared_in text at cmp (expression a.value) (expression b.value)) }
{
    if !text {
        return boxed(alloc, binary(at, op_of(cmp), a, b));
    }
    match cmp {
        Cmp::Eq => equal(alloc, at, a, b),
        Cmp::Ne => {
            let e = equal(alloc, at, a, b)?;
            negated(alloc, at, e)
        }
        Cmp::Lt | Cmp::Le | Cmp::Gt | Cmp::Ge => boxed(alloc, binary(at, op_of(cmp), a, b)),
    }
}

fn comparison_in(
    alloc: Global,
    schema: &Schema,
    select: &Select,
    at: Span,
    row: &Name,
    cmp: Cmp,
    a: &SqlOpnd,
    b: &SqlOpnd,
) -> Result<Box<Expr>, NoMemory>
    ensures { IfOk result (λ e.
        expression e.value
        ≡ specs.compared_in (is_text_opnd schema.now (listing select.now.query.value) a.now) at cmp
        (specs.operand_in at row.now (expressions select.now.arguments.now) a.now) (specs.operand_in at row.now (expressions select.now.arguments.now) b.now)) }
{
    let text = is_text_operand(schema.tables(), &select.query, a);
    let a = operand_in(alloc, at, row, select.arguments, a)?;
    let b = operand_in(alloc, at, row, select.arguments, b)?;
    compared_in(alloc, text, at, cmp, a, b)
}

/// A condition of a select in the source language, where its row is a variable, each part with this place. Only want of memory is an error.
pub fn condition_in(
    alloc: Global,
    schema: &Schema,
    select: &Select,
    at: Span,
    row: &Name,
    cond: &Cond,
) -> Result<Box<Expr>, NoMemory>
    ensures { IfOk result (λ e.
        expression e.value
        ≡ specs.condition_in schema.now (listing select.now.query.value) at row.now (expressions select.now.arguments.now) (condition cond.now)) }
{
    match cond {
        Cond::Both(a, b) => {
            let a = condition_in(alloc, schema, select, at, row, a)?;
            let b = condition_in(alloc, schema, select, at, row, b)?;
            boxed(alloc, binary(at, Op::And, a, b))
        }
        Cond::Either(a, b) => {
            let a = condition_in(alloc, schema, select, at, row, a)?;
            let b = condition_in(alloc, schema, select, at, row, b)?;
            boxed(alloc, binary(at, Op::Or, a, b))
        }
        Cond::Not(a) => {
            let a = condition_in(alloc, schema, select, at, row, a)?;
            negated(alloc, at, a)
        }
        Cond::Compare(cmp, a, b) => comparison_in(alloc, schema, select, at, row, *cmp, a, b),
        Cond::Bare(col) => column_in(alloc, at, row, col),
        Cond::Exists { .. } | Cond::Within { .. } => no_list(alloc, at),
    }
}
