// Copies of expressions with their variables renamed, each with its place.
ghost use Rattle.std.specs.Prelude.{◌≡◌, IfOk, map};
ghost use Rattle.std.specs.Option.{option_map};
ghost use Rattle.java_ast.specs.Reading.{spelled, expression, expressions};
ghost use Rattle.java_ast.specs.Tree as plain;
ghost use Rattle.java_calls.specs.Renaming.{renamed, all_renamed};
ghost use Rattle.renamed_copies.specs.Renamings.{renaming_of};

use crate::naming::{Renaming, new_name};
use java_ast::build::{binary, query, query_boolean, query_long};
use java_ast::{Expr, ExprNode, JTy};
use qbs_base::{Name, NoMemory, Scalar, Span, Text};
use std::alloc::Global;

/// A copy of a type.
pub fn copy_type(alloc: Global, ty: &JTy) -> Result<JTy, NoMemory>
    ensures { IfOk result (λ c. spelled c ≡ spelled ty.now) }
{
    match ty {
        JTy::Int => Ok(JTy::Int),
        JTy::Long => Ok(JTy::Long),
        JTy::Boolean => Ok(JTy::Boolean),
        JTy::String => Ok(JTy::String),
        JTy::BoxedInteger => Ok(JTy::BoxedInteger),
        JTy::BoxedLong => Ok(JTy::BoxedLong),
        JTy::BoxedBoolean => Ok(JTy::BoxedBoolean),
        JTy::Table(name) => Ok(JTy::Table(name.clone()?)),
        JTy::List(element) => {
            let element = Box::new(alloc, copy_type(alloc, element)?)?;
            Ok(JTy::List(element))
        }
        JTy::Set(element) => {
            let element = Box::new(alloc, copy_type(alloc, element)?)?;
            Ok(JTy::Set(element))
        }
    }
}

fn copy_literal(span: Span, value: &Scalar) -> Result<Expr, NoMemory>
    ensures { IfOk result (λ c. expression c ≡ plain.Lit span value.now) }
{
    let node = ExprNode::Lit(value.clone()?);
    Ok(Expr { span, node })
}

fn renamed_variable(alloc: Global, f: &Renaming, span: Span, name: &Name) -> Result<Expr, NoMemory>
    ensures { IfOk result (λ c. expression c ≡ plain.Var span (renaming_of f.now name.now)) }
{
    let node = ExprNode::Var(new_name(alloc, f, name)?);
    Ok(Expr { span, node })
}

fn renamed_size(alloc: Global, f: &Renaming, span: Span, name: &Name) -> Result<Expr, NoMemory>
    ensures { IfOk result (λ c. expression c ≡ plain.Size span (renaming_of f.now name.now)) }
{
    let node = ExprNode::Size(new_name(alloc, f, name)?);
    Ok(Expr { span, node })
}

fn copy_fetch(span: Span, table: &Name) -> Result<Expr, NoMemory>
    ensures { IfOk result (λ c. expression c ≡ plain.Fetch span table.now) }
{
    let node = ExprNode::Fetch(table.clone()?);
    Ok(Expr { span, node })
}

fn copy_field(span: Span, row: Box<Expr>, name: &Name) -> Result<Expr, NoMemory>
    ensures { IfOk result (λ c. expression c ≡ plain.Field span (expression row.value) name.now) }
{
    let name = name.clone()?;
    let node = ExprNode::Field(row, name);
    Ok(Expr { span, node })
}

fn renamed_get(
    alloc: Global,
    f: &Renaming,
    span: Span,
    name: &Name,
    place: Box<Expr>,
) -> Result<Expr, NoMemory>
    ensures { IfOk result (λ c. expression c ≡ plain.Get span (renaming_of f.now name.now) (expression place.value)) }
{
    let name = new_name(alloc, f, name)?;
    let node = ExprNode::Get(name, place);
    Ok(Expr { span, node })
}

fn renamed_contains(
    alloc: Global,
    f: &Renaming,
    span: Span,
    name: &Name,
    member: Box<Expr>,
) -> Result<Expr, NoMemory>
    ensures { IfOk result (λ c. expression c ≡ plain.Contains span (renaming_of f.now name.now) (expression member.value)) }
{
    let name = new_name(alloc, f, name)?;
    let node = ExprNode::Contains(name, member);
    Ok(Expr { span, node })
}

fn copy_query(
    alloc: Global,
    span: Span,
    element: &JTy,
    text: &Text,
    arguments: Vec<Expr>,
) -> Result<Expr, NoMemory>
    ensures { IfOk result (λ c. expression c ≡ plain.Query span (spelled element.now) text.now (expressions arguments.items)) }
{
    let text = text.clone()?;
    let element = copy_type(alloc, element)?;
    Ok(query(span, element, text, arguments))
}

fn copy_query_long(span: Span, text: &Text, arguments: Vec<Expr>) -> Result<Expr, NoMemory>
    ensures { IfOk result (λ c. expression c ≡ plain.QueryLong span text.now (expressions arguments.items)) }
{
    let text = text.clone()?;
    Ok(query_long(span, text, arguments))
}

fn copy_query_boolean(span: Span, text: &Text, arguments: Vec<Expr>) -> Result<Expr, NoMemory>
    ensures { IfOk result (λ c. expression c ≡ plain.QueryBoolean span text.now (expressions arguments.items)) }
{
    let text = text.clone()?;
    Ok(query_boolean(span, text, arguments))
}

/// A copy of an expression in which the variables are renamed.
#[cycle(renamed)]
pub fn renamed_copy(alloc: Global, f: &Renaming, e: &Expr) -> Result<Expr, NoMemory>
    ensures { IfOk result (λ c. expression c ≡ renamed (renaming_of f.now) (expression e.now)) }
{
    let span = e.span;
    match &e.node {
        ExprNode::Lit(value) => copy_literal(span, value),
        ExprNode::Var(name) => renamed_variable(alloc, f, span, name),
        ExprNode::Field(row, name) => copy_field(span, renamed_boxed(alloc, f, row)?, name),
        ExprNode::Binary(op, a, b) => {
            let a = renamed_boxed(alloc, f, a)?;
            let b = renamed_boxed(alloc, f, b)?;
            Ok(binary(span, *op, a, b))
        }
        ExprNode::Not(inner) => {
            let node = ExprNode::Not(renamed_boxed(alloc, f, inner)?);
            Ok(Expr { span, node })
        }
        ExprNode::Equals(a, b) => {
            let a = renamed_boxed(alloc, f, a)?;
            let b = renamed_boxed(alloc, f, b)?;
            let node = ExprNode::Equals(a, b);
            Ok(Expr { span, node })
        }
        ExprNode::Size(name) => renamed_size(alloc, f, span, name),
        ExprNode::Get(name, place) => {
            renamed_get(alloc, f, span, name, renamed_boxed(alloc, f, place)?)
        }
        ExprNode::Contains(name, member) => {
            renamed_contains(alloc, f, span, name, renamed_boxed(alloc, f, member)?)
        }
        ExprNode::Fetch(table) => copy_fetch(span, table),
        ExprNode::Query(element, text, arguments) => {
            let arguments = renamed_list(alloc, f, arguments)?;
            copy_query(alloc, span, element, text, arguments)
        }
        ExprNode::QueryLong(text, arguments) => {
            let arguments = renamed_list(alloc, f, arguments)?;
            copy_query_long(span, text, arguments)
        }
        ExprNode::QueryBoolean(text, arguments) => {
            let arguments = renamed_list(alloc, f, arguments)?;
            copy_query_boolean(span, text, arguments)
        }
        ExprNode::NewList => {
            let node = ExprNode::NewList;
            Ok(Expr { span, node })
        }
        ExprNode::NewSet(of) => match of {
            None => {
                let node = ExprNode::NewSet(None);
                Ok(Expr { span, node })
            }
            Some(of) => {
                let of = renamed_boxed(alloc, f, of)?;
                let node = ExprNode::NewSet(Some(of));
                Ok(Expr { span, node })
            }
        },
    }
}

/// Such a copy in a box of its own.
#[cycle(renamed)]
fn renamed_boxed(alloc: Global, f: &Renaming, e: &Expr) -> Result<Box<Expr>, NoMemory>
    ensures { IfOk result (λ c. expression c.value ≡ renamed (renaming_of f.now) (expression e.now)) }
{
    let copy = renamed_copy(alloc, f, e)?;
    Ok(Box::new(alloc, copy)?)
}

#[cycle(renamed)]
fn renamed_list(alloc: Global, f: &Renaming, list: &[Expr]) -> Result<Vec<Expr>, NoMemory>
    ensures { IfOk result (λ c. map expression c.items ≡ map (λ (e : Expr). renamed (renaming_of f.now) (expression e)) list.now) }
{
    let mut all = Vec::new(alloc);
    for e in list {
        all.push(renamed_copy(alloc, f, e)?)?;
    }
    Ok(all)
}

/// A copy of the value of a `return`.
pub fn renamed_value(
    alloc: Global,
    f: &Renaming,
    value: &Option<Expr>,
) -> Result<Option<Expr>, NoMemory>
    ensures { IfOk result (λ c. option_map expression c ≡ option_map (renamed (renaming_of f.now)) (option_map expression value.now)) }
{
    match value {
        None => Ok(None),
        Some(value) => Ok(Some(renamed_copy(alloc, f, value)?)),
    }
}
