// Copies of trees, with every place as it was.
ghost use Rattle.std.specs.Prelude.{◌≡◌, ◌++◌, OnOk, IfOk, map};
ghost use Rattle.std.specs.Option.{option_map};
ghost use Rattle.java_ast.specs.Reading.{spelled, expression, expressions, statement, statements, param};
ghost use Rattle.java_ast.specs.Tree as plain;

use java_ast::build::{
    binary, for_each, if_else, if_only, query, query_boolean, query_long, while_loop,
};
use java_ast::{Expr, ExprNode, JTy, Param, Params, Stmt, StmtNode};
use qbs_base::{Bools, Name, NoMemory, Scalar, Span, Text, copy_names};
use std::alloc::Global;

fn copy_bools(alloc: Global, bools: &[bool]) -> Result<Bools, NoMemory>
    ensures { IfOk result (λ c. c ≡ bools.now) }
{
    let mut all = Bools::new(alloc);
    for b in bools {
        all.push(*b)?;
    }
    Ok(all)
}

pub fn copy_type(alloc: Global, ty: &JTy) -> Result<JTy, NoMemory>
    ensures { IfOk result (λ c. spelled c ≡ spelled ty.now) }
{
    match ty {
        JTy::Int => Ok(JTy::Int),
        JTy::Long => Ok(JTy::Long),
        JTy::Boolean => Ok(JTy::Boolean),
        JTy::String => Ok(JTy::String),
        JTy::BoxedInteger => Ok(JTy::BoxedInteger),
        JTy::BoxedLong => Ok(JTy::BoxedLong),
        JTy::BoxedBoolean => Ok(JTy::BoxedBoolean),
        JTy::Table(name) => Ok(JTy::Table(name.clone()?)),
        JTy::List(element) => {
            let element = Box::new(alloc, copy_type(alloc, element)?)?;
            Ok(JTy::List(element))
        }
        JTy::Set(element) => {
            let element = Box::new(alloc, copy_type(alloc, element)?)?;
            Ok(JTy::Set(element))
        }
    }
}

pub fn copy_result(alloc: Global, ty: &Option<JTy>) -> Result<Option<JTy>, NoMemory>
    ensures { IfOk result (λ c. option_map spelled c ≡ option_map spelled ty.now) }
{
    match ty {
        None => Ok(None),
        Some(ty) => Ok(Some(copy_type(alloc, ty)?)),
    }
}

fn copy_param(alloc: Global, p: &Param) -> Result<Param, NoMemory>
    ensures { IfOk result (λ c. param c ≡ param p.now) }
{
    Ok(Param {
        ty: copy_type(alloc, &p.ty)?,
        name: p.name.clone()?,
    })
}

pub fn copy_params(alloc: Global, params: &[Param]) -> Result<Params, NoMemory>
    ensures { IfOk result (λ c. map param c ≡ map param params.now) }
{
    let mut all = Params::new(alloc);
    for p in params {
        all.push(copy_param(alloc, p)?)?;
    }
    Ok(all)
}

pub fn copy_literal(span: Span, value: &Scalar) -> Result<Expr, NoMemory>
    ensures { IfOk result (λ c. expression c ≡ plain.Lit span value.now) }
{
    let node = ExprNode::Lit(value.clone()?);
    Ok(Expr { span, node })
}

pub fn copy_variable(span: Span, name: &Name) -> Result<Expr, NoMemory>
    ensures { IfOk result (λ c. expression c ≡ plain.Var span name.now) }
{
    let node = ExprNode::Var(name.clone()?);
    Ok(Expr { span, node })
}

pub fn copy_size(span: Span, name: &Name) -> Result<Expr, NoMemory>
    ensures { IfOk result (λ c. expression c ≡ plain.Size span name.now) }
{
    let node = ExprNode::Size(name.clone()?);
    Ok(Expr { span, node })
}

pub fn copy_fetch(span: Span, table: &Name) -> Result<Expr, NoMemory>
    ensures { IfOk result (λ c. expression c ≡ plain.Fetch span table.now) }
{
    let node = ExprNode::Fetch(table.clone()?);
    Ok(Expr { span, node })
}

/// The column of a row, with a copy of its name.
pub fn copy_field(span: Span, row: Box<Expr>, name: &Name) -> Result<Expr, NoMemory>
    ensures { IfOk result (λ c. expression c ≡ plain.Field span (expression row.value) name.now) }
{
    let name = name.clone()?;
    let node = ExprNode::Field(row, name);
    Ok(Expr { span, node })
}

pub fn copy_get(span: Span, name: &Name, place: Box<Expr>) -> Result<Expr, NoMemory>
    ensures { IfOk result (λ c. expression c ≡ plain.Get span name.now (expression place.value)) }
{
    let name = name.clone()?;
    let node = ExprNode::Get(name, place);
    Ok(Expr { span, node })
}

pub fn copy_contains(span: Span, name: &Name, member: Box<Expr>) -> Result<Expr, NoMemory>
    ensures { IfOk result (λ c. expression c ≡ plain.Contains span name.now (expression member.value)) }
{
    let name = name.clone()?;
    let node = ExprNode::Contains(name, member);
    Ok(Expr { span, node })
}

/// A query of these arguments, with copies of its other parts.
pub fn copy_query(
    alloc: Global,
    span: Span,
    element: &JTy,
    text: &Text,
    arguments: Vec<Expr>,
) -> Result<Expr, NoMemory>
    ensures { IfOk result (λ c. expression c ≡ plain.Query span (spelled element.now) text.now (expressions arguments.items)) }
{
    let text = text.clone()?;
    let element = copy_type(alloc, element)?;
    Ok(query(span, element, text, arguments))
}

pub fn copy_query_long(span: Span, text: &Text, arguments: Vec<Expr>) -> Result<Expr, NoMemory>
    ensures { IfOk result (λ c. expression c ≡ plain.QueryLong span text.now (expressions arguments.items)) }
{
    let text = text.clone()?;
    Ok(query_long(span, text, arguments))
}

pub fn copy_query_boolean(span: Span, text: &Text, arguments: Vec<Expr>) -> Result<Expr, NoMemory>
    ensures { IfOk result (λ c. expression c ≡ plain.QueryBoolean span text.now (expressions arguments.items)) }
{
    let text = text.clone()?;
    Ok(query_boolean(span, text, arguments))
}

#[cycle(copy_expression)]
pub fn copy_expression(alloc: Global, e: &Expr) -> Result<Expr, NoMemory>
    ensures { IfOk result (λ c. expression c ≡ expression e.now) }
{
    let span = e.span;
    match &e.node {
        ExprNode::Lit(value) => copy_literal(span, value),
        ExprNode::Var(name) => copy_variable(span, name),
        ExprNode::Field(row, name) => copy_field(span, copy_boxed(alloc, row)?, name),
        ExprNode::Binary(op, a, b) => {
            let a = copy_boxed(alloc, a)?;
            let b = copy_boxed(alloc, b)?;
            Ok(binary(span, *op, a, b))
        }
        ExprNode::Not(inner) => {
            let node = ExprNode::Not(copy_boxed(alloc, inner)?);
            Ok(Expr { span, node })
        }
        ExprNode::Equals(a, b) => {
            let a = copy_boxed(alloc, a)?;
            let b = copy_boxed(alloc, b)?;
            let node = ExprNode::Equals(a, b);
            Ok(Expr { span, node })
        }
        ExprNode::Size(name) => copy_size(span, name),
        ExprNode::Get(name, place) => copy_get(span, name, copy_boxed(alloc, place)?),
        ExprNode::Contains(name, member) => copy_contains(span, name, copy_boxed(alloc, member)?),
        ExprNode::Fetch(table) => copy_fetch(span, table),
        ExprNode::Query(element, text, arguments) => {
            let arguments = copy_expressions(alloc, arguments)?;
            copy_query(alloc, span, element, text, arguments)
        }
        ExprNode::QueryLong(text, arguments) => {
            let arguments = copy_expressions(alloc, arguments)?;
            copy_query_long(span, text, arguments)
        }
        ExprNode::QueryBoolean(text, arguments) => {
            let arguments = copy_expressions(alloc, arguments)?;
            copy_query_boolean(span, text, arguments)
        }
        ExprNode::NewList => {
            let node = ExprNode::NewList;
            Ok(Expr { span, node })
        }
        ExprNode::NewSet(of) => match of {
            None => {
                let node = ExprNode::NewSet(None);
                Ok(Expr { span, node })
            }
            Some(of) => {
                let of = copy_boxed(alloc, of)?;
                let node = ExprNode::NewSet(Some(of));
                Ok(Expr { span, node })
            }
        },
    }
}

/// A copy in a box of its own.
#[cycle(copy_expression)]
fn copy_boxed(alloc: Global, e: &Expr) -> Result<Box<Expr>, NoMemory>
    ensures { IfOk result (λ c. expression c.value ≡ expression e.now) }
{
    let copy = copy_expression(alloc, e)?;
    Ok(Box::new(alloc, copy)?)
}

#[cycle(copy_expression)]
fn copy_expressions(alloc: Global, list: &[Expr]) -> Result<Vec<Expr>, NoMemory>
    ensures { IfOk result (λ c. expressions c.items ≡ expressions list.now) }
{
    let mut all = Vec::new(alloc);
    for e in list {
        all.push(copy_expression(alloc, e)?)?;
    }
    Ok(all)
}

fn copy_value(alloc: Global, value: &Option<Expr>) -> Result<Option<Expr>, NoMemory>
    ensures { IfOk result (λ c. option_map expression c ≡ option_map expression value.now) }
{
    match value {
        None => Ok(None),
        Some(value) => Ok(Some(copy_expression(alloc, value)?)),
    }
}

fn copy_declare(
    alloc: Global,
    span: Span,
    ty: &JTy,
    name: &Name,
    value: &Expr,
) -> Result<Stmt, NoMemory>
    ensures { IfOk result (λ c. statement c ≡ plain.Declare span (spelled ty.now) name.now (expression value.now)) }
{
    let name = name.clone()?;
    let ty = copy_type(alloc, ty)?;
    let value = copy_expression(alloc, value)?;
    let node = StmtNode::Declare { ty, name, value };
    Ok(Stmt { span, node })
}

fn copy_assign(alloc: Global, span: Span, name: &Name, value: &Expr) -> Result<Stmt, NoMemory>
    ensures { IfOk result (λ c. statement c ≡ plain.Assign span name.now (expression value.now)) }
{
    let name = name.clone()?;
    let value = copy_expression(alloc, value)?;
    let node = StmtNode::Assign { name, value };
    Ok(Stmt { span, node })
}

fn copy_add(alloc: Global, span: Span, name: &Name, value: &Expr) -> Result<Stmt, NoMemory>
    ensures { IfOk result (λ c. statement c ≡ plain.Add span name.now (expression value.now)) }
{
    let name = name.clone()?;
    let value = copy_expression(alloc, value)?;
    let node = StmtNode::Add { name, value };
    Ok(Stmt { span, node })
}

fn copy_sort(
    alloc: Global,
    span: Span,
    name: &Name,
    keys: &[Name],
    down: &[bool],
) -> Result<Stmt, NoMemory>
    ensures { IfOk result (λ c. statement c ≡ plain.Sort span name.now keys.now down.now) }
{
    let name = name.clone()?;
    let keys = copy_names(alloc, keys)?;
    let down = copy_bools(alloc, down)?;
    let node = StmtNode::Sort { name, keys, down };
    Ok(Stmt { span, node })
}

fn copy_print(alloc: Global, span: Span, value: &Expr) -> Result<Stmt, NoMemory>
    ensures { IfOk result (λ c. statement c ≡ plain.Print span (expression value.now)) }
{
    let value = copy_expression(alloc, value)?;
    let node = StmtNode::Print { value };
    Ok(Stmt { span, node })
}

fn copy_return(alloc: Global, span: Span, value: &Option<Expr>) -> Result<Stmt, NoMemory>
    ensures { IfOk result (λ c. statement c ≡ plain.Return span (option_map expression value.now)) }
{
    let value = copy_value(alloc, value)?;
    let node = StmtNode::Return { value };
    Ok(Stmt { span, node })
}

/// An `if` without an `else`, with this body and a copy of its condition.
pub fn if_copied(alloc: Global, span: Span, cond: &Expr, yes: Vec<Stmt>) -> Result<Stmt, NoMemory>
    ensures { IfOk result (λ c. statement c ≡ plain.If span (expression cond.now) (statements yes.items)) }
{
    let cond = copy_expression(alloc, cond)?;
    Ok(if_only(span, cond, yes))
}

/// An `if` with these bodies and a copy of its condition.
pub fn if_else_copied(
    alloc: Global,
    span: Span,
    cond: &Expr,
    yes: Vec<Stmt>,
    other: Vec<Stmt>,
) -> Result<Stmt, NoMemory>
    ensures { IfOk result (λ c. statement c ≡ plain.IfElse span (expression cond.now) (statements yes.items) (statements other.items)) }
{
    let cond = copy_expression(alloc, cond)?;
    Ok(if_else(span, cond, yes, other))
}

/// A walk over a list, with this body and copies of its other parts.
pub fn for_each_copied(
    alloc: Global,
    span: Span,
    ty: &JTy,
    name: &Name,
    list: &Expr,
    body: Vec<Stmt>,
) -> Result<Stmt, NoMemory>
    ensures { IfOk result (λ c. statement c ≡ plain.ForEach span (spelled ty.now) name.now (expression list.now) (statements body.items)) }
{
    let name = name.clone()?;
    let ty = copy_type(alloc, ty)?;
    let list = copy_expression(alloc, list)?;
    Ok(for_each(span, ty, name, list, body))
}

/// A `while` with this body and a copy of its condition.
pub fn while_copied(
    alloc: Global,
    span: Span,
    cond: &Expr,
    body: Vec<Stmt>,
) -> Result<Stmt, NoMemory>
    ensures { IfOk result (λ c. statement c ≡ plain.While span (expression cond.now) (statements body.items)) }
{
    let cond = copy_expression(alloc, cond)?;
    Ok(while_loop(span, cond, body))
}

#[cycle(copy_statement)]
pub fn copy_statement(alloc: Global, s: &Stmt) -> Result<Stmt, NoMemory>
    ensures { IfOk result (λ c. statement c ≡ statement s.now) }
{
    let span = s.span;
    match &s.node {
        StmtNode::Declare { ty, name, value } => copy_declare(alloc, span, ty, name, value),
        StmtNode::Assign { name, value } => copy_assign(alloc, span, name, value),
        StmtNode::Add { name, value } => copy_add(alloc, span, name, value),
        StmtNode::Sort { name, keys, down } => {
            copy_sort(alloc, span, name, keys.as_slice(), down.as_slice())
        }
        StmtNode::If { cond, yes, other } => {
            let yes = copy_statements(alloc, yes)?;
            match other {
                None => if_copied(alloc, span, cond, yes),
                Some(other) => {
                    let other = copy_statements(alloc, other)?;
                    if_else_copied(alloc, span, cond, yes, other)
                }
            }
        }
        StmtNode::ForEach {
            ty,
            name,
            list,
            body,
        } => {
            let body = copy_statements(alloc, body)?;
            for_each_copied(alloc, span, ty, name, list, body)
        }
        StmtNode::While { cond, body } => {
            let body = copy_statements(alloc, body)?;
            while_copied(alloc, span, cond, body)
        }
        StmtNode::Print { value } => copy_print(alloc, span, value),
        StmtNode::Return { value } => copy_return(alloc, span, value),
        StmtNode::Break => {
            let node = StmtNode::Break;
            Ok(Stmt { span, node })
        }
    }
}

#[cycle(copy_statement)]
pub fn copy_statements(alloc: Global, block: &[Stmt]) -> Result<Vec<Stmt>, NoMemory>
    ensures { IfOk result (λ c. statements c.items ≡ statements block.now) }
{
    let mut all = Vec::new(alloc);
    for s in block {
        all.push(copy_statement(alloc, s)?)?;
    }
    Ok(all)
}
