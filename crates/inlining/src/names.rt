// The names that the tree of a program keeps, noted in text order.
ghost use Rattle.std.specs.Prelude.{◌≡◌, ◌++◌, ◌∷◌, OnOk, map};
ghost use Rattle.std.specs.List.{flat_map};
ghost use Rattle.std.specs.Option.{option_map};
ghost use Rattle.java_ast.specs.Tree.{PlainParam};
ghost use Rattle.java_ast.specs.Reading.{spelled, expression, expressions, statement, statements, param, method as plain_method};
ghost use Rattle.java_calls.specs.ProgramNames.{type_names, expression_names, argument_names, returned_names, statement_names, block_names, result_names, method_names};
ghost use Rattle.inlining.specs.Endings.{all_noted, called_names};

use crate::tails::Tails;
use call_rules::is_single_name;
use java_ast::{Expr, ExprNode, JTy, Method, Param, Stmt, StmtNode};
use qbs_base::{Name, NoMemory, Text};

fn note_names<'a>(tails: &mut Tails<'a>, names: &'a [Name]) -> Result<(), NoMemory>
    ensures { OnOk result (tails.new ≡ all_noted tails.old names.now) }
{
    for name in names {
        tails.put(name)?;
    }
    Ok(())
}

fn note_type<'a>(tails: &mut Tails<'a>, ty: &'a JTy) -> Result<(), NoMemory>
    ensures { OnOk result (tails.new ≡ all_noted tails.old (type_names (spelled ty.now))) }
{
    match ty {
        JTy::Table(name) => tails.put(name),
        JTy::List(element) => note_type(tails, element),
        JTy::Set(element) => note_type(tails, element),
        _ => Ok(()),
    }
}

/// The name of a call that a number query is, if it is one.
fn note_called<'a>(tails: &mut Tails<'a>, text: &'a Text) -> Result<(), NoMemory>
    ensures { OnOk result (tails.new ≡ all_noted tails.old (called_names text.now)) }
{
    if is_single_name(text) {
        tails.put(text)
    } else {
        Ok(())
    }
}

#[cycle(expressions)]
#[tactic(auto, using(java_ast::proofs::Nodes::nodes, crate::proofs::Noted::joined))]
fn note_expression<'a>(tails: &mut Tails<'a>, e: &'a Expr) -> Result<(), NoMemory>
    ensures { OnOk result (tails.new ≡ all_noted tails.old (expression_names (expression e.now))) }
{
    match &e.node {
        ExprNode::Lit(_) => Ok(()),
        ExprNode::Var(name) => tails.put(name),
        ExprNode::Size(name) => tails.put(name),
        ExprNode::Fetch(table) => tails.put(table),
        ExprNode::NewList => Ok(()),
        ExprNode::Field(row, column) => {
            tails.put(column)?;
            note_expression(tails, row)
        }
        ExprNode::Not(inner) => note_expression(tails, inner),
        ExprNode::Get(name, inner) => {
            tails.put(name)?;
            note_expression(tails, inner)
        }
        ExprNode::Contains(name, inner) => {
            tails.put(name)?;
            note_expression(tails, inner)
        }
        ExprNode::Binary(_, a, b) => {
            note_expression(tails, a)?;
            note_expression(tails, b)
        }
        ExprNode::Equals(a, b) => {
            note_expression(tails, a)?;
            note_expression(tails, b)
        }
        ExprNode::Query(element, _, arguments) => {
            note_type(tails, element)?;
            note_expressions(tails, arguments)
        }
        ExprNode::QueryBoolean(_, arguments) => note_expressions(tails, arguments),
        ExprNode::QueryLong(text, arguments) => {
            note_called(tails, text)?;
            note_expressions(tails, arguments)
        }
        ExprNode::NewSet(query) => match query {
            None => Ok(()),
            Some(query) => note_expression(tails, query),
        },
    }
}

#[cycle(expressions)]
fn note_expressions<'a>(tails: &mut Tails<'a>, list: &'a [Expr]) -> Result<(), NoMemory>
    ensures { OnOk result (tails.new ≡ all_noted tails.old (argument_names (expressions list.now))) }
{
    for e in list {
        note_expression(tails, e)?;
    }
    Ok(())
}

fn note_value<'a>(tails: &mut Tails<'a>, value: &'a Option<Expr>) -> Result<(), NoMemory>
    ensures { OnOk result (tails.new ≡ all_noted tails.old (returned_names (option_map expression value.now))) }
{
    match value {
        None => Ok(()),
        Some(e) => note_expression(tails, e),
    }
}

fn note_given<'a>(tails: &mut Tails<'a>, name: &'a Name, value: &'a Expr) -> Result<(), NoMemory>
    ensures { OnOk result (tails.new ≡ all_noted tails.old (name.now ∷ expression_names (expression value.now))) }
{
    tails.put(name)?;
    note_expression(tails, value)
}

fn note_declared<'a>(
    tails: &mut Tails<'a>,
    name: &'a Name,
    ty: &'a JTy,
    value: &'a Expr,
) -> Result<(), NoMemory>
    ensures { OnOk result (tails.new ≡ all_noted tails.old (name.now ∷ type_names (spelled ty.now) ++ expression_names (expression value.now))) }
{
    tails.put(name)?;
    note_type(tails, ty)?;
    note_expression(tails, value)
}

#[cycle(statements)]
#[tactic(auto, using(java_ast::proofs::Nodes::nodes, crate::proofs::Noted::joined))]
fn note_statement<'a>(tails: &mut Tails<'a>, s: &'a Stmt) -> Result<(), NoMemory>
    ensures { OnOk result (tails.new ≡ all_noted tails.old (statement_names (statement s.now))) }
{
    match &s.node {
        StmtNode::Declare { ty, name, value } => note_declared(tails, name, ty, value),
        StmtNode::Assign { name, value } => note_given(tails, name, value),
        StmtNode::Add { name, value } => note_given(tails, name, value),
        StmtNode::Sort {
            name,
            keys,
            down: _,
        } => {
            tails.put(name)?;
            note_names(tails, keys.as_slice())
        }
        StmtNode::If { cond, yes, other } => {
            note_expression(tails, cond)?;
            match other {
                None => note_block(tails, yes),
                Some(other) => {
                    note_block(tails, yes)?;
                    note_block(tails, other)
                }
            }
        }
        StmtNode::ForEach {
            ty,
            name,
            list,
            body,
        } => {
            note_declared(tails, name, ty, list)?;
            note_block(tails, body)
        }
        StmtNode::While { cond, body } => {
            note_expression(tails, cond)?;
            note_block(tails, body)
        }
        StmtNode::Print { value } => note_expression(tails, value),
        StmtNode::Return { value } => note_value(tails, value),
        StmtNode::Break => Ok(()),
    }
}

#[cycle(statements)]
fn note_block<'a>(tails: &mut Tails<'a>, block: &'a [Stmt]) -> Result<(), NoMemory>
    ensures { OnOk result (tails.new ≡ all_noted tails.old (block_names (statements block.now))) }
{
    for s in block {
        note_statement(tails, s)?;
    }
    Ok(())
}

fn note_result<'a>(tails: &mut Tails<'a>, ty: &'a Option<JTy>) -> Result<(), NoMemory>
    ensures { OnOk result (tails.new ≡ all_noted tails.old (result_names (option_map spelled ty.now))) }
{
    match ty {
        None => Ok(()),
        Some(ty) => note_type(tails, ty),
    }
}

fn note_params<'a>(tails: &mut Tails<'a>, params: &'a [Param]) -> Result<(), NoMemory>
    ensures { OnOk result (tails.new ≡ all_noted tails.old (flat_map (λ (p : PlainParam). p.name ∷ type_names p.ty) (map param params.now))) }
{
    for p in params {
        tails.put(&p.name)?;
        note_type(tails, &p.ty)?;
    }
    Ok(())
}

fn note_method<'a>(tails: &mut Tails<'a>, m: &'a Method) -> Result<(), NoMemory>
    ensures { OnOk result (tails.new ≡ all_noted tails.old (method_names (plain_method m.now))) }
{
    tails.put(&m.name)?;
    note_result(tails, &m.result)?;
    note_params(tails, m.params.as_slice())?;
    note_block(tails, m.body.as_slice())
}

/// The names of methods, and of what stands in them.
pub fn note_methods<'a>(tails: &mut Tails<'a>, methods: &'a [Method]) -> Result<(), NoMemory>
    ensures { OnOk result (tails.new ≡ all_noted tails.old (flat_map method_names (map plain_method methods.now))) }
{
    for m in methods {
        note_method(tails, m)?;
    }
    Ok(())
}
