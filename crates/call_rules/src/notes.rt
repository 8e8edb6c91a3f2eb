// What is noted of the calls of each method, in text order.
ghost use Rattle.std.specs.Prelude.{◌≡◌, ◌++◌, IfOk, OnOk, map};
ghost use Rattle.std.specs.Option.{option_map};
ghost use Rattle.java_ast.specs.Reading.{expression, expressions, statement, statements, method as plain_method};
ghost use Rattle.java_ast.specs.Tree as plain;
ghost use Rattle.java_calls.specs.Called.{call_of};
ghost use Rattle.java_calls.specs.Rules.{site_of};
ghost use Rattle.call_rules.specs.Noted.{noted, notes_in, notes_among, notes_at, notes_of, notes_returned, all_notes};

use crate::HelperRule;
use crate::helpers::Helpers;
use crate::kinds::is_single_name;
use java_ast::{Expr, ExprNode, Method, Stmt, StmtNode};
use qbs_base::{Items, NoMemory, Span, Text};
use std::alloc::Global;

/// A call: its place, the number of the method that it names, and the least of the rules on a call by itself that it breaks.
#[derive(Clone, Copy)]
pub struct Noted {
    pub at: Span,
    pub callee: Option<usize>,
    pub breaks: Option<HelperRule>,
}

fn note_call(
    helpers: &Helpers,
    whole: Option<&Stmt>,
    at: Span,
    text: &Text,
    arguments: &[Expr],
    all: &mut Items<Noted>,
) -> Result<(), NoMemory>
    ensures { OnOk result (
        all.new ≡ all.old ++ map (noted (map plain_method helpers.now)) (site_of (option_map (λ s. statement s.now) whole.entry) at (call_of (plain.QueryLong at text.now (expressions arguments.now))))) }
{
    if !is_single_name(text) {
        return Ok(());
    }
    let callee = helpers.number(text);
    let breaks = helpers.broken_at(callee, arguments, whole);
    all.push(Noted { at, callee, breaks })
}

/// The calls in an expression, which is the whole value of this statement or of none.
#[cycle(expressions)]
#[tactic(auto, using(java_ast::proofs::Nodes::nodes, crate::proofs::Joined::joined))]
fn note_expression(
    helpers: &Helpers,
    whole: Option<&Stmt>,
    e: &Expr,
    all: &mut Items<Noted>,
) -> Result<(), NoMemory>
    ensures { OnOk result (all.new ≡ all.old ++ notes_in (map plain_method helpers.now) (option_map (λ s. statement s.now) whole.entry) (expression e.now)) }
{
    match &e.node {
        ExprNode::Lit(_) => Ok(()),
        ExprNode::Var(_) => Ok(()),
        ExprNode::Size(_) => Ok(()),
        ExprNode::Fetch(_) => Ok(()),
        ExprNode::NewList => Ok(()),
        ExprNode::Field(inner, _) => note_expression(helpers, None, inner, all),
        ExprNode::Not(inner) => note_expression(helpers, None, inner, all),
        ExprNode::Get(_, inner) => note_expression(helpers, None, inner, all),
        ExprNode::Contains(_, inner) => note_expression(helpers, None, inner, all),
        ExprNode::Binary(_, a, b) => {
            note_expression(helpers, None, a, all)?;
            note_expression(helpers, None, b, all)
        }
        ExprNode::Equals(a, b) => {
            note_expression(helpers, None, a, all)?;
            note_expression(helpers, None, b, all)
        }
        ExprNode::Query(_, _, arguments) => note_expressions(helpers, arguments, all),
        ExprNode::QueryBoolean(_, arguments) => note_expressions(helpers, arguments, all),
        ExprNode::QueryLong(text, arguments) => {
            note_call(helpers, whole, e.span, text, arguments, all)?;
            note_expressions(helpers, arguments, all)
        }
        ExprNode::NewSet(query) => match query {
            None => Ok(()),
            Some(query) => note_expression(helpers, None, query, all),
        },
    }
}

#[cycle(expressions)]
fn note_expressions(
    helpers: &Helpers,
    list: &[Expr],
    all: &mut Items<Noted>,
) -> Result<(), NoMemory>
    ensures { OnOk result (all.new ≡ all.old ++ notes_among (map plain_method helpers.now) (expressions list.now)) }
{
    for e in list {
        note_expression(helpers, None, e, all)?;
    }
    Ok(())
}

fn note_value(
    helpers: &Helpers,
    value: &Option<Expr>,
    all: &mut Items<Noted>,
) -> Result<(), NoMemory>
    ensures { OnOk result (all.new ≡ all.old ++ notes_returned (map plain_method helpers.now) (option_map expression value.now)) }
{
    match value {
        None => Ok(()),
        Some(e) => note_expression(helpers, None, e, all),
    }
}

/// The calls in a statement and in its parts.
#[cycle(statements)]
#[tactic(auto, using(java_ast::proofs::Nodes::nodes, crate::proofs::Joined::joined))]
fn note_statement(helpers: &Helpers, s: &Stmt, all: &mut Items<Noted>) -> Result<(), NoMemory>
    ensures { OnOk result (all.new ≡ all.old ++ notes_at (map plain_method helpers.now) (statement s.now)) }
{
    match &s.node {
        StmtNode::Declare {
            ty: _,
            name: _,
            value,
        } => note_expression(helpers, Some(s), value, all),
        StmtNode::Assign { name: _, value } => note_expression(helpers, Some(s), value, all),
        StmtNode::Add { name: _, value } => note_expression(helpers, None, value, all),
        StmtNode::Sort {
            name: _,
            keys: _,
            down: _,
        } => Ok(()),
        StmtNode::If { cond, yes, other } => {
            note_expression(helpers, None, cond, all)?;
            match other {
                None => note_block(helpers, yes, all),
                Some(other) => {
                    note_block(helpers, yes, all)?;
                    note_block(helpers, other, all)
                }
            }
        }
        StmtNode::ForEach {
            ty: _,
            name: _,
            list,
            body,
        } => {
            note_expression(helpers, None, list, all)?;
            note_block(helpers, body, all)
        }
        StmtNode::While { cond, body } => {
            note_expression(helpers, None, cond, all)?;
            note_block(helpers, body, all)
        }
        StmtNode::Print { value } => note_expression(helpers, None, value, all),
        StmtNode::Return { value } => note_value(helpers, value, all),
        StmtNode::Break => Ok(()),
    }
}

#[cycle(statements)]
fn note_block(helpers: &Helpers, block: &[Stmt], all: &mut Items<Noted>) -> Result<(), NoMemory>
    ensures { OnOk result (all.new ≡ all.old ++ notes_of (map plain_method helpers.now) (statements block.now)) }
{
    for s in block {
        note_statement(helpers, s, all)?;
    }
    Ok(())
}

fn notes_in_method(alloc: Global, helpers: &Helpers, m: &Method) -> Result<Items<Noted>, NoMemory>
    ensures { IfOk result (λ all. all ≡ notes_of (map plain_method helpers.now) (plain_method m.now).body) }
{
    let mut all = Items::new(alloc);
    note_block(helpers, m.body.as_slice(), &mut all)?;
    Ok(all)
}

/// The calls of each method.
pub fn notes_in_methods(
    alloc: Global,
    helpers: &Helpers,
    methods: &[Method],
) -> Result<Items<Items<Noted>>, NoMemory>
    ensures { IfOk result (λ all. all ≡ all_notes (map plain_method helpers.now) (map plain_method methods.now)) }
{
    let mut all = Items::new(alloc);
    for m in methods {
        all.push(notes_in_method(alloc, helpers, m)?)?;
    }
    Ok(all)
}
