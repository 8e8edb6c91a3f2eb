// Parts of a helper: its body but for the last statement, the value that this one returns, and the variable that may keep.
ghost use Rattle.std.specs.Prelude.{◌≡◌, IfOk, map};
ghost use Rattle.std.specs.Option.{option_map};
ghost use Rattle.java_ast.specs.Reading.{spelled, expression, expressions, statement, statements, param, method as plain_method};
ghost use Rattle.java_ast.specs.Tree.{Expression};
ghost use Rattle.java_calls.specs.Called.{call_of};
ghost use Rattle.java_calls.specs.Inlining.{without_last as without_last_of, last_value as last_value_of, returned_by as returned_by_of, declared_type as declared_type_of, unless_scalar as unless_scalar_of, kept_by as kept_by_of, kept_variable as kept_variable_of, arguments_given, ended};
ghost use Rattle.java_calls.specs.Renaming.{marked_but};
ghost use Rattle.renamed_copies.specs.Renamings.{renaming_of};
ghost use Rattle.inlining.specs.Walked.{IsPut, a_call, declared_in, giving};

use crate::counts::{Counts, Walked};
use crate::leaves::push_giving;
use call_rules::{is_scalar, is_single_name};
use java_ast::{Expr, ExprNode, JTy, Method, Param, Stmt, StmtNode};
use qbs_base::{Name, NoMemory, Span, Text, copy_text};
use renamed_copies::{Renaming, new_name};
use std::alloc::Global;

/// The name and the arguments of the call that a value is, if it is one.
pub fn called(e: &Expr) -> Option<(&Text, &[Expr])>
    ensures { option_map (λ c. a_call c.0.now (expressions c.1.now)) result ≡ call_of (expression e.now) }
{
    match &e.node {
        ExprNode::QueryLong(text, arguments) => {
            if is_single_name(text) {
                Some((text, arguments.as_slice()))
            } else {
                None
            }
        }
        _ => None,
    }
}

/// The statements before the last one.
#[tactic(auto, using(call_rules::proofs::Ends::all_but_last))]
pub fn without_last(body: &[Stmt]) -> &[Stmt]
    ensures { statements result.now ≡ without_last_of (statements body.now) }
{
    match body.split_last() {
        None => body,
        Some((_, before)) => before,
    }
}

fn returned_by(s: &Stmt) -> Option<&Expr>
    ensures { option_map (λ e. expression e.now) result ≡ returned_by_of (statement s.now) }
{
    match &s.node {
        StmtNode::Return { value: Some(value) } => Some(value),
        _ => None,
    }
}

/// The value that the last statement returns.
#[tactic(auto, using(call_rules::proofs::Ends::last_is))]
fn last_value(body: &[Stmt]) -> Option<&Expr>
    ensures { option_map (λ e. expression e.now) result ≡ last_value_of (statements body.now) }
{
    match body.split_last() {
        None => None,
        Some((last, _)) => returned_by(last),
    }
}

/// The type with which a statement declares a variable, if it does.
fn declared_by<'a>(x: &Name, s: &'a Stmt) -> Option<&'a JTy>
    ensures { option_map (λ t. spelled t.now) result ≡ declared_in x.now (statement s.now) }
{
    match &s.node {
        StmtNode::Declare { ty, name, value: _ } => { if *name == *x { Some(ty) } else { None } }
        _ => None,
    }
}

/// The type with which the first statement that declares a variable declares it.
fn declared_type<'a>(x: &Name, body: &'a [Stmt]) -> Option<&'a JTy>
    ensures { option_map (λ t. spelled t.now) result ≡ declared_type_of x.now (statements body.now) }
{
    for s in body {
        if let Some(ty) = declared_by(x, s) {
            return Some(ty);
        }
    }
    None
}

fn unless_scalar<'a>(x: &'a Name, ty: Option<&JTy>) -> Option<&'a Name>
    ensures { option_map (λ y. y.now) result ≡ unless_scalar_of x.now (option_map (λ t. spelled t.now) ty.entry) }
{
    match ty {
        None => None,
        Some(ty) => { if is_scalar(ty) { None } else { Some(x) } }
    }
}

fn kept_by<'a>(body: &[Stmt], value: Option<&'a Expr>) -> Option<&'a Name>
    ensures { option_map (λ y. y.now) result ≡ kept_by_of (statements body.now) (option_map (λ e. expression e.now) value.entry) }
{
    match value {
        None => None,
        Some(e) => match &e.node {
            ExprNode::Var(x) => unless_scalar(x, declared_type(x, body)),
            _ => None,
        },
    }
}

/// The variable that a helper returns, where its type isn't scalar.
pub fn kept_variable(m: &Method) -> Option<&Name>
    ensures { option_map (λ y. y.now) result ≡ kept_variable_of (plain_method m.now) }
{
    let body = m.body.as_slice();
    kept_by(body, last_value(body))
}

/// How the variables of a helper are called whose result goes into a variable that is called so.
pub fn renaming_for(
    alloc: Global,
    f: &Renaming,
    name: &Name,
    kept: Option<&Name>,
    number: u64,
) -> Result<Renaming, NoMemory>
    ensures { IfOk result (λ g. renaming_of g ≡ marked_but (option_map (λ y. y.now) kept.entry) (renaming_of f.now name.now) number) }
{
    match kept {
        None => Ok(Renaming::Marked(number)),
        Some(x) => {
            let kept = copy_text(alloc, x)?;
            let to = new_name(alloc, f, name)?;
            Ok(Renaming::MarkedBut(kept, to, number))
        }
    }
}

/// A declaration for each parameter, with its argument.
pub fn put_arguments(
    alloc: Global,
    f: &Renaming,
    g: &Renaming,
    span: Span,
    params: &[Param],
    arguments: &[Expr],
    out: &mut Vec<Stmt>,
    counts: &mut Counts,
) -> Result<Walked, NoMemory>
    ensures { IfOk result (λ w.
        IsPut w (arguments_given span (renaming_of g.now) (map param params.now) (renaming_of f.now) (expressions arguments.now))
        counts.old counts.new (statements out.old.items) (statements out.new.items)) }
{
    for (i, p) in params.iter().enumerate() {
        match arguments.get(i) {
            None => return Ok(Walked::Pushed),
            Some(e) => match push_giving(alloc, g, f, span, Some(&p.ty), &p.name, e, out, counts)? {
                Walked::Full => return Ok(Walked::Full),
                Walked::Pushed => {}
            },
        }
    }
    Ok(Walked::Pushed)
}

/// The statement of the call with the value that the helper returns, unless the returned variable has taken its name.
pub fn put_ended(
    alloc: Global,
    f: &Renaming,
    g: &Renaming,
    span: Span,
    ty: Option<&JTy>,
    name: &Name,
    kept: Option<&Name>,
    m: &Method,
    out: &mut Vec<Stmt>,
    counts: &mut Counts,
) -> Result<Walked, NoMemory>
    ensures { IfOk result (λ w. (e : Expression) →
        IsPut w (ended (renaming_of f.now) (giving span (option_map (λ t. spelled t.now) ty.entry) name.now e) (renaming_of g.now)
        (option_map (λ y. y.now) kept.entry) (last_value_of (plain_method m.now).body))
        counts.old counts.new (statements out.old.items) (statements out.new.items)) }
{
    match kept {
        Some(_) => Ok(Walked::Pushed),
        None => match last_value(m.body.as_slice()) {
            None => Ok(Walked::Pushed),
            Some(value) => push_giving(alloc, f, g, span, ty, name, value, out, counts),
        },
    }
}
