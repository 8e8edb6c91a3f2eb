// Statements without calls, with their variables renamed, and parts of helpers.
ghost use Rattle.std.specs.Prelude.{◌≡◌, IfOk, OnOk, map, option_copied};
ghost use Rattle.std.specs.Option.{option_map};
ghost use Rattle.java_ast.specs.Reading.{spelled, expression, expressions, statement, statements};
ghost use Rattle.java_ast.specs.Tree as plain;
ghost use Rattle.java_calls.specs.Renaming.{renamed};
ghost use Rattle.renamed_copies.specs.Renamings.{renaming_of};

use crate::naming::{Renaming, new_name};
use crate::renamed::{copy_type, renamed_copy, renamed_value};
use java_ast::build::{for_each, if_else, if_only, while_loop};
use java_ast::{Expr, ExprNode, JTy, Stmt, StmtNode};
use qbs_base::{Bools, Name, NoMemory, Span, copy_names};
use std::alloc::Global;

/// A declaration of a renamed variable.
pub fn declared(
    alloc: Global,
    f: &Renaming,
    span: Span,
    ty: &JTy,
    name: &Name,
    value: Box<Expr>,
) -> Result<Stmt, NoMemory>
    ensures { IfOk result (λ s. statement s ≡ plain.Declare span (spelled ty.now) (renaming_of f.now name.now) (expression value.value)) }
{
    let name = new_name(alloc, f, name)?;
    let ty = copy_type(alloc, ty)?;
    let value = Box::into_inner(value);
    let node = StmtNode::Declare { ty, name, value };
    Ok(Stmt { span, node })
}

/// An assignment to a renamed variable.
pub fn assigned(
    alloc: Global,
    f: &Renaming,
    span: Span,
    name: &Name,
    value: Box<Expr>,
) -> Result<Stmt, NoMemory>
    ensures { IfOk result (λ s. statement s ≡ plain.Assign span (renaming_of f.now name.now) (expression value.value)) }
{
    let name = new_name(alloc, f, name)?;
    let value = Box::into_inner(value);
    let node = StmtNode::Assign { name, value };
    Ok(Stmt { span, node })
}

/// An addition to a renamed variable.
pub fn added(
    alloc: Global,
    f: &Renaming,
    span: Span,
    name: &Name,
    value: &Expr,
) -> Result<Stmt, NoMemory>
    ensures { IfOk result (λ s. statement s ≡ plain.Add span (renaming_of f.now name.now) (renamed (renaming_of f.now) (expression value.now))) }
{
    let name = new_name(alloc, f, name)?;
    let value = renamed_copy(alloc, f, value)?;
    let node = StmtNode::Add { name, value };
    Ok(Stmt { span, node })
}

fn copy_bools(alloc: Global, bools: &[bool]) -> Result<Bools, NoMemory>
    ensures { IfOk result (λ c. c ≡ bools.now) }
{
    let mut all = Bools::new(alloc);
    for b in bools {
        all.push(*b)?;
    }
    Ok(all)
}

/// A sort of a renamed variable.
pub fn sorted(
    alloc: Global,
    f: &Renaming,
    span: Span,
    name: &Name,
    keys: &[Name],
    down: &[bool],
) -> Result<Stmt, NoMemory>
    ensures { IfOk result (λ s. statement s ≡ plain.Sort span (renaming_of f.now name.now) keys.now down.now) }
{
    let name = new_name(alloc, f, name)?;
    let keys = copy_names(alloc, keys)?;
    let down = copy_bools(alloc, down)?;
    let node = StmtNode::Sort { name, keys, down };
    Ok(Stmt { span, node })
}

pub fn printed(alloc: Global, f: &Renaming, span: Span, value: &Expr) -> Result<Stmt, NoMemory>
    ensures { IfOk result (λ s. statement s ≡ plain.Print span (renamed (renaming_of f.now) (expression value.now))) }
{
    let value = renamed_copy(alloc, f, value)?;
    let node = StmtNode::Print { value };
    Ok(Stmt { span, node })
}

pub fn returned(
    alloc: Global,
    f: &Renaming,
    span: Span,
    value: &Option<Expr>,
) -> Result<Stmt, NoMemory>
    ensures { IfOk result (λ s. statement s ≡ plain.Return span (option_map (renamed (renaming_of f.now)) (option_map expression value.now))) }
{
    let value = renamed_value(alloc, f, value)?;
    let node = StmtNode::Return { value };
    Ok(Stmt { span, node })
}

/// An `if` without an `else`, with this body and its condition renamed.
pub fn if_renamed(
    alloc: Global,
    f: &Renaming,
    span: Span,
    cond: &Expr,
    yes: Vec<Stmt>,
) -> Result<Stmt, NoMemory>
    ensures { IfOk result (λ s. statement s ≡ plain.If span (renamed (renaming_of f.now) (expression cond.now)) (statements yes.items)) }
{
    let cond = renamed_copy(alloc, f, cond)?;
    Ok(if_only(span, cond, yes))
}

/// An `if` with these bodies and its condition renamed.
pub fn if_else_renamed(
    alloc: Global,
    f: &Renaming,
    span: Span,
    cond: &Expr,
    yes: Vec<Stmt>,
    other: Vec<Stmt>,
) -> Result<Stmt, NoMemory>
    ensures { IfOk result (λ s. statement s ≡ plain.IfElse span (renamed (renaming_of f.now) (expression cond.now)) (statements yes.items) (statements other.items)) }
{
    let cond = renamed_copy(alloc, f, cond)?;
    Ok(if_else(span, cond, yes, other))
}

/// A walk over a list with this body, the rest renamed.
pub fn for_each_renamed(
    alloc: Global,
    f: &Renaming,
    span: Span,
    ty: &JTy,
    name: &Name,
    list: &Expr,
    body: Vec<Stmt>,
) -> Result<Stmt, NoMemory>
    ensures { IfOk result (λ s. statement s ≡ plain.ForEach span (spelled ty.now) (renaming_of f.now name.now) (renamed (renaming_of f.now) (expression list.now)) (statements body.items)) }
{
    let name = new_name(alloc, f, name)?;
    let ty = copy_type(alloc, ty)?;
    let list = renamed_copy(alloc, f, list)?;
    Ok(for_each(span, ty, name, list, body))
}

/// A `while` with this body and its condition renamed.
pub fn while_renamed(
    alloc: Global,
    f: &Renaming,
    span: Span,
    cond: &Expr,
    body: Vec<Stmt>,
) -> Result<Stmt, NoMemory>
    ensures { IfOk result (λ s. statement s ≡ plain.While span (renamed (renaming_of f.now) (expression cond.now)) (statements body.items)) }
{
    let cond = renamed_copy(alloc, f, cond)?;
    Ok(while_loop(span, cond, body))
}
