// Statements that have no others in them, copied with their variables renamed.
ghost use Rattle.std.specs.Prelude.{◌≡◌, IfOk};
ghost use Rattle.std.specs.Option.{option_map};
ghost use Rattle.java_ast.specs.Reading.{spelled, expression, statement, statements};
ghost use Rattle.java_ast.specs.Tree as plain;
ghost use Rattle.java_calls.specs.Renaming.{renamed};
ghost use Rattle.renamed_copies.specs.Renamings.{renaming_of};
ghost use Rattle.inlining.specs.Walked.{IsOne, giving};

use crate::counts::{Counts, Walked, spend};
use java_ast::{Expr, JTy, Stmt, StmtNode};
use qbs_base::{Name, NoMemory, Span};
use renamed_copies::{
    Renaming, added, assigned, declared, printed, renamed_copy, returned, sorted,
};
use std::alloc::Global;

/// An addition.
#[tactic(auto, using(crate::proofs::Ones::one_by))]
pub fn push_added(
    alloc: Global,
    f: &Renaming,
    span: Span,
    name: &Name,
    value: &Expr,
    out: &mut Vec<Stmt>,
    counts: &mut Counts,
) -> Result<Walked, NoMemory>
    ensures { IfOk result (λ w.
        IsOne w (plain.Add span (renaming_of f.now name.now) (renamed (renaming_of f.now) (expression value.now)))
        counts.old counts.new (statements out.old.items) (statements out.new.items)) }
{
    match spend(counts) {
        Walked::Full => Ok(Walked::Full),
        Walked::Pushed => {
            let s = added(alloc, f, span, name, value)?;
            out.push(s)?;
            Ok(Walked::Pushed)
        }
    }
}

/// A sort.
#[tactic(auto, using(crate::proofs::Ones::one_by))]
pub fn push_sorted(
    alloc: Global,
    f: &Renaming,
    span: Span,
    name: &Name,
    keys: &[Name],
    down: &[bool],
    out: &mut Vec<Stmt>,
    counts: &mut Counts,
) -> Result<Walked, NoMemory>
    ensures { IfOk result (λ w.
        IsOne w (plain.Sort span (renaming_of f.now name.now) keys.now down.now)
        counts.old counts.new (statements out.old.items) (statements out.new.items)) }
{
    match spend(counts) {
        Walked::Full => Ok(Walked::Full),
        Walked::Pushed => {
            let s = sorted(alloc, f, span, name, keys, down)?;
            out.push(s)?;
            Ok(Walked::Pushed)
        }
    }
}

/// A line of output.
#[tactic(auto, using(crate::proofs::Ones::one_by))]
pub fn push_printed(
    alloc: Global,
    f: &Renaming,
    span: Span,
    value: &Expr,
    out: &mut Vec<Stmt>,
    counts: &mut Counts,
) -> Result<Walked, NoMemory>
    ensures { IfOk result (λ w.
        IsOne w (plain.Print span (renamed (renaming_of f.now) (expression value.now)))
        counts.old counts.new (statements out.old.items) (statements out.new.items)) }
{
    match spend(counts) {
        Walked::Full => Ok(Walked::Full),
        Walked::Pushed => {
            let s = printed(alloc, f, span, value)?;
            out.push(s)?;
            Ok(Walked::Pushed)
        }
    }
}

/// A `return`.
#[tactic(auto, using(crate::proofs::Ones::one_by))]
pub fn push_returned(
    alloc: Global,
    f: &Renaming,
    span: Span,
    value: &Option<Expr>,
    out: &mut Vec<Stmt>,
    counts: &mut Counts,
) -> Result<Walked, NoMemory>
    ensures { IfOk result (λ w.
        IsOne w (plain.Return span (option_map (renamed (renaming_of f.now)) (option_map expression value.now)))
        counts.old counts.new (statements out.old.items) (statements out.new.items)) }
{
    match spend(counts) {
        Walked::Full => Ok(Walked::Full),
        Walked::Pushed => {
            let s = returned(alloc, f, span, value)?;
            out.push(s)?;
            Ok(Walked::Pushed)
        }
    }
}

/// A `break`.
#[tactic(auto, using(crate::proofs::Ones::one_by))]
pub fn push_break(span: Span, out: &mut Vec<Stmt>, counts: &mut Counts) -> Result<Walked, NoMemory>
    ensures { IfOk result (λ w. IsOne w (plain.Break span) counts.old counts.new (statements out.old.items) (statements out.new.items)) }
{
    match spend(counts) {
        Walked::Full => Ok(Walked::Full),
        Walked::Pushed => {
            let node = StmtNode::Break;
            out.push(Stmt { span, node })?;
            Ok(Walked::Pushed)
        }
    }
}

/// A declaration of a variable of this type, or an assignment: the variable is renamed in one way, its value in another.
fn renamed_giving(
    alloc: Global,
    f: &Renaming,
    g: &Renaming,
    span: Span,
    ty: Option<&JTy>,
    name: &Name,
    value: &Expr,
) -> Result<Stmt, NoMemory>
    ensures { IfOk result (λ s.
        statement s ≡ giving span (option_map (λ t. spelled t.now) ty.entry) (renaming_of f.now name.now) (renamed (renaming_of g.now) (expression value.now))) }
{
    let value = Box::new(alloc, renamed_copy(alloc, g, value)?)?;
    match ty {
        None => assigned(alloc, f, span, name, value),
        Some(ty) => declared(alloc, f, span, ty, name, value),
    }
}

/// Such a statement, pushed.
#[tactic(auto, using(crate::proofs::Ones::one_by))]
pub fn push_giving(
    alloc: Global,
    f: &Renaming,
    g: &Renaming,
    span: Span,
    ty: Option<&JTy>,
    name: &Name,
    value: &Expr,
    out: &mut Vec<Stmt>,
    counts: &mut Counts,
) -> Result<Walked, NoMemory>
    ensures { IfOk result (λ w.
        IsOne w
        (giving span (option_map (λ t. spelled t.now) ty.entry) (renaming_of f.now name.now) (renamed (renaming_of g.now) (expression value.now)))
        counts.old counts.new (statements out.old.items) (statements out.new.items)) }
{
    match spend(counts) {
        Walked::Full => Ok(Walked::Full),
        Walked::Pushed => {
            let s = renamed_giving(alloc, f, g, span, ty, name, value)?;
            out.push(s)?;
            Ok(Walked::Pushed)
        }
    }
}
