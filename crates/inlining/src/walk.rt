// The walk over statements: each is copied with its variables renamed, and a helper's body stands in for a call.
ghost use Rattle.std.specs.Prelude.{◌≡◌, ◌≤◌, ℕ, List, IfOk};
ghost use Rattle.std.specs.Option.{option_map};
ghost use Rattle.java_ast.specs.Reading.{spelled, expression, expressions, statement, statements, method as plain_method, program as plain_program};
ghost use Rattle.java_ast.specs.Tree as plain;
ghost use Rattle.java_ast.specs.Tree.{Expression};
ghost use Rattle.java_calls.specs.Rules.{most_statements};
ghost use Rattle.renamed_copies.specs.Renamings.{renaming_of};
ghost use Rattle.inlining.specs.Walked.{statement_makes, block_makes, call_makes, helper_makes, IsWalked, IsMadeOf, IsBodyOf, giving, a_call};

use crate::class::Class;
use crate::counts::{Counts, Walked, spend};
use crate::helper::{called, kept_variable, put_arguments, put_ended, renaming_for, without_last};
use crate::leaves::{
    push_added, push_break, push_giving, push_printed, push_returned, push_sorted,
};
use java_ast::{Expr, JTy, Method, Stmt, StmtNode};
use qbs_base::{Name, NoMemory, Span, Text};
use renamed_copies::{Renaming, for_each_renamed, if_else_renamed, if_renamed, while_renamed};
use std::alloc::Global;

/// What comes in place of a block, alone, or none where that has more statements than may be written.
#[cycle(walk)]
fn walk_alone(
    alloc: Global,
    class: &Class,
    room: u32,
    f: &Renaming,
    block: &[Stmt],
    counts: &mut Counts,
) -> Result<Option<Vec<Stmt>>, NoMemory>
    requires { counts.old.left ≤ most_statements }
    ensures { IfOk result (λ o.
        IsMadeOf o room (block_makes (plain_program class.now) (renaming_of f.now) counts.old.taken (statements block.now))
        counts.old counts.new) }
{
    let deep = counts.deep;
    if deep == 0 {
        return Err(NoMemory);
    }
    counts.deep = deep - 1;
    let mut out = Vec::new(alloc);
    let walked = walk_block(alloc, class, room, f, block, &mut out, counts)?;
    counts.deep = deep;
    match walked {
        Walked::Full => Ok(None),
        Walked::Pushed => Ok(Some(out)),
    }
}

/// The same of what stands in another statement, which is one statement more.
#[cycle(walk)]
fn walk_body(
    alloc: Global,
    class: &Class,
    room: u32,
    f: &Renaming,
    block: &[Stmt],
    counts: &mut Counts,
) -> Result<Option<Vec<Stmt>>, NoMemory>
    requires { counts.old.left ≤ most_statements }
    ensures { IfOk result (λ o.
        IsBodyOf o room (block_makes (plain_program class.now) (renaming_of f.now) counts.old.taken (statements block.now))
        counts.old counts.new) }
{
    match spend(counts) {
        Walked::Full => Ok(None),
        Walked::Pushed => walk_alone(alloc, class, room, f, block, counts),
    }
}

/// Pushes what comes in place of the statements of a block, where so many calls may yet stand in one another.
#[cycle(walk)]
pub fn walk_block(
    alloc: Global,
    class: &Class,
    room: u32,
    f: &Renaming,
    block: &[Stmt],
    out: &mut Vec<Stmt>,
    counts: &mut Counts,
) -> Result<Walked, NoMemory>
    requires { counts.old.left ≤ most_statements }
    ensures { IfOk result (λ w.
        IsWalked w room (block_makes (plain_program class.now) (renaming_of f.now) counts.old.taken (statements block.now))
        counts.old counts.new (statements out.old.items) (statements out.new.items)) }
{
    for s in block {
        match walk_statement(alloc, class, room, f, s, out, counts)? {
            Walked::Full => return Ok(Walked::Full),
            Walked::Pushed => {}
        }
    }
    Ok(Walked::Pushed)
}

#[cycle(walk)]
fn walk_if(
    alloc: Global,
    class: &Class,
    room: u32,
    f: &Renaming,
    span: Span,
    cond: &Expr,
    yes: &[Stmt],
    out: &mut Vec<Stmt>,
    counts: &mut Counts,
) -> Result<Walked, NoMemory>
    requires { counts.old.left ≤ most_statements }
    ensures { IfOk result (λ w.
        IsWalked w room (statement_makes (plain_program class.now) (renaming_of f.now) counts.old.taken
        (plain.If span (expression cond.now) (statements yes.now)))
        counts.old counts.new (statements out.old.items) (statements out.new.items)) }
{
    match walk_body(alloc, class, room, f, yes, counts)? {
        None => Ok(Walked::Full),
        Some(yes) => {
            let s = if_renamed(alloc, f, span, cond, yes)?;
            out.push(s)?;
            Ok(Walked::Pushed)
        }
    }
}

#[cycle(walk)]
fn walk_if_else(
    alloc: Global,
    class: &Class,
    room: u32,
    f: &Renaming,
    span: Span,
    cond: &Expr,
    yes: &[Stmt],
    other: &[Stmt],
    out: &mut Vec<Stmt>,
    counts: &mut Counts,
) -> Result<Walked, NoMemory>
    requires { counts.old.left ≤ most_statements }
    ensures { IfOk result (λ w.
        IsWalked w room (statement_makes (plain_program class.now) (renaming_of f.now) counts.old.taken
        (plain.IfElse span (expression cond.now) (statements yes.now) (statements other.now)))
        counts.old counts.new (statements out.old.items) (statements out.new.items)) }
{
    match walk_body(alloc, class, room, f, yes, counts)? {
        None => Ok(Walked::Full),
        Some(yes) => match walk_alone(alloc, class, room, f, other, counts)? {
            None => Ok(Walked::Full),
            Some(other) => {
                let s = if_else_renamed(alloc, f, span, cond, yes, other)?;
                out.push(s)?;
                Ok(Walked::Pushed)
            }
        },
    }
}

#[cycle(walk)]
fn walk_for_each(
    alloc: Global,
    class: &Class,
    room: u32,
    f: &Renaming,
    span: Span,
    ty: &JTy,
    name: &Name,
    list: &Expr,
    body: &[Stmt],
    out: &mut Vec<Stmt>,
    counts: &mut Counts,
) -> Result<Walked, NoMemory>
    requires { counts.old.left ≤ most_statements }
    ensures { IfOk result (λ w.
        IsWalked w room (statement_makes (plain_program class.now) (renaming_of f.now) counts.old.taken
        (plain.ForEach span (spelled ty.now) name.now (expression list.now) (statements body.now)))
        counts.old counts.new (statements out.old.items) (statements out.new.items)) }
{
    match walk_body(alloc, class, room, f, body, counts)? {
        None => Ok(Walked::Full),
        Some(body) => {
            let s = for_each_renamed(alloc, f, span, ty, name, list, body)?;
            out.push(s)?;
            Ok(Walked::Pushed)
        }
    }
}

#[cycle(walk)]
fn walk_while(
    alloc: Global,
    class: &Class,
    room: u32,
    f: &Renaming,
    span: Span,
    cond: &Expr,
    body: &[Stmt],
    out: &mut Vec<Stmt>,
    counts: &mut Counts,
) -> Result<Walked, NoMemory>
    requires { counts.old.left ≤ most_statements }
    ensures { IfOk result (λ w.
        IsWalked w room (statement_makes (plain_program class.now) (renaming_of f.now) counts.old.taken
        (plain.While span (expression cond.now) (statements body.now)))
        counts.old counts.new (statements out.old.items) (statements out.new.items)) }
{
    match walk_body(alloc, class, room, f, body, counts)? {
        None => Ok(Walked::Full),
        Some(body) => {
            let s = while_renamed(alloc, f, span, cond, body)?;
            out.push(s)?;
            Ok(Walked::Pushed)
        }
    }
}

/// A call whose result a declaration of this type or an assignment takes. Past the calls that may be open it is an error, and so it is where
/// the class has no such method, which the rules of helpers rule out.
#[cycle(walk)]
fn walk_call(
    alloc: Global,
    class: &Class,
    room: u32,
    f: &Renaming,
    span: Span,
    ty: Option<&JTy>,
    name: &Name,
    text: &Text,
    arguments: &[Expr],
    out: &mut Vec<Stmt>,
    counts: &mut Counts,
) -> Result<Walked, NoMemory>
    requires { counts.old.left ≤ most_statements }
    ensures { IfOk result (λ w. (e : Expression) →
        IsWalked w room (call_makes (plain_program class.now) (renaming_of f.now) counts.old.taken
        (giving span (option_map (λ t. spelled t.now) ty.entry) name.now e) (a_call text.now (expressions arguments.now)))
        counts.old counts.new (statements out.old.items) (statements out.new.items)) }
{
    if room == 0 {
        return Err(NoMemory);
    }
    match class.method(text) {
        None => Err(NoMemory),
        Some(m) => walk_helper(
            alloc,
            class,
            room - 1,
            f,
            span,
            ty,
            name,
            m,
            arguments,
            out,
            counts,
        ),
    }
}

/// The body of a helper, between its parameters and the statement that takes its value.
#[cycle(walk)]
fn walk_helper(
    alloc: Global,
    class: &Class,
    room: u32,
    f: &Renaming,
    span: Span,
    ty: Option<&JTy>,
    name: &Name,
    m: &Method,
    arguments: &[Expr],
    out: &mut Vec<Stmt>,
    counts: &mut Counts,
) -> Result<Walked, NoMemory>
    requires { counts.old.left ≤ most_statements }
    ensures { IfOk result (λ w. (e : Expression) (x : List ℕ) →
        IsWalked w room (helper_makes (plain_program class.now) (renaming_of f.now) counts.old.taken
        (giving span (option_map (λ t. spelled t.now) ty.entry) name.now e) (a_call x (expressions arguments.now)) (plain_method m.now))
        counts.old counts.new (statements out.old.items) (statements out.new.items)) }
{
    counts.taken = class.next_number(alloc, counts.taken)?;
    let kept = kept_variable(m);
    let g = renaming_for(alloc, f, name, kept, counts.taken)?;
    match put_arguments(
        alloc,
        f,
        &g,
        span,
        m.params.as_slice(),
        arguments,
        out,
        counts,
    )? {
        Walked::Full => Ok(Walked::Full),
        Walked::Pushed => {
            let body = without_last(m.body.as_slice());
            match walk_block(alloc, class, room, &g, body, out, counts)? {
                Walked::Full => Ok(Walked::Full),
                Walked::Pushed => put_ended(alloc, f, &g, span, ty, name, kept, m, out, counts),
            }
        }
    }
}

/// A declaration of this type, or an assignment.
#[cycle(walk)]
fn walk_giving(
    alloc: Global,
    class: &Class,
    room: u32,
    f: &Renaming,
    span: Span,
    ty: Option<&JTy>,
    name: &Name,
    value: &Expr,
    out: &mut Vec<Stmt>,
    counts: &mut Counts,
) -> Result<Walked, NoMemory>
    requires { counts.old.left ≤ most_statements }
    ensures { IfOk result (λ w.
        IsWalked w room (statement_makes (plain_program class.now) (renaming_of f.now) counts.old.taken
        (giving span (option_map (λ t. spelled t.now) ty.entry) name.now (expression value.now)))
        counts.old counts.new (statements out.old.items) (statements out.new.items)) }
{
    match called(value) {
        None => push_giving(alloc, f, f, span, ty, name, value, out, counts),
        Some((text, arguments)) => walk_call(
            alloc, class, room, f, span, ty, name, text, arguments, out, counts,
        ),
    }
}

#[cycle(walk)]
fn walk_statement(
    alloc: Global,
    class: &Class,
    room: u32,
    f: &Renaming,
    s: &Stmt,
    out: &mut Vec<Stmt>,
    counts: &mut Counts,
) -> Result<Walked, NoMemory>
    requires { counts.old.left ≤ most_statements }
    ensures { IfOk result (λ w.
        IsWalked w room (statement_makes (plain_program class.now) (renaming_of f.now) counts.old.taken (statement s.now))
        counts.old counts.new (statements out.old.items) (statements out.new.items)) }
{
    let span = s.span;
    match &s.node {
        StmtNode::Declare { ty, name, value } => walk_giving(
            alloc,
            class,
            room,
            f,
            span,
            Some(ty),
            name,
            value,
            out,
            counts,
        ),
        StmtNode::Assign { name, value } => walk_giving(
            alloc, class, room, f, span, None, name, value, out, counts,
        ),
        StmtNode::Add { name, value } => push_added(alloc, f, span, name, value, out, counts),
        StmtNode::Sort { name, keys, down } => push_sorted(
            alloc,
            f,
            span,
            name,
            keys.as_slice(),
            down.as_slice(),
            out,
            counts,
        ),
        StmtNode::If { cond, yes, other } => match other {
            None => walk_if(alloc, class, room, f, span, cond, yes, out, counts),
            Some(other) => walk_if_else(alloc, class, room, f, span, cond, yes, other, out, counts),
        },
        StmtNode::ForEach {
            ty,
            name,
            list,
            body,
        } => walk_for_each(
            alloc, class, room, f, span, ty, name, list, body, out, counts,
        ),
        StmtNode::While { cond, body } => {
            walk_while(alloc, class, room, f, span, cond, body, out, counts)
        }
        StmtNode::Print { value } => push_printed(alloc, f, span, value, out, counts),
        StmtNode::Return { value } => push_returned(alloc, f, span, value, out, counts),
        StmtNode::Break => push_break(span, out, counts),
    }
}
