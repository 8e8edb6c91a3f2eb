// The types with which variables are declared, as the program spells them.
ghost use Rattle.std.specs.Prelude.{◌≡◌, IfOk, map, option_copied};
ghost use Rattle.std.specs.Option.{option_map};
ghost use Rattle.java_ast.specs.Reading.{spelled, statement, statements, param, method as plain_method, program as plain_program};
ghost use Rattle.java_loops.specs.Lowering.Spelling as specs;

use java_ast::{JTy, Method, Param, Path, Program, Stmt, StmtNode, branch};
use loop_text::statements::block_parts::{before_number, numbered};
use loop_text::statements::names::same_name;
use qbs_base::{Name, NoMemory};
use std::alloc::Global;

/// A copy of a type.
pub fn copy_spelled(alloc: Global, ty: &JTy) -> Result<JTy, NoMemory>
    ensures { IfOk result (λ c. spelled c ≡ spelled ty.now) }
{
    match ty {
        JTy::Int => Ok(JTy::Int),
        JTy::Long => Ok(JTy::Long),
        JTy::Boolean => Ok(JTy::Boolean),
        JTy::String => Ok(JTy::String),
        JTy::BoxedInteger => Ok(JTy::BoxedInteger),
        JTy::BoxedLong => Ok(JTy::BoxedLong),
        JTy::BoxedBoolean => Ok(JTy::BoxedBoolean),
        JTy::Table(name) => Ok(JTy::Table(name.clone()?)),
        JTy::List(element) => {
            let element = Box::new(alloc, copy_spelled(alloc, element)?)?;
            Ok(JTy::List(element))
        }
        JTy::Set(element) => {
            let element = Box::new(alloc, copy_spelled(alloc, element)?)?;
            Ok(JTy::Set(element))
        }
    }
}

// The type behind a statement.
fn spelled_after<'a>(x: &Name, before: Option<&'a JTy>, s: &'a Stmt) -> Option<&'a JTy>
    ensures { option_map spelled (option_copied result) ≡ specs.spelled_after x.now (option_map spelled (option_copied before.entry)) (statement s.now) }
{
    match &s.node {
        StmtNode::Declare { ty, name, value: _ } => {
            if same_name(name, x) { Some(ty) } else { before }
        }
        StmtNode::Assign { .. }
        | StmtNode::Add { .. }
        | StmtNode::Sort { .. }
        | StmtNode::If { .. }
        | StmtNode::ForEach { .. }
        | StmtNode::While { .. }
        | StmtNode::Print { .. }
        | StmtNode::Return { .. }
        | StmtNode::Break => before,
    }
}

// The type behind statements of a block.
fn spelled_past<'a>(x: &Name, before: Option<&'a JTy>, block: &'a [Stmt]) -> Option<&'a JTy>
    ensures { option_map spelled (option_copied result) ≡ specs.spelled_past x.now (option_map spelled (option_copied before.entry)) (statements block.now) }
{
    let mut ty = before;
    for s in block {
        ty = spelled_after(x, ty, s);
    }
    ty
}

// The type in the branches of a statement.
fn spelled_inside<'a>(x: &Name, before: Option<&'a JTy>, s: &'a Stmt) -> Option<&'a JTy>
    ensures { option_map spelled (option_copied result) ≡ specs.spelled_inside x.now (option_map spelled (option_copied before.entry)) (statement s.now) }
{
    match &s.node {
        StmtNode::ForEach {
            ty,
            name,
            list: _,
            body: _,
        } => { if same_name(name, x) { Some(ty) } else { before } }
        StmtNode::Declare { .. }
        | StmtNode::Assign { .. }
        | StmtNode::Add { .. }
        | StmtNode::Sort { .. }
        | StmtNode::If { .. }
        | StmtNode::While { .. }
        | StmtNode::Print { .. }
        | StmtNode::Return { .. }
        | StmtNode::Break => before,
    }
}

// The type before the statement to which a path leads behind the number of a statement of the block.
fn spelled_below<'a>(
    x: &Name,
    before: Option<&'a JTy>,
    block: &'a [Stmt],
    number: u64,
    path: &[u64],
) -> Option<&'a JTy>
    ensures { option_map spelled (option_copied result) ≡ specs.spelled_in x.now (option_map spelled (option_copied before.entry)) path.now number (statements block.now) }
{
    let here = spelled_past(x, before, before_number(block, number as usize));
    let Some((at, below)) = path.split_first() else {
        return here;
    };
    let Some((further, rest)) = below.split_first() else {
        return None;
    };
    let Some(s) = numbered(block, number as usize) else {
        return None;
    };
    let Some(inner) = branch(s, *at) else {
        return None;
    };
    spelled_below(x, spelled_inside(x, here, s), inner, *further, rest)
}

// The type of a parameter.
fn spelled_of_param<'a>(x: &Name, params: &'a [Param]) -> Option<&'a JTy>
    ensures { option_map spelled (option_copied result) ≡ specs.spelled_of_param x.now (map param params.now) }
{
    for p in params {
        if same_name(&p.name, x) {
            return Some(&p.ty);
        }
    }
    None
}

fn spelled_in_method<'a>(x: &Name, m: &'a Method, number: u64, path: &[u64]) -> Option<&'a JTy>
    ensures { option_map spelled (option_copied result) ≡ specs.spelled_in_method x.now path.now number (plain_method m.now) }
{
    let before = spelled_of_param(x, m.params.as_slice());
    spelled_below(x, before, m.body.as_slice(), number, path)
}

/// The type with which a variable is declared that is visible before the statement to which a path leads, as the program spells
/// it there. None where none is declared.
pub fn spelled_at<'a>(x: &Name, path: &Path, program: &'a Program) -> Option<&'a JTy>
    ensures { option_map spelled (option_copied result) ≡ specs.spelled_at x.now path.now (plain_program program.now) }
{
    let Some((number, below)) = path.as_slice().split_first() else {
        return None;
    };
    let Some((further, rest)) = below.split_first() else {
        return None;
    };
    let Some(m) = program.methods.as_slice().get(*number as usize) else {
        return None;
    };
    spelled_in_method(x, m, *further, rest)
}
