// Whether a select is walked in a loop.
ghost use Rattle.std.specs.Prelude.{◌≡◌, ◌&&◌, IfOk, drop};
ghost use Rattle.std.specs.Option.{option_map, option_copied};
ghost use Rattle.java_ast.specs.Reading.{expression, statement, statements};
ghost use Rattle.java_mean.specs.Visible.{names_seen};
ghost use Rattle.java_types.specs.Texts.{read_by};
ghost use Rattle.spreads.specs.Alone.{walks_alone as walks_it_alone};
ghost use Rattle.spreads.specs.Inner as inner;
ghost use Rattle.spreads.specs.Spread as spec;

use crate::alone::walks_alone;
use crate::select::is_select;
use java_ast::{Expr, Stmt, StmtNode};
use java_mean::Scope;
use qbs_base::{Name, NoMemory};
use schema::Schema;
use std::alloc::Global;

/// The statements of a block behind the first one.
pub fn behind_first(block: &[Stmt]) -> &[Stmt]
    ensures { result.now ≡ drop 1 block.now }
{
    match block.split_first() {
        None => block,
        Some((_, rest)) => rest,
    }
}

// The text of a select is read before the statements behind are looked at for the name.
fn is_declared(
    alloc: Global,
    schema: &Schema,
    assigned: &Scope,
    name: &Name,
    value: &Expr,
    behind: &[Stmt],
) -> Result<bool, NoMemory>
    ensures { IfOk result (λ b.
        b ≡ (walks_it_alone name.now (statements behind.now) && spec.is_there (spec.select_of schema.now (read_by schema.now) (names_seen assigned.now) (expression value.now)))) }
{
    if !is_select(alloc, schema, assigned, value)? {
        return Ok(false);
    }
    Ok(walks_alone(name, behind))
}

/// The value of the variable that a statement declares for the for-each behind it, where it is a select. Only want of memory is an error.
pub fn value_declared<'a>(
    alloc: Global,
    schema: &Schema,
    assigned: &Scope,
    s: &'a Stmt,
    behind: &[Stmt],
) -> Result<Option<&'a Expr>, NoMemory>
    ensures { IfOk result (λ o.
        option_map expression (option_copied o)
        ≡ spec.value_declared schema.now (read_by schema.now) (names_seen assigned.now) (statement s.now) (statements behind.now)) }
{
    match &s.node {
        StmtNode::Declare { ty: _, name, value } => {
            if is_declared(alloc, schema, assigned, name, value, behind)? {
                Ok(Some(value))
            } else {
                Ok(None)
            }
        }
        StmtNode::Assign { .. }
        | StmtNode::Add { .. }
        | StmtNode::Sort { .. }
        | StmtNode::If { .. }
        | StmtNode::ForEach { .. }
        | StmtNode::While { .. }
        | StmtNode::Print { .. }
        | StmtNode::Return { .. }
        | StmtNode::Break => Ok(None),
    }
}

// Whether a statement that no value was declared for walks a select, at any depth.
#[cycle(inner)]
#[tactic(auto, using(java_ast::proofs::Nodes::nodes))]
fn has_select(alloc: Global, schema: &Schema, assigned: &Scope, s: &Stmt) -> Result<bool, NoMemory>
    ensures { IfOk result (λ b. b ≡ inner.has_select schema.now (read_by schema.now) (names_seen assigned.now) (statement s.now)) }
{
    match &s.node {
        StmtNode::If {
            cond: _,
            yes,
            other,
        } => match other {
            None => have_select(alloc, schema, assigned, yes),
            Some(other) => {
                let found = have_select(alloc, schema, assigned, yes)?;
                if found {
                    return Ok(true);
                }
                have_select(alloc, schema, assigned, other)
            }
        },
        StmtNode::ForEach {
            ty: _,
            name: _,
            list,
            body,
        } => {
            let walks = is_select(alloc, schema, assigned, list)?;
            if walks {
                return Ok(true);
            }
            have_select(alloc, schema, assigned, body)
        }
        StmtNode::While { cond: _, body } => have_select(alloc, schema, assigned, body),
        StmtNode::Declare { .. }
        | StmtNode::Assign { .. }
        | StmtNode::Add { .. }
        | StmtNode::Sort { .. }
        | StmtNode::Print { .. }
        | StmtNode::Return { .. }
        | StmtNode::Break => Ok(false),
    }
}

/// Whether a statement of a block walks a select, at any depth, as it stands or declared directly before. Only want of memory is an error.
#[cycle(inner)]
pub fn have_select(
    alloc: Global,
    schema: &Schema,
    assigned: &Scope,
    block: &[Stmt],
) -> Result<bool, NoMemory>
    ensures { IfOk result (λ b. b ≡ inner.have_select schema.now (read_by schema.now) (names_seen assigned.now) (statements block.now)) }
{
    let mut rest = block;
    for s in block {
        rest = behind_first(rest);
        let declared = value_declared(alloc, schema, assigned, s, rest)?;
        if declared.is_some() {
            return Ok(true);
        }
        let found = has_select(alloc, schema, assigned, s)?;
        if found {
            return Ok(true);
        }
    }
    Ok(false)
}
