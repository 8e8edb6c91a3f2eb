// The variables that a body assigns.
ghost use Rattle.std.specs.Prelude.{◌≡◌, [], OnOk, IfOk};
ghost use Rattle.java_ast.specs.Names.{with_names};
ghost use Rattle.java_ast.specs.Reading.{statement, statements};
ghost use Rattle.java_mean.specs.Visible.{names_seen};
ghost use Rattle.spreads.specs.Staying.{assigned_in, assigned_among};

use java_ast::{Stmt, StmtNode};
use java_mean::Scope;
use qbs_base::{NoMemory, boxed};
use std::alloc::Global;

// Puts the targets of a statement's assignments, at any depth, behind the others.
#[cycle(assigned)]
#[tactic(auto, using(java_ast::proofs::Nodes::nodes, java_mean::proofs::Sets::sets, crate::proofs::Targets::joined))]
fn put_assigned<'a>(names: &mut Scope<'a>, s: &'a Stmt) -> Result<(), NoMemory>
    ensures { OnOk result (names_seen names.new ≡ with_names (names_seen names.old) (assigned_in (statement s.now))) }
{
    match &s.node {
        StmtNode::Assign { name, value: _ } => names.declare(name, None),
        StmtNode::If {
            cond: _,
            yes,
            other,
        } => match other {
            None => put_all_assigned(names, yes),
            Some(other) => {
                put_all_assigned(names, yes)?;
                put_all_assigned(names, other)
            }
        },
        StmtNode::ForEach {
            ty: _,
            name: _,
            list: _,
            body,
        } => put_all_assigned(names, body),
        StmtNode::While { cond: _, body } => put_all_assigned(names, body),
        StmtNode::Declare { .. }
        | StmtNode::Add { .. }
        | StmtNode::Sort { .. }
        | StmtNode::Print { .. }
        | StmtNode::Return { .. }
        | StmtNode::Break => Ok(()),
    }
}

// Puts the targets of assignments in a block, at any depth, behind the others.
#[cycle(assigned)]
#[tactic(auto, using(crate::proofs::Targets::joined))]
fn put_all_assigned<'a>(names: &mut Scope<'a>, block: &'a [Stmt]) -> Result<(), NoMemory>
    ensures { OnOk result (names_seen names.new ≡ with_names (names_seen names.old) (assigned_among (statements block.now))) }
{
    for s in block {
        put_assigned(names, s)?;
    }
    Ok(())
}

/// The targets of assignments in a block, at any depth, each once. Its only error is want of memory.
pub fn names_assigned<'a>(alloc: Global, body: &'a [Stmt]) -> Result<Box<Scope<'a>>, NoMemory>
    ensures { IfOk result (λ s. names_seen s.value ≡ with_names [] (assigned_among (statements body.now))) }
{
    let mut names = boxed(alloc, Scope::new(alloc))?;
    put_all_assigned(&mut *names, body)?;
    Ok(names)
}
