//! What statements bind names to, listed by name.
ghost use Rattle.std.specs.Prelude.{◌≡◌, ◌++◌, ◌∷◌, [], IfOk, OnOk, IfSome, IfNone, option_copied};
ghost use Rattle.java_ast.specs.Reading.{statement, statements};
ghost use Rattle.loop_text.specs.Sites.Bound as specs;
ghost use Rattle.loop_text.specs.Sites.Sites as sites;

use crate::sites::bindings::{Binding, declared_name};
use crate::sites::groups::ByName;
use java_ast::{Stmt, StmtNode};
use qbs_base::{Name, NoMemory};
use std::alloc::Global;

fn counted_row(body: &[Stmt]) -> Option<&Name>
    ensures { option_copied result ≡ sites.counted_row (statements body.now) }
{
    match body.split_first() {
        None => None,
        Some((s, _)) => declared_name(s),
    }
}

// The variable that a statement binds in what stands behind it or in it.
#[tactic(auto, using(java_ast::proofs::Nodes::nodes))]
fn bound_name(s: &Stmt) -> Option<&Name>
    ensures { option_copied result ≡ specs.bound_name (statement s.now) }
{
    match &s.node {
        StmtNode::Declare {
            ty: _,
            name,
            value: _,
        } => Some(name),
        StmtNode::ForEach {
            ty: _,
            name,
            list: _,
            body: _,
        } => Some(name),
        StmtNode::While { cond: _, body } => counted_row(body),
        _ => None,
    }
}

// What it binds that variable to, where it has this number.
#[tactic(auto, using(java_ast::proofs::Nodes::nodes))]
fn bound_as(n: usize, s: &Stmt) -> Binding
    ensures { result ≡ specs.bound_as n (statement s.now) }
{
    match &s.node {
        StmtNode::Declare { .. } => Binding::Local(n),
        _ => Binding::Row(n),
    }
}

/// Puts behind the bindings of the variable that a statement with this number binds what it binds that to.
pub fn push_bound<'a>(
    alloc: Global,
    n: usize,
    s: &'a Stmt,
    found: &mut ByName<'a, Binding>,
) -> Result<(), NoMemory>
    ensures { OnOk result (specs.AddsBound found.old n (statement s.now) found.new) }
{
    match bound_name(s) {
        None => Ok(()),
        Some(name) => found.push(alloc, name, bound_as(n, s)),
    }
}

fn number_of(b: Binding) -> usize
    ensures { result ≡ specs.number_of b }
{
    match b {
        Binding::Row(n) => n,
        Binding::Local(n) => n,
        Binding::Outer => 0,
    }
}

// The middle one of some bindings, with what stands before it and behind it.
fn halves(bindings: &[Binding]) -> Option<(&[Binding], Binding, &[Binding])>
    ensures some { IfSome result (λ h. bindings.now ≡ h.0.now ++ h.1 ∷ h.2.now) }
    ensures none { IfNone result (bindings.now ≡ []) }
{
    let (before, rest) = bindings.split_at(bindings.len() / 2);
    match rest.split_first() {
        None => None,
        Some((middle, behind)) => Some((before, *middle, behind)),
    }
}

/// The last of some bindings whose number is below n, by halving, and else the one that is given.
pub fn last_below(n: usize, last: Binding, bindings: &[Binding]) -> Binding
    requires { specs.IsRising 0 bindings.now }
    ensures { result ≡ specs.last_below n last bindings.now }
{
    match halves(bindings) {
        None => last,
        Some((before, middle, behind)) => {
            if number_of(middle) < n {
                last_below(n, middle, behind)
            } else {
                last_below(n, last, before)
            }
        }
    }
}
