// The accumulators of a fragment.
ghost use Rattle.std.specs.Prelude.{◌≡◌, ◌||◌, ◌∷◌, [], IfOk, OnOk, map, option_copied};
ghost use Rattle.std.specs.List.{filter};
ghost use Rattle.std.specs.Option.{option_map};
ghost use Rattle.java_ast.specs.Reading.{statement, statements};
ghost use Rattle.loop_text.specs.Statements.Fragment as fragment;
ghost use Rattle.loop_setting.specs.Listed.{IsListed};
ghost use Rattle.java_ast.specs.Names as specs;
ghost use Rattle.loop_text.specs.Statements.Updated.{outer_with};
ghost use Rattle.loop_setting.specs.Reading.{fragment_in_code};
ghost use Rattle.java_mean.specs.Visible.{names_seen};
ghost use Rattle.java_ast.specs.Names.{names_lent};

use crate::kept::live::is_live;
use crate::kept::name_list::NameList;
use crate::places::setting::Fragment;
use java_ast::{Stmt, StmtNode};
use loop_text::loops::counting::counting_in;
use loop_text::sites::bindings::is_name;
use qbs_base::{Name, NoMemory, boxed};
use std::alloc::Global;

/// The counter of a loop that counts.
pub fn counter<'a>(s: &'a Stmt) -> Option<&'a Name>
    ensures { option_copied result ≡ fragment.counter (statement s.now) }
{
    match counting_in(s) {
        None => None,
        Some(k) => Some(k.counter),
    }
}

// Whether a variable is visible before the run, or declared in it.
fn is_declared(f: &Fragment, x: &Name) -> bool
    ensures { result ≡ (specs.is_among (names_seen f.now.visible.now) x.now || specs.is_among (fragment.declared_in_run (fragment_in_code f.now)) x.now) }
{
    f.types.has(x)
}

/// Whether a variable is declared outside of the loop and isn't its counter.
pub fn is_outer(f: &Fragment, x: &Name) -> bool
    ensures { result
        ≡ fragment.is_outer (names_seen f.now.visible.now) (fragment.declared_in_run (fragment_in_code f.now)) (fragment.counter (fragment_in_code f.now).loop) x.now }
{
    is_declared(f, x) && !is_name(counter(f.looped), x)
}

#[tactic(auto, using(crate::proofs::Updated::updated))]
fn put_outer<'a>(f: &Fragment, x: &'a Name, list: &mut NameList<'a>) -> Result<(), NoMemory>
    requires { IsListed list.old }
    ensures names { OnOk result (names_lent list.new.names ≡ outer_with (fragment_in_code f.now) (names_lent list.old.names) (x.now ∷ [])) }
    ensures listed { OnOk result (IsListed list.new) }
{
    if is_outer(f, x) { list.put(x) } else { Ok(()) }
}

// Puts behind the names those that a statement assigns or adds to, and that are declared outside of
// the loop and aren't its counter.
#[cycle(updates)]
#[tactic(auto, using(crate::proofs::Updated::updated, java_ast::proofs::Nodes::nodes))]
fn put_updated<'a>(f: &Fragment, s: &'a Stmt, list: &mut NameList<'a>) -> Result<(), NoMemory>
    requires { IsListed list.old }
    ensures names { OnOk result (names_lent list.new.names ≡ outer_with (fragment_in_code f.now) (names_lent list.old.names) (specs.updated_in (statement s.now))) }
    ensures listed { OnOk result (IsListed list.new) }
{
    match &s.node {
        StmtNode::Assign { name, value: _ } => put_outer(f, name, list),
        StmtNode::Add { name, value: _ } => put_outer(f, name, list),
        StmtNode::If {
            cond: _,
            yes,
            other,
        } => match other {
            None => put_all_updated(f, yes, list),
            Some(other) => {
                put_all_updated(f, yes, list)?;
                put_all_updated(f, other, list)
            }
        },
        StmtNode::ForEach {
            ty: _,
            name: _,
            list: _,
            body,
        } => put_all_updated(f, body, list),
        StmtNode::While { cond: _, body } => put_all_updated(f, body, list),
        StmtNode::Declare { .. }
        | StmtNode::Sort { .. }
        | StmtNode::Print { .. }
        | StmtNode::Return { .. }
        | StmtNode::Break => Ok(()),
    }
}

// The same of the statements of a block.
#[cycle(updates)]
#[tactic(auto, using(crate::proofs::Updated::updated))]
fn put_all_updated<'a>(
    f: &Fragment,
    block: &'a [Stmt],
    list: &mut NameList<'a>,
) -> Result<(), NoMemory>
    requires { IsListed list.old }
    ensures names { OnOk result (
        names_lent list.new.names ≡ outer_with (fragment_in_code f.now) (names_lent list.old.names) (specs.updated_among (statements block.now))) }
    ensures listed { OnOk result (IsListed list.new) }
{
    for s in block {
        put_updated(f, s, list)?;
    }
    Ok(())
}

/// The accumulators: what is assigned or added to in the loop and declared outside of it, other than its
/// counter, each once, in the order of their updates.
pub fn accumulators<'a>(alloc: Global, f: &Fragment<'a>) -> Result<Box<NameList<'a>>, NoMemory>
    ensures names { IfOk result (λ r. names_lent r.value.names ≡ fragment.accumulators (fragment_in_code f.now)) }
    ensures listed { IfOk result (λ r. IsListed r.value) }
{
    let mut list = boxed(alloc, NameList::new(alloc))?;
    put_updated(f, f.looped, &mut *list)?;
    Ok(list)
}
