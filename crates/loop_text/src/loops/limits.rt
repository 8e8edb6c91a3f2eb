//! Which lists, limits and depths loops of the kernel form have.
ghost use Rattle.std.specs.Prelude.{◌≡◌, ◌≤◌, ◌&&◌, length, slice_get, map};
ghost use Rattle.std.specs.Option.{option_map};
ghost use Rattle.java_ast.specs.Reading.{spelled, statement};
ghost use Rattle.loop_text.specs.Kernel.KernelLists as specs;
ghost use Rattle.loop_text.specs.Statements.Loops as loops;
ghost use Rattle.loop_text.specs.Statements.Setting.{is_found};
ghost use Rattle.loop_text.specs.Sites.Reading.{site_of, source_in_code};
ghost use Rattle.loop_text.specs.Sites.Sites as sites;

use crate::loops::lists::Source;
use crate::sites::list::{Site, Sites};
use java_ast::{JTy, Stmt, StmtNode};
use qbs_base::Span;

/// Whether a statement is a loop.
#[tactic(auto, using(java_ast::proofs::Nodes::nodes))]
pub fn is_loop(s: &Stmt) -> bool
    ensures { result ≡ loops.is_loop (statement s.now) }
{
    match &s.node {
        StmtNode::ForEach { .. } => true,
        StmtNode::While { .. } => true,
        _ => false,
    }
}

fn spells_list(ty: &JTy) -> bool
    ensures { result ≡ specs.spells_list (spelled ty.now) }
{
    match ty {
        JTy::List(_) => true,
        _ => false,
    }
}

fn declares_list(s: &Stmt) -> bool
    ensures { result ≡ specs.declares_list (statement s.now) }
{
    match &s.node {
        StmtNode::Declare {
            ty,
            name: _,
            value: _,
        } => spells_list(ty),
        _ => false,
    }
}

/// Whether the site with this number declares a list.
#[tactic(auto, using(crate::proofs::Trees::Rounds::rounds))]
pub fn declares_list_at(all: &Sites, n: usize) -> bool
    ensures { result ≡ specs.found_list (slice_get (map site_of all.now) n) }
{
    match all.as_slice().get(n) {
        None => false,
        Some(s) => declares_list(s.statement),
    }
}

/// How many loops there are among sites.
pub fn count_loops(all: &[Site]) -> usize
    ensures count { result ≡ specs.count_loops (map site_of all.now) }
    ensures small { result ≤ length all.now }
{
    let mut count = 0;
    for (n, s) in all.iter().enumerate() {
        if is_loop(s.statement) {
            count += 1;
        }
    }
    count
}

/// Whether there is a source.
pub fn is_found_source(s: Option<Source>) -> bool
    ensures { result ≡ is_found (option_map source_in_code s.entry) }
{
    match s {
        None => false,
        Some(_) => true,
    }
}

/// K3: the first loop in three others.
#[tactic(auto, using(crate::proofs::Trees::Rounds::rounds))]
pub fn broken_depth(all: &Sites) -> Option<Span>
    ensures { result ≡ sites.first_broken specs.too_deep 0 (map site_of all.now) }
{
    for (n, s) in all.as_slice().iter().enumerate() {
        if is_loop(s.statement) && s.round.loops.len() > 2 {
            return Some(s.statement.span);
        }
    }
    None
}
