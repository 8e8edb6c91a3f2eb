//! What updates set, and how often variables are updated in a loop.
ghost use Rattle.std.specs.Prelude.{◌≡◌, ◌<◌, ◌^◌, nat_lt, option_copied, map};
ghost use Rattle.std.specs.List.{list_any};
ghost use Rattle.java_ast.specs.Reading.{statement};
ghost use Rattle.loop_text.specs.Sites.Indexed.{is_other, ends_elsewhere, repeated_by, repeated_name};
ghost use Rattle.loop_text.specs.Kernel.KernelStatements as specs;
ghost use Rattle.java_ast.specs.Names.{names_lent};
ghost use Rattle.loop_text.specs.Sites.Reading.{site_of};
ghost use Rattle.loop_text.specs.Sites.Sites as sites;

use crate::sites::bindings::{Binding, binding_at, same_binding};
use crate::sites::list::{Site, Sites, place_where};
use java_ast::{Stmt, StmtNode};
use qbs_base::{Name, Span};

/// The variable that an update sets.
pub fn target_of(s: &Stmt) -> Option<&Name>
    ensures { option_copied result ≡ sites.target_of (statement s.now) }
{
    match &s.node {
        StmtNode::Assign { name, value: _ } => Some(name),
        StmtNode::Add { name, value: _ } => Some(name),
        _ => None,
    }
}

/// Whether a statement is an update.
pub fn is_update(s: &Stmt) -> bool
    ensures { result ≡ sites.is_update (statement s.now) }
{
    match target_of(s) {
        None => false,
        Some(_) => true,
    }
}

/// What a target is bound to at a site.
pub fn target_bound(all: &Sites, n: usize, x: Option<&Name>) -> Binding
    ensures { result ≡ specs.target_bound (map site_of all.now) n (option_copied x.entry) }
{
    match x {
        None => Binding::Outer,
        Some(x) => binding_at(all, n, x),
    }
}

/// Whether a site updates the local variable that is declared at this number.
pub fn updates_local(all: &Sites, d: usize, n: usize, s: &Site) -> bool
    ensures { result ≡ specs.updates_local (map site_of all.now) d n (site_of s.now) }
{
    is_update(s.statement)
        && same_binding(
            target_bound(all, n, target_of(s.statement)),
            Binding::Local(d),
        )
}

/// Whether a statement is a `break`.
#[tactic(auto, using(java_ast::proofs::Nodes::nodes))]
pub fn is_break(s: &Stmt) -> bool
    ensures { result ≡ specs.is_break (statement s.now) }
{
    match &s.node {
        StmtNode::Break => true,
        _ => false,
    }
}

/// Whether one of some numbers is below this one.
pub fn some_below(numbers: &[usize], n: usize) -> bool
    ensures { result ≡ list_any (λ m. nat_lt m n) numbers.now }
{
    for m in numbers {
        if *m < n {
            return true;
        }
    }
    false
}

// An update before a site sets a name that is bound there as here.
fn is_repeated_name(all: &Sites, n: usize, x: &Name, b: Binding) -> bool
    ensures { result ≡ repeated_by (map site_of all.now) n x.now b }
{
    match b {
        Binding::Row(_) => false,
        Binding::Local(d) => some_below(all.flag_updates(d), n),
        Binding::Outer => some_below(all.updates(x), n),
    }
}

fn is_repeated_target(all: &Sites, n: usize, x: Option<&Name>) -> bool
    ensures { result ≡ repeated_name (map site_of all.now) n (option_copied x.entry) }
{
    match x {
        None => false,
        Some(x) => is_repeated_name(all, n, x, binding_at(all, n, x)),
    }
}

fn is_repeated(all: &Sites, n: usize, s: &Site) -> bool
    ensures { result ≡ specs.is_repeated (map site_of all.now) n (site_of s.now) }
{
    is_repeated_target(all, n, target_of(s.statement))
}

/// Whether another number than n is among some. Where none is there twice, two of them are looked at.
pub fn some_other(numbers: &[usize], n: usize) -> bool
    ensures { result ≡ list_any (is_other n) numbers.now }
{
    for m in numbers {
        if n != *m {
            return true;
        }
    }
    false
}

// A `break` ends one of these loops, and doesn't stand directly behind the site.
#[tactic(auto, using(crate::proofs::Trees::Rounds::rounds))]
fn some_ends_elsewhere(all: &Sites, n: usize, loops: &[usize]) -> bool
    requires { n < 2 ^ 63 }
    ensures { result ≡ list_any (ends_elsewhere (map site_of all.now) n) loops.now }
{
    for l in loops {
        if some_other(all.breaks(*l), n + 1) {
            return true;
        }
    }
    false
}

fn is_beside_some_break(all: &Sites, n: usize, s: &Site) -> bool
    requires { n < 2 ^ 63 }
    ensures { result ≡ specs.is_beside_some_break (map site_of all.now) n (site_of s.now) }
{
    some_ends_elsewhere(all, n, s.round.loops.as_slice())
}

#[tactic(auto, using(crate::proofs::Trees::Rounds::rounds))]
fn broken_update(all: &Sites, n: usize, s: &Site) -> Option<Span>
    requires { n < 2 ^ 63 }
    ensures { result ≡ specs.broken_update (map site_of all.now) n (site_of s.now) }
{
    place_where(
        is_update(s.statement) && (is_repeated(all, n, s) || is_beside_some_break(all, n, s)),
        s.statement.span,
    )
}

/// The place of the first update that breaks the rule.
pub fn first_broken_update(all: &Sites) -> Option<Span>
    ensures { result ≡ sites.first_broken (specs.broken_update (map site_of all.now)) 0 (map site_of all.now) }
{
    for (n, s) in all.as_slice().iter().enumerate() {
        if let Some(at) = broken_update(all, n, s) {
            return Some(at);
        }
    }
    None
}

fn is_updated(all: &Sites, d: usize) -> bool
    ensures { result ≡ sites.any_site (specs.updates_local (map site_of all.now) d) 0 (map site_of all.now) }
{
    match all.flag_updates(d).split_first() {
        None => false,
        Some(_) => true,
    }
}

/// Whether a statement is a declaration.
#[tactic(auto, using(java_ast::proofs::Nodes::nodes))]
pub fn is_declaration(s: &Stmt) -> bool
    ensures { result ≡ specs.is_declaration (statement s.now) }
{
    match &s.node {
        StmtNode::Declare { .. } => true,
        _ => false,
    }
}

fn is_idle_flag(all: &Sites, d: usize, s: &Site) -> bool
    ensures { result ≡ specs.is_idle_flag (map site_of all.now) d (site_of s.now) }
{
    is_declaration(s.statement) && !is_updated(all, d)
}

/// Whether some flag is updated nowhere.
pub fn has_idle_flag(all: &Sites) -> bool
    ensures { result ≡ sites.any_site (specs.is_idle_flag (map site_of all.now)) 0 (map site_of all.now) }
{
    for (d, s) in all.as_slice().iter().enumerate() {
        if is_idle_flag(all, d, s) {
            return true;
        }
    }
    false
}

/// Whether there are no names.
pub fn is_none(names: &[&Name]) -> bool
    ensures { result ≡ specs.is_none (names_lent names.now) }
{
    match names.split_first() {
        None => true,
        Some(_) => false,
    }
}

/// The first of two places, if there is one.
pub fn first_place(a: Option<Span>, b: Option<Span>) -> Option<Span>
    ensures { result ≡ sites.first_place a b }
{
    match a {
        Some(at) => Some(at),
        None => b,
    }
}
