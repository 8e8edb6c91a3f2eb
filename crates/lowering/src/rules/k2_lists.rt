// Which lists and limits loops of the kernel form have.
ghost use Rattle.std.specs.Prelude.{◌≡◌, ◌&&◌, map};
ghost use Rattle.java_ast.specs.Reading.{statement};
ghost use Rattle.java_loops.specs.Kernel.KernelLists as specs;
ghost use Rattle.loop_text.specs.Sites.Reading.{site_of};
ghost use Rattle.lowering.specs.InCode.Reading.{setting_in_code};
ghost use Rattle.loop_text.specs.Sites.Sites as sites;

use java_ast::{Stmt, StmtNode};
use java_mean::JavaType;
use loop_setting::places::setting::Setting;
use loop_text::loops::counting::{counting_in, limit_of};
use loop_text::loops::limits::{count_loops, declares_list_at, is_found_source, is_loop};
use loop_text::loops::lists::{is_sorted_source, source_in};
use loop_text::sites::bindings::{Binding, binding_at};
use loop_text::sites::list::{Site, place_where};
use qbs_base::{Name, Span};

fn is_listed(k: Option<JavaType>) -> bool
    ensures { result ≡ specs.is_listed k }
{
    match k {
        Some(JavaType::Listed(_)) => true,
        _ => false,
    }
}

// A name at a site is that of a list.
fn is_list_bound(w: &Setting, x: &Name, b: Binding) -> bool
    ensures { result ≡ specs.is_list_bound (setting_in_code w.now) x.now b }
{
    match b {
        Binding::Row(_) => false,
        Binding::Local(n) => declares_list_at(w.sites, n),
        Binding::Outer => is_listed(w.fragment.types.type_of(x)),
    }
}

// What a sorted and cut list doesn't allow: an `if`, and an update that doesn't add to a list.
#[tactic(auto, using(java_ast::proofs::Nodes::nodes))]
fn is_barred(w: &Setting, n: usize, s: &Stmt) -> bool
    ensures { result ≡ specs.is_barred (setting_in_code w.now) n (statement s.now) }
{
    match &s.node {
        StmtNode::If {
            cond: _,
            yes: _,
            other,
        } => match other {
            None => true,
            Some(_) => true,
        },
        StmtNode::Assign { .. } => true,
        StmtNode::Add { name, value: _ } => !is_list_bound(w, name, binding_at(w.sites, n, name)),
        _ => false,
    }
}

fn has_barred(w: &Setting) -> bool
    ensures { result ≡ sites.any_site (specs.is_barred_site (setting_in_code w.now)) 0 (map site_of w.now.sites.now) }
{
    for (n, s) in w.sites.as_slice().iter().enumerate() {
        if is_barred(w, n, s.statement) {
            return true;
        }
    }
    false
}

// A limit stands in a fragment of one loop, and together with a sort only where all turns add to lists.
fn allows_limit(w: &Setting, s: &Stmt, limit: Option<u64>) -> bool
    ensures { result ≡ specs.allows_limit (setting_in_code w.now) (statement s.now) limit }
{
    match limit {
        None => true,
        Some(_) => {
            count_loops(w.sites.as_slice()) == 1
                && !(is_sorted_source(source_in(w.fragment.run, s)) && has_barred(w))
        }
    }
}

#[tactic(auto, using(loop_text::proofs::Trees::Rounds::rounds))]
fn broken_list(w: &Setting, n: usize, s: &Site) -> Option<Span>
    ensures { result ≡ specs.broken_list (setting_in_code w.now) n (site_of s.now) }
{
    let s = s.statement;
    place_where(
        is_loop(s)
            && !(is_found_source(source_in(w.fragment.run, s))
                && allows_limit(w, s, limit_of(counting_in(s)))),
        s.span,
    )
}

/// K2: the first loop whose list isn't fetched in place or by the run, or whose limit isn't allowed.
pub fn broken_lists(w: &Setting) -> Option<Span>
    ensures { result ≡ specs.broken_lists (setting_in_code w.now) }
{
    for (n, s) in w.sites.as_slice().iter().enumerate() {
        if let Some(at) = broken_list(w, n, s) {
            return Some(at);
        }
    }
    None
}
