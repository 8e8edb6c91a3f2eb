//! Where the lists of loops come from.
ghost use Rattle.std.specs.Prelude.{◌≡◌, option_copied, map};
ghost use Rattle.std.specs.Option.{option_map};
ghost use Rattle.java_ast.specs.Reading.{expression, statement, statements};
ghost use Rattle.loop_text.specs.Kernel.KernelLists as specs;
ghost use Rattle.loop_text.specs.Sites.Reading.{counting_in_code, source_in_code, site_of};

use crate::loops::counting::{Counting, counting_in, limit_of};
use crate::statements::names::same_name;
use java_ast::{Expr, ExprNode, Stmt, StmtNode};
use qbs_base::Name;

/// The rows of a table, sorted by keys where there are some, each down or not.
#[derive(Clone, Copy)]
pub struct Source<'a> {
    pub table: &'a Name,
    pub keys: &'a [Name],
    pub downs: &'a [bool],
}

/// Whether rows are sorted.
pub fn is_sorted(s: Source) -> bool
    ensures { result ≡ specs.is_sorted (source_in_code s.entry) }
{
    match s.keys.split_first() {
        None => false,
        Some(_) => true,
    }
}

fn fetched(e: &Expr) -> Option<Source<'_>>
    ensures { option_map source_in_code result ≡ specs.fetched (expression e.now) }
{
    match &e.node {
        ExprNode::Fetch(table) => Some(Source {
            table,
            keys: &[],
            downs: &[],
        }),
        _ => None,
    }
}

fn sorted_by<'a>(keys: &'a [Name], downs: &'a [bool], o: Option<Source<'a>>) -> Option<Source<'a>>
    ensures { option_map source_in_code result ≡ specs.sorted_by keys.now downs.now (option_map source_in_code o.entry) }
{
    match o {
        None => None,
        Some(s) => {
            if is_sorted(s) {
                None
            } else {
                Some(Source {
                    table: s.table,
                    keys,
                    downs,
                })
            }
        }
    }
}

fn source_after<'a>(x: &Name, s: &'a Stmt, o: Option<Source<'a>>) -> Option<Source<'a>>
    ensures { option_map source_in_code result ≡ specs.source_after x.now (statement s.now) (option_map source_in_code o.entry) }
{
    match &s.node {
        StmtNode::Declare { ty: _, name, value } => {
            if same_name(name, x) {
                fetched(value)
            } else {
                o
            }
        }
        StmtNode::Assign { name, value } => {
            if same_name(name, x) {
                fetched(value)
            } else {
                o
            }
        }
        StmtNode::Sort { name, keys, down } => {
            if same_name(name, x) {
                sorted_by(keys.as_slice(), down.as_slice(), o)
            } else {
                o
            }
        }
        _ => o,
    }
}

fn source_past<'a>(x: &Name, run: &'a [Stmt]) -> Option<Source<'a>>
    ensures { option_map source_in_code result ≡ specs.source_past x.now None (statements run.now) }
{
    let mut o = None;
    for s in run {
        o = source_after(x, s, o);
    }
    o
}

fn source_of<'a>(run: &'a [Stmt], e: &'a Expr) -> Option<Source<'a>>
    ensures { option_map source_in_code result ≡ specs.source_of (statements run.now) (expression e.now) }
{
    match &e.node {
        ExprNode::Fetch(_) => fetched(e),
        ExprNode::Var(x) => source_past(x, run),
        _ => None,
    }
}

fn source_counted<'a>(run: &'a [Stmt], k: Option<Counting<'a>>) -> Option<Source<'a>>
    ensures { option_map source_in_code result ≡ specs.source_counted (statements run.now) (option_map counting_in_code k.entry) }
{
    match k {
        None => None,
        Some(k) => source_past(k.list, run),
    }
}

/// Where the list of a loop comes from.
#[tactic(auto, using(java_ast::proofs::Nodes::nodes))]
pub fn source_in<'a>(run: &'a [Stmt], s: &'a Stmt) -> Option<Source<'a>>
    ensures { option_map source_in_code result ≡ specs.source_in (statements run.now) (statement s.now) }
{
    match &s.node {
        StmtNode::ForEach {
            ty: _,
            name: _,
            list,
            body: _,
        } => source_of(run, list),
        StmtNode::While { .. } => source_counted(run, counting_in(s)),
        _ => None,
    }
}

/// Whether a list is known and sorted.
pub fn is_sorted_source(s: Option<Source>) -> bool
    ensures { result ≡ specs.is_sorted_source (option_map source_in_code s.entry) }
{
    match s {
        None => false,
        Some(s) => is_sorted(s),
    }
}
