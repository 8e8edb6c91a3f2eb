//! How a best value moves.
ghost use Rattle.std.specs.Prelude.{◌≡◌, ◌++◌, ◌∷◌, [], ◌&&◌, OnOk, IfOk, option_copied, map, not, nat_eq};
ghost use Rattle.std.specs.List.{filter};
ghost use Rattle.std.specs.Option.{option_map};
ghost use Rattle.java_ast.specs.Reading.{expression};
ghost use Rattle.loop_text.specs.Kernel.KernelForms as specs;
ghost use Rattle.loop_text.specs.Sites.Reading.{column_in_code, found_in_code, round_of, site_of};
ghost use Rattle.loop_text.specs.Sites.Sites as sites;

use crate::loops::counting::{is_and, is_variable};
use crate::sites::bindings::{RowColumn, row_column_at, same_row_column};
use crate::sites::list::{Round, Sites};
use crate::statements::names::mentions;
use crate::updates::targets::some_other;
use java_ast::{Expr, ExprNode, Op};
use qbs_base::{Items, Name, NoMemory};
use std::alloc::Global;
use tor_terms::Way;

/// A conjunct of the condition of an `if`, by the number of the `if` among the sites: what is claimed to
/// hold, or to fail.
#[derive(Clone, Copy)]
pub struct Found<'a> {
    pub number: usize,
    pub condition: &'a Expr,
    pub holds: bool,
}

/// Whether an operator is `||`.
pub fn is_or(op: Op) -> bool
    ensures { result ≡ specs.is_or op }
{
    match op {
        Op::Or => true,
        _ => false,
    }
}

/// Whether an operator joins what has to hold, where the whole is claimed to hold or to fail.
pub fn is_joined(op: Op, holds: bool) -> bool
    ensures { result ≡ specs.is_joined op holds }
{
    if holds { is_and(op) } else { is_or(op) }
}

#[tactic(auto, using(crate::proofs::Trees::Claimed::claimed))]
fn push_claim<'a>(
    m: &Name,
    number: usize,
    holds: bool,
    e: &'a Expr,
    found: &mut Items<Found<'a>>,
) -> Result<(), NoMemory>
    ensures { OnOk result (
        map found_in_code found.new
        ≡ map found_in_code found.old ++ specs.found_at number (filter (specs.mentions m.now) (specs.claim (expression e.now) holds ∷ []))) }
{
    if !mentions(e, m) {
        return Ok(());
    }
    found.push(Found {
        number,
        condition: e,
        holds,
    })
}

// Appends the conjuncts that mention a variable.
#[tactic(auto, using(crate::proofs::Trees::Claimed::claimed, java_ast::proofs::Nodes::nodes))]
fn push_claims<'a>(
    m: &Name,
    number: usize,
    holds: bool,
    e: &'a Expr,
    found: &mut Items<Found<'a>>,
) -> Result<(), NoMemory>
    ensures { OnOk result (
        map found_in_code found.new
        ≡ map found_in_code found.old ++ specs.found_at number (filter (specs.mentions m.now) (specs.claims holds (expression e.now)))) }
{
    match &e.node {
        ExprNode::Binary(op, a, b) => {
            if is_joined(*op, holds) {
                push_claims(m, number, holds, a, found)?;
                push_claims(m, number, holds, b, found)
            } else {
                push_claim(m, number, holds, e, found)
            }
        }
        ExprNode::Not(a) => push_claims(m, number, !holds, a, found),
        _ => push_claim(m, number, holds, e, found),
    }
}

/// The conjuncts that mention a variable, of the conditions round a place inside its innermost loop.
#[tactic(auto, using(crate::proofs::Trees::Claimed::claimed))]
pub fn best_claims<'a>(alloc: Global, m: &Name, r: &Round<'a>) -> Result<Items<Found<'a>>, NoMemory>
    ensures { IfOk result (λ found. map found_in_code found ≡ specs.best_claims m.now (round_of r.now)) }
{
    let mut found = Items::new(alloc);
    for t in r.tests.as_slice() {
        if t.level == r.loops.len() {
            push_claims(m, t.number, t.holds, t.condition, &mut found)?;
        }
    }
    Ok(found)
}

fn turned(way: Way) -> Way
    ensures { result ≡ specs.turned way }
{
    match way {
        Way::Max => Way::Min,
        Way::Min => Way::Max,
    }
}

fn way_of(op: Op) -> Option<Way>
    ensures { result ≡ specs.way_of op }
{
    match op {
        Op::Lt => Some(Way::Max),
        Op::Le => Some(Way::Max),
        Op::Gt => Some(Way::Min),
        Op::Ge => Some(Way::Min),
        _ => None,
    }
}

fn turned_where(turns: bool, way: Option<Way>) -> Option<Way>
    ensures { result ≡ specs.turned_where turns way }
{
    match way {
        None => None,
        Some(way) => { if turns { Some(turned(way)) } else { Some(way) } }
    }
}

fn way_between(
    all: &Sites,
    n: usize,
    m: &Name,
    c: RowColumn,
    op: Op,
    a: &Expr,
    b: &Expr,
) -> Option<Way>
    ensures { result ≡ specs.way_between (map site_of all.now) n m.now (column_in_code c.entry) op (expression a.now) (expression b.now) }
{
    if is_variable(m, a) && same_row_column(row_column_at(all, n, b), Some(c)) {
        way_of(op)
    } else if is_variable(m, b) && same_row_column(row_column_at(all, n, a), Some(c)) {
        turned_where(true, way_of(op))
    } else {
        None
    }
}

fn way_in(all: &Sites, n: usize, m: &Name, c: RowColumn, e: &Expr) -> Option<Way>
    ensures { result ≡ specs.way_in (map site_of all.now) n m.now (column_in_code c.entry) (expression e.now) }
{
    match &e.node {
        ExprNode::Binary(op, a, b) => way_between(all, n, m, c, *op, a, b),
        _ => None,
    }
}

fn way_found(all: &Sites, m: &Name, c: RowColumn, f: &Found) -> Option<Way>
    ensures { result ≡ specs.way_found (map site_of all.now) m.now (column_in_code c.entry) (found_in_code f.now) }
{
    turned_where(!f.holds, way_in(all, f.number, m, c, f.condition))
}

// The only one, where there is exactly one.
fn only<'f, 'a>(found: &'f [Found<'a>]) -> Option<&'f Found<'a>>
    ensures { option_map found_in_code (option_copied result) ≡ specs.only_found (map found_in_code found.now) }
{
    match found.split_first() {
        None => None,
        Some((f, rest)) => { if rest.is_empty() { Some(f) } else { None } }
    }
}

/// The way in which the update moves m, where exactly one conjunct mentions m and compares it with the
/// column.
pub fn best_way(all: &Sites, m: &Name, c: RowColumn, found: &[Found]) -> Option<Way>
    ensures { result ≡ specs.only_way (map site_of all.now) m.now (column_in_code c.entry) (map found_in_code found.now) }
{
    match only(found) {
        None => None,
        Some(f) => way_found(all, m, c, f),
    }
}

// An update stands in a branch of this `if`, or further down in one, and isn't the site n.
fn has_update_under(all: &Sites, n: usize, number: usize) -> bool
    ensures { result ≡ sites.any_site (λ i s. sites.is_update s.statement && (not (nat_eq i n) && sites.is_under number s)) 0 (map site_of all.now) }
{
    some_other(all.updates_under(number), n)
}

/// Whether another update stands in a branch of the `if` of that conjunct.
pub fn has_other_update(all: &Sites, n: usize, found: &[Found]) -> bool
    ensures { result ≡ specs.has_other_update (map site_of all.now) n (map found_in_code found.now) }
{
    match only(found) {
        None => false,
        Some(f) => has_update_under(all, n, f.number),
    }
}
