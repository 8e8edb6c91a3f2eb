//! The leaves of conditions, and the conjuncts of best values among them.
ghost use Rattle.std.specs.Prelude.{◌≡◌, ◌++◌, true, OnOk, option_copied, map, nat_eq, length};
ghost use Rattle.std.specs.List.{filter, list_any};
ghost use Rattle.std.specs.Option.{option_map};
ghost use Rattle.java_ast.specs.Reading.{expression, expressions, statement};
ghost use Rattle.loop_text.specs.Sites.Indexed.{takes_at};
ghost use Rattle.loop_text.specs.Kernel.KernelConditions as specs;
ghost use Rattle.java_ast.specs.Names.{is_among, names_in, names_among};
ghost use Rattle.loop_text.specs.Sites.Reading.{exprs_lent, form_in_code, round_of, site_of, test_of};
ghost use Rattle.loop_text.specs.Sites.Sites as sites;

use crate::loops::counting::is_and;
use crate::sites::list::{Round, Sites};
use crate::updates::best::is_or;
use crate::updates::forms::{Form, form_of};
use java_ast::{Expr, ExprNode, Op};
use qbs_base::{Items, Name, NoMemory};

/// Appends the parts of a condition that aren't built by `&&`, `||` and `!`, in text order.
#[tactic(auto, using(crate::proofs::Trees::Claimed::lent, java_ast::proofs::Nodes::nodes))]
pub fn push_leaves<'a>(e: &'a Expr, found: &mut Items<&'a Expr>) -> Result<(), NoMemory>
    ensures { OnOk result (exprs_lent found.new ≡ exprs_lent found.old ++ specs.leaves (expression e.now)) }
{
    match &e.node {
        ExprNode::Binary(op, a, b) => {
            if is_and(*op) || is_or(*op) {
                push_leaves(a, found)?;
                push_leaves(b, found)
            } else {
                found.push(e)
            }
        }
        ExprNode::Not(a) => push_leaves(a, found),
        _ => found.push(e),
    }
}

fn is_taking(form: Form) -> bool
    ensures { result ≡ specs.is_taking (form_in_code form.entry) }
{
    match form {
        Form::Takes(_) => true,
        _ => false,
    }
}

// An `if` stands round a place inside its innermost loop.
fn is_inner_test(number: usize, r: &Round) -> bool
    ensures { result ≡ list_any (λ (t : sites.Test). nat_eq number t.number) (sites.inner_tests (round_of r.now)) }
{
    for t in r.tests.as_slice() {
        if t.level == r.loops.len() && number == t.number {
            return true;
        }
    }
    false
}

// The site takes a best value, and this `if` stands round it inside its innermost loop.
#[tactic(auto, using(crate::proofs::Trees::Rounds::rounds))]
fn takes_under(all: &Sites, number: usize, n: usize) -> bool
    ensures { result ≡ takes_at (map site_of all.now) number n }
{
    match all.as_slice().get(n) {
        None => false,
        Some(s) => is_inner_test(number, &s.round) && is_taking(form_of(all, n, s.statement)),
    }
}

fn some_takes_under(all: &Sites, number: usize, updates: &[usize]) -> bool
    ensures { result ≡ list_any (takes_at (map site_of all.now) number) updates.now }
{
    for n in updates {
        if takes_under(all, number, *n) {
            return true;
        }
    }
    false
}

// A variable is set by `m = x.f` where this `if` stands round that inside its innermost loop.
fn is_best(all: &Sites, number: usize, m: &Name) -> bool
    ensures { result ≡ is_among (specs.all_best_under (map site_of all.now) number 0 (map site_of all.now)) m.now }
{
    some_takes_under(all, number, all.updates(m))
}

// An expression mentions such a variable.
#[cycle(best)]
#[tactic(auto, using(crate::proofs::Indexed::IndexedBest::best, java_ast::proofs::Nodes::nodes))]
fn mentions_best(all: &Sites, number: usize, e: &Expr) -> bool
    ensures { result ≡ list_any (is_among (specs.all_best_under (map site_of all.now) number 0 (map site_of all.now))) (names_in (expression e.now)) }
{
    match &e.node {
        ExprNode::Lit(_) => false,
        ExprNode::Var(x) => is_best(all, number, x),
        ExprNode::Field(row, _) => mentions_best(all, number, row),
        ExprNode::Binary(_, a, b) => mentions_best(all, number, a) || mentions_best(all, number, b),
        ExprNode::Not(a) => mentions_best(all, number, a),
        ExprNode::Equals(a, b) => mentions_best(all, number, a) || mentions_best(all, number, b),
        ExprNode::Size(x) => is_best(all, number, x),
        ExprNode::Get(x, a) => is_best(all, number, x) || mentions_best(all, number, a),
        ExprNode::Contains(x, a) => is_best(all, number, x) || mentions_best(all, number, a),
        ExprNode::Fetch(_) => false,
        ExprNode::Query(_, _, args) => some_mentions_best(all, number, args),
        ExprNode::QueryLong(_, args) => some_mentions_best(all, number, args),
        ExprNode::QueryBoolean(_, args) => some_mentions_best(all, number, args),
        ExprNode::NewList => false,
        ExprNode::NewSet(None) => false,
        ExprNode::NewSet(Some(a)) => mentions_best(all, number, a),
    }
}

#[cycle(best)]
#[tactic(auto, using(crate::proofs::Indexed::IndexedBest::best))]
fn some_mentions_best(all: &Sites, number: usize, es: &[Expr]) -> bool
    ensures { result ≡ list_any (is_among (specs.all_best_under (map site_of all.now) number 0 (map site_of all.now))) (names_among (expressions es.now)) }
{
    for e in es {
        if mentions_best(all, number, e) {
            return true;
        }
    }
    false
}

fn is_comparing(op: Op) -> bool
    ensures { result ≡ specs.is_comparing op }
{
    match op {
        Op::Lt => true,
        Op::Le => true,
        Op::Gt => true,
        Op::Ge => true,
        _ => false,
    }
}

/// Whether an operator compares.
pub fn is_compared(op: Op) -> bool
    ensures { result ≡ specs.is_compared op }
{
    match op {
        Op::Eq => true,
        Op::Ne => true,
        _ => is_comparing(op),
    }
}

fn compares(e: &Expr) -> bool
    ensures { result ≡ specs.compares (expression e.now) }
{
    match &e.node {
        ExprNode::Binary(op, _, _) => is_comparing(*op),
        _ => false,
    }
}

/// Whether a leaf of the `if` with this number is the conjunct that a best value is compared by.
#[tactic(auto, using(crate::proofs::Indexed::IndexedBest::names_turned))]
pub fn is_excepted(all: &Sites, number: usize, e: &Expr) -> bool
    ensures { result ≡ specs.is_excepted (map site_of all.now) number (expression e.now) }
{
    compares(e) && mentions_best(all, number, e)
}
