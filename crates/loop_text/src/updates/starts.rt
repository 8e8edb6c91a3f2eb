//! What accumulators and flags start with.
ghost use Rattle.std.specs.Prelude.{◌≡◌, ◌&&◌, IfOk, not, option_copied, map, slice_get};
ghost use Rattle.std.specs.List.{filter, list_any};
ghost use Rattle.std.specs.Option.{option_map};
ghost use Rattle.qbs_base.specs.Scalar.{scalar_same};
ghost use Rattle.qbs_base.specs.declared.scalar.Scalar.TheVariants as scalars;
ghost use Rattle.java_ast.specs.Reading.{expression, statement, statements};
ghost use Rattle.loop_text.specs.Sites.Indexed.{form_there, form_of_first as of_first};
ghost use Rattle.loop_text.specs.Kernel.KernelStarts as specs;
ghost use Rattle.loop_text.specs.Sites.Reading.{form_in_code, site_of};
ghost use Rattle.java_ast.specs.Names.{names_lent};
ghost use Rattle.loop_text.specs.Statements.Setting as setting;
ghost use Rattle.loop_text.specs.Sites.Sites as sites;

use crate::loops::counting::is_literal_zero;
use crate::sites::list::{Site, Sites, place_where};
use crate::statements::names::touches;
use crate::statements::runs::{behind_number, first_touching, given_by};
use crate::updates::forms::{Form, form_of};
use crate::updates::targets::is_none;
use java_ast::{Expr, ExprNode, Stmt, StmtNode};
use qbs_base::{Items, Name, NoMemory, Scalar, Span};
use std::alloc::Global;

#[tactic(auto, using(crate::proofs::Trees::Rounds::rounds))]
fn form_at<'a>(all: &Sites<'a>, n: usize) -> Form<'a>
    ensures { form_in_code result ≡ form_there (map site_of all.now) n (slice_get (map site_of all.now) n) }
{
    match all.as_slice().get(n) {
        None => Form::Other,
        Some(s) => form_of(all, n, s.statement),
    }
}

fn form_of_first<'a>(all: &Sites<'a>, updates: &[usize]) -> Form<'a>
    ensures { form_in_code result ≡ of_first (map site_of all.now) updates.now }
{
    match updates.split_first() {
        None => Form::Other,
        Some((n, _)) => form_at(all, *n),
    }
}

/// The form of the update of an accumulator.
pub fn form_of_name<'a>(all: &Sites<'a>, x: &Name) -> Form<'a>
    ensures { form_in_code result ≡ specs.form_found (map site_of all.now) (specs.update_of (map site_of all.now) x.now) }
{
    form_of_first(all, all.updates(x))
}

/// The form of the update of the flag that is declared at this number.
pub fn form_of_flag<'a>(all: &Sites<'a>, d: usize) -> Form<'a>
    ensures { form_in_code result ≡ specs.form_found (map site_of all.now) (specs.update_of_flag (map site_of all.now) d) }
{
    form_of_first(all, all.flag_updates(d))
}

fn is_empty_collection(e: &Expr) -> bool
    ensures { result ≡ specs.is_empty_collection (expression e.now) }
{
    match &e.node {
        ExprNode::NewList => true,
        ExprNode::NewSet(None) => true,
        _ => false,
    }
}

fn is_long(value: &Scalar) -> bool
    ensures { result ≡ specs.is_long value.now }
{
    match value {
        Scalar::Long(_) => true,
        _ => false,
    }
}

fn is_integer(e: &Expr) -> bool
    ensures { result ≡ specs.is_integer (expression e.now) }
{
    match &e.node {
        ExprNode::Lit(value) => is_long(value),
        _ => false,
    }
}

fn is_bool(b: bool, value: &Scalar) -> bool
    ensures { result ≡ scalar_same value.now (scalars.Bool b) }
{
    match value {
        Scalar::Bool(c) => *c == b,
        _ => false,
    }
}

/// Whether an expression is this truth value.
pub fn is_truth_of(b: bool, e: &Expr) -> bool
    ensures { result ≡ specs.is_truth_of b (expression e.now) }
{
    match &e.node {
        ExprNode::Lit(value) => is_bool(b, value),
        _ => false,
    }
}

fn may_start(form: Form, e: &Expr) -> bool
    ensures { result ≡ specs.may_start (form_in_code form.entry) (expression e.now) }
{
    match form {
        Form::Adds(_) => is_empty_collection(e),
        Form::Counts => is_literal_zero(e),
        Form::Sums(_) => is_literal_zero(e),
        Form::Takes(_) => is_integer(e),
        Form::Marks(b) => is_truth_of(!b, e),
        Form::Other => false,
    }
}

fn may_start_so(form: Form, e: Option<&Expr>) -> bool
    ensures { result ≡ specs.may_start_so (form_in_code form.entry) (option_map expression (option_copied e.entry)) }
{
    match e {
        None => false,
        Some(e) => may_start(form, e),
    }
}

fn is_touched(x: &Name, run: &[Stmt]) -> bool
    ensures { result ≡ setting.is_found (setting.first_touching x.now (statements run.now)) }
{
    match first_touching(x, run) {
        None => false,
        Some(_) => true,
    }
}

// A statement of a run starts an accumulator: nothing behind it mentions that.
fn starts(all: &Sites, s: &Stmt, behind: &[Stmt], x: &Name) -> bool
    ensures { result ≡ specs.starts (map site_of all.now) (statement s.now) (statements behind.now) x.now }
{
    may_start_so(form_of_name(all, x), given_by(x, s)) && !is_touched(x, behind)
}

// A statement mentions one of these accumulators and doesn't start it.
fn spoils_one(all: &Sites, s: &Stmt, behind: &[Stmt], xs: &[&Name]) -> bool
    ensures { result
        ≡ list_any (λ x. setting.touches x (statement s.now) && not (specs.starts (map site_of all.now) (statement s.now) (statements behind.now) x)) (names_lent xs.now) }
{
    for x in xs {
        if touches(s, x) && !starts(all, s, behind, x) {
            return true;
        }
    }
    false
}

// The names that a statement doesn't mention.
#[tactic(auto, using(crate::proofs::Trees::Kept::kept))]
fn untouched<'a>(alloc: Global, s: &Stmt, xs: &[&'a Name]) -> Result<Items<&'a Name>, NoMemory>
    ensures { IfOk result (λ r. names_lent r ≡ filter (λ x. not (setting.touches x (statement s.now))) (names_lent xs.now)) }
{
    let mut left = Items::new(alloc);
    for x in xs {
        if !touches(s, x) {
            left.push(*x)?;
        }
    }
    Ok(left)
}

/// The first place where an accumulator has another start than its updates want.
#[tactic(auto, using(crate::proofs::Trees::Rounds::rounds))]
pub fn broken_starts_of(
    alloc: Global,
    all: &Sites,
    at: Span,
    accs: &[&Name],
    run: &[Stmt],
) -> Result<Option<Span>, NoMemory>
    ensures { IfOk result (λ o. o ≡ specs.broken_starts_of (map site_of all.now) at (names_lent accs.now) (statements run.now)) }
{
    let mut left = Items::from_vec(accs.to_vec(alloc)?);
    for (i, s) in run.iter().enumerate() {
        let behind = behind_number(run, i);
        if spoils_one(all, s, behind, left.as_slice()) {
            return Ok(Some(s.span));
        }
        left = untouched(alloc, s, left.as_slice())?;
    }
    Ok(place_where(!is_none(left.as_slice()), at))
}

#[tactic(auto, using(java_ast::proofs::Nodes::nodes))]
fn starts_flag(all: &Sites, d: usize, s: &Stmt) -> bool
    ensures { result ≡ specs.starts_flag (map site_of all.now) d (statement s.now) }
{
    match &s.node {
        StmtNode::Declare {
            ty: _,
            name: _,
            value,
        } => may_start(form_of_flag(all, d), value),
        _ => true,
    }
}

#[tactic(auto, using(crate::proofs::Trees::Rounds::rounds))]
fn broken_flag_start(all: &Sites, d: usize, s: &Site) -> Option<Span>
    ensures { result ≡ specs.broken_flag_start (map site_of all.now) d (site_of s.now) }
{
    place_where(!starts_flag(all, d, s.statement), s.statement.span)
}

/// The place of the first flag that has another start than its updates want.
pub fn first_flag_start(all: &Sites) -> Option<Span>
    ensures { result ≡ sites.first_broken (specs.broken_flag_start (map site_of all.now)) 0 (map site_of all.now) }
{
    for (d, s) in all.as_slice().iter().enumerate() {
        if let Some(at) = broken_flag_start(all, d, s) {
            return Some(at);
        }
    }
    None
}
