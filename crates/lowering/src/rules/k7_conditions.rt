// What conditions are built of.
ghost use Rattle.std.specs.Prelude.{◌≡◌, ◌&&◌, IfOk, option_copied};
ghost use Rattle.std.specs.Option.{option_map};
ghost use Rattle.java_ast.specs.Reading.{expression, statement, statements};
ghost use Rattle.java_loops.specs.Kernel.KernelConditions as specs;
ghost use Rattle.loop_text.specs.Sites.Reading.{asked_in_code, exprs_lent, site_of};
ghost use Rattle.lowering.specs.InCode.Reading.{setting_in_code};

use crate::rules::k7_known::{asked_for, is_column_query};
use crate::rules::k7_operands::{are_entries, is_operand};
use java_ast::{Expr, ExprNode, Stmt};
use java_types::query_of;
use loop_setting::places::setting::Setting;
use loop_text::conditions::asked::{Asked, behind_setting, first_setting};
use loop_text::conditions::flags::{condition_of, is_some, reads_flag, sets_some};
use loop_text::conditions::leaves::{is_compared, is_excepted, push_leaves};
use loop_text::conditions::operands::is_row_column;
use loop_text::sites::bindings::binding_at;
use loop_text::sites::list::{Site, place_where};
use loop_text::updates::targets::first_place;
use qbs_base::{Items, Name, NoMemory, Span};
use std::alloc::Global;

#[tactic(auto, using(crate::proofs::Located::Placed::placed))]
fn broken_operand(w: &Setting, n: usize, e: &Expr) -> Option<Span>
    ensures { result ≡ specs.broken_operand (setting_in_code w.now) n (expression e.now) }
{
    place_where(!is_operand(w, n, e), e.span)
}

fn broken_comparison(w: &Setting, n: usize, at: Span, a: &Expr, b: &Expr) -> Option<Span>
    ensures { result ≡ specs.broken_comparison (setting_in_code w.now) n at (expression a.now) (expression b.now) }
{
    let whole = place_where(
        !(is_row_column(w.sites, n, a) || is_row_column(w.sites, n, b)),
        at,
    );
    first_place(
        broken_operand(w, n, a),
        first_place(broken_operand(w, n, b), whole),
    )
}

fn is_known_query(
    alloc: Global,
    w: &Setting,
    n: usize,
    behind: &[Stmt],
    asked: Option<Asked>,
) -> Result<bool, NoMemory>
    ensures { IfOk result (λ b. b ≡ specs.is_known_query (setting_in_code w.now) n (statements behind.now) (option_map asked_in_code asked.entry)) }
{
    match asked {
        None => Ok(false),
        Some(a) => {
            let q = query_of(alloc, w.schema, a.text)?;
            let listed = is_column_query(q.as_deref());
            Ok(listed && (are_entries(w, n, a.arguments) && !sets_some(a.arguments, behind)))
        }
    }
}

// Exactly one statement of the run sets the variable, by such a query of entry values that nothing behind
// it sets.
fn is_known(alloc: Global, w: &Setting, n: usize, ids: &Name) -> Result<bool, NoMemory>
    ensures { IfOk result (λ b. b ≡ specs.is_known (setting_in_code w.now) n ids.now) }
{
    let behind = behind_setting(ids, w.fragment.run);
    let asked = is_known_query(alloc, w, n, behind, asked_for(w.fragment.run, ids))?;
    Ok(!is_some(first_setting(ids, behind)) && asked)
}

// ---- Leaves

// The smallest expression in a leaf that breaks the rule.
#[tactic(auto, using(crate::proofs::Located::Placed::placed, java_ast::proofs::Nodes::nodes))]
fn broken_leaf(alloc: Global, w: &Setting, n: usize, e: &Expr) -> Result<Option<Span>, NoMemory>
    ensures { IfOk result (λ at. at ≡ specs.broken_leaf (setting_in_code w.now) n (expression e.now)) }
{
    match &e.node {
        ExprNode::Binary(op, a, b) => {
            if is_compared(*op) {
                Ok(broken_comparison(w, n, e.span, a, b))
            } else {
                Ok(Some(e.span))
            }
        }
        ExprNode::Equals(a, b) => Ok(broken_comparison(w, n, e.span, a, b)),
        ExprNode::Field(_, _) => Ok(place_where(!is_row_column(w.sites, n, e), e.span)),
        ExprNode::Var(x) => Ok(place_where(
            !reads_flag(w.sites, n, binding_at(w.sites, n, x)),
            e.span,
        )),
        ExprNode::Contains(ids, a) => {
            let known = is_known(alloc, w, n, ids)?;
            Ok(place_where(!(is_row_column(w.sites, n, a) && known), e.span))
        }
        _ => Ok(Some(e.span)),
    }
}

fn broken_unless_excepted(
    alloc: Global,
    w: &Setting,
    n: usize,
    e: &Expr,
) -> Result<Option<Span>, NoMemory>
    ensures { IfOk result (λ at. at ≡ specs.broken_unless_excepted (setting_in_code w.now) n (expression e.now)) }
{
    if is_excepted(w.sites, n, e) {
        return Ok(None);
    }
    broken_leaf(alloc, w, n, e)
}

fn broken_leaves(
    alloc: Global,
    w: &Setting,
    n: usize,
    leaves: &[&Expr],
) -> Result<Option<Span>, NoMemory>
    ensures { IfOk result (λ at. at ≡ specs.broken_leaves (setting_in_code w.now) n (exprs_lent leaves.now)) }
{
    for e in leaves {
        if let Some(at) = broken_unless_excepted(alloc, w, n, e)? {
            return Ok(Some(at));
        }
    }
    Ok(None)
}

fn broken_condition(
    alloc: Global,
    w: &Setting,
    n: usize,
    c: Option<&Expr>,
) -> Result<Option<Span>, NoMemory>
    ensures { IfOk result (λ at. at ≡ specs.broken_condition (setting_in_code w.now) n (option_map expression (option_copied c.entry))) }
{
    match c {
        None => Ok(None),
        Some(c) => {
            let mut leaves = Items::new(alloc);
            push_leaves(c, &mut leaves)?;
            broken_leaves(alloc, w, n, leaves.as_slice())
        }
    }
}

fn broken_condition_at(
    alloc: Global,
    w: &Setting,
    n: usize,
    s: &Site,
) -> Result<Option<Span>, NoMemory>
    ensures { IfOk result (λ at. at ≡ specs.broken_condition_at (setting_in_code w.now) n (site_of s.now)) }
{
    broken_condition(alloc, w, n, condition_of(s.statement))
}

/// K7: the first of the smallest expressions in conditions of which none may be built.
pub fn broken_conditions(alloc: Global, w: &Setting) -> Result<Option<Span>, NoMemory>
    ensures { IfOk result (λ at. at ≡ specs.broken_conditions (setting_in_code w.now)) }
{
    for (n, s) in w.sites.as_slice().iter().enumerate() {
        if let Some(at) = broken_condition_at(alloc, w, n, s)? {
            return Ok(Some(at));
        }
    }
    Ok(None)
}
