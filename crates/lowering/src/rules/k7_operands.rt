// Entry values.
ghost use Rattle.std.specs.Prelude.{◌≡◌};
ghost use Rattle.java_ast.specs.Reading.{expression, expressions};
ghost use Rattle.java_loops.specs.Kernel.KernelConditions as specs;
ghost use Rattle.lowering.specs.InCode.Reading.{setting_in_code};

use java_ast::{Expr, ExprNode};
use java_mean::{JavaType, Single};
use loop_setting::places::setting::Setting;
use loop_text::conditions::operands::{is_literal, is_outer, is_row_column, updates};
use loop_text::sites::bindings::binding_at;
use qbs_base::Name;

fn is_scalar_type(k: Option<JavaType>) -> bool
    ensures { result ≡ specs.is_scalar_type k }
{
    match k {
        Some(JavaType::Of(Single::ScalarOf(_))) => true,
        _ => false,
    }
}

fn is_row_type(k: Option<JavaType>) -> bool
    ensures { result ≡ specs.is_row_type k }
{
    match k {
        Some(JavaType::Of(Single::RowOf(_))) => true,
        _ => false,
    }
}

// A variable from outside of the loop that the loop doesn't set.
fn is_steady(w: &Setting, n: usize, x: &Name) -> bool
    ensures { result ≡ specs.is_steady (setting_in_code w.now) n x.now }
{
    is_outer(binding_at(w.sites, n, x)) && !updates(w.fragment.looped, x)
}

fn is_entry_row(w: &Setting, n: usize, e: &Expr) -> bool
    ensures { result ≡ specs.is_entry_row (setting_in_code w.now) n (expression e.now) }
{
    match &e.node {
        ExprNode::Var(x) => is_row_type(w.fragment.types.type_of(x)) && is_steady(w, n, x),
        _ => false,
    }
}

/// Whether an expression is an entry value: a scalar variable, or a field of a row variable, from outside of
/// the loop and not set in it.
pub fn is_entry(w: &Setting, n: usize, e: &Expr) -> bool
    ensures { result ≡ specs.is_entry (setting_in_code w.now) n (expression e.now) }
{
    match &e.node {
        ExprNode::Var(x) => is_scalar_type(w.fragment.types.type_of(x)) && is_steady(w, n, x),
        ExprNode::Field(row, _) => is_entry_row(w, n, row),
        _ => false,
    }
}

/// Whether an expression may be compared: a field of a loop variable, a literal or an entry value.
pub fn is_operand(w: &Setting, n: usize, e: &Expr) -> bool
    ensures { result ≡ specs.is_operand (setting_in_code w.now) n (expression e.now) }
{
    is_row_column(w.sites, n, e) || (is_literal(e) || is_entry(w, n, e))
}

/// Whether expressions are entry values.
pub fn are_entries(w: &Setting, n: usize, es: &[Expr]) -> bool
    ensures { result ≡ specs.are_entries (setting_in_code w.now) n (expressions es.now) }
{
    for e in es {
        if !is_entry(w, n, e) {
            return false;
        }
    }
    true
}
