//! The forms of updates.
ghost use Rattle.std.specs.Prelude.{◌≡◌, option_copied, map, if◌then◌else◌};
ghost use Rattle.std.specs.Option.{option_map};
ghost use Rattle.java_ast.specs.Reading.{expression, statement};
ghost use Rattle.loop_text.specs.Kernel.KernelForms as specs;
ghost use Rattle.loop_text.specs.Sites.Reading.{form_in_code, column_in_code, site_of};
ghost use Rattle.loop_text.specs.Statements.Setting as setting;
ghost use Rattle.loop_text.specs.Sites.Sites as sites;

use crate::loops::counting::{is_add, is_literal_one, is_variable};
use crate::sites::bindings::{RowColumn, row_at, row_column_at};
use crate::sites::list::Sites;
use java_ast::{Expr, ExprNode, Stmt, StmtNode};
use qbs_base::{Name, Scalar};

/// What is taken of rows: the row of a loop, or a column of it.
#[derive(Clone, Copy)]
pub enum Taken<'a> {
    Whole(usize),
    Column(RowColumn<'a>),
}

/// The form of an update: `add`, `n = n + 1`, `s = s + x.f`, `m = x.f`, `b = true` or `b = false`, and
/// anything else.
#[derive(Clone, Copy)]
pub enum Form<'a> {
    Adds(Taken<'a>),
    Counts,
    Sums(RowColumn<'a>),
    Takes(RowColumn<'a>),
    Marks(bool),
    Other,
}

fn adds_row<'a>(row: Option<usize>) -> Form<'a>
    ensures { form_in_code result ≡ specs.adds_row row }
{
    match row {
        Some(j) => Form::Adds(Taken::Whole(j)),
        None => Form::Other,
    }
}

fn adds_taken<'a>(row: Option<usize>, column: Option<RowColumn<'a>>) -> Form<'a>
    ensures { form_in_code result ≡ specs.adds_taken row (option_map column_in_code column.entry) }
{
    match column {
        Some(c) => Form::Adds(Taken::Column(c)),
        None => adds_row(row),
    }
}

fn sums_column<'a>(column: Option<RowColumn<'a>>) -> Form<'a>
    ensures { form_in_code result ≡ specs.sums_column (option_map column_in_code column.entry) }
{
    match column {
        Some(c) => Form::Sums(c),
        None => Form::Other,
    }
}

fn takes_column<'a>(column: Option<RowColumn<'a>>) -> Form<'a>
    ensures { form_in_code result ≡ specs.takes_column (option_map column_in_code column.entry) }
{
    match column {
        Some(c) => Form::Takes(c),
        None => Form::Other,
    }
}

fn literal_form<'a>(value: &Scalar) -> Form<'a>
    ensures { form_in_code result ≡ specs.literal_form value.now }
{
    match value {
        Scalar::Bool(b) => Form::Marks(*b),
        _ => Form::Other,
    }
}

// What is added to a variable: 1, or a column.
fn added_form<'a>(all: &Sites, n: usize, e: &'a Expr) -> Form<'a>
    ensures { form_in_code result
        ≡ (if setting.is_literal_number 1 (expression e.now) then specs.counts else specs.sums_column (sites.row_column_at (map site_of all.now) n (expression e.now))) }
{
    if is_literal_one(e) {
        Form::Counts
    } else {
        sums_column(row_column_at(all, n, e))
    }
}

// A sum with the variable on either side.
fn sum_form<'a>(all: &Sites, n: usize, x: &Name, a: &'a Expr, b: &'a Expr) -> Form<'a>
    ensures { form_in_code result ≡ specs.sum_form (map site_of all.now) n x.now (expression a.now) (expression b.now) }
{
    if is_variable(x, a) {
        added_form(all, n, b)
    } else if is_variable(x, b) {
        added_form(all, n, a)
    } else {
        Form::Other
    }
}

fn assigned_form<'a>(all: &Sites, n: usize, x: &Name, e: &'a Expr) -> Form<'a>
    ensures { form_in_code result ≡ specs.assigned_form (map site_of all.now) n x.now (expression e.now) }
{
    match &e.node {
        ExprNode::Lit(value) => literal_form(value),
        ExprNode::Field(_, _) => takes_column(row_column_at(all, n, e)),
        ExprNode::Binary(op, a, b) => {
            if is_add(*op) {
                sum_form(all, n, x, a, b)
            } else {
                Form::Other
            }
        }
        _ => Form::Other,
    }
}

/// The form of a statement that stands at this number.
#[tactic(auto, using(java_ast::proofs::Nodes::nodes))]
pub fn form_of<'a>(all: &Sites, n: usize, s: &'a Stmt) -> Form<'a>
    ensures { form_in_code result ≡ specs.form_of (map site_of all.now) n (statement s.now) }
{
    match &s.node {
        StmtNode::Assign { name, value } => assigned_form(all, n, name, value),
        StmtNode::Add { name: _, value } => {
            adds_taken(row_at(all, n, value), row_column_at(all, n, value))
        }
        _ => Form::Other,
    }
}
