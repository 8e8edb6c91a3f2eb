//! What names are bound to at the sites of a loop.
ghost use Rattle.std.specs.Prelude.{◌≡◌, option_copied, map};
ghost use Rattle.std.specs.Option.{option_map};
ghost use Rattle.java_ast.specs.Reading.{expression, statement};
ghost use Rattle.loop_text.specs.Statements.Fragment as fragment;
ghost use Rattle.loop_text.specs.Sites.Reading.{column_in_code, site_of};
ghost use Rattle.loop_text.specs.Sites.Sites as specs;

use crate::sites::binders::last_below;
use crate::sites::list::{Site, Sites};
use crate::statements::names::same_name;
use java_ast::{Expr, ExprNode, Stmt, StmtNode};
use qbs_base::Name;

/// The row of the loop with this number, the local variable that is declared at this number, or a
/// variable from outside of the loop.
#[derive(Clone, Copy)]
pub enum Binding {
    Row(usize),
    Local(usize),
    Outer,
}

/// A column of a loop's row.
#[derive(Clone, Copy)]
pub struct RowColumn<'a> {
    pub looped: usize,
    pub column: &'a Name,
}

/// The variable that a statement declares.
pub fn declared_name(s: &Stmt) -> Option<&Name>
    ensures { option_copied result ≡ specs.declared_name (statement s.now) }
{
    match &s.node {
        StmtNode::Declare {
            ty: _,
            name,
            value: _,
        } => Some(name),
        _ => None,
    }
}

/// Whether a name is this one.
pub fn is_name(o: Option<&Name>, x: &Name) -> bool
    ensures { result ≡ fragment.is_name (option_copied o.entry) x.now }
{
    match o {
        None => false,
        Some(y) => same_name(x, y),
    }
}

/// What a name is bound to at a site.
pub fn binding_at(sites: &Sites, n: usize, x: &Name) -> Binding
    ensures { result ≡ specs.binding_at (map site_of sites.now) n x.now }
{
    last_below(n, Binding::Outer, sites.bindings(x))
}

/// Whether two names are bound alike.
pub fn same_binding(a: Binding, b: Binding) -> bool
    ensures { result ≡ specs.same_binding a b }
{
    match (a, b) {
        (Binding::Row(n), Binding::Row(m)) => n == m,
        (Binding::Local(n), Binding::Local(m)) => n == m,
        (Binding::Outer, Binding::Outer) => true,
        _ => false,
    }
}

fn row_bound(b: Binding) -> Option<usize>
    ensures { result ≡ specs.row_bound b }
{
    match b {
        Binding::Row(n) => Some(n),
        _ => None,
    }
}

/// The loop whose row an expression is.
pub fn row_at(sites: &Sites, n: usize, e: &Expr) -> Option<usize>
    ensures { result ≡ specs.row_at (map site_of sites.now) n (expression e.now) }
{
    match &e.node {
        ExprNode::Var(x) => row_bound(binding_at(sites, n, x)),
        _ => None,
    }
}

fn column_of_row(f: &Name, looped: Option<usize>) -> Option<RowColumn<'_>>
    ensures { option_map column_in_code result ≡ specs.column_of_row f.now looped }
{
    match looped {
        None => None,
        Some(looped) => Some(RowColumn { looped, column: f }),
    }
}

/// The column of a loop's row that an expression is.
pub fn row_column_at<'e>(sites: &Sites, n: usize, e: &'e Expr) -> Option<RowColumn<'e>>
    ensures { option_map column_in_code result ≡ specs.row_column_at (map site_of sites.now) n (expression e.now) }
{
    match &e.node {
        ExprNode::Field(row, f) => column_of_row(f, row_at(sites, n, row)),
        _ => None,
    }
}

/// Whether both are one column.
pub fn same_row_column(a: Option<RowColumn>, b: Option<RowColumn>) -> bool
    ensures { result ≡ specs.same_row_column (option_map column_in_code a.entry) (option_map column_in_code b.entry) }
{
    match (a, b) {
        (Some(a), Some(b)) => a.looped == b.looped && same_name(a.column, b.column),
        _ => false,
    }
}
