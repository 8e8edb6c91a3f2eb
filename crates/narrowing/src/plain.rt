// Which parts of a condition a query can test.
ghost use Rattle.std.specs.Prelude.{◌≡◌};
ghost use Rattle.java_ast.specs.Reading.{expression};
ghost use Rattle.java_mean.specs.Visible.{names_seen};
ghost use Rattle.spreads.specs.Narrowed as specs;

use java_ast::{Expr, ExprNode, Op};
use java_mean::Scope;
use qbs_base::Name;
use spreads::stays;

/// Whether an expression is a column of the row that this variable is.
pub fn is_column(x: &Name, e: &Expr) -> bool
    ensures { result ≡ specs.is_column x.now (expression e.now) }
{
    match &e.node {
        ExprNode::Field(row, _) => match &row.node {
            ExprNode::Var(y) => *x == *y,
            _ => false,
        },
        _ => false,
    }
}

fn are_compared(assigned: &Scope, x: &Name, a: &Expr, b: &Expr) -> bool
    ensures { result ≡ specs.are_compared (names_seen assigned.now) x.now (expression a.now) (expression b.now) }
{
    (is_column(x, a) && (is_column(x, b) || stays(assigned, b)))
        || (is_column(x, b) && stays(assigned, a))
}

/// Whether a query can test a part of a condition on the row that this variable is, where these variables are assigned.
pub fn is_plain(assigned: &Scope, x: &Name, e: &Expr) -> bool
    ensures { result ≡ specs.is_plain (names_seen assigned.now) x.now (expression e.now) }
{
    match &e.node {
        ExprNode::Binary(op, a, b) => match op {
            Op::And | Op::Or => is_plain(assigned, x, a) && is_plain(assigned, x, b),
            Op::Eq | Op::Ne | Op::Lt | Op::Le | Op::Gt | Op::Ge => are_compared(assigned, x, a, b),
            Op::Add | Op::Sub | Op::Mul => false,
        },
        ExprNode::Not(a) => is_plain(assigned, x, a),
        ExprNode::Equals(a, b) => are_compared(assigned, x, a, b),
        _ => is_column(x, e),
    }
}
