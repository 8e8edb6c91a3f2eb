// What stays as it is in a loop.
ghost use Rattle.std.specs.Prelude.{◌≡◌};
ghost use Rattle.java_ast.specs.Reading.{expression, expressions};
ghost use Rattle.java_mean.specs.Visible.{names_seen};
ghost use Rattle.spreads.specs.Staying as staying;

use java_ast::{Expr, ExprNode};
use java_mean::Scope;

/// Whether a literal, a variable or a field of a row variable stays, where these variables are assigned.
#[tactic(auto, using(java_mean::proofs::Sets::sets))]
pub fn stays(assigned: &Scope, e: &Expr) -> bool
    ensures { result ≡ staying.stays (names_seen assigned.now) (expression e.now) }
{
    match &e.node {
        ExprNode::Lit(_) => true,
        ExprNode::Var(x) => !assigned.has(x),
        ExprNode::Field(row, _) => match &row.node {
            ExprNode::Var(x) => !assigned.has(x),
            _ => false,
        },
        _ => false,
    }
}

pub fn all_stay(assigned: &Scope, es: &[Expr]) -> bool
    ensures { result ≡ staying.all_stay (names_seen assigned.now) (expressions es.now) }
{
    for e in es {
        if !stays(assigned, e) {
            return false;
        }
    }
    true
}
