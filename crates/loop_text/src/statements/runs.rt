//! The statements of a run.
ghost use Rattle.std.specs.Prelude.{◌≡◌, ◌<◌, ◌+◌, drop, length, option_copied};
ghost use Rattle.std.specs.Option.{option_map};
ghost use Rattle.java_ast.specs.Reading.{expression, statement, statements};
ghost use Rattle.loop_text.specs.Statements.Setting as specs;

use crate::statements::names::{same_name, touches};
use java_ast::{Expr, Stmt, StmtNode};
use qbs_base::Name;

/// The first statement of a run that mentions a variable.
#[tactic(auto, using(crate::proofs::Trees::Touched::touched))]
pub fn first_touching<'a>(x: &Name, run: &'a [Stmt]) -> Option<&'a Stmt>
    ensures { option_map statement (option_copied result) ≡ specs.first_touching x.now (statements run.now) }
{
    for s in run {
        if touches(s, x) {
            return Some(s);
        }
    }
    None
}

/// Whether more than one statement of a run mentions a variable.
#[tactic(auto, using(crate::proofs::Trees::Touched::touched))]
pub fn touched_again(x: &Name, run: &[Stmt]) -> bool
    ensures { result ≡ specs.touched_again x.now (statements run.now) }
{
    let mut seen = false;
    for s in run {
        if touches(s, x) {
            if seen {
                return true;
            }
            seen = true;
        }
    }
    false
}

/// The value that a statement gives to a variable.
pub fn given_by<'a>(x: &Name, s: &'a Stmt) -> Option<&'a Expr>
    ensures { option_map expression (option_copied result) ≡ specs.given_by x.now (statement s.now) }
{
    match &s.node {
        StmtNode::Declare { ty: _, name, value } => {
            if same_name(name, x) {
                Some(value)
            } else {
                None
            }
        }
        StmtNode::Assign { name, value } => {
            if same_name(name, x) {
                Some(value)
            } else {
                None
            }
        }
        _ => None,
    }
}

/// What stands behind the statement with this number.
pub fn behind_number(run: &[Stmt], i: usize) -> &[Stmt]
    requires { i < length run.now }
    ensures { result.now ≡ drop (i + 1) run.now }
{
    &run[i + 1..]
}
