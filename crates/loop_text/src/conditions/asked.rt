//! Known lists: variables that the run gives the answer of a query.
ghost use Rattle.std.specs.Prelude.{◌≡◌, option_copied};
ghost use Rattle.std.specs.Option.{option_map};
ghost use Rattle.java_ast.specs.Reading.{statement, statements};
ghost use Rattle.loop_text.specs.Kernel.KernelConditions as specs;

use crate::statements::names::sets;
use java_ast::{Expr, Stmt};
use qbs_base::{Name, Text};

/// The text and the arguments of a query.
#[derive(Clone, Copy)]
pub struct Asked<'a> {
    pub text: &'a Text,
    pub arguments: &'a [Expr],
}

/// The first statement of a run that sets a variable.
pub fn first_setting<'a>(x: &Name, run: &'a [Stmt]) -> Option<&'a Stmt>
    ensures { option_map statement (option_copied result) ≡ specs.first_setting x.now (statements run.now) }
{
    for s in run {
        if sets(s, x) {
            return Some(s);
        }
    }
    None
}

/// What stands behind that statement.
pub fn behind_setting<'a>(x: &Name, run: &'a [Stmt]) -> &'a [Stmt]
    ensures { statements result.now ≡ specs.behind_setting x.now (statements run.now) }
{
    for (i, s) in run.iter().enumerate() {
        if sets(s, x) {
            return &run[i + 1..];
        }
    }
    &[]
}
