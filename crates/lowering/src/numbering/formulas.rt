// The formulas of conditions.
ghost use Rattle.std.specs.Prelude.{◌≡◌, IfOk};
ghost use Rattle.std.specs.Option.{option_map};
ghost use Rattle.java_ast.specs.Reading.{expression};
ghost use Rattle.tor_terms.specs.Plain.{form_of};
ghost use Rattle.lowering.specs.InCode.Counted.{numbers_in_code, AreNumbersOf};
ghost use Rattle.java_loops.specs.Lowering.Numbering as specs;
ghost use Rattle.lowering.specs.InCode.Reading.{setting_in_code};
ghost use Rattle.lowering.specs.InCode.Tallied.{AreCountsOf};

use crate::numbering::atoms::{atom_number, reading_of};
use crate::numbering::counts::Counts;
use crate::numbering::numbers::Numbers;
use java_ast::{Expr, ExprNode};
use loop_setting::places::setting::Setting;
use loop_text::conditions::leaves::is_excepted;
use loop_text::loops::counting::is_and;
use loop_text::updates::best::{is_joined, is_or};
use qbs_base::NoMemory;
use std::alloc::Global;
use tor_terms::{Formula, same_flag};

/// Both of two formulas: what is left out of a conjunction leaves the rest.
pub fn both_of(
    alloc: Global,
    f: Option<Formula>,
    g: Option<Formula>,
) -> Result<Option<Formula>, NoMemory>
    ensures { IfOk result (λ o. option_map form_of o ≡ specs.both_of (option_map form_of f) (option_map form_of g)) }
{
    match f {
        None => Ok(g),
        Some(f) => match g {
            None => Ok(Some(f)),
            Some(g) => Ok(Some(Formula::Both(Box::new(alloc, f)?, Box::new(alloc, g)?))),
        },
    }
}

// What is left out of a disjunction leaves nothing.
fn either_of(
    alloc: Global,
    f: Option<Formula>,
    g: Option<Formula>,
) -> Result<Option<Formula>, NoMemory>
    ensures { IfOk result (λ o. option_map form_of o ≡ specs.either_of (option_map form_of f) (option_map form_of g)) }
{
    match f {
        None => Ok(None),
        Some(f) => match g {
            None => Ok(None),
            Some(g) => Ok(Some(Formula::Either(Box::new(alloc, f)?, Box::new(alloc, g)?))),
        },
    }
}

fn joined_of(
    alloc: Global,
    both: bool,
    f: Option<Formula>,
    g: Option<Formula>,
) -> Result<Option<Formula>, NoMemory>
    ensures { IfOk result (λ o. option_map form_of o ≡ specs.joined_of both (option_map form_of f) (option_map form_of g)) }
{
    if both {
        both_of(alloc, f, g)
    } else {
        either_of(alloc, f, g)
    }
}

fn leaf_form(
    alloc: Global,
    w: &Setting,
    t: &Numbers,
    c: &Counts,
    n: usize,
    holds: bool,
    e: &Expr,
) -> Result<Option<Formula>, NoMemory>
    requires counted { AreCountsOf (setting_in_code w.now) c.now }
    requires numbers { AreNumbersOf (setting_in_code w.now) (numbers_in_code t.now) }
    ensures { IfOk result (λ o. option_map form_of o ≡ specs.leaf_form (setting_in_code w.now) (numbers_in_code t.now) n holds (expression e.now)) }
{
    if is_excepted(w.sites, n, e) {
        return Ok(None);
    }
    let r = reading_of(alloc, w, c, t.entries.as_slice(), t.known.as_slice(), n, e)?;
    let number = atom_number(t.atoms.as_slice(), &r.atom);
    Ok(Some(Formula::Is(number, same_flag(holds, r.holds))))
}

/// The formula that a condition of the `if` with this number holds, or fails, without the conjunct of a best value.
pub fn form_counted(
    alloc: Global,
    w: &Setting,
    t: &Numbers,
    c: &Counts,
    n: usize,
    holds: bool,
    e: &Expr,
) -> Result<Option<Formula>, NoMemory>
    requires counted { AreCountsOf (setting_in_code w.now) c.now }
    requires numbers { AreNumbersOf (setting_in_code w.now) (numbers_in_code t.now) }
    ensures { IfOk result (λ o. option_map form_of o ≡ specs.form_of_condition (setting_in_code w.now) (numbers_in_code t.now) n holds (expression e.now)) }
{
    match &e.node {
        ExprNode::Binary(op, a, b) => {
            if is_and(*op) || is_or(*op) {
                let first = form_counted(alloc, w, t, c, n, holds, a)?;
                let second = form_counted(alloc, w, t, c, n, holds, b)?;
                joined_of(alloc, is_joined(*op, holds), first, second)
            } else {
                leaf_form(alloc, w, t, c, n, holds, e)
            }
        }
        ExprNode::Not(a) => form_counted(alloc, w, t, c, n, !holds, a),
        _ => leaf_form(alloc, w, t, c, n, holds, e),
    }
}
