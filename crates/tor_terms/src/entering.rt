// Formulas among others.
ghost use Rattle.std.specs.Prelude.{◌≡◌, IfOk};
ghost use Rattle.std.specs.List.{list_any};
ghost use Rattle.tor_terms.specs.Plain.{form_of, forms_of};
ghost use Rattle.tor_terms.specs.Same.{entered, same_form};

use crate::same::same_formula;
use crate::term::{Formula, Formulas};
use qbs_base::NoMemory;

fn is_there(pool: &[Formula], f: &Formula) -> bool
    ensures { result ≡ list_any (same_form (form_of f.now)) (forms_of pool.now) }
{
    match pool.split_first() {
        None => false,
        Some((g, rest)) => same_formula(f, g) || is_there(rest, f),
    }
}

/// Enters a formula that isn't there yet.
#[tactic(auto, using(crate::proofs::Pushed::forms_pushed))]
pub fn enter(pool: Formulas, f: Formula) -> Result<Formulas, NoMemory>
    ensures { IfOk result (λ all. forms_of all ≡ entered (forms_of pool) (form_of f)) }
{
    if is_there(pool.as_slice(), &f) {
        return Ok(pool);
    }
    let mut all = pool;
    all.push(f)?;
    Ok(all)
}
