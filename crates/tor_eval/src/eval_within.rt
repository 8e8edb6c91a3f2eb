// Whether the atoms of formulas are there, and their loops among given ones.
ghost use Rattle.std.specs.Prelude.{◌≡◌};
ghost use Rattle.std.specs.List.{list_all};
ghost use Rattle.tor_terms.specs.Plain.{form_of, forms_of};
ghost use Rattle.tor_terms.specs.Truth as spec;
ghost use Rattle.tor_terms.specs.Fits as fits;

use tor_terms::{Atom, Formula, formula_within};

/// Whether the atoms of formulas are there, and all their loops among these.
pub fn forms_within(atoms: &[Atom], loops: &[u32], fs: &[Formula]) -> bool
    ensures { result ≡ list_all (spec.form_within atoms.now loops.now) (forms_of fs.now) }
{
    for f in fs {
        if !formula_within(atoms, loops, f) {
            return false;
        }
    }
    true
}

fn form_there(atoms: &[Atom], f: &Formula) -> bool
    ensures { result ≡ fits.form_there atoms.now (form_of f.now) }
{
    match f {
        Formula::Is(k, _) => (*k as usize) < atoms.len(),
        Formula::Both(g, h) => form_there(atoms, g) && form_there(atoms, h),
        Formula::Either(g, h) => form_there(atoms, g) && form_there(atoms, h),
    }
}

/// Whether the atoms of formulas are there.
pub fn forms_there(atoms: &[Atom], fs: &[Formula]) -> bool
    ensures { result ≡ list_all (fits.form_there atoms.now) (forms_of fs.now) }
{
    for f in fs {
        if !form_there(atoms, f) {
            return false;
        }
    }
    true
}
