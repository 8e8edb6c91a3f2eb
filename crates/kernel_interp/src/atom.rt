// The truth of atoms that are no flags.
ghost use Rattle.std.specs.Prelude.{◌≡◌, option_copied};
ghost use Rattle.tor_terms.specs.Truth as spec;
ghost use Rattle.kernel_interp.specs.Reading.{rows_in, world_of};

use crate::given::known_list;
use crate::place::{Place, row_at};
use crate::setting::Setting;
use qbs_base::Scalar;
use tor_terms::{Atom, Operand, both_less, both_same, is_member, is_true, same_operand};

fn operand_at<'a>(setting: Setting<'a>, place: &'a Place<'a>, a: &'a Operand) -> Option<&'a Scalar>
    ensures { option_copied result ≡ spec.operand_at (world_of setting.entry) (rows_in place.now) a.now }
{
    match a {
        Operand::Field(j, c) => row_at(place, *j).cells.as_slice().get(*c as usize),
        Operand::Entry(k) => setting.given.values.as_slice().get(*k as usize),
        Operand::Lit(x) => Some(x),
    }
}

/// Whether an atom holds at a place. A flag does not.
pub fn test_holds(setting: Setting, a: &Atom, place: &Place) -> bool
    ensures { result ≡ spec.atom_holds (world_of setting.entry) (rows_in place.now) a.now }
{
    match a {
        Atom::Less(x, y) => both_less(operand_at(setting, place, x), operand_at(setting, place, y)),
        Atom::Same(x, y) => {
            same_operand(x, y)
                || both_same(operand_at(setting, place, x), operand_at(setting, place, y))
        }
        Atom::Truth(x) => is_true(operand_at(setting, place, x)),
        Atom::Member(x, k) => is_member(operand_at(setting, place, x), known_list(setting, *k)),
        Atom::Flag(_, _) => false,
    }
}
