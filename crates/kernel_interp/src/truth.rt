// The truth of formulas and guards, with the flags that they read.
ghost use Rattle.std.specs.Prelude.{◌≡◌, true, map, slice_get, option_copied, option_map};
ghost use Rattle.tor_terms.specs.Plain.{form_of};
ghost use Rattle.tor_terms.specs.Truth as spec;
ghost use Rattle.kernel_lang.specs.Plain.{accumulator};
ghost use Rattle.kernel_lang.specs.Running as running;
ghost use Rattle.kernel_lang.specs.Validity.{is_flag, names_a_flag};
ghost use Rattle.kernel_interp.specs.Reading.{rows_in, world_of, flagged, plain_of, guard_at};

use crate::atom::test_holds;
use crate::mark::{guard, set_at};
use crate::place::Place;
use crate::setting::Setting;
use kernel_lang::Acc;
use tor_terms::{Atom, Formula, same_bool};

// The accumulator with that number.
#[tactic(auto, using(crate::proofs::Mapped::mapped))]
fn accumulator_at<'a>(setting: Setting<'a>, k: u32) -> Option<&'a Acc>
    ensures { option_map accumulator (option_copied result) ≡ slice_get (plain_of setting.entry).accs k }
{
    setting.frag.accs.as_slice().get(k as usize)
}

// Whether a flag is set by its own run at the rows of these loops.
fn flag_holds(setting: Setting, k: u32, loops: &[u32], place: &Place) -> bool
    requires { is_flag loops.now (slice_get (plain_of setting).accs k) ≡ true }
    ensures { result ≡ (flagged setting.entry).flags k (map (rows_in place.now) loops.now) }
{
    match accumulator_at(setting, k) {
        Some(acc) => {
            let outside = Place::Outside(setting.no_row);
            set_at(setting, acc, loops, place, &outside)
        }
        None => false,
    }
}

fn atom_holds(setting: Setting, a: &Atom, place: &Place) -> bool
    requires { names_a_flag (plain_of setting) a.now ≡ true }
    ensures { result ≡ spec.atom_holds (flagged setting.entry) (rows_in place.now) a.now }
{
    match a {
        Atom::Flag(k, loops) => flag_holds(setting, *k, loops.as_slice(), place),
        Atom::Less(_, _) => test_holds(setting, a, place),
        Atom::Same(_, _) => test_holds(setting, a, place),
        Atom::Truth(_) => test_holds(setting, a, place),
        Atom::Member(_, _) => test_holds(setting, a, place),
    }
}

// The atom with that number.
fn atom_at<'a>(setting: Setting<'a>, k: u32) -> Option<&'a Atom>
    ensures { option_copied result ≡ slice_get (plain_of setting.entry).atoms k }
{
    setting.frag.atoms.as_slice().get(k as usize)
}

fn truth(setting: Setting, k: u32, place: &Place) -> bool
    ensures { result ≡ spec.truth (flagged setting.entry) (plain_of setting.entry).atoms (rows_in place.now) k }
{
    match atom_at(setting, k) {
        Some(a) => atom_holds(setting, a, place),
        None => false,
    }
}

fn holds(setting: Setting, f: &Formula, place: &Place) -> bool
    ensures { result ≡ spec.holds (flagged setting.entry) (plain_of setting.entry).atoms (rows_in place.now) (form_of f.now) }
{
    match f {
        Formula::Is(k, s) => same_bool(truth(setting, *k, place), *s),
        Formula::Both(g, h) => holds(setting, g, place) && holds(setting, h, place),
        Formula::Either(g, h) => holds(setting, g, place) || holds(setting, h, place),
    }
}

/// Whether the guard of a level lets a turn go on.
pub fn passes(setting: Setting, acc: &Acc, level: usize, place: &Place) -> bool
    ensures { result ≡ running.passes (flagged setting.entry) (plain_of setting.entry).atoms (rows_in place.now) (guard_at (accumulator acc.now).guards level) }
{
    match guard(acc, level) {
        Some(f) => holds(setting, f, place),
        None => true,
    }
}
