// Flags: whether a flag's own loops come to its update. No flag is read there.
ghost use Rattle.std.specs.Prelude.{◌≡◌, drop, option_copied, option_map};
ghost use Rattle.tor_terms.specs.Plain.{form_of};
ghost use Rattle.tor_terms.specs.Truth as spec;
ghost use Rattle.kernel_lang.specs.Plain.{accumulator};
ghost use Rattle.kernel_lang.specs.Running as running;
ghost use Rattle.kernel_interp.specs.Marking.{any_mark, bound};
ghost use Rattle.kernel_interp.specs.Reading.{rows_in, world_of, plain_of, guard_at};

use crate::atom::test_holds;
use crate::given::rows_of;
use crate::place::{Place, row_at};
use crate::setting::Setting;
use kernel_lang::Acc;
use tor_terms::{Formula, same_bool};

fn truth(setting: Setting, k: u32, place: &Place) -> bool
    ensures { result ≡ spec.truth (world_of setting.entry) (plain_of setting.entry).atoms (rows_in place.now) k }
{
    match setting.frag.atoms.as_slice().get(k as usize) {
        Some(a) => test_holds(setting, a, place),
        None => false,
    }
}

/// The truth of a formula that reads no flag.
pub fn holds(setting: Setting, f: &Formula, place: &Place) -> bool
    ensures { result ≡ spec.holds (world_of setting.entry) (plain_of setting.entry).atoms (rows_in place.now) (form_of f.now) }
{
    match f {
        Formula::Is(k, s) => same_bool(truth(setting, *k, place), *s),
        Formula::Both(g, h) => holds(setting, g, place) && holds(setting, h, place),
        Formula::Either(g, h) => holds(setting, g, place) || holds(setting, h, place),
    }
}

/// The guard of a level.
pub fn guard(acc: &Acc, level: usize) -> Option<&Formula>
    ensures { option_map form_of (option_copied result) ≡ guard_at (accumulator acc.now).guards level }
{
    match acc.guards.as_slice().get(level) {
        Some(Some(f)) => Some(f),
        _ => None,
    }
}

fn passes(setting: Setting, acc: &Acc, level: usize, place: &Place) -> bool
    ensures { result ≡ running.passes (world_of setting.entry) (plain_of setting.entry).atoms (rows_in place.now) (guard_at (accumulator acc.now).guards level) }
{
    match guard(acc, level) {
        Some(f) => holds(setting, f, place),
        None => true,
    }
}

/// Whether the loops from a level on come to the update at these rows.
fn marks(setting: Setting, acc: &Acc, level: usize, place: &Place) -> bool
    ensures { result ≡ any_mark (world_of setting.entry) (plain_of setting.entry).atoms (drop level (running.layers_of (accumulator acc.now))) (rows_in place.now) }
{
    let over = match acc.chain.as_slice().get(level) {
        Some(over) => *over,
        None => return true,
    };
    let rows = rows_of(setting, over);
    for row in rows {
        let here = Place::In(over, row, &*place);
        if passes(setting, acc, level, &here) && marks(setting, acc, level + 1, &here) {
            return true;
        }
    }
    false
}

/// Whether the loops inside a flag's declaration come to its update, at the rows that the loops
/// round it have at a place.
pub fn set_at(setting: Setting, acc: &Acc, loops: &[u32], place: &Place, own: &Place) -> bool
    ensures { result
        ≡ any_mark (world_of setting.entry) (plain_of setting.entry).atoms (running.inside (accumulator acc.now)) (bound loops.now (rows_in place.now) (rows_in own.now)) }
{
    match loops.split_last() {
        None => marks(setting, acc, acc.base as usize, &*own),
        Some((j, outer)) => {
            let row = row_at(&*place, *j);
            let here = Place::In(*j, row, &*own);
            set_at(setting, acc, outer, &*place, &here)
        }
    }
}
