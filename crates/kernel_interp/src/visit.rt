// Whether loops come to rows at which the chosen formulas of a flag hold. No flag is read there.
ghost use Rattle.std.specs.Prelude.{◌≡◌};
ghost use Rattle.tor_terms.specs.Truth as spec;
ghost use Rattle.kernel_interp.specs.Claiming.{any_visit};
ghost use Rattle.kernel_interp.specs.Members.{forms_lent};
ghost use Rattle.kernel_interp.specs.Marking.{bound};
ghost use Rattle.kernel_interp.specs.Reading.{rows_in, world_of, plain_of};

use crate::given::rows_of;
use crate::mark::holds;
use crate::place::{Place, row_at};
use crate::setting::Setting;
use tor_terms::Formula;

fn all_hold(setting: Setting, fs: &[&Formula], place: &Place) -> bool
    ensures { result ≡ spec.all_hold (world_of setting.entry) (plain_of setting.entry).atoms (rows_in place.now) (forms_lent fs.now) }
{
    match fs.split_first() {
        None => true,
        Some((f, rest)) => holds(setting, f, place) && all_hold(setting, rest, place),
    }
}

/// Whether these loops come to rows at which all formulas hold.
fn visits(setting: Setting, fs: &[&Formula], loops: &[u32], place: &Place) -> bool
    ensures { result ≡ any_visit (world_of setting.entry) (plain_of setting.entry).atoms (forms_lent fs.now) loops.now (rows_in place.now) }
{
    match loops.split_first() {
        None => all_hold(setting, fs, place),
        Some((over, inner)) => {
            let rows = rows_of(setting, *over);
            for row in rows {
                let here = Place::In(*over, row, &*place);
                if visits(setting, fs, inner, &here) {
                    return true;
                }
            }
            false
        }
    }
}

/// Whether these loops come to rows at which all formulas hold, at the rows that the loops round
/// them have at a place.
pub fn visits_at(
    setting: Setting,
    fs: &[&Formula],
    inner: &[u32],
    loops: &[u32],
    place: &Place,
    own: &Place,
) -> bool
    ensures { result
        ≡ any_visit (world_of setting.entry) (plain_of setting.entry).atoms (forms_lent fs.now) inner.now (bound loops.now (rows_in place.now) (rows_in own.now)) }
{
    match loops.split_last() {
        None => visits(setting, fs, inner, &*own),
        Some((j, outer)) => {
            let row = row_at(&*place, *j);
            let here = Place::In(*j, row, &*own);
            visits_at(setting, fs, inner, outer, &*place, &here)
        }
    }
}
