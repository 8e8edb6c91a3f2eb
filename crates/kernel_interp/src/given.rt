// What is given in a setting.
ghost use Rattle.std.specs.Prelude.{◌≡◌};
ghost use Rattle.kernel_interp.specs.Reading.{rows_seen, world_of};

use crate::setting::Setting;
use qbs_base::{Row, Scalar};

/// The rows of a loop's list.
pub fn rows_of<'a>(setting: Setting<'a>, j: u32) -> &'a [&'a Row]
    ensures { rows_seen result.now ≡ (world_of setting.entry).lists j }
{
    match setting.lists.get(j as usize) {
        Some(rows) => rows.as_slice(),
        None => &[],
    }
}

/// The known list with that number.
pub fn known_list<'a>(setting: Setting<'a>, k: u32) -> &'a [Scalar]
    ensures { result.now ≡ (world_of setting.entry).known k }
{
    match setting.given.known.as_slice().get(k as usize) {
        Some(list) => list.as_slice(),
        None => &[],
    }
}
