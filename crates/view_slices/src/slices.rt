// Which sequences of statements are seen as methods.
ghost use Rattle.std.specs.Prelude.{◌≡◌, IfOk};
ghost use Rattle.view_rules.specs.Setting.{within_of};
ghost use Rattle.view_slices.specs.Reading.{slice as plain};
ghost use Rattle.view_slices.specs.Slices as specs;
ghost use Rattle.view_slices.specs.Slices.{file_of};
ghost use Rattle.view_statements.specs.Places.{frame_of};

use crate::params::is_named_well;
use crate::placed::is_placed;
use crate::prints::are_prints;
use crate::seen::{check_seen, sight_before};
use qbs_base::{NoMemory, Table};
use std::alloc::Global;
use view_map::ViewMap;
use view_rules::Within;
use view_scope::Standing;
use view_shapes::{File, Method, Stretch};
use view_statements::{Frame, Slice, Words};

/// What is fixed while a slice is looked at.
pub fn within<'a>(
    map: &'a ViewMap,
    tables: &'a [Table],
    file: &File<'a>,
    words: &'a Words,
    slice: &'a Slice,
) -> Within<'a>
    ensures { within_of result ≡ specs.within map.now tables.now (file_of file.now) words.now (plain slice.now) }
{
    Within {
        map,
        tables,
        items: file.items,
        classes: words.classes.as_slice(),
        fetches: words.fetches.as_slice(),
        templates: words.templates.as_slice(),
        map_constants: words.map_constants.as_slice(),
        constants: words.constants.as_slice(),
        params: slice.params.as_slice(),
        tested: slice.tested.as_slice(),
        clear: words.clear.as_slice(),
        gets: slice.gets,
    }
}

fn is_seen_and_printed(
    alloc: Global,
    f: &Frame,
    file: &File,
    method: &Method,
    slice: &Slice,
) -> Result<bool, NoMemory>
    ensures { IfOk result (λ b. b ≡ specs.is_seen_and_printed (frame_of f.now) (file_of file.now) method.now (plain slice.now)) }
{
    let mut sight = sight_before(alloc, slice)?;
    let passed = check_seen(alloc, f, file, slice, &mut sight)?;
    Ok(are_prints(f.within, method, slice, passed, sight.as_slice()))
}

fn is_slice_within(
    alloc: Global,
    f: &Frame,
    file: &File,
    method: &Method,
    standing: &[Standing],
    tested: &[Stretch],
    slice: &Slice,
) -> Result<bool, NoMemory>
    ensures { IfOk result (λ b. b ≡ specs.is_slice_within (frame_of f.now) (file_of file.now) method.now standing.now tested.now (plain slice.now)) }
{
    if is_placed(f, file, standing, tested, method, slice)
        && is_named_well(f.within.map, file, method, slice)
    {
        is_seen_and_printed(alloc, f, file, method, slice)
    } else {
        Ok(false)
    }
}

/// Whether the statements from one item up to another are seen as a method, with what comes from outside as its parameters and what is read
/// later as its prints. `standing` are the statements of the method's blocks, and `tested` is where its body tests variables for null. It fails
/// only by want of memory.
pub fn is_slice(
    alloc: Global,
    map: &ViewMap,
    tables: &[Table],
    file: &File,
    words: &Words,
    method: &Method,
    standing: &[Standing],
    tested: &[Stretch],
    slice: &Slice,
) -> Result<bool, NoMemory>
    ensures { IfOk result (λ b. b ≡ specs.is_slice_by map.now tables.now (file_of file.now) words.now method.now standing.now tested.now (plain slice.now)) }
{
    let w = within(map, tables, file, words, slice);
    let f = Frame {
        within: &w,
        closings: file.closings,
        end: method.to,
    };
    is_slice_within(alloc, &f, file, method, standing, tested, slice)
}
