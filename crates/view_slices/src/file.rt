// A file that is looked at.
ghost use Rattle.std.specs.Prelude.{◌≡◌, IfOk, option_map};
ghost use Rattle.view_scope.specs.Obscured.{word_at as word_in};
ghost use Rattle.view_slices.specs.Reading.{opened};
ghost use Rattle.view_slices.specs.Slices.{file_of};
ghost use Rattle.view_slices.specs.Views as specs;
ghost use Rattle.view_slices.specs.Words.{class_name as named};

use qbs_base::{Items, NoMemory};
use std::alloc::Global;
use view_items::{Item, closings, is_plain, items, rounds};
use view_map::ViewMap;
use view_scope::means_the_same;
use view_shapes::{ClassPlace, File, Opened, class_of, is_plain_name};

/// What is looked at of a file that owns it.
pub fn looked_at(file: &Opened) -> File<'_>
    ensures { file_of result ≡ opened file.now }
{
    File {
        items: file.items.as_slice(),
        closings: file.closings.as_slice(),
        rounds: file.rounds.as_slice(),
        class: file.class,
    }
}

/// The bytes of the item with a number.
pub fn word_at(items: &[Item], number: usize) -> &[u8]
    ensures { result.now ≡ word_in items.now number }
{
    match items.get(number) {
        Some(item) => item.bytes.as_slice(),
        None => &[],
    }
}

/// The name of the class.
pub fn class_name<'a>(file: &File<'a>) -> &'a [u8]
    ensures { result.now ≡ named (file_of file.now) }
{
    word_at(file.items, file.class.name)
}

fn is_class_plain(map: &ViewMap, items: &[Item], class: ClassPlace) -> bool
    ensures { result ≡ specs.is_class_plain map.now items.now class }
{
    is_plain_name(items, class.name) && means_the_same(map, items, word_at(items, class.name))
}

fn file_with(
    alloc: Global,
    map: &ViewMap,
    items: Items<Item>,
    closings: Items<usize>,
    class: ClassPlace,
) -> Result<Option<Opened>, NoMemory>
    ensures { IfOk result (λ f. option_map opened f ≡ specs.file_with map.now items closings class) }
{
    if !is_class_plain(map, items.as_slice(), class) {
        return Ok(None);
    }
    let rounds = rounds(alloc, items.as_slice())?;
    Ok(Some(Opened {
        items,
        closings,
        rounds,
        class,
    }))
}

fn file_closed(
    alloc: Global,
    map: &ViewMap,
    items: Items<Item>,
    closings: Items<usize>,
) -> Result<Option<Opened>, NoMemory>
    ensures { IfOk result (λ f. option_map opened f ≡ specs.file_closed map.now items closings) }
{
    match class_of(items.as_slice(), closings.as_slice()) {
        Some(class) => file_with(alloc, map, items, closings, class),
        None => Ok(None),
    }
}

fn file_of_items(
    alloc: Global,
    map: &ViewMap,
    source: &[u8],
    items: Items<Item>,
) -> Result<Option<Opened>, NoMemory>
    ensures { IfOk result (λ f. option_map opened f ≡ specs.file_of_items map.now source.now items) }
{
    if !is_plain(source, items.as_slice()) {
        return Ok(None);
    }
    match closings(alloc, items.as_slice())? {
        Some(closings) => file_closed(alloc, map, items, closings),
        None => Ok(None),
    }
}

/// The file that a source is, with its class: none where its items don't say all that Java reads, where its brackets don't match, where it has no
/// class, or where a name of it hides one of Java or of the map. It fails only by want of memory.
pub fn open_file(alloc: Global, map: &ViewMap, source: &[u8]) -> Result<Option<Opened>, NoMemory>
    ensures { IfOk result (λ f. option_map opened f ≡ specs.file_in map.now source.now) }
{
    let items = items(alloc, source)?;
    file_of_items(alloc, map, source, items)
}
