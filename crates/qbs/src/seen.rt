// What is seen of a file: a view that is one, and the program of its text.
ghost use Rattle.std.specs.Prelude.{◌≡◌, ◌<◌, ◌≤◌, IfOk, IfSome, Some, length, codes};
ghost use Rattle.java_ast.specs.Reading.{program as plain_program};
ghost use Rattle.deliveries.specs.Code.{Goes};
ghost use Rattle.deliveries.specs.Limits.{most_source};
ghost use Rattle.deliveries.specs.Plan.{too_long as too_long_plan};
ghost use Rattle.plans.specs.Opening.{IsProgramOf};
ghost use Rattle.view_slices.specs.Reading.{all_sliced, opened as plain_opened};
ghost use Rattle.view_slices.specs.Slices.{file_of};
ghost use Rattle.view_slices.specs.Views.{file_in, class_cells};
ghost use Rattle.view_text.specs.Layout.{laid_out};
ghost use Rattle.qbs.specs.Seen.{IsViewed, HasSeen};
ghost use Rattle.qbs.specs.View.{IsTooLong};

use deliveries::fetch::{MOST_SOURCE, Stop, refused as too_long};
use java_types::Typed;
use plans::opening::open_program;
use qbs_base::{Bytes, Items, NoMemory, Status, boxed, held};
use schema::Schema;
use std::alloc::Global;
use view_map::ViewMap;
use view_read::{View, find_view};
use view_rules::push_all_made;
use view_shapes::{File, Opened};
use view_slices::{is_view, looked_at, open_file, put_class, put_method, within};
use view_statements::{Slice, Sliced, Words};
use view_text::lay_out;

/// Where a slice is refused its blocks are looked into, and no block stands deeper than 64 others.
const MOST_ROUNDS: usize = 66;

/// A view of a file, the text that it is seen as, and the well-typed program of that text.
#[derive(Drop)]
pub struct Viewed {
    pub found: Box<View>,
    pub text: Bytes,
    pub typed: Box<Typed>,
}

/// A file and its view; or nothing of a file is seen, and what was found there says why.
#[derive(Drop)]
pub enum Seen {
    Methods { file: Opened, viewed: Box<Viewed> },
    Nothing { found: Box<View> },
}

// ---- The program of a text

/// The well-typed program of a text, if it has one, and the refusal of a text that is longer than a source may be.
fn typed_in(alloc: Global, schema: &Schema, text: &[u8]) -> Result<Option<Box<Typed>>, Stop>
    ensures short { IfOk result (λ found. IfSome found (λ t. length text.now ≤ most_source)) }
    ensures typed { Goes result
        (λ found. IfSome found (λ t. IsProgramOf schema.now text.now (plain_program t.value.program)))
        (λ plan. (most_source < length text.now) × (plan ≡ too_long_plan (codes "view"))) }
{
    if text.len() as u64 > MOST_SOURCE {
        return Err(too_long(alloc, Status::Limit, "qbs: limit: ", "view"));
    }
    match open_program(alloc, schema, text) {
        Ok(typed) => Ok(Some(boxed(alloc, typed)?)),
        Err(Stop::Due(_)) => Ok(None),
        Err(Stop::Memory) => Err(Stop::Memory),
    }
}

/// The text of the class that methods are seen as.
fn text_of(
    alloc: Global,
    map: &ViewMap,
    schema: &Schema,
    file: &File,
    methods: &[Sliced],
) -> Result<Bytes, NoMemory>
    ensures { IfOk result (λ text. text ≡ laid_out (class_cells map.now schema.now (file_of file.now) (all_sliced methods.now))) }
{
    let mut cells = Items::new(alloc);
    put_class(alloc, map, schema.tables(), file, methods, &mut cells)?;
    lay_out(alloc, cells.as_slice())
}

// ---- Slices that are refused

/// Whether the method of a slice alone is well typed. Where it isn't, its first item is pushed.
fn refuse_slice(
    alloc: Global,
    map: &ViewMap,
    schema: &Schema,
    file: &File,
    words: &Words,
    slice: &Slice,
    refused: &mut Vec<usize>,
) -> Result<(), NoMemory> {
    let mut cells = Items::new(alloc);
    let w = within(map, schema.tables(), file, words, slice);
    push_all_made(
        alloc,
        &w,
        slice.from,
        &[b"class", b"View", b"{"],
        &mut cells,
    )?;
    put_method(alloc, &w, b"s1", slice, &mut cells)?;
    push_all_made(alloc, &w, slice.from, &[b"}"], &mut cells)?;
    let text = lay_out(alloc, cells.as_slice())?;
    match open_program(alloc, schema, text.as_slice()) {
        Ok(_) => Ok(()),
        Err(Stop::Due(_)) => Ok(refused.push(slice.from)?),
        Err(Stop::Memory) => Err(NoMemory),
    }
}

fn refuse_untyped(
    alloc: Global,
    map: &ViewMap,
    schema: &Schema,
    file: &File,
    methods: &[Sliced],
    refused: &mut Vec<usize>,
) -> Result<(), NoMemory> {
    for method in methods {
        for slice in method.slices.as_slice() {
            refuse_slice(alloc, map, schema, file, &method.read.words, slice, refused)?;
        }
    }
    Ok(())
}

// ---- Views

/// What is found in a file, where that is a view and its text has a well-typed program; else the first items of slices are refused.
fn view_once(
    alloc: Global,
    map: &ViewMap,
    schema: &Schema,
    source: &[u8],
    file: &File,
    refused: &mut Vec<usize>,
) -> Result<Option<Box<Viewed>>, Stop>
    requires { file_in map.now source.now ≡ Some (file_of file.now) }
    ensures { Goes result
        (λ viewed. IfSome viewed (λ v. IsViewed map.now schema.now source.now (file_of file.now) v.value))
        (IsTooLong map.now schema.now source.now) }
{
    let tables = schema.tables();
    let found = held(
        alloc,
        find_view(alloc, map, tables, source, refused.as_slice()),
    )?;
    let methods = found.methods.as_slice();
    if !is_view(alloc, map, tables, file, methods, refused)? {
        return Ok(None);
    }
    let text = text_of(alloc, map, schema, file, methods)?;
    match typed_in(alloc, schema, text.as_slice())? {
        Some(typed) => Ok(Some(boxed(alloc, Viewed { found, text, typed })?)),
        None => {
            refuse_untyped(alloc, map, schema, file, methods, refused)?;
            Ok(None)
        }
    }
}

/// The view of a file, if one is found. Where slices are refused, another view is looked for.
fn view_file(
    alloc: Global,
    map: &ViewMap,
    schema: &Schema,
    source: &[u8],
    file: &File,
) -> Result<Option<Box<Viewed>>, Stop>
    requires { file_in map.now source.now ≡ Some (file_of file.now) }
    ensures { Goes result
        (λ viewed. IfSome viewed (λ v. IsViewed map.now schema.now source.now (file_of file.now) v.value))
        (IsTooLong map.now schema.now source.now) }
{
    let mut refused = Vec::new(alloc);
    for _ in 0..MOST_ROUNDS {
        let known = refused.len();
        if let Some(viewed) = view_once(alloc, map, schema, source, file, &mut refused)? {
            return Ok(Some(viewed));
        }
        if refused.len() == known {
            return Ok(None);
        }
    }
    Ok(None)
}

/// What was found in a file of which nothing is seen.
fn see_nothing(
    alloc: Global,
    map: &ViewMap,
    schema: &Schema,
    source: &[u8],
) -> Result<Seen, NoMemory>
    ensures { IfOk result (HasSeen map.now schema.now source.now) }
{
    let found = held(alloc, find_view(alloc, map, schema.tables(), source, &[]))?;
    Ok(Seen::Nothing { found })
}

/// What is seen of a file that has a class.
fn see_file(
    alloc: Global,
    map: &ViewMap,
    schema: &Schema,
    source: &[u8],
    file: Opened,
) -> Result<Seen, Stop>
    requires { file_in map.now source.now ≡ Some (plain_opened file) }
    ensures { Goes result (HasSeen map.now schema.now source.now) (IsTooLong map.now schema.now source.now) }
{
    match view_file(alloc, map, schema, source, &looked_at(&file))? {
        Some(viewed) => Ok(Seen::Methods { file, viewed }),
        None => Ok(see_nothing(alloc, map, schema, source)?),
    }
}

/// What is seen of a source by a map, or the refusal of a view that is longer than a source may be.
pub fn see(alloc: Global, map: &ViewMap, schema: &Schema, source: &[u8]) -> Result<Seen, Stop>
    ensures { Goes result (HasSeen map.now schema.now source.now) (IsTooLong map.now schema.now source.now) }
{
    match open_file(alloc, map, source)? {
        Some(file) => see_file(alloc, map, schema, source, file),
        None => Ok(see_nothing(alloc, map, schema, source)?),
    }
}
