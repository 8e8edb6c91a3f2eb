// The command `view`.
ghost use Rattle.std.specs.Prelude.{◌≡◌, ◌+◌, ◌++◌, IfOk, OnOk, false, ◌∷◌, [], map, filter, slice_get};
ghost use Rattle.std.specs.List.{flat_map};
ghost use Rattle.deliveries.specs.Code.{OrMemory};
ghost use Rattle.deliveries.specs.Plan.{given};
ghost use Rattle.deliveries.specs.Reads.{looks, OnlyReads};
ghost use Rattle.text_places.specs.Places.{AreMarks};
ghost use Rattle.view_slices.specs.Reading.{slices as plain_slices, all_sliced};
ghost use Rattle.view_slices.specs.Slices.{file_of};
ghost use Rattle.qbs.specs.Seen.{seen_by, text_by, view_by};
ghost use Rattle.qbs.specs.View as specs;
ghost use Rattle.qbs.specs.View.{view_of, view as view_files};

use crate::seen::{Seen, Viewed, see};
use deliveries::Plan;
use deliveries::fetch::{MOST_MAP, Stop, fetch, fetch_schema, fetch_source};
use files_sinks::Files;
use plans::opening::{open_map, open_schema};
use qbs_base::{Bytes, Items, NoMemory, Status, Text};
use std::alloc::Global;
use text_places::{Place, marks_in, span_by};
use view_items::Item;
use view_read::{Loop, View};
use view_reports::{ViewLine, view_report};
use view_shapes::File;
use view_slices::looked_at;
use view_statements::{Slice, Sliced};

/// What is due for the files of a map, a schema and a source.
pub fn plan_view<F: Files>(
    alloc: Global,
    files: &mut F,
    map: &Text,
    schema: &Text,
    source: &Text,
) -> Result<Plan, Stop>
    ensures reads { OnlyReads (looks F.told F.faults F.may_fail F.by_read) (map.now ∷ schema.now ∷ source.now ∷ []) files.old files.new }
    ensures due { OrMemory result (view_files (given F.told F.faults F.may_fail files.old files.new) map.now schema.now source.now) }
{
    let map = fetch(alloc, files, map, MOST_MAP, "map")?;
    let schema = fetch_schema(alloc, files, schema)?;
    let source = fetch_source(alloc, files, source)?;
    plan_texts(alloc, map.as_slice(), schema.as_slice(), source.as_slice())
}

// What is due for their bytes.
fn plan_texts(alloc: Global, map: &[u8], schema: &[u8], source: &[u8]) -> Result<Plan, Stop>
    ensures { OrMemory result (view_of map.now schema.now source.now) }
{
    let tables = open_schema(alloc, schema)?;
    let map = open_map(alloc, &tables, map)?;
    let seen = see(alloc, &map, &tables, source)?;
    Ok(plan_seen(alloc, source, &seen)?)
}

// ---- What is written

/// The byte of the source at which an item begins.
pub fn start_of(items: &[Item], number: usize) -> usize
    ensures { result ≡ specs.begins_at (slice_get items.now number) }
{
    match items.get(number) {
        Some(item) => item.from,
        None => 0,
    }
}

fn push_starts(file: &File, slices: &[Slice], starts: &mut Items<usize>) -> Result<(), NoMemory>
    ensures { OnOk result (starts.new ≡ starts.old ++ map (specs.slice_start (file_of file.now)) (plain_slices slices.now)) }
{
    for slice in slices {
        starts.push(start_of(file.items, slice.from))?;
    }
    Ok(())
}

/// Where the slices of methods begin.
fn starts_of(alloc: Global, file: &File, methods: &[Sliced]) -> Result<Items<usize>, NoMemory>
    ensures { IfOk result (λ starts. starts ≡ flat_map (specs.method_starts (file_of file.now)) (all_sliced methods.now)) }
{
    let mut starts = Items::new(alloc);
    for method in methods {
        push_starts(file, method.slices.as_slice(), &mut starts)?;
    }
    Ok(starts)
}

/// A source with the places of its bytes, and its items.
#[derive(Drop)]
struct Source<'a> {
    bytes: &'a [u8],
    marks: &'a [Place],
    items: &'a [Item],
}

fn unseen_line(source: &Source, unseen: Loop) -> ViewLine
    requires { AreMarks source.now.bytes.now source.now.marks.now }
    ensures { specs.is_slice_line result ≡ false }
{
    let at = start_of(source.items, unseen.at);
    let because = start_of(source.items, unseen.unseen.at);
    ViewLine::Unseen {
        at: span_by(source.bytes, source.marks, at),
        rule: unseen.unseen.reason.number().min(12) as u32,
        because: span_by(source.bytes, source.marks, because),
    }
}

/// Lines of the loops that begin before a byte; those behind are given back.
#[tactic(auto, using(crate::proofs::Viewed::other_line))]
fn push_loops<'a>(
    source: &Source,
    loops: &'a [Loop],
    before: usize,
    lines: &mut Items<ViewLine>,
) -> Result<&'a [Loop], NoMemory>
    requires { AreMarks source.now.bytes.now source.now.marks.now }
    ensures { OnOk result (filter specs.is_slice_line lines.new ≡ filter specs.is_slice_line lines.old) }
{
    let mut rest = loops;
    for _ in 0..loops.len() {
        match rest {
            [first, behind @ ..] if start_of(source.items, first.at) < before => {
                lines.push(unseen_line(source, *first))?;
                rest = behind;
            }
            _ => return Ok(rest),
        }
    }
    Ok(rest)
}

/// The number behind another one, unless so many things are more than fit into memory.
fn next(k: u64) -> Result<u64, NoMemory>
    ensures { IfOk result (λ n. n ≡ k + 1) }
{
    match k.checked_add(1) {
        Some(n) => Ok(n),
        None => Err(NoMemory),
    }
}

/// The lines of slices and of loops that aren't seen, both in the order of the text.
#[tactic(auto, using(crate::proofs::Viewed::slice_line))]
fn lines_of(
    alloc: Global,
    source: &Source,
    starts: &[usize],
    loops: &[Loop],
) -> Result<Items<ViewLine>, NoMemory>
    requires { AreMarks source.now.bytes.now source.now.marks.now }
    ensures { IfOk result (λ lines. filter specs.is_slice_line lines ≡ specs.slice_lines source.now.bytes.now 1 starts.now) }
{
    let mut lines = Items::new(alloc);
    let mut rest = loops;
    let mut k = 1;
    for start in starts {
        rest = push_loops(source, rest, *start, &mut lines)?;
        let at = span_by(source.bytes, source.marks, *start);
        lines.push(ViewLine::Slice { k, at })?;
        k = next(k)?;
    }
    push_loops(source, rest, usize::MAX, &mut lines)?;
    Ok(lines)
}

/// What is seen, and the report.
fn plan_text(
    alloc: Global,
    source: &[u8],
    items: &[Item],
    text: Bytes,
    starts: &[usize],
    loops: &[Loop],
) -> Result<Plan, NoMemory>
    ensures { IfOk result (specs.IsWritten source.now text starts.now) }
{
    let marks = marks_in(alloc, source)?;
    let source = Source {
        bytes: source,
        marks: marks.as_slice(),
        items,
    };
    let lines = lines_of(alloc, &source, starts, loops)?;
    let rep = view_report(alloc, lines.as_slice())?;
    Ok(Plan {
        status: Status::Ok,
        out: text,
        rep,
    })
}

// What is due for a view.
fn plan_viewed(alloc: Global, source: &[u8], file: &File, viewed: &Viewed) -> Result<Plan, NoMemory>
    ensures { IfOk result (specs.IsWritten source.now viewed.now.text (specs.starts_of (view_by (file_of file.now) viewed.now))) }
{
    let found = &viewed.found;
    let starts = starts_of(alloc, file, found.methods.as_slice())?;
    let text = Bytes::from_vec(viewed.text.as_slice().to_vec(alloc)?);
    plan_text(
        alloc,
        source,
        file.items,
        text,
        starts.as_slice(),
        found.loops.as_slice(),
    )
}

// What is due where nothing is seen.
fn plan_nothing(alloc: Global, source: &[u8], found: &View) -> Result<Plan, NoMemory>
    ensures { IfOk result (specs.IsWritten source.now specs.nothing_seen []) }
{
    let text = Bytes::from_vec(b"class View {\n}\n".to_vec(alloc)?);
    let items = found.items.as_slice();
    plan_text(alloc, source, items, text, &[], found.loops.as_slice())
}

// What is due for what is seen.
fn plan_seen(alloc: Global, source: &[u8], seen: &Seen) -> Result<Plan, NoMemory>
    ensures { IfOk result (specs.IsWritten source.now (text_by seen.now) (specs.seen_starts (seen_by seen.now))) }
{
    match seen {
        Seen::Methods { file, viewed } => { plan_viewed(alloc, source, &looked_at(file), viewed) }
        Seen::Nothing { found } => plan_nothing(alloc, source, found),
    }
}
