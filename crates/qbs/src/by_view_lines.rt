// The report of `rewrite` by a view: what is said of loops, at their places in the file.
ghost use Rattle.std.specs.Prelude.{◌≡◌, ◌∷◌, ◌++◌, [], IfOk, OnOk, List, filter, length, option_copied, slice_get, false};
ghost use Rattle.text_places.specs.Places.{AreMarks};
ghost use Rattle.view_slices.specs.Reading.{all_sliced, slice as plain_slice, sliced as plain_sliced};
ghost use Rattle.view_slices.specs.Slices.{file_of};
ghost use Rattle.view_text.specs.Layout as layout;
ghost use Rattle.qbs.specs.Fates as specs;
ghost use Rattle.qbs.specs.ItemBytes.{ends_at};
ghost use Rattle.qbs.specs.RewriteByView as by_view;
ghost use Rattle.qbs.specs.SeenAgain.{Stood, slices_in};

use crate::view::start_of;
use qbs_base::{Bytes, Items, NoMemory, Span};
use std::alloc::Global;
use text_places::{Place, marks_in, span_by};
use verdicts::{LoopVerdict, Said};
use view_items::{Cell, Item};
use view_read::Loop;
use view_reports::{ViewLine, rewrite_report};
use view_shapes::File;
use view_spell::SliceSpelled;
use view_statements::{Slice, Sliced};
use view_text::{Stretch, cell_at};

// ---- What becomes of slices

/// What is said of loops that gave way and aren't written.
#[derive(Clone, Copy, PartialEq, Eq)]
pub enum Why {
    Written,
    Shared,
    Unlike,
}

/// Where the last item of a slice begins, the byte behind it and behind all slices before it, and what is said of the slice's loops.
#[derive(Clone, Copy)]
pub struct Fate {
    pub last: usize,
    pub behind: usize,
    pub why: Why,
}

fn why_of(spelled: Option<&SliceSpelled>) -> Why
    ensures { result ≡ specs.why_of (option_copied spelled.entry) }
{
    match spelled {
        Some(SliceSpelled::Shared) => Why::Shared,
        Some(SliceSpelled::Unlike) => Why::Unlike,
        _ => Why::Written,
    }
}

fn end_of(items: &[Item], number: usize) -> usize
    ensures { result ≡ ends_at (slice_get items.now number) }
{
    match items.get(number) {
        Some(item) => item.to,
        None => 0,
    }
}

fn later(a: usize, b: usize) -> usize
    ensures { result ≡ specs.later a b }
{
    if a < b { b } else { a }
}

/// What becomes of a slice, where those before it end before a byte.
fn fate_of(items: &[Item], slice: &Slice, spelled: Option<&SliceSpelled>, before: usize) -> Fate
    ensures { result ≡ specs.fate_of items.now before (plain_slice slice.now) (option_copied spelled.entry) }
{
    let last = slice.to.saturating_sub(1);
    Fate {
        last: start_of(items, last),
        behind: later(before, end_of(items, last)),
        why: why_of(spelled),
    }
}

/// What is spelled of the slice with a number.
fn spelled_at(spelled: &[SliceSpelled], number: usize) -> Option<&SliceSpelled>
    ensures { option_copied result ≡ slice_get spelled.now number }
{
    spelled.get(number)
}

/// Pushes what becomes of the slices of a method, and gives the byte behind these and all slices before them.
fn push_fates(
    items: &[Item],
    method: &Sliced,
    spelled: &[SliceSpelled],
    before: usize,
    fates: &mut Items<Fate>,
) -> Result<usize, NoMemory>
    ensures { IfOk result (λ behind. (sts : List Stood)
        → fates.new ++ specs.fates_from items.now behind (length fates.new) sts spelled.now
        ≡ fates.old ++ specs.fates_from items.now before (length fates.old) (specs.slices_of (plain_sliced method.now) ++ sts) spelled.now) }
{
    let mut behind = before;
    for slice in method.slices.as_slice() {
        let fate = fate_of(items, slice, spelled_at(spelled, fates.len()), behind);
        fates.push(fate)?;
        behind = fate.behind;
    }
    Ok(behind)
}

fn fates_of(
    alloc: Global,
    items: &[Item],
    methods: &[Sliced],
    spelled: &[SliceSpelled],
) -> Result<Items<Fate>, NoMemory>
    ensures { IfOk result (λ fates. fates ≡ specs.fates_from items.now 0 0 (slices_in (all_sliced methods.now)) spelled.now) }
{
    let mut fates = Items::new(alloc);
    let mut behind = 0;
    for method in methods {
        behind = push_fates(items, method, spelled, behind, &mut fates)?;
    }
    Ok(fates)
}

// ---- Places

/// A file with the places of its bytes, the tokens that it is seen as, and what becomes of its slices.
#[derive(Drop)]
struct Reported<'a> {
    bytes: &'a [u8],
    marks: &'a [Place],
    items: &'a [Item],
    cells: &'a [Cell],
    stretches: &'a [Stretch],
    fates: &'a [Fate],
}

/// The byte of the file from which comes what stands at a byte of the text that it is seen as.
fn origin(r: &Reported, byte: u64) -> usize
    requires { r.now.stretches.now ≡ layout.stretches_of r.now.cells.now }
    ensures { result ≡ by_view.origin r.now.cells.now (layout.cell_at r.now.cells.now byte) }
{
    match cell_at(r.stretches, byte as usize) {
        Some(number) => match r.cells.get(number) {
            Some(cell) => cell.from,
            None => 0,
        },
        None => 0,
    }
}

fn place(r: &Reported, at: Span) -> Span
    requires marks { AreMarks r.now.bytes.now r.now.marks.now }
    requires laid { r.now.stretches.now ≡ layout.stretches_of r.now.cells.now }
    ensures { result ≡ by_view.place_in r.now.bytes.now r.now.cells.now at }
{
    span_by(r.bytes, r.marks, origin(r, at.start))
}

fn said_in(r: &Reported, said: Said) -> Said
    requires marks { AreMarks r.now.bytes.now r.now.marks.now }
    requires laid { r.now.stretches.now ≡ layout.stretches_of r.now.cells.now }
    ensures { result ≡ by_view.said_in r.now.bytes.now r.now.cells.now said }
{
    match said {
        Said::Outside { rule, at } => Said::Outside {
            rule,
            at: place(r, at),
        },
        said => said,
    }
}

fn verdict_in(r: &Reported, v: LoopVerdict) -> LoopVerdict
    requires marks { AreMarks r.now.bytes.now r.now.marks.now }
    requires laid { r.now.stretches.now ≡ layout.stretches_of r.now.cells.now }
    ensures { result ≡ by_view.verdict_in r.now.bytes.now r.now.cells.now v }
{
    LoopVerdict {
        at: place(r, v.at),
        said: said_in(r, v.said),
    }
}

// ---- Lines of loops that were tried

/// How many slices end before a byte.
fn ended_before(fates: &[Fate], byte: usize) -> usize
    requires { specs.AreInOrder 0 fates.now }
    ensures { specs.first_behind byte fates.now ≡ slice_get fates.now result }
{
    fates.partition_point(|fate| fate.behind <= byte)
}

/// What becomes of the slice in which a byte stands: the first one that ends behind it.
fn fate_at<'a>(r: &Reported<'a>, byte: usize) -> Option<&'a Fate>
    requires { specs.AreInOrder 0 r.now.fates.now }
    ensures { option_copied result ≡ specs.first_behind byte r.now.fates.now }
{
    let number = ended_before(r.fates, byte);
    r.fates.get(number)
}

fn why_at(r: &Reported, byte: usize) -> Why
    requires { specs.AreInOrder 0 r.now.fates.now }
    ensures { result ≡ specs.why_in (specs.first_behind byte r.now.fates.now) }
{
    match fate_at(r, byte) {
        Some(fate) => fate.why,
        None => Why::Written,
    }
}

/// Whether a byte is the last item of a slice, from which loops of what is printed come.
fn is_print(r: &Reported, byte: usize) -> bool
    requires { specs.AreInOrder 0 r.now.fates.now }
    ensures { result ≡ specs.is_last_of byte (specs.first_behind byte r.now.fates.now) }
{
    match fate_at(r, byte) {
        Some(fate) => byte == fate.last,
        None => false,
    }
}

/// What is said of a loop whose slice is written or not.
fn line_by(why: Why, verdict: LoopVerdict) -> ViewLine
    ensures { result ≡ specs.line_by why verdict verdict.said }
{
    match (why, verdict.said) {
        (Why::Shared, Said::Found { k: _ }) => ViewLine::Shared { at: verdict.at },
        (Why::Unlike, Said::Found { k: _ }) => ViewLine::Unlike { at: verdict.at },
        _ => ViewLine::Tried { verdict },
    }
}

/// The line of a loop that was tried.
fn tried_line(r: &Reported, v: LoopVerdict) -> ViewLine
    requires marks { AreMarks r.now.bytes.now r.now.marks.now }
    requires laid { r.now.stretches.now ≡ layout.stretches_of r.now.cells.now }
    requires order { specs.AreInOrder 0 r.now.fates.now }
    ensures { result ≡ specs.line_of r.now.bytes.now r.now.cells.now r.now.fates.now v }
{
    line_by(why_at(r, origin(r, v.at.start)), verdict_in(r, v))
}

// ---- All lines

fn unseen_line(r: &Reported, unseen: Loop) -> ViewLine
    requires { AreMarks r.now.bytes.now r.now.marks.now }
    ensures { by_view.is_tried result ≡ false }
{
    ViewLine::Unseen {
        at: span_by(r.bytes, r.marks, start_of(r.items, unseen.at)),
        rule: unseen.unseen.reason.number().min(12) as u32,
        because: span_by(r.bytes, r.marks, start_of(r.items, unseen.unseen.at)),
    }
}

/// Lines of the loops that begin before a byte; those behind are given back.
#[tactic(auto, using(crate::proofs::Told::other_line))]
fn push_loops<'a>(
    r: &Reported,
    loops: &'a [Loop],
    before: usize,
    lines: &mut Items<ViewLine>,
) -> Result<&'a [Loop], NoMemory>
    requires { AreMarks r.now.bytes.now r.now.marks.now }
    ensures { OnOk result (filter by_view.is_tried lines.new ≡ filter by_view.is_tried lines.old) }
{
    let mut rest = loops;
    for _ in 0..loops.len() {
        match rest {
            [first, behind @ ..] if start_of(r.items, first.at) < before => {
                lines.push(unseen_line(r, *first))?;
                rest = behind;
            }
            _ => return Ok(rest),
        }
    }
    Ok(rest)
}

/// Pushes the line of a loop that was tried behind those of loops that aren't seen and begin before it; those behind are given back. Loops of what
/// is printed have no line.
fn push_tried<'a>(
    r: &Reported,
    v: LoopVerdict,
    loops: &'a [Loop],
    lines: &mut Items<ViewLine>,
) -> Result<&'a [Loop], NoMemory>
    requires marks { AreMarks r.now.bytes.now r.now.marks.now }
    requires laid { r.now.stretches.now ≡ layout.stretches_of r.now.cells.now }
    requires order { specs.AreInOrder 0 r.now.fates.now }
    ensures { OnOk result (filter by_view.is_tried lines.new
        ≡ filter by_view.is_tried lines.old ++ specs.lines_of r.now.bytes.now r.now.cells.now r.now.fates.now (v ∷ [])) }
{
    let at = origin(r, v.at.start);
    if is_print(r, at) {
        return Ok(loops);
    }
    let rest = push_loops(r, loops, at, lines)?;
    lines.push(tried_line(r, v))?;
    Ok(rest)
}

/// The lines of loops that were tried and of those that aren't seen, in the order of the text.
fn lines_of(
    alloc: Global,
    r: &Reported,
    verdicts: &[LoopVerdict],
    loops: &[Loop],
) -> Result<Items<ViewLine>, NoMemory>
    requires marks { AreMarks r.now.bytes.now r.now.marks.now }
    requires laid { r.now.stretches.now ≡ layout.stretches_of r.now.cells.now }
    requires order { specs.AreInOrder 0 r.now.fates.now }
    ensures { IfOk result (λ lines. filter by_view.is_tried lines ≡ specs.lines_of r.now.bytes.now r.now.cells.now r.now.fates.now verdicts.now) }
{
    let mut lines = Items::new(alloc);
    let mut rest = loops;
    for v in verdicts {
        rest = push_tried(r, *v, rest, &mut lines)?;
    }
    push_loops(r, rest, usize::MAX, &mut lines)?;
    Ok(lines)
}

// ---- The report

fn report_of(
    alloc: Global,
    r: &Reported,
    verdicts: &[LoopVerdict],
    loops: &[Loop],
    dropped: u64,
) -> Result<Bytes, NoMemory>
    requires marks { AreMarks r.now.bytes.now r.now.marks.now }
    requires laid { r.now.stretches.now ≡ layout.stretches_of r.now.cells.now }
    requires order { specs.AreInOrder 0 r.now.fates.now }
    ensures { IfOk result (specs.IsReport (specs.lines_of r.now.bytes.now r.now.cells.now r.now.fates.now verdicts.now) dropped) }
{
    let lines = lines_of(alloc, r, verdicts, loops)?;
    rewrite_report(alloc, lines.as_slice(), dropped)
}

/// The report on a file of which nothing is seen.
pub fn report_unseen(
    alloc: Global,
    source: &[u8],
    items: &[Item],
    loops: &[Loop],
) -> Result<Bytes, NoMemory>
    ensures { IfOk result (specs.IsReport [] 0) }
{
    let marks = marks_in(alloc, source)?;
    let r = Reported {
        bytes: source,
        marks: marks.as_slice(),
        items,
        cells: &[],
        stretches: &[],
        fates: &[],
    };
    report_of(alloc, &r, &[], loops, 0)
}

/// The report on a file whose slices are seen as tokens, which stand in these stretches of their text: what became of each slice, what is said of
/// each loop that was tried, with places of that text, the loops that aren't seen, and how many candidates were dropped.
pub fn report_viewed(
    alloc: Global,
    source: &[u8],
    file: &File,
    methods: &[Sliced],
    cells: &[Cell],
    stretches: &[Stretch],
    spelled: &[SliceSpelled],
    verdicts: &[LoopVerdict],
    loops: &[Loop],
    dropped: u64,
) -> Result<Bytes, NoMemory>
    requires { stretches.now ≡ layout.stretches_of cells.now }
    ensures { IfOk result (specs.IsReport (specs.told_lines source.now cells.now (file_of file.now) (slices_in (all_sliced methods.now)) spelled.now verdicts.now) dropped) }
{
    let fates = fates_of(alloc, file.items, methods, spelled)?;
    let marks = marks_in(alloc, source)?;
    let r = Reported {
        bytes: source,
        marks: marks.as_slice(),
        items: file.items,
        cells,
        stretches,
        fates: fates.as_slice(),
    };
    report_of(alloc, &r, verdicts, loops, dropped)
}
