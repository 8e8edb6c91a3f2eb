// The patches of a file, slice by slice.
ghost use Rattle.std.specs.Prelude.{◌≡◌, ◌≤◌, ◌++◌, List, length, true, false, IfOk, IfSome, OnOk};
ghost use Rattle.std.specs.List.{prefix_len};
ghost use Rattle.java_stretches.specs.Patches.{PlainPatch, plain_patch, plain_patches};
ghost use Rattle.view_statements.specs.Slices.{PlainSlice, slice as plain, sliced as plain_sliced, all_sliced};
ghost use Rattle.view_text.specs.Layout.{stretches_of};
ghost use Rattle.view_shapes.specs.declared.method.Method.{Method};
ghost use Rattle.view_spell.specs.Origins.{origin_to};
ghost use Rattle.view_spell.specs.Placed as specs;
ghost use Rattle.view_spell.specs.Reading.{seen_as};
ghost use Rattle.view_spell.specs.Shared.{SeenAs, any_shared as any_shared_in};

use crate::arguments::Spelling;
use crate::blocks::push_block;
use crate::fetched::{Fetched, fetched_in};
use crate::origins::{Origin, Seen, Taken, line_of, margin_at, origin_of_items, stretch_taken};
use crate::shared::any_shared;
use crate::spelled::{SliceSpelled, SlicesSpelled};
use crate::starts::{Start, Starts, push_starts_of};
use java_stretches::Patch;
use qbs_base::{NoMemory, Text};
use std::alloc::Global;
use text_patches::{TextPatch, TextPatches};
use view_statements::{Slice, Sliced};

// ---- Patches

/// Where the line begins in which a byte of the file stands.
#[derive(Clone, Copy)]
struct Line {
    begin: usize,
    byte: usize,
}

fn text_of(out: Vec<u8>, spelled: bool) -> Option<Text> {
    if spelled { Text::from_vec(out) } else { None }
}

/// A patch of the file: none where it can't be spelled.
fn spell_patch(
    alloc: Global,
    seen: &Seen,
    slice: &Slice,
    starts: &[Start],
    taken: Taken,
    line: Line,
    patch: &Patch,
) -> Result<Option<TextPatch>, NoMemory>
    requires { seen.now.stretches.now ≡ stretches_of seen.now.cells.now }
    ensures { IfOk result (λ o. IfSome o (λ t. (t.from ≡ taken.at.from) × (t.to ≡ taken.at.to))) }
{
    let s = Spelling {
        seen,
        slice,
        starts,
        before: taken.at.to,
    };
    let margin = margin_at(seen.source, line.begin);
    let mut out = Vec::new(alloc);
    let spelled = push_block(alloc, &mut out, &s, taken, margin, patch.block.as_slice())?;
    match text_of(out, spelled) {
        Some(text) => Ok(Some(TextPatch {
            from: taken.at.from as u64,
            to: taken.at.to as u64,
            text,
        })),
        None => Ok(None),
    }
}

fn line_at(seen: &Seen, line: Line, byte: usize) -> Line {
    Line {
        begin: line_of(seen.source, line.begin, line.byte, byte),
        byte,
    }
}

/// The patches of the file for those of a slice: none where one of them can't be spelled.
fn spell_patches(
    alloc: Global,
    seen: &Seen,
    slice: &Slice,
    starts: &[Start],
    line: &mut Line,
    patches: &[Patch],
) -> Result<Option<TextPatches>, NoMemory>
    requires { seen.now.stretches.now ≡ stretches_of seen.now.cells.now }
    ensures { IfOk result (λ o. IfSome o (λ ts. specs.take_each (seen_as seen.now) (plain slice.now) (plain_patches patches.now) ts ≡ true)) }
{
    let mut spelled = TextPatches::new(alloc);
    for patch in patches {
        let Some(taken) = stretch_taken(seen, slice, patch.from, patch.to) else {
            return Ok(None);
        };
        *line = line_at(seen, *line, taken.at.from);
        match spell_patch(alloc, seen, slice, starts, taken, *line, patch)? {
            Some(patch) => spelled.push(patch)?,
            None => return Ok(None),
        }
    }
    Ok(Some(spelled))
}

// ---- Places

/// Whether patches are in order and apart, from one byte of the file up to another.
fn are_apart(from: u64, to: u64, patches: &[TextPatch]) -> bool
    ensures { result ≡ specs.are_apart from to patches.now }
{
    let mut from = from;
    for patch in patches {
        if patch.from < from || patch.to < patch.from {
            return false;
        }
        from = patch.to;
    }
    from <= to
}

/// What patches of a slice are, where they lie in its bytes and behind those of the slices before it, which end at a byte of the file.
#[tactic(auto, using(crate::proofs::Apart::apart_from, crate::proofs::Apart::apart_none))]
fn placed(source: &[u8], at: Option<Origin>, last: &mut usize, patches: TextPatches) -> SliceSpelled
    requires { last.old ≤ length source.now }
    ensures within { last.new ≤ length source.now }
    ensures apart { specs.are_apart last.old last.new (specs.patches_in result) ≡ true }
    ensures spelling { (seen : SeenAs) (s : PlainSlice) (ps : List PlainPatch) → at ≡ origin_to seen.items s.from s.to → specs.take_each seen s ps patches ≡ true → specs.is_spelling seen s ps result ≡ true }
{
    match at {
        Some(at) => {
            if *last <= at.from
                && at.to <= source.len()
                && are_apart(at.from as u64, at.to as u64, patches.as_slice())
            {
                *last = at.to;
                SliceSpelled::Patched(patches)
            } else {
                SliceSpelled::Unlike
            }
        }
        None => SliceSpelled::Unlike,
    }
}

// ---- Slices

/// The patches of a slice in the words of the file.
#[tactic(auto, using(crate::proofs::Apart::apart_none))]
fn spell_words(
    alloc: Global,
    seen: &Seen,
    slice: &Slice,
    line: &mut Line,
    last: &mut usize,
    patches: &[Patch],
) -> Result<SliceSpelled, NoMemory>
    requires laid { seen.now.stretches.now ≡ stretches_of seen.now.cells.now }
    requires within { last.old ≤ length seen.now.source.now }
    ensures within { last.new ≤ length seen.now.source.now }
    ensures apart { IfOk result (λ x. specs.are_apart last.old last.new (specs.patches_in x) ≡ true) }
    ensures spelling { IfOk result (λ x. specs.is_spelling (seen_as seen.now) (plain slice.now) (plain_patches patches.now) x ≡ true) }
{
    let mut starts = Starts::new(alloc);
    push_starts_of(slice, &mut starts)?;
    match spell_patches(alloc, seen, slice, starts.as_slice(), line, patches)? {
        Some(spelled) => {
            let at = origin_of_items(seen.items, slice.from, slice.to);
            Ok(placed(seen.source, at, last, spelled))
        }
        None => Ok(SliceSpelled::Unlike),
    }
}

#[tactic(auto, using(crate::proofs::Apart::apart_none, crate::proofs::Answered::answer_left, crate::proofs::Answered::answer_shared, crate::proofs::Answered::answer_spelled))]
fn spell_slice(
    alloc: Global,
    seen: &Seen,
    slice: &Slice,
    fetched: &[Fetched],
    line: &mut Line,
    last: &mut usize,
    patches: &[Patch],
) -> Result<SliceSpelled, NoMemory>
    requires laid { seen.now.stretches.now ≡ stretches_of seen.now.cells.now }
    requires within { last.old ≤ length seen.now.source.now }
    ensures within { last.new ≤ length seen.now.source.now }
    ensures apart { IfOk result (λ x. specs.are_apart last.old last.new (specs.patches_in x) ≡ true) }
    ensures answer { IfOk result (λ x. specs.is_answer_where (seen_as seen.now) (plain slice.now) (any_shared_in (seen_as seen.now) (plain slice.now) fetched.now (plain_patches patches.now)) (plain_patches patches.now) x ≡ true) }
{
    match patches {
        [] => Ok(SliceSpelled::Left),
        [_, ..] => {
            if any_shared(alloc, seen, slice, fetched, patches)? {
                Ok(SliceSpelled::Shared)
            } else {
                spell_words(alloc, seen, slice, line, last, patches)
            }
        }
    }
}

/// Whether a patch is one of the method with this number.
fn is_in_method(number: usize, patch: &Patch) -> bool
    ensures { result ≡ specs.is_in_method number (plain_patch patch.now) }
{
    match patch.path.as_slice().first() {
        Some(method) => *method == number as u64,
        None => false,
    }
}

/// How many patches at the front are those of the method with this number.
fn count_of(number: usize, patches: &[Patch]) -> usize
    ensures count { result ≡ prefix_len (specs.is_in_method number) (plain_patches patches.now) }
    ensures bound { result ≤ length patches.now }
{
    let mut rest = patches;
    let mut count = 0;
    while let [patch, behind @ ..] = rest {
        if !is_in_method(number, patch) {
            return count;
        }
        count += 1;
        rest = behind;
    }
    count
}

/// Pushes what becomes of the patches of a method's slices, of which the first has the number of what was pushed before, and gives the patches
/// that are left.
fn spell_method<'a>(
    alloc: Global,
    seen: &Seen,
    sliced: &Sliced,
    line: &mut Line,
    last: &mut usize,
    patches: &'a [Patch],
    spelled: &mut SlicesSpelled,
) -> Result<&'a [Patch], NoMemory>
    requires laid { seen.now.stretches.now ≡ stretches_of seen.now.cells.now }
    requires within { last.old ≤ length seen.now.source.now }
    ensures within { last.new ≤ length seen.now.source.now }
    ensures apart { OnOk result (specs.are_apart 0 last.old (specs.patches_of spelled.old) ≡ true → specs.are_apart 0 last.new (specs.patches_of spelled.new) ≡ true) }
    ensures answers { IfOk result (λ rest. (ss : List (Method × PlainSlice)) (ps : List PlainPatch) → specs.AreAnswered (seen_as seen.now) ss ps spelled.old (plain_patches patches.now) → specs.AreAnswered (seen_as seen.now) (ss ++ specs.slices_in (plain_sliced sliced.now)) ps spelled.new (plain_patches rest.now)) }
{
    let mut rest = patches;
    let fetched = fetched_in(alloc, seen.map, seen.items, &sliced.read.method)?;
    for slice in sliced.slices.as_slice() {
        let (own, behind) = rest.split_at(count_of(spelled.len(), rest));
        let one = spell_slice(alloc, seen, slice, fetched.as_slice(), line, last, own)?;
        spelled.push(one)?;
        rest = behind;
    }
    Ok(rest)
}

/// What becomes of the patches of what a file is seen as: one answer for each slice, in their order. The patches are in the order of the text,
/// and the slice with a number is seen as the method with that number. What is said of the file by the answers is in order and apart. It fails
/// only by want of memory.
pub fn spell(
    alloc: Global,
    seen: &Seen,
    methods: &[Sliced],
    patches: &[Patch],
) -> Result<SlicesSpelled, NoMemory>
    requires laid { seen.now.stretches.now ≡ stretches_of seen.now.cells.now }
    ensures answers { IfOk result (λ spelled. specs.are_answers (seen_as seen.now) 0 (specs.slices_with (all_sliced methods.now)) (plain_patches patches.now) spelled ≡ true) }
    ensures apart { IfOk result (λ spelled. specs.are_apart 0 (length seen.now.source.now) (specs.patches_of spelled) ≡ true) }
{
    let mut spelled = SlicesSpelled::new(alloc);
    let mut line = Line { begin: 0, byte: 0 };
    let mut last = 0;
    let mut rest = patches;
    for sliced in methods {
        rest = spell_method(
            alloc,
            seen,
            sliced,
            &mut line,
            &mut last,
            rest,
            &mut spelled,
        )?;
    }
    Ok(spelled)
}
