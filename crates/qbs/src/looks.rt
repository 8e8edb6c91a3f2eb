// What is written is looked at: whether each slice with patches is seen again in it.
ghost use Rattle.std.specs.Prelude.{◌≡◌, ◌+◌, ◌++◌, [], List, IfOk, IfSome, IsSomeAnd, option_copied, true, map, slice_get};
ghost use Rattle.qbs_base.specs.Values.{Schema};
ghost use Rattle.java_ast.specs.Reading.{program as plain_program};
ghost use Rattle.java_ast.specs.Tree.{PlainMethod};
ghost use Rattle.java_grammar.specs.ReadBack.{IsReadBack};
ghost use Rattle.java_grammar.specs.InGrammar.{IsInGrammar};
ghost use Rattle.java_grammar.specs.Written.{IsWritten};
ghost use Rattle.method_texts.specs.Alone.{alone as alone_of};
ghost use Rattle.view_map.specs.declared.model.ViewMap.{ViewMap};
ghost use Rattle.view_statements.specs.declared.slice.Read.{Read};
ghost use Rattle.view_slices.specs.Reading.{slice as plain_slice, slices as plain_slices, all_sliced};
ghost use Rattle.view_slices.specs.Slices.{file_of, is_slice_by};
ghost use Rattle.view_slices.specs.Views as views;
ghost use Rattle.view_slices.specs.Words as words;
ghost use Rattle.view_text.specs.Layout.{laid_out};
ghost use Rattle.qbs.specs.Looks as specs;
ghost use Rattle.qbs.specs.Looks.{IsMethodIn, IsRound, IsRoundIf, StandsAgain, IsPlaced, AreSeenFrom, AreSeenBehind, Leads};
ghost use Rattle.qbs.specs.SeenAgain.{Stood, stood_in, slices_in, slice_class, first_mark, IsSettled};

use crate::alone::{alone, class_text, is_text_of};
use crate::places::{Place, items_between, items_from, place_of, same_items};
use crate::written::Source;
use qbs_base::{Bytes, Items, NoMemory, boxed};
use std::alloc::Global;
use text_patches::TextPatch;
use view_map::ViewMap;
use view_read::{Again, Class, known_of, method_again, parts_of, read_again};
use view_scope::{Standing, standing_of, tested_in};
use view_shapes::{File, Stretch, members_of};
use view_slices::{
    Known, are_words, is_again, is_member, is_slice, known_in, looked_at, open_file,
};
use view_spell::{Mark, SliceSpelled, with_spelled};
use view_statements::{Read, Slice};

/// The number behind another one, unless so many things are more than fit into memory.
fn following(number: usize) -> Result<usize, NoMemory>
    ensures { IfOk result (λ n. n ≡ number + 1) }
{
    match number.checked_add(1) {
        Some(n) => Ok(n),
        None => Err(NoMemory),
    }
}

// ---- Methods

/// A method of what is written: what may be read in it, its statements, and where it tests variables for null; and whether it is one of the file, in
/// which this may be read.
#[derive(Drop)]
struct Around {
    again: Again,
    standing: Items<Standing>,
    tested: Items<Stretch>,
    is: bool,
}

/// Whether a method is the member in which an item stands, and this may be read in it.
#[tactic(auto, using(crate::proofs::Looking::is_method_by))]
fn is_method(
    alloc: Global,
    map: &ViewMap,
    file: &File,
    known: &Known,
    members: &[Stretch],
    at: usize,
    read: &Read,
) -> Result<bool, NoMemory>
    requires known { known.now ≡ words.known_in map.now (file_of file.now) }
    requires members { members.now ≡ words.members (file_of file.now) }
    ensures { IfOk result (λ is. is ≡ true → IsMethodIn map.now (file_of file.now) read.now) }
{
    let number = members.partition_point(|member| member.to < at);
    match members.get(number) {
        Some(member) => {
            let is = is_member(alloc, file, *member, &read.method)?;
            Ok(is && are_words(map, file, known, &read.method, &read.words))
        }
        None => Ok(false),
    }
}

/// A method with its statements, and where it tests variables for null.
fn round_of(alloc: Global, file: &File, again: Again, is: bool) -> Result<Box<Around>, NoMemory>
    ensures is { IfOk result (λ a. a.value.is ≡ is) }
    ensures read { IfOk result (λ a. a.value.again.read ≡ again.read) }
    ensures standing { IfOk result (λ a. a.value.standing ≡ specs.standing_in (file_of file.now) again.read) }
    ensures tested { IfOk result (λ a. a.value.tested ≡ specs.tested_by (file_of file.now) again.read) }
{
    let from = again.read.method.from;
    let to = again.read.method.to;
    let standing = standing_of(alloc, file.items, file.closings, Stretch { from, to })?;
    let tested = tested_in(alloc, file.items, file.closings, file.rounds, from, to)?;
    boxed(
        alloc,
        Around {
            again,
            standing,
            tested,
            is,
        },
    )
}

/// The method of what is written in which a slice stands.
fn method_round(
    alloc: Global,
    map: &ViewMap,
    file: &File,
    class: &Class,
    known: &Known,
    members: &[Stretch],
    at: Place,
) -> Result<Option<Box<Around>>, NoMemory>
    requires known { known.now ≡ words.known_in map.now (file_of file.now) }
    requires members { members.now ≡ words.members (file_of file.now) }
    ensures { IfOk result (λ found. IfSome found (λ a. IsRoundIf map.now (file_of file.now) a.value.again.read a.value.standing a.value.tested a.value.is)) }
{
    match method_again(alloc, class, at.from, at.to)? {
        Some(again) => {
            let is = is_method(alloc, map, file, known, members, at.to, &again.read)?;
            Ok(Some(round_of(alloc, file, again, is)?))
        }
        None => Ok(None),
    }
}

// ---- Slices

/// Whether what was read from one item up to another is a slice again, and stands there.
fn is_there(
    alloc: Global,
    source: &Source,
    read: &File,
    file: &File,
    around: &Around,
    slice: &Slice,
    again: &Slice,
    at: Place,
) -> Result<bool, NoMemory>
    ensures from { IfOk result (λ is. is ≡ true → again.now.from ≡ at.from) }
    ensures to { IfOk result (λ is. is ≡ true → again.now.to ≡ at.to) }
    ensures same { IfOk result (λ is. is ≡ true → views.is_again read.now.items.now (plain_slice slice.now) file.now.items.now (plain_slice again.now) ≡ true) }
    ensures is { IfOk result (λ is. is ≡ true → is_slice_by source.now.map.now source.now.schema.now (file_of file.now) around.now.again.read.words around.now.again.read.method around.now.standing around.now.tested (plain_slice again.now) ≡ true) }
{
    if again.from != at.from {
        return Ok(false);
    }
    if again.to != at.to {
        return Ok(false);
    }
    if !is_again(read.items, slice, file.items, again) {
        return Ok(false);
    }
    is_slice(
        alloc,
        source.map,
        source.schema.tables(),
        file,
        &around.again.read.words,
        &around.again.read.method,
        around.standing.as_slice(),
        around.tested.as_slice(),
        again,
    )
}

/// Whether a slice is seen as the method with a number that rewriting left.
fn is_left(
    alloc: Global,
    source: &Source,
    file: &File,
    read: &Read,
    again: &Slice,
    number: usize,
) -> Result<bool, NoMemory>
    requires grammar { IsInGrammar (plain_program source.now.left.now) }
    requires written { IsWritten (plain_program source.now.left.now) }
    ensures { IfOk result (λ is. is ≡ true → IsSomeAnd (slice_get (plain_program source.now.left.now).methods number)
        (λ method. IsReadBack (laid_out (slice_class source.now.map.now source.now.schema.now (file_of file.now) (number + 1) (stood_in read.now (plain_slice again.now)))) (alone_of method))) }
{
    match source.left.methods.as_slice().get(number) {
        Some(method) => {
            let program = alone(alloc, method)?;
            let text = class_text(alloc, source, file, read, again, following(number)? as u64)?;
            is_text_of(alloc, &text, &program)
        }
        None => Ok(false),
    }
}

/// Whether what was read is the slice again, as the method with a number that rewriting left.
fn is_slice_again(
    alloc: Global,
    source: &Source,
    read: &File,
    file: &File,
    around: &Around,
    slice: &Slice,
    again: &Slice,
    number: usize,
    at: Place,
) -> Result<bool, NoMemory>
    requires round { IsRound source.now.map.now (file_of file.now) around.now.again.read around.now.standing around.now.tested }
    requires grammar { IsInGrammar (plain_program source.now.left.now) }
    requires written { IsWritten (plain_program source.now.left.now) }
    ensures { IfOk result (λ is. is ≡ true → StandsAgain source.now.map.now source.now.schema.now read.now.items.now (file_of file.now)
        (plain_program source.now.left.now).methods number (plain_slice slice.now) at.from at.to) }
{
    if is_there(alloc, source, read, file, around, slice, again, at)? {
        is_left(alloc, source, file, &around.again.read, again, number)
    } else {
        Ok(false)
    }
}

/// Whether a slice is seen again where it stands in what is written, as the method with a number that rewriting left.
fn is_seen_again(
    alloc: Global,
    source: &Source,
    read: &File,
    file: &File,
    class: &Class,
    around: &Around,
    slice: &Slice,
    number: usize,
    at: Place,
) -> Result<bool, NoMemory>
    requires round { IsRound source.now.map.now (file_of file.now) around.now.again.read around.now.standing around.now.tested }
    requires grammar { IsInGrammar (plain_program source.now.left.now) }
    requires written { IsWritten (plain_program source.now.left.now) }
    ensures { IfOk result (λ is. is ≡ true → StandsAgain source.now.map.now source.now.schema.now read.now.items.now (file_of file.now)
        (plain_program source.now.left.now).methods number (plain_slice slice.now) at.from at.to) }
{
    match read_again(alloc, class, &around.again, slice, at.from, at.to)? {
        Some(again) => is_slice_again(alloc, source, read, file, around, slice, &again, number, at),
        None => Ok(false),
    }
}

// ---- Slices one behind the other

/// How far what is written was looked at: the number of the next slice, the mark behind the last patch, and the items behind the last slice with
/// patches, in the source and in what is written.
#[derive(Clone, Copy)]
pub struct Reached {
    pub number: usize,
    pub mark: Mark,
    pub read: usize,
    pub written: usize,
}

/// The patches of a slice that is written.
fn patched_in(spelled: &SliceSpelled) -> Option<&[TextPatch]>
    ensures { option_copied result ≡ specs.patched_in spelled.now }
{
    match spelled {
        SliceSpelled::Patched(patches) => Some(patches.as_slice()),
        SliceSpelled::Left | SliceSpelled::Unlike | SliceSpelled::Shared => None,
    }
}

/// The patches of the slice of a number, if it is written.
fn patches_at(spelled: &[SliceSpelled], number: usize) -> Option<&[TextPatch]>
    ensures { option_copied result ≡ specs.patches_at spelled.now number }
{
    match spelled.get(number) {
        Some(one) => patched_in(one),
        None => None,
    }
}

/// Where a slice with patches stands in what is written, where the items before it are those of the source, and how far it is looked at then.
fn placed(
    read: &File,
    file: &File,
    slice: &Slice,
    patches: &[TextPatch],
    reached: Reached,
) -> Option<(Place, Reached)>
    ensures { IfSome result (λ p. IsPlaced read.now.items.now file.now.items.now (plain_slice slice.now) patches.now reached p.0.from p.0.to p.1) }
{
    let (at, mark) = place_of(read.items, file.items, slice, reached.mark, patches)?;
    let number = reached.number.checked_add(1)?;
    let before = items_between(read.items, reached.read, slice.from);
    if same_items(before, items_between(file.items, reached.written, at.from)) {
        let behind = Reached {
            number,
            mark,
            read: slice.to,
            written: at.to,
        };
        Some((at, behind))
    } else {
        None
    }
}

/// Whether a slice is seen again in a method that was looked for, where this is one of the file in which it may be read.
fn is_seen_in(
    alloc: Global,
    source: &Source,
    read: &File,
    file: &File,
    class: &Class,
    around: &Around,
    slice: &Slice,
    number: usize,
    at: Place,
) -> Result<bool, NoMemory>
    requires round { IsRoundIf source.now.map.now (file_of file.now) around.now.again.read around.now.standing around.now.tested around.now.is }
    requires grammar { IsInGrammar (plain_program source.now.left.now) }
    requires written { IsWritten (plain_program source.now.left.now) }
    ensures { IfOk result (λ is. is ≡ true → StandsAgain source.now.map.now source.now.schema.now read.now.items.now (file_of file.now)
        (plain_program source.now.left.now).methods number (plain_slice slice.now) at.from at.to) }
{
    if around.is {
        is_seen_again(alloc, source, read, file, class, around, slice, number, at)
    } else {
        Ok(false)
    }
}

/// Looks for a slice in a method that was looked for, and keeps this for the slices behind.
fn look_around(
    alloc: Global,
    source: &Source,
    read: &File,
    file: &File,
    class: &Class,
    slice: &Slice,
    number: usize,
    at: Place,
    around: Box<Around>,
    round: &mut Option<Box<Around>>,
) -> Result<bool, NoMemory>
    requires is { IsRoundIf source.now.map.now (file_of file.now) around.value.again.read around.value.standing around.value.tested around.value.is }
    requires grammar { IsInGrammar (plain_program source.now.left.now) }
    requires written { IsWritten (plain_program source.now.left.now) }
    ensures round { IfOk result (λ is. IfSome round.new (λ a. IsRoundIf source.now.map.now (file_of file.now) a.value.again.read a.value.standing a.value.tested a.value.is)) }
    ensures seen { IfOk result (λ is. is ≡ true → StandsAgain source.now.map.now source.now.schema.now read.now.items.now (file_of file.now)
        (plain_program source.now.left.now).methods number (plain_slice slice.now) at.from at.to) }
{
    let is = is_seen_in(alloc, source, read, file, class, &around, slice, number, at)?;
    *round = Some(around);
    Ok(is)
}

/// Looks for a slice with patches at its place, in a method that is looked for once.
fn look_there(
    alloc: Global,
    source: &Source,
    read: &File,
    file: &File,
    class: &Class,
    known: &Known,
    members: &[Stretch],
    slice: &Slice,
    number: usize,
    at: Place,
    round: &mut Option<Box<Around>>,
) -> Result<bool, NoMemory>
    requires known { known.now ≡ words.known_in source.now.map.now (file_of file.now) }
    requires members { members.now ≡ words.members (file_of file.now) }
    requires grammar { IsInGrammar (plain_program source.now.left.now) }
    requires written { IsWritten (plain_program source.now.left.now) }
    requires round { IfSome round.old (λ a. IsRoundIf source.now.map.now (file_of file.now) a.value.again.read a.value.standing a.value.tested a.value.is) }
    ensures round { IfOk result (λ is. IfSome round.new (λ a. IsRoundIf source.now.map.now (file_of file.now) a.value.again.read a.value.standing a.value.tested a.value.is)) }
    ensures seen { IfOk result (λ is. is ≡ true → StandsAgain source.now.map.now source.now.schema.now read.now.items.now (file_of file.now)
        (plain_program source.now.left.now).methods number (plain_slice slice.now) at.from at.to) }
{
    match round.take() {
        Some(around) => look_around(
            alloc, source, read, file, class, slice, number, at, around, round,
        ),
        None => match method_round(alloc, source.map, file, class, known, members, at)? {
            Some(around) => look_around(
                alloc, source, read, file, class, slice, number, at, around, round,
            ),
            None => Ok(false),
        },
    }
}

/// Looks at the next slice. Where it isn't at its place, nothing behind it is looked at.
#[tactic(auto, using(crate::proofs::Looking::stays_leads))]
fn look_at_slice(
    alloc: Global,
    source: &Source,
    read: &File,
    file: &File,
    class: &Class,
    known: &Known,
    members: &[Stretch],
    slice: &Slice,
    spelled: &[SliceSpelled],
    round: &mut Option<Box<Around>>,
    reached: &mut Reached,
    failed: &mut Vec<usize>,
) -> Result<bool, NoMemory>
    requires known { known.now ≡ words.known_in source.now.map.now (file_of file.now) }
    requires members { members.now ≡ words.members (file_of file.now) }
    requires grammar { IsInGrammar (plain_program source.now.left.now) }
    requires written { IsWritten (plain_program source.now.left.now) }
    requires round { IfSome round.old (λ a. IsRoundIf source.now.map.now (file_of file.now) a.value.again.read a.value.standing a.value.tested a.value.is) }
    ensures round { IfOk result (λ all. IfSome round.new (λ a. IsRoundIf source.now.map.now (file_of file.now) a.value.again.read a.value.standing a.value.tested a.value.is)) }
    ensures few { IfOk result (λ all. failed.new.items ≡ [] → failed.old.items ≡ []) }
    ensures seen { IfOk result (λ all. all ≡ true → failed.new.items ≡ []
        → Leads source.now.map.now source.now.schema.now (file_of read.now) (file_of file.now) (plain_program source.now.left.now).methods spelled.now reached.old reached.new (plain_slice slice.now)) }
{
    let number = reached.number;
    if number >= spelled.len() {
        return Ok(false);
    }
    let Some(patches) = patches_at(spelled, number) else {
        reached.number = following(number)?;
        return Ok(true);
    };
    let Some((at, behind)) = placed(read, file, slice, patches, *reached) else {
        failed.push(number)?;
        return Ok(false);
    };
    *reached = behind;
    if look_there(
        alloc, source, read, file, class, known, members, slice, number, at, round,
    )? {
        Ok(true)
    } else {
        failed.push(number)?;
        Ok(true)
    }
}

/// Looks at the slices of a method.
fn look_at_method(
    alloc: Global,
    source: &Source,
    read: &File,
    file: &File,
    class: &Class,
    known: &Known,
    members: &[Stretch],
    slices: &[Slice],
    spelled: &[SliceSpelled],
    reached: &mut Reached,
    failed: &mut Vec<usize>,
) -> Result<bool, NoMemory>
    requires known { known.now ≡ words.known_in source.now.map.now (file_of file.now) }
    requires members { members.now ≡ words.members (file_of file.now) }
    requires grammar { IsInGrammar (plain_program source.now.left.now) }
    requires written { IsWritten (plain_program source.now.left.now) }
    ensures few { IfOk result (λ all. failed.new.items ≡ [] → failed.old.items ≡ []) }
    ensures seen { IfOk result (λ all. all ≡ true → failed.new.items ≡ [] → (in_method : Read) (sts : List Stood)
        → AreSeenBehind source.now.map.now source.now.schema.now (file_of read.now) (file_of file.now) (plain_program source.now.left.now).methods spelled.now reached.new sts
        → AreSeenBehind source.now.map.now source.now.schema.now (file_of read.now) (file_of file.now) (plain_program source.now.left.now).methods spelled.now reached.old (map (stood_in in_method) (plain_slices slices.now) ++ sts)) }
{
    let mut round = None;
    for slice in slices {
        let all = look_at_slice(
            alloc, source, read, file, class, known, members, slice, spelled, &mut round, reached,
            failed,
        )?;
        if !all {
            return Ok(false);
        }
    }
    Ok(true)
}

/// Whether all that is left in both files is the same, and no slice is left.
#[tactic(auto, using(crate::proofs::Looking::seen_to_end))]
fn is_end(read: &File, file: &File, spelled: &[SliceSpelled], reached: Reached) -> bool
    ensures { result ≡ true → (m : ViewMap) (tables : Schema) (methods : List PlainMethod) → AreSeenBehind m tables (file_of read.now) (file_of file.now) methods spelled.now reached [] }
{
    reached.number == spelled.len()
        && same_items(
            items_from(read.items, reached.read),
            items_from(file.items, reached.written),
        )
}

/// Looks at all slices in the methods of the source, one behind the other.
fn look_at_methods(
    alloc: Global,
    source: &Source,
    read: &File,
    file: &File,
    class: &Class,
    known: &Known,
    members: &[Stretch],
    spelled: &[SliceSpelled],
    failed: &mut Vec<usize>,
) -> Result<bool, NoMemory>
    requires known { known.now ≡ words.known_in source.now.map.now (file_of file.now) }
    requires members { members.now ≡ words.members (file_of file.now) }
    requires grammar { IsInGrammar (plain_program source.now.left.now) }
    requires written { IsWritten (plain_program source.now.left.now) }
    ensures { IfOk result (λ all. all ≡ true → AreSeenFrom source.now.map.now source.now.schema.now (file_of read.now) (file_of file.now) (plain_program source.now.left.now).methods
        first_mark 0 0 0 (slices_in (all_sliced source.now.methods.now)) spelled.now) }
{
    let mut reached = Reached {
        number: 0,
        mark: Mark {
            byte: 0,
            written: 0,
        },
        read: 0,
        written: 0,
    };
    for method in source.methods {
        let slices = method.slices.as_slice();
        let all = look_at_method(
            alloc,
            source,
            read,
            file,
            class,
            known,
            members,
            slices,
            spelled,
            &mut reached,
            failed,
        )?;
        if !all {
            return Ok(false);
        }
    }
    Ok(failed.is_empty() && is_end(read, file, spelled, reached))
}

/// Looks at all slices in a file that was written, and pushes the numbers of those that fail.
fn look_at_file(
    alloc: Global,
    source: &Source,
    read: &File,
    file: &File,
    spelled: &[SliceSpelled],
    failed: &mut Vec<usize>,
) -> Result<bool, NoMemory>
    requires grammar { IsInGrammar (plain_program source.now.left.now) }
    requires written { IsWritten (plain_program source.now.left.now) }
    ensures { IfOk result (λ all. all ≡ true → AreSeenFrom source.now.map.now source.now.schema.now (file_of read.now) (file_of file.now) (plain_program source.now.left.now).methods
        first_mark 0 0 0 (slices_in (all_sliced source.now.methods.now)) spelled.now) }
{
    let members = members_of(alloc, file.items, file.closings, file.class.from)?;
    let known = known_in(alloc, source.map, file, members.as_slice())?;
    let parts = parts_of(alloc, file)?;
    let class = known_of(alloc, source.map, source.schema.tables(), file, &parts)?;
    look_at_methods(
        alloc,
        source,
        read,
        file,
        &class,
        &known,
        members.as_slice(),
        spelled,
        failed,
    )
}

/// The file with what is spelled of slices in place, if all of them are seen again in it; the numbers of those that fail are pushed.
#[tactic(auto, using(crate::proofs::Looking::settled_there))]
pub fn look(
    alloc: Global,
    source: &Source,
    read: &File,
    spelled: &[SliceSpelled],
    failed: &mut Vec<usize>,
) -> Result<Option<Bytes>, NoMemory>
    requires grammar { IsInGrammar (plain_program source.now.left.now) }
    requires written { IsWritten (plain_program source.now.left.now) }
    ensures { IfOk result (λ found. IfSome found (λ out. IsSettled source.now.map.now source.now.schema.now source.now.bytes.now (file_of read.now)
        (plain_program source.now.left.now).methods (slices_in (all_sliced source.now.methods.now)) spelled.now out)) }
{
    let out = with_spelled(alloc, source.bytes, spelled)?;
    match open_file(alloc, source.map, out.as_slice())? {
        Some(file) => {
            if look_at_file(alloc, source, read, &looked_at(&file), spelled, failed)? {
                Ok(Some(out))
            } else {
                Ok(None)
            }
        }
        None => Ok(None),
    }
}
