// What is written in place of slices: what isn't seen again there is left as it was.
ghost use Rattle.std.specs.Prelude.{◌≡◌, ℕ, List, IfOk, IfSome, Some, true, length, map, slice_get};
ghost use Rattle.java_ast.specs.Reading.{program as plain_program};
ghost use Rattle.java_grammar.specs.InGrammar.{IsInGrammar};
ghost use Rattle.java_grammar.specs.Written.{IsWritten};
ghost use Rattle.java_stretches.specs.Patches.{PlainPatch};
ghost use Rattle.view_shapes.specs.declared.method.Method.{Method};
ghost use Rattle.view_slices.specs.Reading.{all_sliced};
ghost use Rattle.view_slices.specs.Slices.{file_of, PlainSlice};
ghost use Rattle.view_slices.specs.Views.{file_in};
ghost use Rattle.view_spell.specs.Placed.{are_answers, are_apart, patches_of, slices_with};
ghost use Rattle.view_spell.specs.Shared.{SeenAs};
ghost use Rattle.qbs.specs.Looks as specs;
ghost use Rattle.qbs.specs.Looks.{AreFewer};
ghost use Rattle.qbs.specs.SeenAgain.{slices_in, IsSettled};

use crate::looks::look;
use java_ast::Program;
use qbs_base::{Bytes, Items, NoMemory};
use schema::Schema;
use std::alloc::Global;
use view_items::Item;
use view_map::ViewMap;
use view_shapes::File;
use view_spell::{SliceSpelled, SlicesSpelled, leave_out, with_spelled};
use view_statements::Sliced;

/// How often what is written is looked at before all slices are left as they are.
const MOST_LOOKS: usize = 16;

/// A file that was read, its methods with their slices, and the program that rewriting left of what is seen of it.
#[derive(Drop)]
pub struct Source<'a> {
    pub map: &'a ViewMap,
    pub schema: &'a Schema,
    pub bytes: &'a [u8],
    pub items: &'a [Item],
    pub methods: &'a [Sliced],
    pub left: &'a Program,
}

/// What is written of slices, and the file with that in place.
#[derive(Drop)]
pub struct Settled {
    pub spelled: SlicesSpelled,
    pub out: Bytes,
}

// ---- Slices that are left

fn is_patched(spelled: &SliceSpelled) -> bool
    ensures { result ≡ specs.is_patched spelled.now }
{
    match spelled {
        SliceSpelled::Patched(_) => true,
        SliceSpelled::Left | SliceSpelled::Unlike | SliceSpelled::Shared => false,
    }
}

fn is_patched_at(spelled: &[SliceSpelled], number: usize) -> bool
    ensures { result ≡ specs.is_patched_some (slice_get spelled.now number) }
{
    match spelled.get(number) {
        Some(one) => is_patched(one),
        None => false,
    }
}

/// Leaves the slice of a number as it is, if it has patches.
#[tactic(auto, using(crate::proofs::Leaving::same_fewer))]
fn leave_patched(spelled: &mut Vec<SliceSpelled>, number: usize)
    ensures { AreFewer spelled.old.items spelled.new.items }
{
    if is_patched_at(spelled.as_slice(), number) {
        leave_out(spelled, number);
    }
}

/// Leaves slices that fail as they are.
#[tactic(auto, using(crate::proofs::Leaving::fewer_then, crate::proofs::Leaving::same_fewer))]
fn leave_failed(spelled: &mut Vec<SliceSpelled>, failed: &[usize])
    ensures { AreFewer spelled.old.items spelled.new.items }
{
    for number in failed {
        leave_patched(spelled, *number);
    }
}

fn unpatched(spelled: &SliceSpelled) -> SliceSpelled
    ensures { result ≡ specs.unpatched spelled.now }
{
    match spelled {
        SliceSpelled::Left => SliceSpelled::Left,
        SliceSpelled::Shared => SliceSpelled::Shared,
        SliceSpelled::Patched(_) | SliceSpelled::Unlike => SliceSpelled::Unlike,
    }
}

fn all_unpatched(alloc: Global, spelled: &[SliceSpelled]) -> Result<SlicesSpelled, NoMemory>
    ensures { IfOk result (λ list. list ≡ map specs.unpatched spelled.now) }
{
    let mut list = Items::new(alloc);
    for one in spelled {
        list.push(unpatched(one))?;
    }
    Ok(list)
}

/// Leaves all slices as they are.
fn leave_all(
    alloc: Global,
    source: &Source,
    read: &File,
    spelled: &[SliceSpelled],
) -> Result<Settled, NoMemory>
    requires file { file_in source.now.map.now source.now.bytes.now ≡ Some (file_of read.now) }
    requires many { length (slices_with (all_sliced source.now.methods.now)) ≡ length spelled.now }
    ensures fewer { IfOk result (λ s. AreFewer spelled.now s.spelled) }
    ensures settled { IfOk result (λ s. IsSettled source.now.map.now source.now.schema.now source.now.bytes.now (file_of read.now)
        (plain_program source.now.left.now).methods (slices_in (all_sliced source.now.methods.now)) s.spelled s.out) }
{
    let spelled = all_unpatched(alloc, spelled)?;
    let out = with_spelled(alloc, source.bytes, spelled.as_slice())?;
    Ok(Settled { spelled, out })
}

// ---- All of it

/// Looks at what is written until all slices with patches are seen again in it; those that aren't are left as they are.
#[tactic(auto, using(crate::proofs::Leaving::fewer_then, crate::proofs::Leaving::same_fewer))]
fn settle_all(
    alloc: Global,
    source: &Source,
    read: &File,
    fates: &mut Vec<SliceSpelled>,
) -> Result<Option<Bytes>, NoMemory>
    requires grammar { IsInGrammar (plain_program source.now.left.now) }
    requires written { IsWritten (plain_program source.now.left.now) }
    ensures fewer { IfOk result (λ found. AreFewer fates.old.items fates.new.items) }
    ensures settled { IfOk result (λ found. IfSome found (λ out. IsSettled source.now.map.now source.now.schema.now source.now.bytes.now (file_of read.now)
        (plain_program source.now.left.now).methods (slices_in (all_sliced source.now.methods.now)) fates.new.items out)) }
{
    for _ in 0..MOST_LOOKS {
        let mut failed = Vec::new(alloc);
        let found = look(alloc, source, read, fates.as_slice(), &mut failed)?;
        if found.is_some() || failed.is_empty() {
            return Ok(found);
        }
        leave_failed(fates, failed.as_slice());
    }
    Ok(None)
}

/// What is written of slices where some of them are left as they are, and the rest is seen again.
#[tactic(auto, using(crate::proofs::Leaving::many_fewer, crate::proofs::Leaving::fewer_behind))]
fn settle_fewer(
    alloc: Global,
    source: &Source,
    read: &File,
    spelled: SlicesSpelled,
) -> Result<Settled, NoMemory>
    requires file { file_in source.now.map.now source.now.bytes.now ≡ Some (file_of read.now) }
    requires grammar { IsInGrammar (plain_program source.now.left.now) }
    requires written { IsWritten (plain_program source.now.left.now) }
    requires many { length (slices_with (all_sliced source.now.methods.now)) ≡ length spelled }
    ensures fewer { IfOk result (λ s. AreFewer spelled s.spelled) }
    ensures settled { IfOk result (λ s. IsSettled source.now.map.now source.now.schema.now source.now.bytes.now (file_of read.now)
        (plain_program source.now.left.now).methods (slices_in (all_sliced source.now.methods.now)) s.spelled s.out) }
{
    let mut fates = spelled.into_vec();
    match settle_all(alloc, source, read, &mut fates)? {
        Some(out) => Ok(Settled {
            spelled: Items::from_vec(fates),
            out,
        }),
        None => leave_all(alloc, source, read, fates.as_slice()),
    }
}

/// What is written of slices: those that aren't seen again are left as they are, and the rest is looked at once more.
pub fn settle(
    alloc: Global,
    source: &Source,
    read: &File,
    spelled: SlicesSpelled,
) -> Result<Settled, NoMemory>
    requires file { file_in source.now.map.now source.now.bytes.now ≡ Some (file_of read.now) }
    requires items { source.now.items.now ≡ read.now.items.now }
    requires grammar { IsInGrammar (plain_program source.now.left.now) }
    requires written { IsWritten (plain_program source.now.left.now) }
    requires many { length (slices_with (all_sliced source.now.methods.now)) ≡ length spelled }
    ensures left { (seen : SeenAs) (k : ℕ) (ss : List (Method × PlainSlice)) (ps : List PlainPatch) → IfOk result (λ s. are_answers seen k ss ps spelled ≡ true → are_answers seen k ss ps s.spelled ≡ true) }
    ensures apart { IfOk result (λ s. are_apart 0 (length source.now.bytes.now) (patches_of spelled) ≡ true → are_apart 0 (length source.now.bytes.now) (patches_of s.spelled) ≡ true) }
    ensures settled { IfOk result (λ s. IsSettled source.now.map.now source.now.schema.now source.now.bytes.now (file_of read.now)
        (plain_program source.now.left.now).methods (slices_in (all_sliced source.now.methods.now)) s.spelled s.out) }
{
    settle_fewer(alloc, source, read, spelled)
}
