// The conditions of an accumulator, level by level.
ghost use Rattle.std.specs.Prelude.{◌≡◌, ◌+◌, ◌≤◌, ◌∷◌, [], ◌++◌, length, IfOk};
ghost use Rattle.tor_terms.specs.declared.term.Index.TheVariants as indexes;
ghost use Rattle.tor_terms.specs.Plain as plain;
ghost use Rattle.tor_terms.specs.Plain.{forms_of, tree_of};
ghost use Rattle.kernel_lang.specs.Plain.{accumulator};
ghost use Rattle.kernel_lang.specs.Postcondition as post;
ghost use Rattle.kernel_lang.specs.Postcondition.{loops_of};
ghost use Rattle.vc_gen.specs.Conditions as spec;
ghost use Rattle.vc_gen.specs.Lent.{claims_over};
ghost use Rattle.vc_gen.specs.Levels.{layer_seen, layers_seen};

use crate::condition::{Chosen, Place, at_entry, at_exit, false_step, true_step, with_loop};
use crate::level::{Level, first_levels, last_levels, levels, loops};
use crate::paths::{Path, Paths, each_with, empty_path, guard_paths, joined};
use crate::terms::start_term;
use kernel_lang::Acc;
use qbs_base::{Items, NoMemory, Scalar, boxed};
use std::alloc::Global;
use tor_axioms::Condition;
use tor_terms::{Atoms, Formula, Term};

/// Conditions over atoms that stand elsewhere.
pub type Conditions = Items<Condition>;

fn add_entry(
    alloc: Global,
    chosen: &Chosen,
    place: &Place,
    y: &Level,
    ys: &[Level],
    way: &[(u32, bool)],
    all: &mut Conditions,
) -> Result<(), NoMemory>
    ensures { IfOk result (λ _.
        claims_over chosen.now.atoms.now all.new
        ≡ claims_over chosen.now.atoms.now all.old
        ++ spec.entry chosen.now.atoms.now chosen.now.update (forms_of chosen.now.formulas.now) place.now.outer (tree_of place.now.entry.value) (layer_seen y.now) (layers_seen ys.now) way.now ∷ []) }
{
    let condition = at_entry(alloc, chosen, place, y, ys, way)?;
    all.push(Box::into_inner(condition))
}

fn add_passes(
    alloc: Global,
    chosen: &Chosen,
    place: &Place,
    y: &Level,
    ys: &[Level],
    way: &[(u32, bool)],
    passes: &[Path],
    all: &mut Conditions,
) -> Result<(), NoMemory>
    ensures { IfOk result (λ _.
        claims_over chosen.now.atoms.now all.new
        ≡ claims_over chosen.now.atoms.now all.old
        ++ spec.by_paths chosen.now.atoms.now way.now (
        post.part chosen.now.update (forms_of chosen.now.formulas.now) place.now.outer (tree_of place.now.entry.value) (layer_seen y.now) (layers_seen ys.now) (indexes.Next y.now.over)) (
        post.whole chosen.now.update (forms_of chosen.now.formulas.now) (place.now.outer ++ y.now.over ∷ []) (post.part chosen.now.update (forms_of chosen.now.formulas.now) place.now.outer (tree_of place.now.entry.value) (layer_seen y.now) (layers_seen ys.now) (indexes.At y.now.over)) (layers_seen ys.now)) passes.now) }
{
    for path in passes {
        let tests = joined(alloc, way, path.as_slice())?;
        let condition = true_step(alloc, chosen, place, y, ys, tests.as_slice())?;
        all.push(Box::into_inner(condition))?;
    }
    Ok(())
}

fn add_true_steps(
    alloc: Global,
    chosen: &Chosen,
    place: &Place,
    y: &Level,
    ys: &[Level],
    way: &[(u32, bool)],
    all: &mut Conditions,
) -> Result<(), NoMemory>
    ensures { IfOk result (λ _.
        claims_over chosen.now.atoms.now all.new
        ≡ claims_over chosen.now.atoms.now all.old
        ++ spec.true_steps chosen.now.atoms.now chosen.now.update (forms_of chosen.now.formulas.now) place.now.outer (tree_of place.now.entry.value) (layer_seen y.now) (layers_seen ys.now) way.now) }
{
    let passes = guard_paths(alloc, &y.guard, true)?;
    add_passes(alloc, chosen, place, y, ys, way, passes.as_slice(), all)
}

fn add_fails(
    alloc: Global,
    chosen: &Chosen,
    place: &Place,
    y: &Level,
    ys: &[Level],
    way: &[(u32, bool)],
    fails: &[Path],
    all: &mut Conditions,
) -> Result<(), NoMemory>
    ensures { IfOk result (λ _.
        claims_over chosen.now.atoms.now all.new
        ≡ claims_over chosen.now.atoms.now all.old
        ++ spec.by_paths chosen.now.atoms.now way.now (
        post.part chosen.now.update (forms_of chosen.now.formulas.now) place.now.outer (tree_of place.now.entry.value) (layer_seen y.now) (layers_seen ys.now) (indexes.Next y.now.over)) (
        post.part chosen.now.update (forms_of chosen.now.formulas.now) place.now.outer (tree_of place.now.entry.value) (layer_seen y.now) (layers_seen ys.now) (indexes.At y.now.over)) fails.now) }
{
    for path in fails {
        let tests = joined(alloc, way, path.as_slice())?;
        let condition = false_step(alloc, chosen, place, y, ys, tests.as_slice())?;
        all.push(Box::into_inner(condition))?;
    }
    Ok(())
}

fn add_false_steps(
    alloc: Global,
    chosen: &Chosen,
    place: &Place,
    y: &Level,
    ys: &[Level],
    way: &[(u32, bool)],
    all: &mut Conditions,
) -> Result<(), NoMemory>
    ensures { IfOk result (λ _.
        claims_over chosen.now.atoms.now all.new
        ≡ claims_over chosen.now.atoms.now all.old
        ++ spec.false_steps chosen.now.atoms.now chosen.now.update (forms_of chosen.now.formulas.now) place.now.outer (tree_of place.now.entry.value) (layer_seen y.now) (layers_seen ys.now) way.now) }
{
    let fails = guard_paths(alloc, &y.guard, false)?;
    add_fails(alloc, chosen, place, y, ys, way, fails.as_slice(), all)
}

fn add_exit(
    alloc: Global,
    chosen: &Chosen,
    place: &Place,
    y: &Level,
    ys: &[Level],
    way: &[(u32, bool)],
    all: &mut Conditions,
) -> Result<(), NoMemory>
    ensures { IfOk result (λ _.
        claims_over chosen.now.atoms.now all.new
        ≡ claims_over chosen.now.atoms.now all.old
        ++ spec.exit chosen.now.atoms.now chosen.now.update (forms_of chosen.now.formulas.now) place.now.outer (tree_of place.now.entry.value) (layer_seen y.now) (layers_seen ys.now) way.now ∷ []) }
{
    let condition = at_exit(alloc, chosen, place, y, ys, way)?;
    all.push(Box::into_inner(condition))
}

fn add_at_level(
    alloc: Global,
    chosen: &Chosen,
    place: &Place,
    y: &Level,
    ys: &[Level],
    way: &[(u32, bool)],
    all: &mut Conditions,
) -> Result<(), NoMemory>
    ensures { IfOk result (λ _.
        claims_over chosen.now.atoms.now all.new
        ≡ claims_over chosen.now.atoms.now all.old
        ++ spec.at_level chosen.now.atoms.now chosen.now.update (forms_of chosen.now.formulas.now) place.now.outer (tree_of place.now.entry.value) (layer_seen y.now) (layers_seen ys.now) way.now) }
{
    add_entry(alloc, chosen, place, y, ys, way, all)?;
    add_true_steps(alloc, chosen, place, y, ys, way, all)?;
    add_false_steps(alloc, chosen, place, y, ys, way, all)?;
    add_exit(alloc, chosen, place, y, ys, way, all)
}

fn add_level(
    alloc: Global,
    chosen: &Chosen,
    place: &Place,
    y: &Level,
    ys: &[Level],
    ways: &[Path],
    all: &mut Conditions,
) -> Result<(), NoMemory>
    ensures { IfOk result (λ _.
        claims_over chosen.now.atoms.now all.new
        ≡ claims_over chosen.now.atoms.now all.old
        ++ spec.level chosen.now.atoms.now chosen.now.update (forms_of chosen.now.formulas.now) place.now.outer ways.now (tree_of place.now.entry.value) (layer_seen y.now) (layers_seen ys.now)) }
{
    for way in ways {
        add_at_level(alloc, chosen, place, y, ys, way.as_slice(), all)?;
    }
    Ok(())
}

/// Where the level inside a level stands.
pub fn place_inside(alloc: Global, place: &Place, over: u32) -> Result<Place, NoMemory>
    requires { length place.now.outer ≤ 3 }
    ensures outer { IfOk result (λ inner. inner.outer ≡ place.now.outer ++ over ∷ []) }
    ensures entry { IfOk result (λ inner. tree_of inner.entry.value ≡ plain.Hold (length place.now.outer + 2)) }
{
    let outer = with_loop(alloc, place.outer.as_slice(), over)?;
    let entry = boxed(alloc, Term::Hold(place.outer.len() as u32 + 2))?;
    Ok(Place { outer, entry })
}

/// Where the first level inside a declaration stands.
pub fn first_place(
    alloc: Global,
    start: &Option<Scalar>,
    outside: &[Level],
) -> Result<Place, NoMemory>
    ensures outer { IfOk result (λ place. place.outer ≡ loops_of (layers_seen outside.now)) }
    ensures entry { IfOk result (λ place. tree_of place.entry.value ≡ post.start_term start.now) }
    ensures length { IfOk result (λ place. length place.outer ≡ length outside.now) }
{
    let outer = loops(alloc, outside)?;
    let entry = start_term(alloc, start)?;
    Ok(Place { outer, entry })
}

fn add_inside(
    alloc: Global,
    chosen: &Chosen,
    place: &Place,
    ways: &[Path],
    ys: &[Level],
    all: &mut Conditions,
) -> Result<(), NoMemory>
    requires { length place.now.outer + length ys.now ≤ 3 }
    ensures { IfOk result (λ _.
        claims_over chosen.now.atoms.now all.new
        ≡ claims_over chosen.now.atoms.now all.old
        ++ spec.conditions_in chosen.now.atoms.now chosen.now.update (forms_of chosen.now.formulas.now) place.now.outer ways.now (tree_of place.now.entry.value) (layers_seen ys.now)) }
{
    match ys.split_first() {
        None => Ok(()),
        Some((y, rest)) => {
            add_level(alloc, chosen, place, y, rest, ways, all)?;
            let holds = guard_paths(alloc, &y.guard, true)?;
            let more = each_with(alloc, ways, holds.as_slice())?;
            let inner = place_inside(alloc, place, y.over)?;
            add_inside(alloc, chosen, &inner, more.as_slice(), rest, all)
        }
    }
}

/// The ways through the guards of these levels.
pub fn ways_through(alloc: Global, outside: &[Level]) -> Result<Paths, NoMemory>
    ensures { IfOk result (λ ways. ways ≡ spec.ways_through ([] ∷ []) (layers_seen outside.now)) }
{
    let mut ways = empty_path(alloc)?;
    for y in outside {
        let holds = guard_paths(alloc, &y.guard, true)?;
        ways = each_with(alloc, ways.as_slice(), holds.as_slice())?;
    }
    Ok(ways)
}

fn add_in_place(
    alloc: Global,
    chosen: &Chosen,
    start: &Option<Scalar>,
    outside: &[Level],
    inside: &[Level],
    all: &mut Conditions,
) -> Result<(), NoMemory>
    requires { length outside.now + length inside.now ≤ 3 }
    ensures { IfOk result (λ _.
        claims_over chosen.now.atoms.now all.new
        ≡ claims_over chosen.now.atoms.now all.old
        ++ spec.conditions_in chosen.now.atoms.now chosen.now.update (forms_of chosen.now.formulas.now) (loops_of (layers_seen outside.now)) (spec.ways_through ([] ∷ []) (layers_seen outside.now)) (post.start_term start.now) (layers_seen inside.now)) }
{
    let ways = ways_through(alloc, outside)?;
    let place = first_place(alloc, start, outside)?;
    add_inside(alloc, chosen, &place, ways.as_slice(), inside, all)
}

/// Adds the conditions of an accumulator with these chosen formulas.
pub fn add_own(
    alloc: Global,
    atoms: &Atoms,
    a: &Acc,
    choice: &[Formula],
    all: &mut Conditions,
) -> Result<(), NoMemory>
    requires { length a.now.chain ≤ 3 }
    ensures { IfOk result (λ _. claims_over atoms.now all.new ≡ claims_over atoms.now all.old ++ spec.own_conditions atoms.now (accumulator a.now, forms_of choice.now)) }
{
    let levels = levels(alloc, a)?;
    let outside = first_levels(levels.as_slice(), a.base as usize);
    let inside = last_levels(levels.as_slice(), a.base as usize);
    let chosen = Chosen {
        atoms,
        update: a.update,
        formulas: choice,
    };
    add_in_place(alloc, &chosen, &a.start, outside, inside, all)
}
