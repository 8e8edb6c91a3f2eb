// One condition of an accumulator, by its number. Nothing but that condition is made, and none before it is looked at.
ghost use Rattle.std.specs.Prelude.{◌≡◌, ◌∷◌, [], true, false, slice_get, option_map, IfOk};
ghost use Rattle.tor_terms.specs.Plain.{forms_of, tree_of};
ghost use Rattle.tor_axioms.specs.Accepts.{claim_over};
ghost use Rattle.kernel_lang.specs.Paths as paths;
ghost use Rattle.kernel_lang.specs.Plain.{accumulator, guard_of};
ghost use Rattle.vc_gen.specs.Conditions as spec;
ghost use Rattle.vc_gen.specs.Levels.{layer_seen, layers_seen};
ghost use Rattle.vc_gen.specs.Outlines.{IsStageOf, AreOfLayers, IsOutlineOf, staged};
ghost use Rattle.vc_gen.specs.Sought.{sought, sought_seen};

use crate::condition::{Chosen, Place, at_entry, at_exit, false_step, true_step};
use crate::level::{Level, last_levels};
use crate::outline::{Outline, Stage};
use crate::paths::{Path, joined};
use kernel_lang::Acc;
use qbs_base::NoMemory;
use std::alloc::Global;
use tor_axioms::Condition;
use tor_terms::{Atoms, Formula};

/// The condition that is looked for, or how many of those that come later are to be passed over.
#[derive(Drop)]
pub enum Sought {
    Here(Box<Condition>),
    Left(usize),
}

fn entry(
    alloc: Global,
    chosen: &Chosen,
    place: &Place,
    y: &Level,
    ys: &[Level],
    way: &[(u32, bool)],
    n: usize,
) -> Result<Sought, NoMemory>
    ensures { IfOk result (λ s.
        sought_seen chosen.now.atoms.now s
        ≡ sought (spec.entry chosen.now.atoms.now chosen.now.update (forms_of chosen.now.formulas.now) place.now.outer (tree_of place.now.entry.value) (layer_seen y.now) (layers_seen ys.now) way.now ∷ []) n) }
{
    if n > 0 {
        return Ok(Sought::Left(n - 1));
    }
    let condition = at_entry(alloc, chosen, place, y, ys, way)?;
    Ok(Sought::Here(condition))
}

fn true_steps(
    alloc: Global,
    chosen: &Chosen,
    place: &Place,
    y: &Level,
    ys: &[Level],
    way: &[(u32, bool)],
    passes: &[Path],
    n: usize,
) -> Result<Sought, NoMemory>
    requires { passes.now ≡ paths.guard_paths (guard_of y.now.guard) true }
    ensures { IfOk result (λ s.
        sought_seen chosen.now.atoms.now s
        ≡ sought (spec.true_steps chosen.now.atoms.now chosen.now.update (forms_of chosen.now.formulas.now) place.now.outer (tree_of place.now.entry.value) (layer_seen y.now) (layers_seen ys.now) way.now) n) }
{
    match passes.get(n) {
        None => Ok(Sought::Left(n - passes.len())),
        Some(path) => {
            let tests = joined(alloc, way, path.as_slice())?;
            let step = true_step(alloc, chosen, place, y, ys, tests.as_slice())?;
            Ok(Sought::Here(step))
        }
    }
}

fn false_steps(
    alloc: Global,
    chosen: &Chosen,
    place: &Place,
    y: &Level,
    ys: &[Level],
    way: &[(u32, bool)],
    fails: &[Path],
    n: usize,
) -> Result<Sought, NoMemory>
    requires { fails.now ≡ paths.guard_paths (guard_of y.now.guard) false }
    ensures { IfOk result (λ s.
        sought_seen chosen.now.atoms.now s
        ≡ sought (spec.false_steps chosen.now.atoms.now chosen.now.update (forms_of chosen.now.formulas.now) place.now.outer (tree_of place.now.entry.value) (layer_seen y.now) (layers_seen ys.now) way.now) n) }
{
    match fails.get(n) {
        None => Ok(Sought::Left(n - fails.len())),
        Some(path) => {
            let tests = joined(alloc, way, path.as_slice())?;
            let step = false_step(alloc, chosen, place, y, ys, tests.as_slice())?;
            Ok(Sought::Here(step))
        }
    }
}

fn exit(
    alloc: Global,
    chosen: &Chosen,
    place: &Place,
    y: &Level,
    ys: &[Level],
    way: &[(u32, bool)],
    n: usize,
) -> Result<Sought, NoMemory>
    ensures { IfOk result (λ s.
        sought_seen chosen.now.atoms.now s
        ≡ sought (spec.exit chosen.now.atoms.now chosen.now.update (forms_of chosen.now.formulas.now) place.now.outer (tree_of place.now.entry.value) (layer_seen y.now) (layers_seen ys.now) way.now ∷ []) n) }
{
    if n > 0 {
        return Ok(Sought::Left(n - 1));
    }
    let condition = at_exit(alloc, chosen, place, y, ys, way)?;
    Ok(Sought::Here(condition))
}

// The condition of a number among those by one way.
fn by_way(
    alloc: Global,
    chosen: &Chosen,
    stage: &Stage,
    y: &Level,
    ys: &[Level],
    way: &[(u32, bool)],
    n: usize,
) -> Result<Sought, NoMemory>
    requires { IsStageOf (guard_of y.now.guard) stage.now }
    ensures { IfOk result (λ s.
        sought_seen chosen.now.atoms.now s
        ≡ sought (spec.at_level chosen.now.atoms.now chosen.now.update (forms_of chosen.now.formulas.now) stage.now.place.outer (tree_of stage.now.place.entry.value) (layer_seen y.now) (layers_seen ys.now) way.now) n) }
{
    let place = &stage.place;
    match entry(alloc, chosen, place, y, ys, way, n)? {
        Sought::Here(c) => Ok(Sought::Here(c)),
        Sought::Left(n) => {
            let passes = stage.passes.as_slice();
            match true_steps(alloc, chosen, place, y, ys, way, passes, n)? {
                Sought::Here(c) => Ok(Sought::Here(c)),
                Sought::Left(n) => {
                    let fails = stage.fails.as_slice();
                    match false_steps(alloc, chosen, place, y, ys, way, fails, n)? {
                        Sought::Here(c) => Ok(Sought::Here(c)),
                        Sought::Left(n) => exit(alloc, chosen, place, y, ys, way, n),
                    }
                }
            }
        }
    }
}

// There are as many by each way, so the way is found by a division.
fn in_level(
    alloc: Global,
    chosen: &Chosen,
    stage: &Stage,
    y: &Level,
    ys: &[Level],
    n: usize,
) -> Result<Sought, NoMemory>
    requires { IsStageOf (guard_of y.now.guard) stage.now }
    ensures { IfOk result (λ s.
        sought_seen chosen.now.atoms.now s
        ≡ sought (spec.level chosen.now.atoms.now chosen.now.update (forms_of chosen.now.formulas.now) stage.now.place.outer stage.now.ways (tree_of stage.now.place.entry.value) (layer_seen y.now) (layers_seen ys.now)) n) }
{
    match stage.ways.as_slice().get(n / stage.each) {
        None => Ok(Sought::Left(n - stage.ways.len() * stage.each)),
        Some(way) => by_way(alloc, chosen, stage, y, ys, way.as_slice(), n % stage.each),
    }
}

fn in_stages(
    alloc: Global,
    chosen: &Chosen,
    stages: &[Stage],
    ys: &[Level],
    n: usize,
) -> Result<Sought, NoMemory>
    requires { AreOfLayers (layers_seen ys.now) stages.now }
    ensures { IfOk result (λ s.
        sought_seen chosen.now.atoms.now s
        ≡ sought (staged chosen.now.atoms.now chosen.now.update (forms_of chosen.now.formulas.now) (layers_seen ys.now) stages.now) n) }
{
    match ys.split_first() {
        None => Ok(Sought::Left(n)),
        Some((y, rest)) => match stages.split_first() {
            None => Ok(Sought::Left(n)),
            Some((stage, others)) => match in_level(alloc, chosen, stage, y, rest, n)? {
                Sought::Here(c) => Ok(Sought::Here(c)),
                Sought::Left(n) => in_stages(alloc, chosen, others, rest, n),
            },
        },
    }
}

fn own_sought(
    alloc: Global,
    atoms: &Atoms,
    a: &Acc,
    outline: &Outline,
    choice: &[Formula],
    n: usize,
) -> Result<Sought, NoMemory>
    requires { IsOutlineOf (accumulator a.now) outline.now }
    ensures { IfOk result (λ s. sought_seen atoms.now s ≡ sought (spec.own_conditions atoms.now (accumulator a.now, forms_of choice.now)) n) }
{
    let chosen = Chosen {
        atoms,
        update: a.update,
        formulas: choice,
    };
    let inside = last_levels(outline.levels.as_slice(), a.base as usize);
    in_stages(alloc, &chosen, outline.stages.as_slice(), inside, n)
}

/// The condition of a number, counted from 0, among those of an accumulator with its choice of
/// formulas, over atoms that aren't copied; None where there are no more. The conditions of a
/// candidate are those of its accumulators with their choices, one accumulator after the other. What
/// is the same for all choices is handed in. The error is want of memory.
pub fn own_condition(
    alloc: Global,
    atoms: &Atoms,
    a: &Acc,
    outline: &Outline,
    choice: &[Formula],
    n: usize,
) -> Result<Option<Condition>, NoMemory>
    requires { IsOutlineOf (accumulator a.now) outline.now }
    ensures { IfOk result (λ o. option_map (claim_over atoms.now) o ≡ slice_get (spec.own_conditions atoms.now (accumulator a.now, forms_of choice.now)) n) }
{
    match own_sought(alloc, atoms, a, outline, choice, n)? {
        Sought::Here(c) => Ok(Some(Box::into_inner(c))),
        Sought::Left(_) => Ok(None),
    }
}
