// What of an accumulator's conditions is the same for all choices of formulas, so that it is made once.
ghost use Rattle.std.specs.Prelude.{◌≡◌, ◌+◌, ◌≤◌, ◌∷◌, [], length, IfOk};
ghost use Rattle.tor_terms.specs.Plain.{tree_of};
ghost use Rattle.kernel_lang.specs.Plain.{accumulator, guard_of};
ghost use Rattle.kernel_lang.specs.Postcondition as post;
ghost use Rattle.kernel_lang.specs.Postcondition.{loops_of};
ghost use Rattle.vc_gen.specs.Conditions as spec;
ghost use Rattle.vc_gen.specs.Levels.{layers_seen};
ghost use Rattle.vc_gen.specs.Outlines.{IsStageOf, AreStages, IsOutlineOf};

use crate::condition::Place;
use crate::level::{Level, Levels, first_levels, last_levels, levels};
use crate::own::{first_place, place_inside, ways_through};
use crate::paths::{Paths, each_with, guard_paths};
use kernel_lang::Acc;
use qbs_base::{Items, NoMemory, Scalar};
use std::alloc::Global;

/// Where a level stands, the ways to it, and the paths through its guard and past it.
#[derive(Drop)]
pub struct Stage {
    pub place: Place,
    pub ways: Paths,
    pub passes: Paths,
    pub fails: Paths,
    /// How many conditions there are by each way.
    pub each: usize,
}

pub type Stages = Items<Stage>;

/// The levels of an accumulator, and the stages of those inside its declaration.
#[derive(Drop)]
pub struct Outline {
    pub levels: Levels,
    pub stages: Stages,
}

// How many conditions there are by a way to a level: one for each path, one at entry and one at exit.
fn by_a_way(passes: usize, fails: usize) -> Result<usize, NoMemory>
    ensures { IfOk result (λ n. n ≡ passes + (fails + 2)) }
{
    let more = fails.checked_add(2).ok_or(NoMemory)?;
    passes.checked_add(more).ok_or(NoMemory)
}

fn stage_of(alloc: Global, place: Place, ways: Paths, y: &Level) -> Result<Stage, NoMemory>
    ensures place { IfOk result (λ s. s.place ≡ place) }
    ensures ways { IfOk result (λ s. s.ways ≡ ways) }
    ensures of { IfOk result (IsStageOf (guard_of y.now.guard)) }
{
    let passes = guard_paths(alloc, &y.guard, true)?;
    let fails = guard_paths(alloc, &y.guard, false)?;
    let each = by_a_way(passes.len(), fails.len())?;
    Ok(Stage {
        place,
        ways,
        passes,
        fails,
        each,
    })
}

fn behind(stage: Stage, others: Stages) -> Result<Stages, NoMemory>
    ensures { IfOk result (λ all. all ≡ stage ∷ others) }
{
    let mut all = others.into_vec();
    all.insert(0, stage)?;
    Ok(Items::from_vec(all))
}

// The stages of these levels, of which the first stands at this place, by these ways.
fn stages(alloc: Global, place: Place, ways: Paths, ys: &[Level]) -> Result<Stages, NoMemory>
    requires { length place.outer + length ys.now ≤ 3 }
    ensures { IfOk result (λ all. AreStages place.outer ways (tree_of place.entry.value) (layers_seen ys.now) all) }
{
    match ys.split_first() {
        None => Ok(Items::new(alloc)),
        Some((y, rest)) => {
            let first = stage_of(alloc, place, ways, y)?;
            let more = each_with(alloc, first.ways.as_slice(), first.passes.as_slice())?;
            let inner = place_inside(alloc, &first.place, y.over)?;
            let others = stages(alloc, inner, more, rest)?;
            let all = behind(first, others)?;
            Ok(all)
        }
    }
}

fn stages_inside(
    alloc: Global,
    start: &Option<Scalar>,
    outside: &[Level],
    inside: &[Level],
) -> Result<Stages, NoMemory>
    requires { length outside.now + length inside.now ≤ 3 }
    ensures { IfOk result (λ all. AreStages (loops_of (layers_seen outside.now)) (spec.ways_through ([] ∷ []) (layers_seen outside.now)) (post.start_term start.now) (layers_seen inside.now) all) }
{
    let ways = ways_through(alloc, outside)?;
    let place = first_place(alloc, start, outside)?;
    stages(alloc, place, ways, inside)
}

/// What is the same for all choices of an accumulator, which has to have at most three loops. The error is want of memory.
pub fn outline_of(alloc: Global, a: &Acc) -> Result<Outline, NoMemory>
    requires { length a.now.chain ≤ 3 }
    ensures { IfOk result (IsOutlineOf (accumulator a.now)) }
{
    let levels = levels(alloc, a)?;
    let outside = first_levels(levels.as_slice(), a.base as usize);
    let inside = last_levels(levels.as_slice(), a.base as usize);
    let stages = stages_inside(alloc, &a.start, outside, inside)?;
    Ok(Outline { levels, stages })
}
