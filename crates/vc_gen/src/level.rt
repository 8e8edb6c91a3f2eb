// The levels of an accumulator's loops.
ghost use Rattle.std.specs.Prelude.{◌≡◌, ◌++◌, map, take, drop, IfOk};
ghost use Rattle.kernel_lang.specs.Plain.{guard_of, accumulator};
ghost use Rattle.kernel_lang.specs.Postcondition.{loops_of};
ghost use Rattle.kernel_lang.specs.Running as running;
ghost use Rattle.vc_gen.specs.Levels.{layers_seen};

use kernel_lang::Acc;
use qbs_base::{Items, NoMemory};
use std::alloc::Global;
use tor_terms::{Formula, Loops, copy_formula};

/// A loop, and the guard of what stands in it.
#[derive(Drop)]
pub struct Level {
    pub over: u32,
    pub guard: Option<Formula>,
}

pub type Levels = Items<Level>;

fn copy_guard(alloc: Global, guard: &Option<Formula>) -> Result<Option<Formula>, NoMemory>
    ensures { IfOk result (λ copy. guard_of copy ≡ guard_of guard.now) }
{
    match guard {
        Some(f) => Ok(Some(copy_formula(alloc, f)?)),
        None => Ok(None),
    }
}

fn add_levels(
    alloc: Global,
    chain: &[u32],
    guards: &[Option<Formula>],
    all: &mut Levels,
) -> Result<(), NoMemory>
    ensures { IfOk result (λ _. layers_seen all.new ≡ layers_seen all.old ++ running.layers chain.now (map guard_of guards.now)) }
{
    match chain.split_first() {
        None => Ok(()),
        Some((over, loops)) => match guards.split_first() {
            Some((guard, others)) => {
                let guard = copy_guard(alloc, guard)?;
                all.push(Level { over: *over, guard })?;
                add_levels(alloc, loops, others, all)
            }
            None => {
                all.push(Level {
                    over: *over,
                    guard: None,
                })?;
                add_levels(alloc, loops, guards, all)
            }
        },
    }
}

/// The levels of an accumulator, the outermost first.
pub fn levels(alloc: Global, a: &Acc) -> Result<Levels, NoMemory>
    ensures { IfOk result (λ levels. layers_seen levels ≡ running.layers_of (accumulator a.now)) }
{
    let mut all = Items::new(alloc);
    add_levels(alloc, a.chain.as_slice(), a.guards.as_slice(), &mut all)?;
    Ok(all)
}

/// The levels round a declaration.
#[tactic(auto, using(kernel_lang::proofs::Mapped::mapped))]
pub fn first_levels(levels: &[Level], n: usize) -> &[Level]
    ensures { layers_seen result.now ≡ take n (layers_seen levels.now) }
{
    if n < levels.len() {
        &levels[..n]
    } else {
        levels
    }
}

/// The levels inside a declaration.
pub fn last_levels(levels: &[Level], n: usize) -> &[Level]
    ensures { layers_seen result.now ≡ drop n (layers_seen levels.now) }
{
    &levels[n.min(levels.len())..]
}

/// The loops of levels.
pub fn loops(alloc: Global, levels: &[Level]) -> Result<Loops, NoMemory>
    ensures { IfOk result (λ loops. loops ≡ loops_of (layers_seen levels.now)) }
{
    let mut all = Items::new(alloc);
    for level in levels {
        all.push(level.over)?;
    }
    Ok(all)
}
