// One condition of an accumulator.
ghost use Rattle.std.specs.Prelude.{◌≡◌, ◌∷◌, [], ◌++◌, IfOk};
ghost use Rattle.tor_terms.specs.declared.term.Index.TheVariants as indexes;
ghost use Rattle.tor_terms.specs.Plain.{forms_of, tree_of};
ghost use Rattle.tor_axioms.specs.Accepts.{claim_over};
ghost use Rattle.kernel_lang.specs.Postcondition as post;
ghost use Rattle.vc_gen.specs.Conditions as spec;
ghost use Rattle.vc_gen.specs.Levels.{layer_seen, layers_seen};

use crate::level::Level;
use crate::terms::{part, whole, whole_level};
use condition_parts::next_turn;
use kernel_lang::Update;
use qbs_base::{Items, NoMemory, boxed};
use std::alloc::Global;
use tor_axioms::{Condition, Literal, Literals};
use tor_terms::{Atoms, Formula, Index, Loops, Term, copy_boxed_term};

/// The update of an accumulator and its chosen formulas, over these atoms.
#[derive(Clone, Copy)]
pub struct Chosen<'a> {
    pub atoms: &'a Atoms,
    pub update: Update,
    pub formulas: &'a [Formula],
}

/// Where a level stands: the loops round it, and what the accumulator has at entry.
#[derive(Drop)]
pub struct Place {
    pub outer: Loops,
    pub entry: Box<Term>,
}

/// The facts of a path.
pub fn literals(alloc: Global, path: &[(u32, bool)]) -> Result<Literals, NoMemory>
    ensures { IfOk result (λ facts. facts ≡ spec.facts_of path.now) }
{
    let mut facts = Items::new(alloc);
    for test in path {
        facts.push(Literal {
            atom: test.0,
            holds: test.1,
        })?;
    }
    Ok(facts)
}

/// Loops, and one more inside them.
pub fn with_loop(alloc: Global, outer: &[u32], over: u32) -> Result<Loops, NoMemory>
    ensures { IfOk result (λ loops. loops ≡ outer.now ++ over ∷ []) }
{
    let mut inside = Items::from_vec(outer.to_vec(alloc)?);
    inside.push(over)?;
    Ok(inside)
}

// The condition that two terms have one value by a path.
fn by_path(
    alloc: Global,
    path: &[(u32, bool)],
    left: Box<Term>,
    right: Box<Term>,
) -> Result<Box<Condition>, NoMemory>
    ensures { IfOk result (λ c. c.value ≡ record { facts = spec.facts_of path.now; left = left.value; right = right.value }) }
{
    let facts = literals(alloc, path)?;
    let left = Box::into_inner(left);
    let right = Box::into_inner(right);
    boxed(alloc, Condition { facts, left, right })
}

/// What is so after some turns of a level's loop.
pub fn turns(
    alloc: Global,
    chosen: &Chosen,
    place: &Place,
    y: &Level,
    ys: &[Level],
    index: Index,
) -> Result<Box<Term>, NoMemory>
    ensures { IfOk result (λ t.
        tree_of t.value
        ≡ post.part chosen.now.update (forms_of chosen.now.formulas.now) place.now.outer (tree_of place.now.entry.value) (layer_seen y.now) (layers_seen ys.now) index) }
{
    let fs = chosen.formulas;
    let outer = place.outer.as_slice();
    part(alloc, chosen.update, fs, outer, &place.entry, y, ys, index)
}

/// What is so before a level's first turn, by a way to the level.
pub fn at_entry(
    alloc: Global,
    chosen: &Chosen,
    place: &Place,
    y: &Level,
    ys: &[Level],
    way: &[(u32, bool)],
) -> Result<Box<Condition>, NoMemory>
    ensures { IfOk result (λ c.
        claim_over chosen.now.atoms.now c.value
        ≡ spec.entry chosen.now.atoms.now chosen.now.update (forms_of chosen.now.formulas.now) place.now.outer (tree_of place.now.entry.value) (layer_seen y.now) (layers_seen ys.now) way.now) }
{
    let left = turns(alloc, chosen, place, y, ys, Index::Zero)?;
    let right = copy_boxed_term(alloc, &place.entry)?;
    by_path(alloc, way, left, right)
}

/// What a turn does in which the guard holds, by a way to the level and one of the guard's paths.
pub fn true_step(
    alloc: Global,
    chosen: &Chosen,
    place: &Place,
    y: &Level,
    ys: &[Level],
    path: &[(u32, bool)],
) -> Result<Box<Condition>, NoMemory>
    ensures { IfOk result (λ c.
        claim_over chosen.now.atoms.now c.value
        ≡ spec.claim chosen.now.atoms.now path.now (
        post.part chosen.now.update (forms_of chosen.now.formulas.now) place.now.outer (tree_of place.now.entry.value) (layer_seen y.now) (layers_seen ys.now) (indexes.Next y.now.over)) (
        post.whole chosen.now.update (forms_of chosen.now.formulas.now) (place.now.outer ++ y.now.over ∷ []) (
        post.part chosen.now.update (forms_of chosen.now.formulas.now) place.now.outer (tree_of place.now.entry.value) (layer_seen y.now) (layers_seen ys.now) (indexes.At y.now.over)) (layers_seen ys.now))) }
{
    let advanced = turns(alloc, chosen, place, y, ys, next_turn(y.over))?;
    let inside = with_loop(alloc, place.outer.as_slice(), y.over)?;
    let before = turns(alloc, chosen, place, y, ys, Index::At(y.over))?;
    let right = whole(
        alloc,
        chosen.update,
        chosen.formulas,
        inside.as_slice(),
        before,
        ys,
    )?;
    by_path(alloc, path, advanced, right)
}

/// What a turn does in which the guard fails, by a way to the level and one of the guard's paths.
pub fn false_step(
    alloc: Global,
    chosen: &Chosen,
    place: &Place,
    y: &Level,
    ys: &[Level],
    path: &[(u32, bool)],
) -> Result<Box<Condition>, NoMemory>
    ensures { IfOk result (λ c.
        claim_over chosen.now.atoms.now c.value
        ≡ spec.claim chosen.now.atoms.now path.now (
        post.part chosen.now.update (forms_of chosen.now.formulas.now) place.now.outer (tree_of place.now.entry.value) (layer_seen y.now) (layers_seen ys.now) (indexes.Next y.now.over)) (
        post.part chosen.now.update (forms_of chosen.now.formulas.now) place.now.outer (tree_of place.now.entry.value) (layer_seen y.now) (layers_seen ys.now) (indexes.At y.now.over))) }
{
    let left = turns(alloc, chosen, place, y, ys, next_turn(y.over))?;
    let right = turns(alloc, chosen, place, y, ys, Index::At(y.over))?;
    by_path(alloc, path, left, right)
}

/// What is so after a level's last turn, by a way to the level.
pub fn at_exit(
    alloc: Global,
    chosen: &Chosen,
    place: &Place,
    y: &Level,
    ys: &[Level],
    way: &[(u32, bool)],
) -> Result<Box<Condition>, NoMemory>
    ensures { IfOk result (λ c.
        claim_over chosen.now.atoms.now c.value
        ≡ spec.exit chosen.now.atoms.now chosen.now.update (forms_of chosen.now.formulas.now) place.now.outer (tree_of place.now.entry.value) (layer_seen y.now) (layers_seen ys.now) way.now) }
{
    let left = turns(alloc, chosen, place, y, ys, Index::Len(y.over))?;
    let start = copy_boxed_term(alloc, &place.entry)?;
    let outer = place.outer.as_slice();
    let right = whole_level(alloc, chosen.update, chosen.formulas, outer, start, y, ys)?;
    by_path(alloc, way, left, right)
}
