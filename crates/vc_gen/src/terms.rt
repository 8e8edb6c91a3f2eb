// The terms of conditions.
ghost use Rattle.std.specs.Prelude.{◌≡◌, ◌∷◌, [], ◌++◌, IfOk};
ghost use Rattle.tor_terms.specs.Plain as plain;
ghost use Rattle.tor_terms.specs.Plain.{forms_of, tree_of};
ghost use Rattle.kernel_lang.specs.Postcondition as spec;
ghost use Rattle.vc_gen.specs.Levels.{layer_seen, layers_seen};

use crate::level::Level;
use kernel_lang::Update;
use qbs_base::{Items, NoMemory, Scalar, boxed};
use std::alloc::Global;
use tor_terms::{Elem, Formula, Index, Term, Way, copy_boxed_term, copy_formulas};

fn nest_walks(alloc: Global, x: Box<Term>, inner: &[Level]) -> Result<Box<Term>, NoMemory>
    ensures { IfOk result (λ t. tree_of t.value ≡ spec.nest_walks (tree_of x.value) (spec.loops_of (layers_seen inner.now))) }
{
    match inner.split_first() {
        None => Ok(x),
        Some((y, rest)) => {
            let next = boxed(alloc, Term::Walk(y.over))?;
            let more = nest_walks(alloc, next, rest)?;
            boxed(alloc, Term::Join(x, more))
        }
    }
}

fn one(alloc: Global, over: u32) -> Result<Box<Term>, NoMemory>
    ensures { IfOk result (λ t. tree_of t.value ≡ plain.One (over ∷ [])) }
{
    let mut loops = Items::new(alloc);
    loops.push(over)?;
    boxed(alloc, Term::One(loops))
}

fn nest_ones(alloc: Global, outer: &[u32], x: Box<Term>) -> Result<Box<Term>, NoMemory>
    ensures { IfOk result (λ t. tree_of t.value ≡ spec.nest_ones outer.now (tree_of x.value)) }
{
    match outer.split_first() {
        None => Ok(x),
        Some((j, rest)) => {
            let first = one(alloc, *j)?;
            let more = nest_ones(alloc, rest, x)?;
            boxed(alloc, Term::Join(first, more))
        }
    }
}

fn selected(alloc: Global, fs: &[Formula], tuples: Box<Term>) -> Result<Box<Term>, NoMemory>
    ensures { IfOk result (λ t. tree_of t.value ≡ plain.Sel (forms_of fs.now) (tree_of tuples.value)) }
{
    let tests = copy_formulas(alloc, fs)?;
    boxed(alloc, Term::Sel(tests, tuples))
}

fn body(
    alloc: Global,
    fs: &[Formula],
    outer: &[u32],
    x: Box<Term>,
    inner: &[Level],
) -> Result<Box<Term>, NoMemory>
    ensures { IfOk result (λ t. tree_of t.value ≡ spec.body (forms_of fs.now) outer.now (tree_of x.value) (spec.loops_of (layers_seen inner.now))) }
{
    let walks = nest_walks(alloc, x, inner)?;
    let nest = nest_ones(alloc, outer, walks)?;
    selected(alloc, fs, nest)
}

fn count(alloc: Global, w: Box<Term>, tuples: Box<Term>) -> Result<Box<Term>, NoMemory>
    ensures { IfOk result (λ t. tree_of t.value ≡ plain.Add (tree_of w.value) (plain.Count (tree_of tuples.value))) }
{
    let number = boxed(alloc, Term::Count(tuples))?;
    boxed(alloc, Term::Add(w, number))
}

fn sum(alloc: Global, w: Box<Term>, items: Box<Term>) -> Result<Box<Term>, NoMemory>
    ensures { IfOk result (λ t. tree_of t.value ≡ plain.Add (tree_of w.value) (plain.Sum (tree_of items.value))) }
{
    let total = boxed(alloc, Term::Sum(items))?;
    boxed(alloc, Term::Add(w, total))
}

fn any(alloc: Global, w: Box<Term>, tuples: Box<Term>) -> Result<Box<Term>, NoMemory>
    ensures { IfOk result (λ t. tree_of t.value ≡ plain.Or (tree_of w.value) (plain.Any (tree_of tuples.value))) }
{
    let some = boxed(alloc, Term::Any(tuples))?;
    boxed(alloc, Term::Or(w, some))
}

fn val(alloc: Global, u: Update, w: Box<Term>, tuples: Box<Term>) -> Result<Box<Term>, NoMemory>
    ensures { IfOk result (λ t. tree_of t.value ≡ spec.val u (tree_of w.value) (tree_of tuples.value)) }
{
    match u {
        Update::Push(e) => {
            let items = boxed(alloc, Term::Proj(e, tuples))?;
            boxed(alloc, Term::Cat(w, items))
        }
        Update::PushNew(e) => {
            let items = boxed(alloc, Term::Proj(e, tuples))?;
            boxed(alloc, Term::Uniq(items))
        }
        Update::Tick => count(alloc, w, tuples),
        Update::Plus(e) => {
            let items = boxed(alloc, Term::Proj(e, tuples))?;
            sum(alloc, w, items)
        }
        Update::Best(way, e) => {
            let items = boxed(alloc, Term::Proj(e, tuples))?;
            boxed(alloc, Term::Best(way, w, items))
        }
        Update::Mark => any(alloc, w, tuples),
    }
}

fn effect(alloc: Global, u: Update, w: Box<Term>) -> Result<Box<Term>, NoMemory>
    ensures { IfOk result (λ t. tree_of t.value ≡ spec.effect u (tree_of w.value)) }
{
    match u {
        Update::Push(e) => {
            let one = boxed(alloc, Term::Unit(e))?;
            boxed(alloc, Term::Cat(w, one))
        }
        Update::PushNew(e) => boxed(alloc, Term::Insert(w, e)),
        Update::Tick => {
            let one = boxed(alloc, Term::Lit(Scalar::Long(1)))?;
            boxed(alloc, Term::Add(w, one))
        }
        Update::Plus(e) => {
            let item = boxed(alloc, Term::Item(e))?;
            boxed(alloc, Term::Add(w, item))
        }
        Update::Best(way, e) => {
            let item = boxed(alloc, Term::Item(e))?;
            boxed(alloc, Term::Pick(way, w, item))
        }
        Update::Mark => boxed(alloc, Term::Lit(Scalar::Bool(true))),
    }
}

/// What an accumulator starts with.
pub fn start_term(alloc: Global, start: &Option<Scalar>) -> Result<Box<Term>, NoMemory>
    ensures { IfOk result (λ t. tree_of t.value ≡ spec.start_term start.now) }
{
    match start {
        None => boxed(alloc, Term::Nil),
        Some(x) => boxed(alloc, Term::Lit(x.clone()?)),
    }
}

/// What a level and those inside it make of `w`.
pub fn whole_level(
    alloc: Global,
    u: Update,
    fs: &[Formula],
    outer: &[u32],
    w: Box<Term>,
    y: &Level,
    ys: &[Level],
) -> Result<Box<Term>, NoMemory>
    ensures { IfOk result (λ t. tree_of t.value ≡ spec.whole u (forms_of fs.now) outer.now (tree_of w.value) (layer_seen y.now ∷ layers_seen ys.now)) }
{
    let all = boxed(alloc, Term::Walk(y.over))?;
    let tuples = body(alloc, fs, outer, all, ys)?;
    val(alloc, u, w, tuples)
}

/// What the levels that are left make of `w`.
pub fn whole(
    alloc: Global,
    u: Update,
    fs: &[Formula],
    outer: &[u32],
    w: Box<Term>,
    ys: &[Level],
) -> Result<Box<Term>, NoMemory>
    ensures { IfOk result (λ t. tree_of t.value ≡ spec.whole u (forms_of fs.now) outer.now (tree_of w.value) (layers_seen ys.now)) }
{
    match ys.split_first() {
        None => effect(alloc, u, w),
        Some((y, rest)) => whole_level(alloc, u, fs, outer, w, y, rest),
    }
}

/// What is so after some turns of a level's loop.
pub fn part(
    alloc: Global,
    u: Update,
    fs: &[Formula],
    outer: &[u32],
    w: &Term,
    y: &Level,
    ys: &[Level],
    index: Index,
) -> Result<Box<Term>, NoMemory>
    ensures { IfOk result (λ t. tree_of t.value ≡ spec.part u (forms_of fs.now) outer.now (tree_of w.now) (layer_seen y.now) (layers_seen ys.now) index) }
{
    let all = boxed(alloc, Term::Walk(y.over))?;
    let turns = boxed(alloc, Term::Top(index, all))?;
    let tuples = body(alloc, fs, outer, turns, ys)?;
    let entry = copy_boxed_term(alloc, w)?;
    val(alloc, u, entry, tuples)
}
