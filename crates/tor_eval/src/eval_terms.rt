// The values of terms.
ghost use Rattle.std.specs.Prelude.{◌≡◌, ◌&&◌, ◌++◌, IfOk, OnOk, is_some, map};
ghost use Rattle.tor_terms.specs.Plain.{tree_of};
ghost use Rattle.tor_terms.specs.Worlds.{world_of};
ghost use Rattle.tor_terms.specs.Fits as fits;
ghost use Rattle.tor_terms.specs.Evaluation as spec;
ghost use Rattle.tor_terms.specs.Parts as parts;

use crate::eval_numbers::has_whole;
use crate::eval_parts::{
    add, any, best, cat, count, hold, insert, item, join, one, or, pick, proj, sel, single, sum,
    top, uniq, walk,
};
use qbs_base::{Cells, Items, Kind, NoMemory, Row, Rows, Scalar, Value};
use std::alloc::Global;
use tor_terms::{Atom, Atoms, Env, Found, Term, Tuple};

// What a term is found to be.
#[cycle(evaluate)]
fn evaluate(alloc: Global, env: &Env, atoms: &[Atom], t: &Term) -> Result<Option<Found>, NoMemory>
    ensures { IfOk result (λ o. o ≡ spec.evaluated env.now atoms.now (tree_of t.now)) }
{
    match t {
        Term::Nil => Ok(Some(Found::Empty)),
        Term::Walk(j) => walk(alloc, env, *j),
        Term::Top(index, r) => Ok(top(env, *index, evaluate(alloc, env, atoms, r)?)),
        Term::One(loops) => one(alloc, env, loops),
        Term::Unit(e) => single(alloc, env, *e),
        Term::Cat(r, s) => {
            let first = part(alloc, env, atoms, r)?;
            let second = part(alloc, env, atoms, s)?;
            cat(first, second)
        }
        Term::Insert(r, e) => insert(alloc, env, *e, evaluate(alloc, env, atoms, r)?),
        Term::Hold(n) => hold(env.holds.as_slice().get(*n as usize)),
        Term::Lit(x) => Ok(Some(Found::One(x.clone()?))),
        Term::Item(e) => item(env, *e),
        Term::Sel(_, r)
        | Term::Proj(_, r)
        | Term::Uniq(r)
        | Term::Count(r)
        | Term::Sum(r)
        | Term::Any(r) => {
            let list = part(alloc, env, atoms, r)?;
            of_part(alloc, env, atoms, t, &list)
        }
        Term::Join(r, s)
        | Term::Best(_, r, s)
        | Term::Pick(_, r, s)
        | Term::Add(r, s)
        | Term::Or(r, s) => {
            let first = part(alloc, env, atoms, r)?;
            let second = part(alloc, env, atoms, s)?;
            of_parts(alloc, t, &first, &second)
        }
    }
}

// What a term with one part is found to be, from what this is found to be.
fn of_part(
    alloc: Global,
    env: &Env,
    atoms: &[Atom],
    t: &Term,
    part: &Option<Found>,
) -> Result<Option<Found>, NoMemory>
    ensures { IfOk result (λ o. o ≡ parts.of_part env.now atoms.now (tree_of t.now) part.now) }
{
    match t {
        Term::Sel(fs, _) => sel(alloc, env, atoms, fs.as_slice(), part),
        Term::Proj(e, _) => proj(alloc, env, *e, part),
        Term::Uniq(_) => uniq(alloc, part),
        Term::Count(_) => Ok(count(part)),
        Term::Sum(r) => Ok(sum(has_whole(r), part)),
        _ => Ok(any(part)),
    }
}

// What a term with two parts is found to be, from what these are found to be.
fn of_parts(
    alloc: Global,
    t: &Term,
    first: &Option<Found>,
    second: &Option<Found>,
) -> Result<Option<Found>, NoMemory>
    ensures { IfOk result (λ o. o ≡ parts.of_parts (tree_of t.now) first.now second.now) }
{
    match t {
        Term::Join(_, _) => join(alloc, first, second),
        Term::Best(way, _, r) => Ok(best(*way, has_whole(r), first, second)),
        Term::Pick(way, _, _) => Ok(pick(*way, first, second)),
        Term::Add(_, _) => Ok(add(first, second)),
        _ => Ok(or(first, second)),
    }
}

// What a part of a term is found to be, in a box.
#[cycle(evaluate)]
fn part(alloc: Global, env: &Env, atoms: &[Atom], t: &Term) -> Result<Box<Option<Found>>, NoMemory>
    ensures { IfOk result (λ o. o.value ≡ spec.evaluated env.now atoms.now (tree_of t.now)) }
{
    let found = evaluate(alloc, env, atoms, t)?;
    Ok(Box::new(alloc, found)?)
}

fn push_cells(all: &mut Cells, cells: &[Scalar]) -> Result<(), NoMemory>
    ensures { OnOk result (all.new ≡ all.old ++ cells.now) }
{
    for cell in cells {
        all.push(cell.clone()?)?;
    }
    Ok(())
}

fn joined_cells(alloc: Global, tuple: &[(u32, Row)]) -> Result<Cells, NoMemory>
    ensures { IfOk result (λ cells. cells ≡ spec.cells_of tuple.now) }
{
    let mut cells = Items::new(alloc);
    for own in tuple {
        push_cells(&mut cells, own.1.cells.as_slice())?;
    }
    Ok(cells)
}

// The row of a tuple: that of its only loop, and of several loops the cells of all their rows.
fn tuple_row(alloc: Global, tuple: &[(u32, Row)]) -> Result<Row, NoMemory>
    ensures { IfOk result (λ row. row ≡ fits.tuple_row tuple.now) }
{
    match tuple {
        [own] => Ok(own.1.clone()?),
        _ => Ok(Row {
            kind: Kind::Plain,
            cells: joined_cells(alloc, tuple)?,
        }),
    }
}

fn tuple_rows(alloc: Global, tuples: &[Tuple]) -> Result<Rows, NoMemory>
    ensures { IfOk result (λ rows. rows ≡ map fits.tuple_row tuples.now) }
{
    let mut rows = Items::new(alloc);
    for tuple in tuples {
        rows.push(tuple_row(alloc, tuple.as_slice())?)?;
    }
    Ok(rows)
}

fn shown(alloc: Global, found: Found) -> Result<Value, NoMemory>
    ensures { IfOk result (λ v. v ≡ spec.shown found) }
{
    match found {
        Found::Empty => Ok(Value::Many(Items::new(alloc))),
        Found::Tuples(_, tuples) => Ok(Value::Many(tuple_rows(alloc, tuples.as_slice())?)),
        Found::Elements(rows) => Ok(Value::Many(rows)),
        Found::One(x) => Ok(Value::One(x)),
    }
}

/// The value of a term in an environment. A tuple list of one loop is given as its rows, and one of
/// several loops as rows of kind `Plain` with the cells of all of them in the order of the loops.
///
/// It is none exactly where the term doesn't fit the environment and the atoms, or the value of one
/// of its parts, itself among them, is a number outside 64 bits. An error is want of memory.
#[tactic(auto, using(crate::proofs::Shown::no_value, crate::proofs::Shown::some_fits, crate::proofs::Shown::none_fits))]
pub fn eval(alloc: Global, term: &Term, atoms: &Atoms, env: &Env) -> Result<Option<Value>, NoMemory>
    ensures value { IfOk result (λ o. o ≡ fits.eval_of env.now atoms.now (tree_of term.now)) }
    ensures none { IfOk result (λ o.
        is_some o ≡ (fits.sums_fit (world_of env.now) atoms.now (tree_of term.now) && is_some (fits.sort env.now atoms.now (tree_of term.now)))) }
{
    match evaluate(alloc, env, atoms.as_slice(), term)? {
        Some(found) => Ok(Some(shown(alloc, found)?)),
        None => Ok(None),
    }
}
