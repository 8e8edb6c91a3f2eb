// Lists of tuples and of elements.
ghost use Rattle.std.specs.Prelude.{◌≡◌, ◌++◌, ◌∷◌, [], if◌then◌else◌, IfOk, OnOk, map, length, nat_lt};
ghost use Rattle.std.specs.List.{list_all, filter};
ghost use Rattle.tor_terms.specs.Plain.{forms_of};
ghost use Rattle.tor_terms.specs.Value as spec;
ghost use Rattle.tor_terms.specs.Worlds.{world_of};
ghost use Rattle.tor_terms.specs.Fits as fits;
ghost use Rattle.tor_terms.specs.Evaluation as found;

use crate::eval_rows::{elem_of, has_column};
use crate::eval_truth::all_hold;
use qbs_base::{Items, NoMemory, Row, Rows};
use std::alloc::Global;
use tor_terms::{Atom, Elem, Env, Formula, Index, Tuple, TupleList, has_loop, has_row};

// The tuple of a row of a loop.
fn one_tuple(alloc: Global, j: u32, row: &Row) -> Result<Tuple, NoMemory>
    ensures { IfOk result (λ t. t ≡ found.one_tuple j row.now) }
{
    let mut tuple = Items::new(alloc);
    tuple.push((j, row.clone()?))?;
    Ok(tuple)
}

/// The rows of a loop's list, as tuples.
pub fn walked(alloc: Global, j: u32, rows: &[Row]) -> Result<TupleList, NoMemory>
    ensures { IfOk result (λ ts. ts ≡ map (found.one_tuple j) rows.now) }
{
    let mut tuples = Items::new(alloc);
    for row in rows {
        tuples.push(one_tuple(alloc, j, row)?)?;
    }
    Ok(tuples)
}

/// Whether an index is there.
pub fn index_fits(env: &Env, index: Index) -> bool
    ensures { result ≡ fits.index_fits env.now index }
{
    match index {
        Index::Zero => true,
        Index::At(j) => (j as usize) < env.at.len(),
        Index::Next(j) => (j as usize) < env.at.len(),
        Index::Len(j) => (j as usize) < env.lists.len(),
    }
}

fn are_distinct(loops: &[u32]) -> bool
    ensures { result ≡ fits.distinct loops.now }
{
    for (i, j) in loops.iter().enumerate() {
        if has_loop(&loops[i + 1..], *j) {
            return false;
        }
    }
    true
}

fn have_rows(env: &Env, loops: &[u32]) -> bool
    ensures { result ≡ list_all (λ j. nat_lt j (length env.now.cur)) loops.now }
{
    for j in loops {
        if *j as usize >= env.cur.len() {
            return false;
        }
    }
    true
}

/// Whether loops differ, and each has a current row.
pub fn loops_fit(env: &Env, loops: &[u32]) -> bool
    ensures { result ≡ found.loops_fit env.now loops.now }
{
    are_distinct(loops) && have_rows(env, loops)
}

/// The current rows of loops.
pub fn here(alloc: Global, env: &Env, loops: &[u32]) -> Result<Tuple, NoMemory>
    ensures { IfOk result (λ t. t ≡ spec.here (world_of env.now) loops.now) }
{
    let mut tuple = Items::new(alloc);
    for j in loops {
        let row = elem_of(alloc, env, &[], Elem::Whole(*j))?;
        tuple.push((*j, row))?;
    }
    Ok(tuple)
}

/// Whether two lists name the same loops in the same order.
pub fn same_loops(a: &[u32], b: &[u32]) -> bool
    ensures { result ≡ fits.same_loops a.now b.now }
{
    let mut rest = b;
    for j in a {
        match rest.split_first() {
            Some((k, others)) => {
                if *j != *k {
                    return false;
                }
                rest = others;
            }
            None => return false,
        }
    }
    rest.is_empty()
}

/// Whether two lists of loops have none in common.
pub fn are_apart(a: &[u32], b: &[u32]) -> bool
    ensures { result ≡ fits.apart a.now b.now }
{
    for j in b {
        if has_loop(a, *j) {
            return false;
        }
    }
    true
}

/// A list followed by another.
pub fn appended<T: Drop>(first: Items<T>, second: Items<T>) -> Result<Items<T>, NoMemory>
    ensures { IfOk result (λ all. all ≡ first ++ second) }
{
    let mut all = first.into_vec();
    let mut more = second.into_vec();
    all.append(&mut more)?;
    Ok(Items::from_vec(all))
}

fn copied_own(own: &(u32, Row)) -> Result<(u32, Row), NoMemory>
    ensures { IfOk result (λ copy. copy ≡ own.now) }
{
    Ok((own.0, own.1.clone()?))
}

fn push_rows(all: &mut Tuple, tuple: &[(u32, Row)]) -> Result<(), NoMemory>
    ensures { OnOk result (all.new ≡ all.old ++ tuple.now) }
{
    for own in tuple {
        all.push(copied_own(own)?)?;
    }
    Ok(())
}

// The rows of a tuple and then those of another.
fn paired(alloc: Global, t: &[(u32, Row)], u: &[(u32, Row)]) -> Result<Tuple, NoMemory>
    ensures { IfOk result (λ all. all ≡ t.now ++ u.now) }
{
    let mut all = Items::new(alloc);
    push_rows(&mut all, t)?;
    push_rows(&mut all, u)?;
    Ok(all)
}

fn push_joined(
    alloc: Global,
    all: &mut TupleList,
    t: &[(u32, Row)],
    us: &[Tuple],
) -> Result<(), NoMemory>
    ensures { OnOk result (all.new ≡ all.old ++ found.after_tuple us.now t.now) }
{
    for u in us {
        all.push(paired(alloc, t, u.as_slice())?)?;
    }
    Ok(())
}

/// Each of the first, in order, with each of the second, in order.
pub fn joined(alloc: Global, ts: &[Tuple], us: &[Tuple]) -> Result<TupleList, NoMemory>
    ensures { IfOk result (λ all. all ≡ found.joined_tuples ts.now us.now) }
{
    let mut all = Items::new(alloc);
    for t in ts {
        push_joined(alloc, &mut all, t.as_slice(), us)?;
    }
    Ok(all)
}

fn copied(alloc: Global, t: &[(u32, Row)]) -> Result<Tuple, NoMemory>
    ensures { IfOk result (λ u. u ≡ t.now) }
{
    let mut all = Items::new(alloc);
    push_rows(&mut all, t)?;
    Ok(all)
}

fn push_where(
    alloc: Global,
    kept: &mut TupleList,
    holds: bool,
    t: &[(u32, Row)],
) -> Result<(), NoMemory>
    ensures { OnOk result (kept.new ≡ (if holds then kept.old ++ t.now ∷ [] else kept.old)) }
{
    if holds {
        kept.push(copied(alloc, t)?)?;
    }
    Ok(())
}

/// The tuples for which all formulas hold.
pub fn selected(
    alloc: Global,
    env: &Env,
    atoms: &[Atom],
    fs: &[Formula],
    ts: &[Tuple],
) -> Result<TupleList, NoMemory>
    ensures { IfOk result (λ kept. kept ≡ filter (found.selects env.now atoms.now (forms_of fs.now)) ts.now) }
{
    let mut kept = Items::new(alloc);
    for t in ts {
        let holds = all_hold(env, atoms, fs, t.as_slice());
        push_where(alloc, &mut kept, holds, t.as_slice())?;
    }
    Ok(kept)
}

/// Whether the column of an element is there at all tuples.
pub fn have_column(env: &Env, e: Elem, ts: &[Tuple]) -> bool
    ensures { result ≡ list_all (found.column_of env.now e) ts.now }
{
    for t in ts {
        if !has_column(env, t.as_slice(), e) {
            return false;
        }
    }
    true
}

/// An element of each tuple.
pub fn projected(alloc: Global, env: &Env, e: Elem, ts: &[Tuple]) -> Result<Rows, NoMemory>
    ensures { IfOk result (λ rows. rows ≡ map (found.elem_of env.now e) ts.now) }
{
    let mut rows = Items::new(alloc);
    for t in ts {
        rows.push(elem_of(alloc, env, t.as_slice(), e)?)?;
    }
    Ok(rows)
}

/// Appends a row where it isn't among those that are there.
pub fn push_new(rows: &mut Rows, row: Row) -> Result<(), NoMemory>
    ensures { OnOk result (rows.new ≡ found.with_row rows.old row) }
{
    if !has_row(rows.as_slice(), &row) {
        rows.push(row)?;
    }
    Ok(())
}

fn copied_row(row: &Row) -> Result<Row, NoMemory>
    ensures { IfOk result (λ copy. copy ≡ row.now) }
{
    Ok(row.clone()?)
}

/// The first occurrences of rows.
pub fn first_rows(alloc: Global, rows: &[Row]) -> Result<Rows, NoMemory>
    ensures { IfOk result (λ seen. seen ≡ found.first_rows [] rows.now) }
{
    let mut seen = Items::new(alloc);
    for row in rows {
        push_new(&mut seen, copied_row(row)?)?;
    }
    Ok(seen)
}
