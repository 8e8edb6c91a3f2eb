// The conditions of candidates: how many facts each has, and whether it says that a flag is set.
ghost use Rattle.kernel_lang.specs.Plain.{accumulator};
ghost use Rattle.vc_gen.specs.Outlines.{IsOutlineOf};

use crate::words::numbers_from;
use kernel_lang::{Acc, KFragment};
use qbs_base::{NoMemory, Scalar};
use std::alloc::{AllocError, Global};
use tor_axioms::Vc;
use tor_terms::{Atoms, Formula, Term};
use vc_gen::{Outline, conditions, outline_of, own_condition};

fn put_condition(out: &mut String, vc: &Vc) -> Result<(), AllocError> {
    let facts = vc.facts.len();
    write!(out, " {facts}")?;
    if matches!(vc.right, Term::Lit(Scalar::Bool(true))) {
        out.push_str(" set")?;
    }
    Ok(())
}

fn put_list(out: &mut String, vcs: &[Vc]) -> Result<(), AllocError> {
    out.push_str("facts")?;
    for vc in vcs {
        put_condition(out, vc)?;
    }
    out.push('\n')
}

/// Appends the conditions of a candidate.
pub fn put_conditions(
    out: &mut String,
    alloc: Global,
    frag: &KFragment,
    words: &[&str],
) -> Result<(), NoMemory> {
    let candidate = numbers_from(alloc, words, 1)?;
    let vcs = conditions(alloc, frag, &candidate)?;
    Ok(put_list(out, vcs.as_slice())?)
}

// How many facts a condition of an accumulator has, and none where it has fewer conditions.
fn facts_of(
    alloc: Global,
    atoms: &Atoms,
    acc: &Acc,
    outline: &Outline,
    choice: &[Formula],
    number: usize,
) -> Result<Option<usize>, NoMemory>
    requires { IsOutlineOf (accumulator acc.now) outline.now }
{
    match own_condition(alloc, atoms, acc, outline, choice, number)? {
        Some(condition) => {
            let condition = Box::new(alloc, condition)?;
            Ok(Some(condition.facts.len()))
        }
        None => Ok(None),
    }
}

// The first sixteen conditions of an accumulator that chooses the first formula of its pool.
fn put_own(out: &mut String, alloc: Global, atoms: &Atoms, acc: &Acc) -> Result<(), NoMemory> {
    let Some(choice) = acc.pool.as_slice().get(..1) else {
        return Ok(());
    };
    if acc.chain.len() > 3 {
        return Ok(());
    }
    let outline = outline_of(alloc, acc)?;
    out.push_str("facts")?;
    for number in 0..16 {
        match facts_of(alloc, atoms, acc, &outline, choice, number)? {
            Some(facts) => write!(out, " {facts}")?,
            None => break,
        }
    }
    out.push('\n')?;
    Ok(())
}

/// Appends a line for each accumulator: its own conditions, asked for one at a time.
pub fn put_each(out: &mut String, alloc: Global, frag: &KFragment) -> Result<(), NoMemory> {
    for acc in frag.accs.as_slice() {
        put_own(out, alloc, &frag.atoms, acc)?;
    }
    Ok(())
}
