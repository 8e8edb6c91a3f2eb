// Pools of the conjuncts of conditions.
use crate::building::Building;
use crate::words::numbers_from;
use kernel_lang::pool_of;
use qbs_base::NoMemory;
use std::alloc::{AllocError, Global};
use tor_terms::Formula;

// A literal: `1` is that atom 1 holds, and `!1` that it doesn't.
fn put_literal(out: &mut String, formula: &Formula) -> Result<(), AllocError> {
    match formula {
        Formula::Is(atom, true) => write!(out, " {atom}"),
        Formula::Is(atom, false) => write!(out, " !{atom}"),
        _ => out.push_str(" no literal"),
    }
}

/// Appends the pool that the formulas of the last `pool` lines have as conditions, for an accumulator in these loops.
pub fn put_conjuncts(
    out: &mut String,
    alloc: Global,
    building: &Building,
    words: &[&str],
) -> Result<(), NoMemory> {
    let chain = numbers_from(alloc, words, 1)?;
    let conditions = building.pool.as_slice();
    let pool = pool_of(
        alloc,
        building.atoms.as_slice(),
        conditions,
        chain.as_slice(),
        0,
    )?;
    out.push_str("conjuncts")?;
    for formula in pool.as_slice() {
        put_literal(out, formula)?;
    }
    out.push('\n')?;
    Ok(())
}
