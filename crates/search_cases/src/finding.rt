// What a search finds, as text.
use deriv_check::print_derivation;
use kernel_lang::KFragment;
use qbs_base::NoMemory;
use query_search::{Found, Pruner, search};
use std::alloc::Global;
use tor_axioms::Derivation;

fn put_candidate(
    out: &mut String,
    alloc: Global,
    k: u64,
    cand: &[u32],
    proofs: &[Derivation],
) -> Result<(), NoMemory> {
    write!(out, "found {k}:")?;
    for number in cand {
        write!(out, " {number}")?;
    }
    out.push('\n')?;
    for proof in proofs {
        let text = print_derivation(alloc, proof)?;
        out.push_str(text.as_str())?;
    }
    Ok(())
}

// With no pruner none is dropped.
fn put_dropped(out: &mut String, dropped: u64) -> Result<(), NoMemory> {
    if dropped != 0 {
        write!(out, "dropped {dropped}\n")?;
    }
    Ok(())
}

/// Appends what a search finds in a fragment: the number of the candidate that is found, its formulas, and a
/// derivation a line; or of how many there is none.
pub fn put_found(
    out: &mut String,
    alloc: Global,
    frag: &KFragment,
    size: u32,
    budget: u32,
    pruners: &[Pruner],
) -> Result<(), NoMemory> {
    match search(alloc, frag, size.min(8), u64::from(budget), pruners)? {
        Found::Found {
            k,
            cand,
            proofs,
            dropped,
        } => {
            put_dropped(out, dropped)?;
            put_candidate(out, alloc, k, cand.as_slice(), proofs.as_slice())
        }
        Found::NoneOf { n, dropped } => {
            put_dropped(out, dropped)?;
            Ok(write!(out, "none of {n}\n")?)
        }
        Found::Budget { b, n, dropped } => {
            put_dropped(out, dropped)?;
            Ok(write!(out, "budget {b} of {n}\n")?)
        }
    }
}
