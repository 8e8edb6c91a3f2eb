// Counts of candidates, and candidates by their numbers.
ghost use Rattle.std.specs.Prelude.{◌≤◌};

use crate::words::{number_at, word_at};
use kernel_lang::KFragment;
use qbs_base::NoMemory;
use std::alloc::{AllocError, Global};
use templates::{count, count_of, nth, nth_of};

fn put_numbers(out: &mut String, numbers: &[u32]) -> Result<(), AllocError> {
    out.push_str("candidate")?;
    for number in numbers {
        write!(out, " {number}")?;
    }
    Ok(())
}

fn put_nth(out: &mut String, alloc: Global, pool: u32, k: Option<u64>) -> Result<(), NoMemory>
    requires { pool ≤ 128 }
{
    match k {
        Some(k) if k < count_of(pool, 8) => {
            let candidate = nth_of(alloc, pool, k)?;
            Ok(put_numbers(out, candidate.as_slice())?)
        }
        _ => Ok(out.push_str("no candidate")?),
    }
}

/// Appends how many candidates of this size a pool has, or the one with a number, or the last one.
pub fn put_choice(out: &mut String, alloc: Global, words: &[&str]) -> Result<(), NoMemory> {
    let pool = number_at(words, 1).min(128);
    let size = number_at(words, 2).min(8);
    match word_at(words, 0) {
        "count" => {
            let all = count_of(pool, size);
            write!(out, "{all}")?;
        }
        "nth" => put_nth(out, alloc, pool, Some(u64::from(number_at(words, 2))))?,
        _ => put_nth(out, alloc, pool, count_of(pool, 8).checked_sub(1))?,
    }
    out.push('\n')?;
    Ok(())
}

/// Appends the last candidate of a fragment, of at most eight formulas.
pub fn put_last(out: &mut String, alloc: Global, frag: &KFragment) -> Result<(), NoMemory> {
    if let Some(last) = count(frag, 8).checked_sub(1) {
        let candidate = nth(alloc, frag, last)?;
        put_numbers(out, candidate.as_slice())?;
    }
    out.push('\n')?;
    Ok(())
}
