// Candidates by the size of their pool.
ghost use Rattle.std.specs.Prelude.{◌≡◌, ◌<◌, ◌≤◌, Some, IfOk, length, slice_get};
ghost use Rattle.templates.specs.Binomial.{binomial};
ghost use Rattle.templates.specs.Numbered.{candidates, increasing, IsCandidate};

use qbs_base::{Items, NoMemory};
use std::alloc::Global;

/// The largest pool: that of eight accumulators with 16 formulas each.
pub const MAX_POOL: u32 = 128;

/// The largest number of formulas that a candidate has.
pub const MAX_SIZE: u32 = 8;

/// How many ways there are to choose `k` of `n`.
fn choose(n: u32, k: u32) -> u64
    requires pool { n ≤ MAX_POOL }
    requires size { k ≤ MAX_SIZE }
    ensures { result ≡ binomial n k }
{
    let mut ways: u64 = 1;
    for chosen in 0..k {
        ways = ways * u64::from(n.saturating_sub(chosen)) / u64::from(chosen + 1);
    }
    ways
}

/// How many candidates of at most `size` formulas there are over a pool with `pool` formulas. It
/// takes no memory.
pub fn count_of(pool: u32, size: u32) -> u64
    requires pool { pool ≤ MAX_POOL }
    requires size { size ≤ MAX_SIZE }
    ensures { result ≡ length (candidates pool size) }
{
    let mut all: u64 = 0;
    for length in 0..=size {
        all += choose(pool, length);
    }
    all
}

/// A place among the candidates of one length.
#[derive(Clone, Copy)]
struct Place {
    length: u32,
    rank: u64,
}

/// The place of candidate `k`.
fn place_of(pool: u32, k: u64) -> Place
    requires pool { pool ≤ MAX_POOL }
    requires within { k < length (candidates pool MAX_SIZE) }
    ensures length { result.length ≤ MAX_SIZE }
    ensures rank { result.rank < length (increasing 0 pool result.length) }
    ensures same { slice_get (candidates pool MAX_SIZE) k ≡ slice_get (increasing 0 pool result.length) result.rank }
{
    let mut rank = k;
    for length in 0..=MAX_SIZE {
        let ways = choose(pool, length);
        if rank < ways {
            return Place { length, rank };
        }
        rank -= ways;
    }
    unreachable!()
}

/// Candidate `k` over a pool with `pool` formulas, by length and then lexicographically, counted
/// from 0. It makes no list of candidates.
pub fn nth_of(alloc: Global, pool: u32, k: u64) -> Result<Items<u32>, NoMemory>
    requires pool { pool ≤ MAX_POOL }
    requires within { k < length (candidates pool MAX_SIZE) }
    ensures exact { IfOk result (λ c. slice_get (candidates pool MAX_SIZE) k ≡ Some c) }
    ensures candidate { IfOk result (IsCandidate pool) }
{
    let place = place_of(pool, k);
    let mut numbers = Items::new(alloc);
    let mut rank = place.rank;
    let mut needed = place.length;
    let mut number = 0;
    while needed > 0 {
        // the candidates that go on with this number stand before those that leave it out
        let with_it = choose(pool - number - 1, needed - 1);
        if rank < with_it {
            numbers.push(number)?;
            needed -= 1;
        } else {
            rank -= with_it;
        }
        number += 1;
    }
    Ok(numbers)
}
