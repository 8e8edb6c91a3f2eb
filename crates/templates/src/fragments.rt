// Candidates of a fragment.
ghost use Rattle.std.specs.Prelude.{◌≡◌, ◌<◌, ◌≤◌, Some, IfOk, length, slice_get};
ghost use Rattle.kernel_lang.specs.Pools.{IsCandidateOf};
ghost use Rattle.kernel_lang.specs.Whole.{fragment_of};
ghost use Rattle.templates.specs.Numbered.{candidates_of};

use crate::numbered::{MAX_SIZE, count_of, nth_of};
use kernel_lang::{Candidate, KFragment, pool_size};
use qbs_base::NoMemory;
use std::alloc::Global;

/// How many candidates of at most `size` formulas a fragment has. It takes no memory.
pub fn count(frag: &KFragment, size: u32) -> u64
    requires { size ≤ MAX_SIZE }
    ensures { result ≡ length (candidates_of (fragment_of frag.now) size) }
{
    count_of(pool_size(frag), size)
}

/// Candidate `k` of a fragment, by length and then lexicographically, counted from 0. It makes no
/// list of candidates.
pub fn nth(alloc: Global, frag: &KFragment, k: u64) -> Result<Candidate, NoMemory>
    requires { k < length (candidates_of (fragment_of frag.now) MAX_SIZE) }
    ensures exact { IfOk result (λ c. slice_get (candidates_of (fragment_of frag.now) MAX_SIZE) k ≡ Some c) }
    ensures candidate { IfOk result (IsCandidateOf (fragment_of frag.now)) }
{
    nth_of(alloc, pool_size(frag), k)
}
