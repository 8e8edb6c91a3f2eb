// Candidates by their numbers.
ghost use Rattle.std.specs.Prelude.{◌≡◌, ◌<◌, ◌≤◌, Some, IfOk, length, slice_get};
ghost use Rattle.kernel_lang.specs.Pools.{IsCandidateOf};
ghost use Rattle.kernel_lang.specs.Whole.{fragment_of};
ghost use Rattle.templates.specs.Numbered.{candidates_of};

use kernel_lang::{Candidate, KFragment};
use qbs_base::NoMemory;
use std::alloc::Global;
use templates::nth;

/// Candidate `k` of those of at most `size` formulas. The size isn't needed to find it.
pub fn candidate_at(
    alloc: Global,
    frag: &KFragment,
    size: u32,
    k: u64,
) -> Result<Candidate, NoMemory>
    requires size { size ≤ 8 }
    requires within { k < length (candidates_of (fragment_of frag.now) size) }
    ensures exact { IfOk result (λ c. slice_get (candidates_of (fragment_of frag.now) size) k ≡ Some c) }
    ensures candidate { IfOk result (IsCandidateOf (fragment_of frag.now)) }
{
    let _size = size;
    nth(alloc, frag, k)
}
