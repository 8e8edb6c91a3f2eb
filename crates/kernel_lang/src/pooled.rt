// The size of the combined pool.
ghost use Rattle.std.specs.Prelude.{◌≡◌, ◌+◌, ◌*◌, ◌<◌, ◌≤◌, ◌^◌, length, map, true};
ghost use Rattle.std.specs.List.{list_all};
ghost use Rattle.kernel_lang.specs.Plain.{accumulator};
ghost use Rattle.kernel_lang.specs.Pools.{combined_pool, pooled};
ghost use Rattle.kernel_lang.specs.Whole.{fragment_of};

use crate::fragment::KFragment;
use crate::parts::Acc;

#[tactic(auto, using(crate::proofs::Sized::sized))]
fn count_formulas(accs: &[Acc]) -> usize
    requires { length (pooled (map accumulator accs.now)) < 2 ^ 32 }
    ensures { result ≡ length (pooled (map accumulator accs.now)) }
{
    match accs.split_first() {
        None => 0,
        Some((a, rest)) => a.pool.len() + count_formulas(rest),
    }
}

/// How many formulas the combined pool of a fragment has. It takes no memory.
#[tactic(auto, using(crate::proofs::Sized::sized))]
pub fn pool_size(frag: &KFragment) -> u32
    ensures exact { result ≡ length (combined_pool (fragment_of frag.now)) }
    ensures small { result ≤ 128 }
{
    count_formulas(frag.accs.as_slice()) as u32
}
