//! How many candidates are dropped where there are no pruners, as a law. It does nothing.
ghost use Rattle.std.specs.Prelude.{◌≡◌, ℕ, List, []};
ghost use Rattle.kernel_lang.specs.Whole.{fragment_of};
ghost use Rattle.query_search.specs.Asking.{OneMayDrop, AllMayKeep};
ghost use Rattle.rewrite_core.specs.Pruned.{ArePruned};
ghost use Rattle.rewrite_core.specs.Trying.{Tried};

use kernel_lang::{Candidate, KFragment};
use query_search::{PruneAnswer, Pruner};

/// With no pruners no candidate is dropped.
pub fn nothing_is_pruned_without_pruners(pruners: &[Pruner])
    requires { pruners.now ≡ [] }
    ensures { (size : ℕ) (ts : List Tried) (n : ℕ)
        → ArePruned (OneMayDrop fragment_of (λ p. ⟦<Box<dyn Fn(&KFragment, &Candidate) -> PruneAnswer> as Fn(&KFragment, &Candidate) -> PruneAnswer>⟧.post p.call) pruners.now) (AllMayKeep fragment_of (λ p. ⟦<Box<dyn Fn(&KFragment, &Candidate) -> PruneAnswer> as Fn(&KFragment, &Candidate) -> PruneAnswer>⟧.post p.call) pruners.now) size ts n
        → n ≡ 0 }
{}
