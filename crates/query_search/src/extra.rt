// A closure that is asked after all pruners.
ghost use Rattle.std.specs.Prelude.{◌≡◌};
ghost use Rattle.kernel_lang.specs.declared.prune.PruneAnswer.TheVariants as answers;
ghost use Rattle.kernel_lang.specs.Pools.{IsCandidateOf};
ghost use Rattle.kernel_lang.specs.Refuted.{IsRefuted};
ghost use Rattle.kernel_lang.specs.Whole.{fragment_of};
ghost use Rattle.query_search.specs.Asking.{as_it_is, MayAnswer};

use crate::answer::answer_of;
use kernel_lang::{Candidate, KFragment, PruneAnswer};

/// A closure that is asked as one more pruner, after all others. Whoever is given one asks that its closure
/// may be called and is justified, as `new` does.
#[derive(Drop)]
pub struct FurtherPruner<F: Fn(&KFragment, &Candidate) -> PruneAnswer> {
    pub call: F,
}

impl<F: Fn(&KFragment, &Candidate) -> PruneAnswer> FurtherPruner<F> {
    /// One more pruner. Its closure may be asked about every candidate of every fragment, and answers
    /// `Drop` only where some database refutes the candidate. It takes no memory.
    pub fn new(call: F) -> FurtherPruner<F>
        requires callable { (f : _) (c : _) → IsCandidateOf (fragment_of f.now) c.now → F.pre call f c }
        requires justified { (f : _) (c : _)
            → IsCandidateOf (fragment_of f.now) c.now
            → F.post call f c answers.Drop
            → ∥ IsRefuted (fragment_of f.now) c.now ∥₁ }
        ensures { result.call ≡ call }
    {
        FurtherPruner { call }
    }

    /// What the closure answers.
    pub fn ask(&self, f: &KFragment, c: &Candidate) -> PruneAnswer
        requires candidate { IsCandidateOf (fragment_of f.now) c.now }
        requires callable { (f : _) (c : _) → IsCandidateOf (fragment_of f.now) c.now → F.pre self.now.call f c }
        requires justified { (f : _) (c : _)
            → IsCandidateOf (fragment_of f.now) c.now
            → F.post self.now.call f c answers.Drop
            → ∥ IsRefuted (fragment_of f.now) c.now ∥₁ }
        ensures answer { MayAnswer as_it_is (F.post self.now.call) f.now result c.now }
        ensures justified { result ≡ answers.Drop → ∥ IsRefuted (fragment_of f.now) c.now ∥₁ }
    {
        answer_of(&self.call, f, c)
    }
}
