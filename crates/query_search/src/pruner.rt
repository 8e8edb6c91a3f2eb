// Closures that are kept, and asked about candidates.
ghost use Rattle.std.specs.Prelude.{◌≡◌};
ghost use Rattle.kernel_lang.specs.declared.prune.PruneAnswer.TheVariants as answers;
ghost use Rattle.kernel_lang.specs.Pools.{IsCandidateOf};
ghost use Rattle.kernel_lang.specs.Refuted.{IsRefuted};
ghost use Rattle.kernel_lang.specs.Whole.{fragment_of};
ghost use Rattle.query_search.specs.Asking.{as_it_is, MayAnswer};

use crate::answer::answer_of;
use kernel_lang::{Candidate, KFragment, PruneAnswer};

/// A closure that is asked about a candidate of a fragment.
pub type Call = Box<dyn Fn(&KFragment, &Candidate) -> PruneAnswer>;

/// A closure that may be asked about every candidate of every fragment, and answers `Drop` only where
/// some database refutes the candidate.
#[derive(Drop)]
pub struct Pruner {
    call: Call,
    ghost callable: { (f : _) (c : _) → IsCandidateOf (fragment_of f.now) c.now → Call.pre call f c },
    ghost justified: { (f : _) (c : _)
        → IsCandidateOf (fragment_of f.now) c.now
        → Call.post call f c answers.Drop
        → ∥ IsRefuted (fragment_of f.now) c.now ∥₁ },
}

impl Pruner {
    /// A pruner that asks this closure. It takes no memory: the caller made the box.
    pub fn new(call: Call) -> Pruner
        requires callable { (f : _) (c : _) → IsCandidateOf (fragment_of f.now) c.now → Call.pre call f c }
        requires justified { (f : _) (c : _)
            → IsCandidateOf (fragment_of f.now) c.now
            → Call.post call f c answers.Drop
            → ∥ IsRefuted (fragment_of f.now) c.now ∥₁ }
        ensures { result.call ≡ call }
    {
        Pruner { call }
    }

    /// What the closure answers.
    pub fn ask(&self, f: &KFragment, c: &Candidate) -> PruneAnswer
        requires { IsCandidateOf (fragment_of f.now) c.now }
        ensures answer { MayAnswer as_it_is (Call.post self.now.call) f.now result c.now }
        ensures justified { result ≡ answers.Drop → ∥ IsRefuted (fragment_of f.now) c.now ∥₁ }
    {
        answer_of(&self.call, f, c)
    }
}
