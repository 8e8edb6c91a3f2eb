// Pruners are asked in order, up to the first that drops the candidate.
ghost use Rattle.std.specs.Prelude.{◌≡◌, ◌⊎◌};
ghost use Rattle.std.specs.List.{AllByRecursion};
ghost use Rattle.kernel_lang.specs.declared.prune.PruneAnswer.TheVariants as answers;
ghost use Rattle.kernel_lang.specs.Pools.{IsCandidateOf};
ghost use Rattle.kernel_lang.specs.Refuted.{IsRefuted};
ghost use Rattle.kernel_lang.specs.Whole.{fragment_of};
ghost use Rattle.query_search.specs.Asking.{as_it_is, MayAnswer};
ghost use Rattle.query_search.specs.Counted.{OneIs};

use crate::extra::FurtherPruner;
use crate::pruner::{Call, Pruner};
use kernel_lang::{Candidate, KFragment, PruneAnswer};
use search_steps::first_asked;

/// What pruners say of a candidate: whether one drops it, where none before it wants for memory.
pub fn ask_pruners(pruners: &[Pruner], frag: &KFragment, cand: &Candidate) -> PruneAnswer
    requires { IsCandidateOf (fragment_of frag.now) cand.now }
    ensures dropped { result ≡ answers.Drop → OneIs (λ p. MayAnswer as_it_is (Call.post p.call) frag.now answers.Drop cand.now) pruners.now }
    ensures kept { result ≡ answers.Keep → AllByRecursion (λ p. MayAnswer as_it_is (Call.post p.call) frag.now answers.Keep cand.now) pruners.now }
    ensures justified { result ≡ answers.Drop → ∥ IsRefuted (fragment_of frag.now) cand.now ∥₁ }
{
    match first_asked(pruners) {
        None => PruneAnswer::Keep,
        Some((first, rest)) => match first.ask(frag, cand) {
            PruneAnswer::Keep => ask_pruners(rest, frag, cand),
            PruneAnswer::Drop => PruneAnswer::Drop,
            PruneAnswer::NoMemory => PruneAnswer::NoMemory,
        },
    }
}

/// What pruners say of a candidate, and where they keep it, what `extra` says.
pub fn ask_all<F: Fn(&KFragment, &Candidate) -> PruneAnswer>(
    pruners: &[Pruner],
    extra: &FurtherPruner<F>,
    frag: &KFragment,
    cand: &Candidate,
) -> PruneAnswer
    requires candidate { IsCandidateOf (fragment_of frag.now) cand.now }
    requires callable { (f : _) (c : _) → IsCandidateOf (fragment_of f.now) c.now → F.pre extra.now.call f c }
    requires justified { (f : _) (c : _)
        → IsCandidateOf (fragment_of f.now) c.now
        → F.post extra.now.call f c answers.Drop
        → ∥ IsRefuted (fragment_of f.now) c.now ∥₁ }
    ensures dropped { result ≡ answers.Drop
        → OneIs (λ p. MayAnswer as_it_is (Call.post p.call) frag.now answers.Drop cand.now) pruners.now
        ⊎ MayAnswer as_it_is (F.post extra.now.call) frag.now answers.Drop cand.now }
    ensures kept { result ≡ answers.Keep
        → AllByRecursion (λ p. MayAnswer as_it_is (Call.post p.call) frag.now answers.Keep cand.now) pruners.now
        × MayAnswer as_it_is (F.post extra.now.call) frag.now answers.Keep cand.now }
    ensures justified { result ≡ answers.Drop → ∥ IsRefuted (fragment_of frag.now) cand.now ∥₁ }
{
    match ask_pruners(pruners, frag, cand) {
        PruneAnswer::Keep => match extra.ask(frag, cand) {
            PruneAnswer::Keep => PruneAnswer::Keep,
            PruneAnswer::Drop => PruneAnswer::Drop,
            PruneAnswer::NoMemory => PruneAnswer::NoMemory,
        },
        PruneAnswer::Drop => PruneAnswer::Drop,
        PruneAnswer::NoMemory => PruneAnswer::NoMemory,
    }
}
