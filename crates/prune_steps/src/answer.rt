// Answers of a pruner.
ghost use Rattle.std.specs.Prelude.{◌≡◌};
ghost use Rattle.prune_steps.specs.Answered.{answer_of};

use kernel_lang::PruneAnswer;
use qbs_base::NoMemory;

/// The answer from whether a candidate is refuted. None where it isn't judged.
pub fn answered(refuted: Option<Result<bool, NoMemory>>) -> PruneAnswer
    ensures { result ≡ answer_of refuted }
{
    match refuted {
        None => PruneAnswer::Keep,
        Some(Ok(true)) => PruneAnswer::Drop,
        Some(Ok(false)) => PruneAnswer::Keep,
        Some(Err(_)) => PruneAnswer::NoMemory,
    }
}
