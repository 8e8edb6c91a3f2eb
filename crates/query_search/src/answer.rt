// One call about a candidate.
ghost use Rattle.query_search.specs.Asking.{as_it_is, MayAnswer};

use kernel_lang::{Candidate, KFragment, PruneAnswer};

/// What a closure answers.
pub fn answer_of<F: Fn(&KFragment, &Candidate) -> PruneAnswer>(
    call: &F,
    f: &KFragment,
    c: &Candidate,
) -> PruneAnswer
    requires { F.pre call.now f c }
    ensures answer { MayAnswer as_it_is (F.post call.now) f.now result c.now }
{
    call(f, c)
}
