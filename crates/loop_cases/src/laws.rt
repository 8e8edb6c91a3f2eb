//! Laws of examples. They do nothing.
ghost use Rattle.loop_cases.specs.Derived.{Worked};

/// The conditions of the worked candidates are derived, those of one loop by the four lines of its
/// bundle, and a wrong candidate has a condition that is not.
#[tactic(auto, using(crate::proofs::Computed::worked))]
pub fn worked_candidates_have_their_derivations()
    ensures { Worked }
{}
