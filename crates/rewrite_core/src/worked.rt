//! What the definitions say of worked loops, as laws that compute. They do nothing.
ghost use Rattle.rewrite_core.specs.Worked.{Worked};
ghost use Rattle.rewrite_core.specs.WorkedTries.{WorkedTries};

/// A loop that collects rows, one that keeps the greatest value, one that counts by an entry value inside another, one that fills
/// a set and one that tests a known list give way to their asks: the candidate's conditions are derived, the emitted queries are
/// read back, and the programs with the asks keep what the loops' programs do.
#[tactic(auto, using(crate::proofs::Computed::worked))]
pub fn worked_loops_give_way_to_queries()
    ensures { Worked }
{}

/// The loops of two programs, tried one after the other: one gives way, and no loop is left; one stands, and the loop inside it gives
/// way. What comes of both keeps what they do.
#[tactic(auto, using(crate::proofs::ComputedTries::worked_tries))]
pub fn worked_programs_are_rewritten()
    ensures { WorkedTries }
{}
