//! Laws of shapes. They do nothing.
ghost use Rattle.view_shapes.specs.Worked.{Worked};

/// A class has the members, the ends of statements and the blocks that were found by hand, and so have statements at the edges; names are free
/// and may be set as was found by hand.
#[tactic(auto, using(crate::proofs::Computed::worked))]
pub fn worked_shapes_are_as_found()
    ensures { Worked }
{}
