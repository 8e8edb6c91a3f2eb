//! Laws of items. They do nothing.
ghost use Rattle.view_items.specs.Worked.{Worked};

/// Files have the items and brackets that were found by hand: blocks with backslashes, closed arguments of types, numbers with exponents, what
/// isn't closed, and escapes.
#[tactic(auto, using(crate::proofs::Computed::worked))]
pub fn worked_files_have_their_items()
    ensures { Worked }
{}
