//! Laws of what stands round a slice. They do nothing.
ghost use Rattle.view_scope.specs.Worked.{Worked};

/// A class has the methods and constants that were found by hand, its fields are kept, its variables are tested and guarded, in sight and hidden
/// as was found by hand.
pub fn worked_scopes_are_as_found()
    ensures { Worked }
{}
