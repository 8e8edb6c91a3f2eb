//! A worked text. This does nothing.
ghost use Rattle.java_stretches.specs.Worked.{IsWorked};

/// A run and a loop of a class give way to a query, and all other bytes stay: the premises of the laws are met, and this is the text.
pub fn a_loop_gives_way_in_a_text()
    ensures { IsWorked }
{}
