//! A worked text. This does nothing.
ghost use Rattle.java_stretches.specs.WorkedPatch.{IsWorked};

/// A source carries its program, and with a query in place of a run and a loop it carries the program in which the loop gave way: the premises of the laws
/// are met.
pub fn a_loop_gives_way_in_a_source()
    ensures { IsWorked }
{}
