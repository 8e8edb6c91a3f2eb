//! What worked texts come to, found by hand. They do nothing.
ghost use Rattle.std.specs.Prelude.{◌≡◌, Ok};
ghost use Rattle.view_map.specs.Maps.{map_of};
ghost use Rattle.view_map.specs.Worked.{worked_tables, worked_text, worked_map, WorkedFaults};

/// A map with tables, fetch patterns, a constant and a template, and the templates that it leaves out.
pub fn a_worked_map()
    ensures { map_of worked_tables worked_text ≡ Ok worked_map }
{}

/// Maps with each of the faults.
pub fn worked_faults()
    ensures { WorkedFaults }
{}
