// What the numbers of loops and flags are counted by.
ghost use Rattle.std.specs.Prelude.{◌≡◌, IfOk, length};
ghost use Rattle.lowering.specs.InCode.Counted.{HasFewLoops};
ghost use Rattle.loop_text.specs.Statements.Fragment.{needed_of};
ghost use Rattle.java_loops.specs.Lowering.Numbering as specs;
ghost use Rattle.lowering.specs.InCode.Reading.{setting_in_code};
ghost use Rattle.lowering.specs.InCode.Tallied.{AreCountsOf};

use crate::numbering::tally::{Tally, flags_before, loops_before};
use loop_setting::places::setting::Setting;
use qbs_base::NoMemory;
use std::alloc::Global;

/// The loops and flags before each site of a setting, and how many accumulators are needed.
#[derive(Drop)]
pub struct Counts {
    pub loops: Tally,
    pub flags: Tally,
    pub needed: usize,
}

/// Counts the loops and flags of a setting with so many needed accumulators.
pub fn counts_of(alloc: Global, w: &Setting, needed: usize) -> Result<Counts, NoMemory>
    requires few { HasFewLoops (setting_in_code w.now) }
    requires needed { needed ≡ length (needed_of (setting_in_code w.now).fragment) }
    ensures { IfOk result (AreCountsOf (setting_in_code w.now)) }
{
    Ok(Counts {
        loops: loops_before(alloc, w)?,
        flags: flags_before(alloc, w)?,
        needed,
    })
}

/// The number of a loop among the loops.
pub fn loop_number(w: &Setting, c: &Counts, n: usize) -> u32
    requires { AreCountsOf (setting_in_code w.now) c.now }
    ensures { result ≡ specs.loop_number (setting_in_code w.now).sites n }
{
    c.loops.at(n) as u32
}

/// The number of a flag among the accumulators, of which the needed ones come first.
pub fn flag_number(w: &Setting, c: &Counts, d: usize) -> u32
    requires { AreCountsOf (setting_in_code w.now) c.now }
    ensures { result ≡ specs.flag_number (setting_in_code w.now) d }
{
    (c.needed + c.flags.at(d)) as u32
}
