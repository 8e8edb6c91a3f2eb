// How many sites before each one are loops, and how many declare flags.
ghost use Rattle.std.specs.Prelude.{◌≡◌, IfOk, map};
ghost use Rattle.lowering.specs.InCode.Reading.{setting_in_code};
ghost use Rattle.lowering.specs.InCode.Tallied.{IsTally, is_flag_site, is_loop_site, tally_at};

use loop_setting::places::setting::Setting;
use loop_text::loops::limits::is_loop;
use loop_text::updates::targets::is_declaration;
use qbs_base::{Items, NoMemory};
use std::alloc::Global;

/// How many sites before each one have a property, and how many have it in all.
#[derive(Drop)]
pub struct Tally {
    pub before: Items<usize>,
    pub all: usize,
}

impl Tally {
    /// How many of the first sites have the property.
    pub fn at(&self, n: usize) -> usize
        ensures { result ≡ tally_at self.now n }
    {
        match self.before.as_slice().get(n) {
            Some(count) => *count,
            None => self.all,
        }
    }
}

/// How many loops stand before each site.
pub fn loops_before(alloc: Global, w: &Setting) -> Result<Tally, NoMemory>
    ensures { IfOk result (IsTally is_loop_site (setting_in_code w.now).sites) }
{
    let mut before = Items::new(alloc);
    let mut count = 0;
    for (n, s) in w.sites.as_slice().iter().enumerate() {
        before.push(count)?;
        if is_loop(s.statement) {
            count += 1;
        }
    }
    Ok(Tally { before, all: count })
}

/// How many flags are declared before each site.
pub fn flags_before(alloc: Global, w: &Setting) -> Result<Tally, NoMemory>
    ensures { IfOk result (IsTally is_flag_site (setting_in_code w.now).sites) }
{
    let mut before = Items::new(alloc);
    let mut count = 0;
    for (n, s) in w.sites.as_slice().iter().enumerate() {
        before.push(count)?;
        if is_declaration(s.statement) {
            count += 1;
        }
    }
    Ok(Tally { before, all: count })
}
