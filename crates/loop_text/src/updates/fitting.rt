//! Where updates of the forms may stand.
ghost use Rattle.std.specs.Prelude.{◌≡◌, ◌≤◌, IfOk, map, length, nat_le, slice_get, Some};
ghost use Rattle.std.specs.List.{filter};
ghost use Rattle.loop_text.specs.Kernel.KernelForms as specs;
ghost use Rattle.loop_text.specs.Sites.Reading.{column_in_code, form_in_code, site_of, test_of};
ghost use Rattle.loop_text.specs.Sites.Sites as sites;

use crate::sites::bindings::RowColumn;
use crate::sites::list::{Site, Sites, Test};
use crate::updates::best::{best_claims, best_way, has_other_update};
use crate::updates::forms::Form;
use qbs_base::{Name, NoMemory};
use std::alloc::Global;

/// Whether an update takes the best column of the rows, and is the only one that its condition is for.
pub fn takes_best(
    alloc: Global,
    all: &Sites,
    n: usize,
    s: &Site,
    m: &Name,
    c: RowColumn,
) -> Result<bool, NoMemory>
    ensures { IfOk result (λ b. b ≡ specs.takes_best (map site_of all.now) n (site_of s.now) m.now (column_in_code c.entry)) }
{
    let found = best_claims(alloc, m, &s.round)?;
    let found = found.as_slice();
    match best_way(all, m, c, found) {
        None => Ok(false),
        Some(_) => Ok(!has_other_update(all, n, found)),
    }
}

/// Whether one loop alone stands round a site.
pub fn is_once(s: &Site) -> bool
    ensures { result ≡ specs.is_once (site_of s.now) }
{
    s.round.loops.len() == 1
}

// How many `if`s of these have at most so many loops round them.
#[tactic(auto, using(crate::proofs::Trees::Rounds::rounds))]
fn tests_within(level: usize, tests: &[Test]) -> usize
    ensures count { result ≡ length (filter (λ (t : sites.Test). nat_le t.level level) (map test_of tests.now)) }
    ensures small { result ≤ length tests.now }
{
    let mut count = 0;
    for (i, t) in tests.iter().enumerate() {
        if t.level <= level {
            count += 1;
        }
    }
    count
}

// The update stands in a loop that stands directly in the block of the declaration.
#[tactic(auto, using(crate::proofs::Trees::Rounds::rounds))]
fn is_in_own_loop(s: &Site, d: &Site) -> bool
    ensures { result ≡ specs.is_in_own_loop (site_of s.now) (Some (site_of d.now)) }
{
    let level = d.round.loops.len();
    level < s.round.loops.len()
        && tests_within(level, s.round.tests.as_slice()) == d.round.tests.len()
}

#[tactic(auto, using(crate::proofs::Trees::Rounds::rounds))]
fn is_in_loop_of(all: &Sites, s: &Site, d: usize) -> bool
    ensures { result ≡ specs.is_in_own_loop (site_of s.now) (slice_get (map site_of all.now) d) }
{
    match all.as_slice().get(d) {
        None => false,
        Some(d) => is_in_own_loop(s, d),
    }
}

/// Whether an update of a flag fits: it marks the flag in the loop that declares it.
pub fn fits_local(all: &Sites, s: &Site, d: usize, form: Form) -> bool
    ensures { result ≡ specs.fits_local (map site_of all.now) (site_of s.now) d (form_in_code form.entry) }
{
    match form {
        Form::Marks(_) => is_in_loop_of(all, s, d),
        _ => false,
    }
}
