// What a fragment ends with on a database, found once for all candidates.
ghost use Rattle.std.specs.Prelude.{◌≡◌, ◌↔◌, IsTrue, IfOk};
ghost use Rattle.kernel_lang.specs.Pools.{IsCandidateOf};
ghost use Rattle.kernel_lang.specs.Refuted.{Refutes};
ghost use Rattle.kernel_lang.specs.Whole.{fragment_of};
ghost use Rattle.small_dbs.specs.Endings as spec;

use crate::small::SmallDb;
use kernel_interp::{ends_as_claimed, parts_fit, run_fragment};
use kernel_lang::{Candidate, KFragment};
use kernel_steps::FragmentEnd;
use qbs_base::{Items, NoMemory, Values};
use std::alloc::Global;

/// What a fragment ends with on databases one after another, where candidates may be refuted.
pub type Endings = Items<Option<Values>>;

fn fits_there(frag: &KFragment, item: &SmallDb) -> bool
    ensures { result ≡ spec.fits_there (fragment_of frag.now) item.now }
{
    parts_fit(frag, &item.db, &item.entry)
}

/// What a fragment ends with on a database. None where no candidate may be refuted: the parts of the fragment don't fit the database, or a
/// count or a sum leaves 64 bits there. It fails only by want of memory.
pub fn ending(alloc: Global, frag: &KFragment, item: &SmallDb) -> Result<Option<Values>, NoMemory>
    ensures { IfOk result (λ o. o ≡ spec.ending (fragment_of frag.now) item.now) }
{
    if !fits_there(frag, item) {
        return Ok(None);
    }
    match run_fragment(alloc, frag, &item.db, &item.entry)? {
        FragmentEnd::Overflow => Ok(None),
        FragmentEnd::Store(ends) => Ok(Some(ends)),
    }
}

/// Whether a database refutes a candidate, by what the fragment ends with there. It fails only by want of memory.
pub fn refutes_by(
    alloc: Global,
    frag: &KFragment,
    cand: &Candidate,
    item: &SmallDb,
    own: &Option<Values>,
) -> Result<bool, NoMemory>
    requires candidate { IsCandidateOf (fragment_of frag.now) cand.now }
    requires own { own.now ≡ spec.ending (fragment_of frag.now) item.now }
    ensures exact { IfOk result (λ b. IsTrue b ↔ Refutes (fragment_of frag.now) cand.now item.now.db item.now.entry) }
{
    match own {
        None => Ok(false),
        Some(ends) => {
            let same = ends_as_claimed(alloc, frag, cand, &item.db, &item.entry, ends)?;
            Ok(!same)
        }
    }
}
