// What accumulators are run over.
ghost use Rattle.std.specs.Prelude.{◌≡◌, None};
ghost use Rattle.tor_terms.specs.Value.{plain_row};

use kernel_lang::{Entry, KFragment};
use qbs_base::Row;
use std::alloc::Global;

/// What the accumulators of a fragment are run over: the lists of its loops, entry values and known
/// lists, and a row without cells for the loops that have none.
#[derive(Clone, Copy)]
pub struct Setting<'a> {
    pub alloc: Global,
    pub frag: &'a KFragment,
    pub lists: &'a [Vec<&'a Row>],
    pub given: &'a Entry,
    pub no_row: &'a Row,
    ghost no_cell: { no_row.now ≡ plain_row None },
}
