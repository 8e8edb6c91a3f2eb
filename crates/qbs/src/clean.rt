// The top call over files and sinks that never fail.
ghost use Rattle.std.specs.Prelude.{◌≢◌};

use crate::qbs_main;
use files_sinks::{CleanFiles, CleanSink};
use qbs_base::{Status, Words};
use query_search::Pruner;
use std::alloc::Global;

/// Over files and sinks that never fail no read and no write is reported to have failed.
pub fn qbs_main_over_clean_ends(
    alloc: Global,
    words: &Words,
    files: &mut CleanFiles,
    out: &mut CleanSink,
    rep: &mut CleanSink,
    pruners: &[Pruner],
) -> Status
    ensures read { result ≢ Status.ReadFault }
    ensures write { result ≢ Status.WriteFault }
{
    qbs_main(alloc, words, files, out, rep, pruners)
}
