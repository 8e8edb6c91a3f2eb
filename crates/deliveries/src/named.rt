// Reading any number of files, one after the other.
ghost use Rattle.std.specs.Prelude.{◌≡◌, ◌≤◌};
ghost use Rattle.deliveries.specs.Named.{ReadsFiles};
ghost use Rattle.deliveries.specs.Plan.{given};
ghost use Rattle.deliveries.specs.Reads.{looks, OnlyReads};

use crate::fetch::{Stop, fetch, left_behind};
use files_sinks::Files;
use qbs_base::{Bytes, Items, Text};
use std::alloc::Global;

/// Reads files in order, each once, behind the texts that are there. All together have `limit` bytes at most: the
/// label names that. The first that can't be read, or goes beyond the limit, is what is due, and no further one is
/// read.
pub fn fetch_named<F: Files>(
    alloc: Global,
    files: &mut F,
    names: &[Text],
    limit: u64,
    label: &str,
    texts: &mut Items<Bytes>,
) -> Result<(), Stop>
    ensures same { F.told files.new ≡ F.told files.old }
    ensures later { F.faults files.old ≤ F.faults files.new }
    ensures only { OnlyReads (looks F.told F.faults F.may_fail F.by_read) names.now files.old files.new }
    ensures read { ReadsFiles (given F.told F.faults F.may_fail files.old files.new) names.now limit label.now texts.old texts.new result }
{
    let mut left = limit;
    for name in names {
        let text = fetch(alloc, files, name, left, label)?;
        left = left_behind(left, &text);
        texts.push(text)?;
    }
    Ok(())
}
