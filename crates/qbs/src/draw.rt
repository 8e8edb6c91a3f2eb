// The command `schema`.
ghost use Rattle.std.specs.Prelude.{◌≡◌, [], ◌∷◌};
ghost use Rattle.std.specs.Option.{option_copied};
ghost use Rattle.deliveries.specs.Code.{OrMemory};
ghost use Rattle.deliveries.specs.Plan.{given};
ghost use Rattle.deliveries.specs.Reads.{looks, OnlyReads};
ghost use Rattle.qbs.specs.Draw.{draw, Draws};

use deliveries::Plan;
use deliveries::fetch::{Stop, fetch};
use dump_schema::{Drawn, schema_of_dump};
use files_sinks::Files;
use qbs_base::{Status, Text};
use std::alloc::Global;
use words::Options;

/// The most bytes of a dump.
const MOST_DUMP: u64 = 16777216;

/// What is due for the file of a dump: a schema of the language, and how many tables and columns it has of those that are declared.
pub fn plan_schema<F: Files>(
    alloc: Global,
    files: &mut F,
    options: &Options,
    dump: &Text,
) -> Result<Plan, Stop>
    ensures reads { OnlyReads (looks F.told F.faults F.may_fail F.by_read) (dump.now ∷ []) files.old files.new }
    ensures due { OrMemory result (draw (given F.told F.faults F.may_fail files.old files.new) options.now dump.now) }
{
    let bytes = fetch(alloc, files, dump, MOST_DUMP, "dump")?;
    plan_drawn(alloc, options, bytes.as_slice())
}

// The text that an option has.
fn text_of(option: &Option<Text>) -> Option<&str>
    ensures { option_copied result ≡ option.now }
{
    match option {
        Some(text) => Some(text.as_str()),
        None => None,
    }
}

// What is due for its bytes.
fn plan_drawn(alloc: Global, options: &Options, dump: &[u8]) -> Result<Plan, Stop>
    ensures { OrMemory result (Draws options.now dump.now) }
{
    let tables = text_of(&options.tables);
    let columns = text_of(&options.columns);
    let drawn = schema_of_dump(alloc, dump, tables, columns)?;
    let Drawn { text, report } = Box::into_inner(drawn);
    Ok(Plan {
        status: Status::Ok,
        out: text,
        rep: report,
    })
}
