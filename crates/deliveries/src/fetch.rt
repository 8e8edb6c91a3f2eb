// Reading a file, or what is due where it can't be read.
ghost use Rattle.std.specs.Prelude.{◌≡◌, ◌<◌, ◌≤◌, ◌-◌, codes, length, ℕ, List};
ghost use Rattle.deliveries.specs.declared.fetch.Stop.TheVariants.{Memory};
ghost use Rattle.deliveries.specs.Code.{Goes, StopsFor};
ghost use Rattle.deliveries.specs.Limits.{most_schema, most_source};
ghost use Rattle.deliveries.specs.Plan.{given};
ghost use Rattle.deliveries.specs.Steps.{IsRead, IsNotRead};

use crate::Plan;
use files_sinks::{Files, ReadAnswer};
use qbs_base::{Bytes, NoMemory, Status, Text};
use std::alloc::{AllocError, AllocFailed, Global};

/// The most bytes of a schema.
pub const MOST_SCHEMA: u64 = 262144;

/// The most bytes of a map by which files are viewed.
pub const MOST_MAP: u64 = 262144;

/// The most bytes of a source.
pub const MOST_SOURCE: u64 = 1048576;

/// The most bytes of a bundle.
pub const MOST_BUNDLE: u64 = 16777216;

/// The most bytes of a store.
pub const MOST_STORE: u64 = 16777216;

/// The most bytes of all tables together.
pub const MOST_TABLES: u64 = 33554432;

/// The most bytes of all files of entities together.
pub const MOST_ENTITIES: u64 = 33554432;

/// What ends a command before its work is done.
#[derive(Drop)]
pub enum Stop {
    Due(Plan),
    Memory,
}

impl From<AllocError> for Stop {
    ghost from_gives = { λ _ stop. stop ≡ Memory };

    fn from(_: AllocError) -> Stop {
        Stop::Memory
    }
}

impl From<NoMemory> for Stop {
    ghost from_gives = { λ _ stop. stop ≡ Memory };

    fn from(_: NoMemory) -> Stop {
        Stop::Memory
    }
}

impl<T: Drop> From<AllocFailed<T>> for Stop {
    ghost from_gives = { λ _ stop. stop ≡ Memory };

    fn from(_: AllocFailed<T>) -> Stop {
        Stop::Memory
    }
}

/// The bytes of a file within a limit, or what is due without them: the label names the limit.
pub fn fetch<F: Files>(
    alloc: Global,
    files: &mut F,
    name: &Text,
    limit: u64,
    label: &str,
) -> Result<Bytes, Stop>
    ensures same { F.told files.new ≡ F.told files.old }
    ensures later { F.faults files.old ≤ F.faults files.new }
    ensures fewer { (other : List ℕ) → F.may_fail files.new other → F.may_fail files.old other }
    ensures once { F.by_read files.old name.now files.new }
    ensures read { Goes result (IsRead (given F.told F.faults F.may_fail files.old files.new) name.now limit)
        (IsNotRead (given F.told F.faults F.may_fail files.old files.new) name.now limit label.now) }
{
    match files.read_all(alloc, name, limit) {
        ReadAnswer::Ok(bytes) => Ok(bytes),
        ReadAnswer::TooLong => Err(refused(alloc, Status::Limit, "qbs: limit: ", label)),
        ReadAnswer::Failed => Err(refused(alloc, Status::ReadFault, "qbs: read ", name.as_str())),
        ReadAnswer::NoMemory => Err(Stop::Memory),
    }
}

/// The bytes of a schema's file, which has 256 KiB at most.
pub fn fetch_schema<F: Files>(alloc: Global, files: &mut F, name: &Text) -> Result<Bytes, Stop>
    ensures same { F.told files.new ≡ F.told files.old }
    ensures later { F.faults files.old ≤ F.faults files.new }
    ensures fewer { (other : List ℕ) → F.may_fail files.new other → F.may_fail files.old other }
    ensures once { F.by_read files.old name.now files.new }
    ensures read { Goes result (IsRead (given F.told F.faults F.may_fail files.old files.new) name.now most_schema)
        (IsNotRead (given F.told F.faults F.may_fail files.old files.new) name.now most_schema (codes "schema")) }
{
    fetch(alloc, files, name, MOST_SCHEMA, "schema")
}

/// The bytes of a source's file, which has 1 MiB at most.
pub fn fetch_source<F: Files>(alloc: Global, files: &mut F, name: &Text) -> Result<Bytes, Stop>
    ensures same { F.told files.new ≡ F.told files.old }
    ensures later { F.faults files.old ≤ F.faults files.new }
    ensures fewer { (other : List ℕ) → F.may_fail files.new other → F.may_fail files.old other }
    ensures once { F.by_read files.old name.now files.new }
    ensures read { Goes result (IsRead (given F.told F.faults F.may_fail files.old files.new) name.now most_source)
        (IsNotRead (given F.told F.faults F.may_fail files.old files.new) name.now most_source (codes "source")) }
{
    fetch(alloc, files, name, MOST_SOURCE, "source")
}

/// How many bytes are left for further files behind one that was read.
pub fn left_behind(left: u64, text: &Bytes) -> u64
    requires { length text.now ≤ left }
    ensures { result ≡ left - length text.now }
{
    left - text.len() as u64
}

/// A refusal whose line is a text and a name.
pub fn refused(alloc: Global, status: Status, text: &str, name: &str) -> Stop
    ensures { StopsFor status text.now name.now result }
{
    match format!(in alloc; "{text}{name}\n") {
        Ok(line) => Stop::Due(Plan {
            status,
            out: Bytes::from_vec(Vec::new(alloc)),
            rep: Bytes::from_vec(line.into_bytes()),
        }),
        Err(_) => Stop::Memory,
    }
}
