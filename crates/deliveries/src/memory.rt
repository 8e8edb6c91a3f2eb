// Want of memory before any word is read.
ghost use Rattle.files_sinks.specs.Outside.{Rose};
ghost use Rattle.deliveries.specs.Memory.{RefusesForMemory, line};

use files_sinks::{Sink, WriteAnswer};
use qbs_base::Status;

/// Writes the line of want of memory to `rep` at once, as the answer where memory runs out before the words are read.
pub fn refuse_for_memory<E: Sink>(rep: &mut E) -> Status
    ensures answer { RefusesForMemory (E.told rep.old) (E.told rep.new) (Rose (E.faults rep.old) (E.faults rep.new)) result }
    ensures once { E.by_write rep.old line rep.new }
{
    match rep.write_all(b"qbs: memory\n") {
        WriteAnswer::Ok => Status::NoMemory,
        WriteAnswer::Failed => Status::WriteFault,
    }
}
