// Files of which one was read already, and isn't read again: what comes through a pipe comes once.
ghost use Rattle.std.specs.Prelude.{◌≡◌, ◌≢◌, ◌⊎◌};
ghost use Rattle.std.specs.declared.option.Option.TheVariants.{None};
ghost use Rattle.files_sinks.specs.Outside.{Reads};

use files_sinks::{Files, ReadAnswer};
use qbs_base::{Bytes, Text};
use std::alloc::Global;

// What was read of a file, but for a failure.
#[derive(Drop)]
enum Kept {
    Bytes(Bytes),
    TooLong,
    NoMemory,
}

/// Files with what was read of the one with this name, which is the answer to the first read of it. They tell nothing, and fail where the
/// files do.
#[derive(Drop)]
pub struct ReadOnce<'a, F: Files> {
    files: F,
    name: &'a Text,
    kept: Option<Kept>,
}

impl<'a, F: Files> ReadOnce<'a, F> {
    /// The files, of which the one with this name gave this answer. A read that failed is made again.
    pub fn new(files: F, name: &'a Text, answer: ReadAnswer) -> ReadOnce<'a, F> {
        let kept = match answer {
            ReadAnswer::Ok(bytes) => Some(Kept::Bytes(bytes)),
            ReadAnswer::TooLong => Some(Kept::TooLong),
            ReadAnswer::NoMemory => Some(Kept::NoMemory),
            ReadAnswer::Failed => None,
        };
        ReadOnce { files, name, kept }
    }
}

// What was read, where it is within the limit.
fn answer_of(kept: Kept, limit: u64) -> ReadAnswer
    ensures read { Reads None limit result }
    ensures fine { result ≢ ReadAnswer.Failed }
{
    match kept {
        Kept::Bytes(bytes) => {
            if bytes.len() as u64 > limit {
                return ReadAnswer::TooLong;
            }
            ReadAnswer::Ok(bytes)
        }
        Kept::TooLong => ReadAnswer::TooLong,
        Kept::NoMemory => ReadAnswer::NoMemory,
    }
}

impl<F: Files> Files for ReadOnce<'_, F> {
    ghost told = { λ s name. None };

    ghost faults = { λ s. F.faults s.files };

    ghost may_fail = { λ s name. F.may_fail s.files name };

    ghost by_read = { λ s name t. (t.files ≡ s.files) ⊎ F.by_read s.files name t.files };

    fn read_all(&mut self, alloc: Global, name: &Text, limit: u64) -> ReadAnswer {
        if *name == *self.name {
            match self.kept.take() {
                Some(kept) => return answer_of(kept, limit),
                None => {}
            }
        }
        self.files.read_all(alloc, name, limit)
    }
}
