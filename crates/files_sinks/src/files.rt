// Files that are read whole.
ghost use Rattle.std.specs.Prelude.{◌≡◌, ◌≢◌, ◌≤◌, ◌+◌, ◌-◌, ◌^◌, ℕ, List, [], ◌∷◌, ◌++◌, Some, None, OnOk, OnErr, min, ⊤};
ghost use Rattle.std.specs.declared.option.Option.{Option};
ghost use Rattle.files_sinks.specs.Outside.{Reads, ReadCause};
ghost use Rattle.qbs_base.specs.Named.{at_name, with_name};
ghost use Rattle.files_sinks.specs.Held.{held_or_empty, MemFilesView, MayFail, Entry};

use qbs_base::{Bytes, NoMemory, Text, find_name, find_place};
use std::alloc::Global;
use std::io::Read;
use std::marker::Model;
use std::rt::Files as Reaches;
use std::{fs, io};

#[derive(Drop)]
pub enum ReadAnswer {
    Ok(Bytes),
    TooLong,
    Failed,
    NoMemory,
}

pub trait Files {
    /// What is held under a name, where that is told.
    ghost told: { Self → List ℕ → Option (List ℕ) };

    /// How often it has failed.
    ghost faults: { Self → ℕ };

    /// Whether a read of this name may fail.
    ghost may_fail: { Self → List ℕ → Type 0 };

    /// What one read of this name may leave of the files.
    ghost by_read: { Self → List ℕ → Self → Type 0 };

    /// The bytes of a file, at most `limit` of them. A name whose read may not fail before may not fail behind it.
    fn read_all(&mut self, alloc: Global, name: &Text, limit: u64) -> ReadAnswer
        ensures same { told self.new ≡ told self.old }
        ensures read { Reads (told self.old name.now) limit result }
        ensures cause { ReadCause (faults self.old) (faults self.new) result }
        ensures named { result ≡ ReadAnswer.Failed → may_fail self.old name.now }
        ensures fewer { (other : List ℕ) → may_fail self.new other → may_fail self.old other }
        ensures once { by_read self.old name.now self.new };
}

/// Files in memory, of which chosen calls fail. A name that isn't held fails.
#[derive(Drop)]
pub struct MemFiles {
    files: Vec<(Text, Bytes)>,
    failing: Vec<u32>,
    calls: u32,
    faults: u64,
}

impl Model for MemFiles {
    ghost Value = { MemFilesView };

    ghost view = { λ a. record { files = a.files.items; failing = a.failing.items; calls = a.calls; faults = a.faults } };
}

// The answer of a read that doesn't fail.
fn give(alloc: Global, bytes: &[u8], limit: u64) -> ReadAnswer
    ensures read { Reads (Some bytes.now) limit result }
    ensures fine { result ≢ ReadAnswer.Failed }
{
    if bytes.len() as u64 > limit {
        return ReadAnswer::TooLong;
    }
    match bytes.to_vec(alloc) {
        Ok(copy) => ReadAnswer::Ok(Bytes::from_vec(copy)),
        Err(_) => ReadAnswer::NoMemory,
    }
}

// Puts bytes under a name, in place of those that stand there.
fn put_entry(files: &mut Vec<(Text, Bytes)>, name: Text, bytes: Bytes) -> Result<(), NoMemory>
    ensures ok { OnOk result (files.new.items ≡ with_name files.old.items name bytes) }
    ensures err { OnErr result (files.new.items ≡ files.old.items) }
{
    match find_place(files, &name) {
        Some(place) => files[place] = (name, bytes),
        None => files.push((name, bytes))?,
    }
    Ok(())
}

impl MemFiles {
    pub fn new(alloc: Global) -> MemFiles
        ensures { result ≡ record { files = []; failing = []; calls = 0; faults = 0 } }
    {
        MemFiles {
            files: Vec::new(alloc),
            failing: Vec::new(alloc),
            calls: 0,
            faults: 0,
        }
    }

    /// Holds these bytes under that name, in place of those that it held there.
    pub fn put(&mut self, name: Text, bytes: Bytes) -> Result<(), NoMemory>
        ensures ok { OnOk result (self.new ≡ record self.old { files = with_name self.old.files name bytes }) }
        ensures err { OnErr result (self.new ≡ self.old) }
    {
        put_entry(&mut self.files, name, bytes)
    }

    /// The call with this number fails.
    pub fn fail_at(&mut self, call: u32) -> Result<(), NoMemory>
        ensures ok { OnOk result (self.new ≡ record self.old { failing = self.old.failing ++ call ∷ [] }) }
        ensures err { OnErr result (self.new ≡ self.old) }
    {
        self.failing.push(call)?;
        Ok(())
    }
}

impl Files for MemFiles {
    ghost told = { λ s. at_name s.files };

    ghost faults = { λ s. s.faults };

    ghost may_fail = { MayFail };

    ghost by_read = { λ s _ t. (t.files ≡ s.files) × (t.calls ≡ min (s.calls + 1) (2 ^ 32 - 1)) };

    fn read_all(&mut self, alloc: Global, name: &Text, limit: u64) -> ReadAnswer {
        let call = self.calls;
        self.calls = call.saturating_add(1);
        if self.failing.contains(&call) {
            self.faults = self.faults.saturating_add(1);
            return ReadAnswer::Failed;
        }
        match find_name(&self.files, name) {
            Some(bytes) => give(alloc, bytes.as_slice(), limit),
            None => {
                self.faults = self.faults.saturating_add(1);
                ReadAnswer::Failed
            }
        }
    }
}

/// Files in memory that never fail. A name that isn't held is an empty file.
#[derive(Drop)]
pub struct CleanFiles {
    files: Vec<(Text, Bytes)>,
}

impl Model for CleanFiles {
    ghost Value = { List Entry };

    ghost view = { λ a. a.files.items };
}

impl CleanFiles {
    pub fn new(alloc: Global) -> CleanFiles
        ensures { result ≡ [] }
    {
        CleanFiles {
            files: Vec::new(alloc),
        }
    }

    /// Holds these bytes under that name, in place of those that it held there.
    pub fn put(&mut self, name: Text, bytes: Bytes) -> Result<(), NoMemory>
        ensures ok { OnOk result (self.new ≡ with_name self.old name bytes) }
        ensures err { OnErr result (self.new ≡ self.old) }
    {
        put_entry(&mut self.files, name, bytes)
    }
}

impl Files for CleanFiles {
    ghost told = { λ s. held_or_empty s };

    ghost faults = { λ s. 0 };

    ghost may_fail = { λ _ _. ⊥ };

    ghost by_read = { λ s _ t. t ≡ s };

    fn read_all(&mut self, alloc: Global, name: &Text, limit: u64) -> ReadAnswer {
        match find_name(&self.files, name) {
            Some(bytes) => give(alloc, bytes.as_slice(), limit),
            None => give(alloc, &[], limit),
        }
    }
}

/// The files of the machine. They tell nothing.
#[derive(Drop)]
pub struct RealFiles<'a, R: Reaches> {
    rt: &'a R,
    faults: u64,
}

impl<'a, R: Reaches> RealFiles<'a, R> {
    pub fn new(rt: &'a R) -> RealFiles<'a, R> {
        RealFiles { rt, faults: 0 }
    }
}

// The first bytes of a file, at most `most` of them.
fn read_some<R: Reaches>(rt: &R, alloc: Global, name: &Text, most: u64) -> io::Result<Vec<u8>> {
    let mut bytes = Vec::new(alloc);
    fs::open(rt, name.as_str())?
        .take(most)
        .read_to_end(&mut bytes)?;
    Ok(bytes)
}

impl<R: Reaches> Files for RealFiles<'_, R> {
    ghost told = { λ s name. None };

    ghost faults = { λ s. s.faults };

    ghost may_fail = { λ _ _. ⊤ };

    ghost by_read = { λ s _ t. (t.rt ≡ s.rt) × (s.faults ≤ t.faults) };

    fn read_all(&mut self, alloc: Global, name: &Text, limit: u64) -> ReadAnswer {
        match read_some(self.rt, alloc, name, limit.saturating_add(1)) {
            Ok(bytes) => {
                if bytes.len() as u64 > limit {
                    return ReadAnswer::TooLong;
                }
                ReadAnswer::Ok(Bytes::from_vec(bytes))
            }
            Err(e) => match e.kind() {
                io::ErrorKind::OutOfMemory => ReadAnswer::NoMemory,
                _ => {
                    self.faults = self.faults.saturating_add(1);
                    ReadAnswer::Failed
                }
            },
        }
    }
}
