// Sinks that are appended to.
ghost use Rattle.std.specs.Prelude.{◌≡◌, ◌≤◌, ◌+◌, ◌-◌, ◌^◌, ℕ, List, [], ◌∷◌, ◌++◌, Some, None, OnOk, OnErr, IfOk, length, take, min, vec_len, vec_capacity};
ghost use Rattle.std.specs.declared.option.Option.{Option};
ghost use Rattle.files_sinks.specs.Room.{MemSinkView};
ghost use Rattle.files_sinks.specs.Outside.{Writes, WriteCause};

use qbs_base::NoMemory;
use std::alloc::Global;
use std::io::Write;
use std::marker::Model;

#[derive(Clone, Copy, PartialEq, Eq)]
pub enum WriteAnswer {
    Ok,
    Failed,
}

pub trait Sink {
    /// The bytes so far, where they are told.
    ghost told: { Self → Option (List ℕ) };

    /// How often it has failed.
    ghost faults: { Self → ℕ };

    /// What one write of this piece may leave of the sink.
    ghost by_write: { Self → List ℕ → Self → Type 0 };

    /// Appends the piece, or a prefix of it where it fails.
    fn write_all(&mut self, piece: &[u8]) -> WriteAnswer
        ensures wrote { Writes (told self.old) (told self.new) piece.now result }
        ensures cause { WriteCause (faults self.old) (faults self.new) result }
        ensures once { by_write self.old piece.now self.new };
}

/// Bytes in a room that was taken before, of which chosen calls fail.
#[derive(Drop)]
pub struct MemSink {
    bytes: Vec<u8>,
    room: u64,
    failing: Vec<u32>,
    calls: u32,
    faults: u64,
}

impl Model for MemSink {
    ghost Value = { MemSinkView };

    ghost view = { λ a. record { bytes = a.bytes.items; room = a.room; failing = a.failing.items; calls = a.calls; faults = a.faults } };

    ghost invariant = { λ a. (a.room ≤ vec_capacity a.bytes) × (vec_len a.bytes ≤ a.room) };
}

impl MemSink {
    pub fn with_room(alloc: Global, room: u64) -> Result<MemSink, NoMemory>
        ensures { IfOk result (λ s. s ≡ record { bytes = []; room = room; failing = []; calls = 0; faults = 0 }) }
    {
        Ok(MemSink {
            bytes: Vec::with_capacity(alloc, room as usize)?,
            room,
            failing: Vec::new(alloc),
            calls: 0,
            faults: 0,
        })
    }

    /// The call with this number fails.
    pub fn fail_at(&mut self, call: u32) -> Result<(), NoMemory>
        ensures ok { OnOk result (self.new ≡ record self.old { failing = self.old.failing ++ call ∷ [] }) }
        ensures err { OnErr result (self.new ≡ self.old) }
    {
        self.failing.push(call)?;
        Ok(())
    }

    pub fn bytes(&self) -> &[u8]
        ensures { result.now ≡ self.now.bytes }
    {
        self.bytes.as_slice()
    }
}

impl Sink for MemSink {
    ghost told = { λ s. Some s.bytes };

    ghost faults = { λ s. s.faults };

    ghost by_write = { λ s _ t. t.calls ≡ min (s.calls + 1) (2 ^ 32 - 1) };

    fn write_all(&mut self, piece: &[u8]) -> WriteAnswer {
        let call = self.calls;
        self.calls = call.saturating_add(1);
        if self.failing.contains(&call) {
            self.faults = self.faults.saturating_add(1);
            return WriteAnswer::Failed;
        }
        let left = self.room as usize - self.bytes.len();
        if piece.len() <= left {
            self.bytes.extend_from_slice(piece).unwrap();
            return WriteAnswer::Ok;
        }
        self.bytes.extend_from_slice(&piece[..left]).unwrap();
        self.faults = self.faults.saturating_add(1);
        WriteAnswer::Failed
    }
}

/// Counts the bytes alone.
#[derive(Drop)]
pub struct CleanSink {
    count: u64,
}

impl CleanSink {
    pub fn new() -> CleanSink {
        CleanSink { count: 0 }
    }
}

impl Sink for CleanSink {
    ghost told = { λ s. None };

    ghost faults = { λ s. 0 };

    ghost by_write = { λ s piece t. t.count ≡ min (s.count + length piece) (2 ^ 64 - 1) };

    fn write_all(&mut self, piece: &[u8]) -> WriteAnswer {
        self.count = self.count.saturating_add(piece.len() as u64);
        WriteAnswer::Ok
    }
}

/// A writer of the machine, which tells nothing.
#[derive(Drop)]
pub struct RealSink<W: Write + Drop> {
    inner: W,
    faults: u64,
}

impl<W: Write + Drop> RealSink<W> {
    pub fn new(inner: W) -> RealSink<W> {
        RealSink { inner, faults: 0 }
    }
}

impl<W: Write + Drop> Sink for RealSink<W> {
    ghost told = { λ s. None };

    ghost faults = { λ s. s.faults };

    ghost by_write = { λ s _ t. s.faults ≤ t.faults };

    fn write_all(&mut self, piece: &[u8]) -> WriteAnswer {
        match self.inner.write_all(piece) {
            Ok(()) => WriteAnswer::Ok,
            Err(_) => {
                self.faults = self.faults.saturating_add(1);
                WriteAnswer::Failed
            }
        }
    }
}
