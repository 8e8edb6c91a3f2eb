// Files and sinks in memory.
use crate::escapes::put_line;
use crate::places::{field, text_of};
use crate::repeats::count_of;
use files_sinks::{CleanFiles, Files, MemFiles, MemSink, ReadAnswer, Sink, WriteAnswer};
use qbs_base::{Bytes, NoMemory, Text};
use std::alloc::Global;

fn put_bytes(out: &mut String, alloc: Global, bytes: &[u8]) -> Result<(), NoMemory> {
    let text = text_of(alloc, bytes)?;
    Ok(put_line(out, text.as_str())?)
}

fn put_read(out: &mut String, alloc: Global, answer: &ReadAnswer) -> Result<(), NoMemory> {
    match answer {
        ReadAnswer::Ok(bytes) => {
            out.push_str("read ")?;
            put_bytes(out, alloc, bytes.as_slice())
        }
        ReadAnswer::TooLong => Ok(out.push_str("too long")?),
        ReadAnswer::Failed => Ok(out.push_str("failed")?),
        ReadAnswer::NoMemory => Err(NoMemory),
    }
}

fn name(alloc: Global) -> Result<Text, NoMemory> {
    Ok(Text::from_str(alloc, "a")?)
}

fn bytes_of(alloc: Global, bytes: &[u8]) -> Result<Bytes, NoMemory> {
    Ok(Bytes::from_vec(bytes.to_vec(alloc)?))
}

// The answers to reads of a file, each with a limit.
fn put_reads<F: Files>(
    out: &mut String,
    alloc: Global,
    files: &mut F,
    limits: &[Vec<u8>],
) -> Result<(), NoMemory> {
    let name = name(alloc)?;
    let mut gap = "";
    for limit in limits {
        let answer = files.read_all(alloc, &name, count_of(limit) as u64);
        out.push_str(gap)?;
        put_read(out, alloc, &answer)?;
        gap = ", ";
    }
    Ok(())
}

// A file with the bytes of the first field, whose call with the number in the second one fails.
fn put_failing(out: &mut String, alloc: Global, fields: &[Vec<u8>]) -> Result<(), NoMemory> {
    let [bytes, call, limits @ ..] = fields else {
        return Ok(());
    };
    let mut files = MemFiles::new(alloc);
    files.put(name(alloc)?, bytes_of(alloc, bytes)?)?;
    files.fail_at(count_of(call))?;
    put_reads(out, alloc, &mut files, limits)
}

fn put_clean(out: &mut String, alloc: Global, fields: &[Vec<u8>]) -> Result<(), NoMemory> {
    let [bytes, limits @ ..] = fields else {
        return Ok(());
    };
    let mut files = CleanFiles::new(alloc);
    files.put(name(alloc)?, bytes_of(alloc, bytes)?)?;
    put_reads(out, alloc, &mut files, limits)
}

// The answers to writes, and what stands in the sink behind each.
fn put_writes(
    out: &mut String,
    alloc: Global,
    sink: &mut MemSink,
    pieces: &[Vec<u8>],
) -> Result<(), NoMemory> {
    let mut gap = "";
    for piece in pieces {
        let answer = sink.write_all(piece.as_slice());
        out.push_str(gap)?;
        out.push_str(match answer {
            WriteAnswer::Ok => "written ",
            WriteAnswer::Failed => "failed ",
        })?;
        put_bytes(out, alloc, sink.bytes())?;
        gap = ", ";
    }
    Ok(())
}

// A sink with the room in the first field, whose call with the number in the second one fails.
fn put_sink(out: &mut String, alloc: Global, fields: &[Vec<u8>]) -> Result<(), NoMemory> {
    let [room, call, pieces @ ..] = fields else {
        return Ok(());
    };
    let mut sink = MemSink::with_room(alloc, count_of(room) as u64)?;
    sink.fail_at(count_of(call))?;
    put_writes(out, alloc, &mut sink, pieces)
}

/// Appends each answer of files or of a sink in memory.
pub fn put_answers(
    out: &mut String,
    alloc: Global,
    kind: &str,
    fields: &[Vec<u8>],
) -> Result<(), NoMemory> {
    match kind {
        "files" => put_failing(out, alloc, fields),
        "clean" => put_clean(out, alloc, fields),
        _ => put_sink(out, alloc, fields),
    }
}
