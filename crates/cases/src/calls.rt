// Commands over files and sinks in memory, and what is printed of them: the status, then what stands on `out` behind `>`, and on `rep` behind `!`.
ghost use Rattle.std.specs.Prelude.{◌≡◌, ◌++◌, ℕ, [], List, IfOk, OnOk, codes, string_bytes};
ghost use Rattle.qbs_base.specs.declared.status.Status.{Status};
ghost use Rattle.qbs_base.specs.Status.{code_of};
ghost use Rattle.cases.specs.Answers.{whole_ends, failing_by, listed, status_line, marked_lines, marked_text, shown, IsShown, IsClean};

use crate::held::{File, clean_files_of, files_of};
use crate::split::{first_and_rest, number_of, without_end};
use files_sinks::{CleanSink, MemFiles, MemSink};
use qbs::{qbs_main, qbs_main_over_clean_ends};
use qbs_base::{NoMemory, Words};
use std::alloc::{AllocError, Global};

/// The calls of the files and of both sinks that are to fail, and the room of `out`.
#[derive(Clone, Copy)]
pub struct Ends {
    files: Option<u32>,
    out: Option<u32>,
    rep: Option<u32>,
    pub room: u64,
}

/// Ends of which no call is to fail, with room for 1000 bytes.
pub fn whole() -> Ends
    ensures { result ≡ whole_ends }
{
    Ends {
        files: None,
        out: None,
        rep: None,
        room: 1000,
    }
}

/// The ends with one more call that is to fail, by a line of whose it is and its number.
pub fn failing(ends: Ends, line: &str) -> Ends
    ensures { result ≡ failing_by ends line.now }
{
    let (who, number) = first_and_rest(line);
    let call = Some(number_of(number).min(1_000_000) as u32);
    match who {
        "files" => Ends {
            files: call,
            ..ends
        },
        "out" => Ends { out: call, ..ends },
        _ => Ends { rep: call, ..ends },
    }
}

/// How a command ended, and what stands on the sinks then.
#[derive(Drop)]
pub struct Came {
    pub code: u8,
    pub out: MemSink,
    pub rep: MemSink,
}

fn sink_of(alloc: Global, room: u64, fails: Option<u32>) -> Result<MemSink, NoMemory>
    ensures { IfOk result (λ s. s ≡ record { bytes = []; room = room; failing = listed fails; calls = 0; faults = 0 }) }
{
    let mut sink = MemSink::with_room(alloc, room)?;
    if let Some(call) = fails {
        sink.fail_at(call)?;
    }
    Ok(sink)
}

/// What comes of the command over these files. `rep` has room for 100 bytes.
pub fn came_of(
    alloc: Global,
    words: &Words,
    files: &mut MemFiles,
    ends: Ends,
) -> Result<Came, NoMemory>
    ensures { IfOk result (λ c. (s : Status) × (c.code ≡ code_of s)) }
{
    if let Some(call) = ends.files {
        files.fail_at(call)?;
    }
    let mut out = sink_of(alloc, ends.room, ends.out)?;
    let mut rep = sink_of(alloc, 100, ends.rep)?;
    let status = qbs_main(alloc, words, files, &mut out, &mut rep, &[]);
    Ok(Came {
        code: status.code(),
        out,
        rep,
    })
}

// The lines of a text, each behind a mark.
fn put_marked(out: &mut String, mark: &str, text: &str) -> Result<(), AllocError>
    ensures { OnOk result (string_bytes out.new ≡ string_bytes out.old ++ marked_lines mark.now text.now) }
{
    for line in text.split('\n') {
        write!(out, "{mark} {line}\n")?;
    }
    Ok(())
}

// The same, and a line more where the last one has no line feed. An empty text has no line.
fn put_text(out: &mut String, mark: &str, text: &str) -> Result<(), AllocError>
    ensures { OnOk result (string_bytes out.new ≡ string_bytes out.old ++ marked_text mark.now text.now) }
{
    if text.is_empty() {
        return Ok(());
    }
    match without_end(text, "\n") {
        Some(lines) => put_marked(out, mark, lines),
        None => {
            put_marked(out, mark, text)?;
            out.push_str("(no line feed)\n")
        }
    }
}

// The lines of a text behind a mark, and the number of its bytes alone where there are more than 4000.
fn put_lines(out: &mut String, mark: &str, bytes: &[u8]) -> Result<(), AllocError>
    ensures { OnOk result (string_bytes out.new ≡ string_bytes out.old ++ shown mark.now bytes.now) }
{
    if bytes.len() > 4000 {
        let count = bytes.len();
        return write!(out, "{mark} {count} bytes\n");
    }
    match str::from_utf8(bytes) {
        Ok(text) => put_text(out, mark, text),
        Err(_) => out.push_str("no UTF-8\n"),
    }
}

fn put_status(out: &mut String, code: u8) -> Result<(), AllocError>
    ensures { OnOk result (string_bytes out.new ≡ string_bytes out.old ++ status_line code) }
{
    write!(out, "==== status {code}\n")
}

/// Appends what comes of a command over the files that are held.
pub fn put_command(
    out: &mut String,
    alloc: Global,
    held: &[File],
    ends: Ends,
    words: &Words,
) -> Result<(), NoMemory>
    ensures { OnOk result ((added : List ℕ) × IsShown added × (string_bytes out.new ≡ string_bytes out.old ++ added)) }
{
    let mut files = files_of(alloc, held)?;
    let came = came_of(alloc, words, &mut files, ends)?;
    put_status(out, came.code)?;
    put_lines(out, ">", came.out.bytes())?;
    put_lines(out, "!", came.rep.bytes())?;
    Ok(())
}

/// Appends how a command ends over files and sinks that never fail.
pub fn put_clean(
    out: &mut String,
    alloc: Global,
    held: &[File],
    words: &Words,
) -> Result<(), NoMemory>
    ensures { OnOk result ((s : Status) × IsClean s × (string_bytes out.new ≡ string_bytes out.old ++ status_line (code_of s))) }
{
    let mut files = clean_files_of(alloc, held)?;
    let mut text = CleanSink::new();
    let mut report = CleanSink::new();
    let status = qbs_main_over_clean_ends(alloc, words, &mut files, &mut text, &mut report, &[]);
    put_status(out, status.code())?;
    Ok(())
}
