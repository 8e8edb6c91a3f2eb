// Files that are held for commands, and the rules that their bytes are made by.
ghost use Rattle.std.specs.Prelude.{◌≡◌, ◌++◌, ℕ, List, [], IfOk, OnOk, codes, string_bytes};
ghost use Rattle.std.specs.List.{repeat};
ghost use Rattle.qbs_base.specs.Named.{at_name};
ghost use Rattle.cases.specs.Files.{bytes_under, last_under, last_with, filled_bytes, repeated_lines, padded};

use crate::split::{first_and_rest, number_of, without_end};
use files_sinks::{CleanFiles, MemFiles};
use qbs_base::{Bytes, NoMemory, Text};
use std::alloc::Global;

/// A file's name and its bytes.
#[derive(Drop)]
pub struct File {
    pub name: String,
    pub bytes: Vec<u8>,
}

/// The bytes of a text of lines. A last line of `----` takes away the end of the line before it.
pub fn filled(alloc: Global, text: &str) -> Result<Vec<u8>, NoMemory>
    ensures { IfOk result (λ v. v.items ≡ filled_bytes text.now) }
{
    if let Some(text) = without_end(text, "\n----") {
        return Ok(text.as_bytes().to_vec(alloc)?);
    }
    let mut bytes = text.as_bytes().to_vec(alloc)?;
    if !text.is_empty() {
        bytes.push(b'\n')?;
    }
    Ok(bytes)
}

// One piece, with this end behind it.
fn put_piece(bytes: &mut Vec<u8>, piece: &str, end: &str) -> Result<(), NoMemory>
    ensures { OnOk result (bytes.new.items ≡ bytes.old.items ++ (piece.now ++ end.now)) }
{
    bytes.extend_from_slice(piece.as_bytes())?;
    bytes.extend_from_slice(end.as_bytes())?;
    Ok(())
}

#[tactic(auto, using(crate::proofs::Lines::repeat_more, crate::proofs::Lines::repeat_none))]
fn put_often(bytes: &mut Vec<u8>, count: u64, piece: &str, end: &str) -> Result<(), NoMemory>
    ensures { OnOk result (bytes.new.items ≡ bytes.old.items ++ repeat count (piece.now ++ end.now)) }
{
    for _ in 0..count {
        put_piece(bytes, piece, end)?;
    }
    Ok(())
}

/// The bytes of pieces, each given by how often it stands there and itself, with this end behind each.
pub fn repeated(alloc: Global, text: &str, end: &str) -> Result<Vec<u8>, NoMemory>
    ensures { IfOk result (λ v. v.items ≡ repeated_lines end.now text.now) }
{
    let mut bytes = Vec::new(alloc);
    for line in text.split('\n') {
        let (count, piece) = first_and_rest(line);
        put_often(&mut bytes, number_of(count), piece, end)?;
    }
    Ok(bytes)
}

/// The bytes of the file of that name, of which there are none where it isn't held.
pub fn bytes_of<'a>(files: &'a [File], name: &str) -> &'a [u8]
    ensures { result.now ≡ bytes_under files.now name.now }
{
    for file in files {
        if file.name.as_str() == name {
            return file.bytes.as_slice();
        }
    }
    &[]
}

/// The bytes of the file of that name with blanks behind them, up to this length.
#[tactic(auto, using(crate::proofs::Lines::repeat_more, crate::proofs::Lines::repeat_none))]
pub fn padded_of(
    alloc: Global,
    files: &[File],
    name: &str,
    length: u64,
) -> Result<Vec<u8>, NoMemory>
    ensures { IfOk result (λ v. v.items ≡ padded (bytes_under files.now name.now) length) }
{
    let mut bytes = bytes_of(files, name).to_vec(alloc)?;
    for _ in bytes.len()..length as usize {
        bytes.push(b' ')?;
    }
    Ok(bytes)
}

/// These bytes and their name, as they are put into files in memory.
pub fn named(alloc: Global, name: &str, bytes: &[u8]) -> Result<(Text, Bytes), NoMemory>
    ensures { IfOk result (λ e. (e.0 ≡ name.now) × (e.1 ≡ bytes.now)) }
{
    let text = Text::from_str(alloc, name)?;
    Ok((text, Bytes::from_vec(bytes.to_vec(alloc)?)))
}

/// The files that are held, in memory.
pub fn files_of(alloc: Global, held: &[File]) -> Result<MemFiles, NoMemory>
    ensures held { IfOk result (λ f. (name : List ℕ) → at_name f.files name ≡ last_under held.now name) }
    ensures fresh { IfOk result (λ f. f ≡ record f { failing = []; calls = 0; faults = 0 }) }
{
    let mut files = MemFiles::new(alloc);
    for file in held {
        let (name, bytes) = named(alloc, file.name.as_str(), file.bytes.as_slice())?;
        files.put(name, bytes)?;
    }
    Ok(files)
}

/// The same with these bytes under a name, in place of those that stand there.
pub fn files_with(
    alloc: Global,
    held: &[File],
    name: &str,
    bytes: &[u8],
) -> Result<MemFiles, NoMemory>
    ensures held { IfOk result (λ f. (other : List ℕ) → at_name f.files other ≡ last_with held.now name.now bytes.now other) }
    ensures fresh { IfOk result (λ f. f ≡ record f { failing = []; calls = 0; faults = 0 }) }
{
    let mut files = files_of(alloc, held)?;
    let (name, bytes) = named(alloc, name, bytes)?;
    files.put(name, bytes)?;
    Ok(files)
}

/// The files that are held, in memory that never fails.
pub fn clean_files_of(alloc: Global, held: &[File]) -> Result<CleanFiles, NoMemory>
    ensures { IfOk result (λ f. (name : List ℕ) → at_name f name ≡ last_under held.now name) }
{
    let mut files = CleanFiles::new(alloc);
    for file in held {
        let (name, bytes) = named(alloc, file.name.as_str(), file.bytes.as_slice())?;
        files.put(name, bytes)?;
    }
    Ok(files)
}
