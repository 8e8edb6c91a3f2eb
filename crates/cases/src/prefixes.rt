// A command over each prefix of one of its files.
ghost use Rattle.std.specs.Prelude.{◌≡◌, ◌++◌, ◌≤◌, ◌+◌, ◌-◌, IfOk, OnOk, length, min, nat_eq, string_bytes};
ghost use Rattle.std.specs.List.{ends_with};
ghost use Rattle.qbs_base.specs.declared.status.Status.{Status};
ghost use Rattle.qbs_base.specs.Status.{code_of};
ghost use Rattle.cases.specs.declared.prefixes.Count.{Count};
ghost use Rattle.cases.specs.Files.{bytes_under};
ghost use Rattle.cases.specs.Answers.{number_end, counted_by, IsCounted, prefixes_line};

use crate::calls::{Came, came_of, whole};
use crate::held::{File, bytes_of, files_with};
use crate::split::words_of;
use qbs_base::{NoMemory, Words};
use std::alloc::Global;

/// The prefixes of the file of that name that lack at least so many bytes, and the status that a command is to end with over each.
#[derive(Clone, Copy)]
pub struct Prefixes<'a> {
    pub name: &'a str,
    pub less: u64,
    pub status: u64,
}

/// Over how many prefixes a command was carried out, over how many of them it ended with the status and wrote nothing to `out`, and for how many of
/// those the report ends with the prefix' length.
#[derive(Clone, Copy)]
struct Count {
    all: u64,
    refused: u64,
    placed: u64,
}

// Whether the report's line ends with this number.
fn ends_with_number(alloc: Global, rep: &[u8], number: usize) -> Result<bool, NoMemory>
    ensures { IfOk result (λ b. b ≡ ends_with nat_eq rep.now (number_end number)) }
{
    let mut end = String::new(alloc);
    write!(end, " {number}\n")?;
    Ok(rep.ends_with(end.as_bytes()))
}

fn counted(
    alloc: Global,
    count: Count,
    came: &Came,
    status: u64,
    length: usize,
) -> Result<Count, NoMemory>
    ensures { IfOk result (λ c. c ≡ counted_by count came.now.code came.now.out.bytes came.now.rep.bytes status length) }
{
    let is_refused = came.code as u64 == status && came.out.bytes().is_empty();
    let is_placed = is_refused && ends_with_number(alloc, came.rep.bytes(), length)?;
    Ok(Count {
        all: count.all.saturating_add(1),
        refused: count.refused.saturating_add(is_refused as u64),
        placed: count.placed.saturating_add(is_placed as u64),
    })
}

// What comes of a command where the file of that name has these bytes.
fn came_over(
    alloc: Global,
    held: &[File],
    name: &str,
    bytes: &[u8],
    words: &Words,
) -> Result<Came, NoMemory>
    ensures { IfOk result (λ c. (s : Status) × (c.code ≡ code_of s)) }
{
    let mut files = files_with(alloc, held, name, bytes)?;
    came_of(alloc, words, &mut files, whole())
}

fn count_of(
    alloc: Global,
    held: &[File],
    prefixes: &Prefixes,
    words: &Words,
) -> Result<Count, NoMemory>
    ensures { IfOk result (λ c. IsCounted (length (bytes_under held.now prefixes.now.name.now)) prefixes.now.less c) }
{
    let bytes = bytes_of(held, prefixes.name);
    let less = prefixes.less as usize;
    let mut count = Count {
        all: 0,
        refused: 0,
        placed: 0,
    };
    for length in 0..bytes.len() {
        if bytes.len() - length >= less {
            let came = came_over(alloc, held, prefixes.name, &bytes[..length], words)?;
            count = counted(alloc, count, &came, prefixes.status, length)?;
        }
    }
    Ok(count)
}

/// Appends what a command does over each of the prefixes: over how many it ends with the status and writes nothing to `out`, and for how many the
/// report ends with the length of the prefix.
pub fn put_prefixes(
    out: &mut String,
    alloc: Global,
    held: &[File],
    prefixes: &Prefixes,
    command: &str,
) -> Result<(), NoMemory>
    ensures { OnOk result ((count : Count) × IsCounted (length (bytes_under held.now prefixes.now.name.now)) prefixes.now.less count
        × (string_bytes out.new ≡ string_bytes out.old ++ prefixes_line command.now prefixes.now.status count)) }
{
    let words = words_of(alloc, command, "")?;
    let count = count_of(alloc, held, prefixes, &words)?;
    let Count {
        all,
        refused,
        placed,
    } = count;
    let status = prefixes.status;
    write!(
        out,
        "{command}: status {status} and no output {refused} of {all}, at their ends {placed}\n"
    )?;
    Ok(())
}
