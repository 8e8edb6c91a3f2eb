// The report on narrowed walks.
ghost use Rattle.std.specs.Prelude.{◌≡◌, ◌++◌, IfOk, OnOk, codes, string_bytes};
ghost use Rattle.std.specs.Fmt.{decimal};
ghost use Rattle.std.specs.List.{flat_map};
ghost use Rattle.verdicts.specs.Lines.{line, place_text};
ghost use Rattle.narrowing.specs.Reports.{reason_name, said_text, walk_line, narrowed_among, report_text};

use crate::walk::{Reason, Walk};
use qbs_base::{Bytes, NoMemory, Span};
use std::alloc::{AllocError, Global};

// A place as line and column.
fn place(alloc: Global, at: Span) -> Result<String, AllocError>
    ensures { IfOk result (λ s. string_bytes s ≡ place_text at) }
{
    let row = at.line;
    let column = at.column;
    let text = format!(in alloc; "{row}:{column}")?;
    Ok(text)
}

fn name(reason: Reason) -> &'static str
    ensures { result.now ≡ reason_name reason }
{
    match reason {
        Reason::Inside => "Inside",
        Reason::List => "List",
        Reason::Body => "Body",
        Reason::Condition => "Condition",
        Reason::Covered => "Covered",
    }
}

// What is said of a for-each.
fn said(alloc: Global, stays: Option<Reason>) -> Result<String, AllocError>
    ensures { IfOk result (λ s. string_bytes s ≡ said_text stays) }
{
    match stays {
        None => String::from_str(alloc, "narrowed"),
        Some(reason) => {
            let name = name(reason);
            let text = format!(in alloc; "stays {name}")?;
            Ok(text)
        }
    }
}

// The line of a for-each.
fn walk(alloc: Global, w: Walk) -> Result<String, AllocError>
    ensures { IfOk result (λ s. string_bytes s ≡ walk_line w) }
{
    let place = place(alloc, w.at)?;
    let said = said(alloc, w.stays)?;
    let text = format!(in alloc; "loop {place} {said}\n")?;
    Ok(text)
}

fn push_walk(alloc: Global, out: &mut Vec<u8>, w: Walk) -> Result<(), NoMemory>
    ensures { OnOk result (out.new.items ≡ out.old.items ++ walk_line w) }
{
    let text = walk(alloc, w)?;
    out.extend_from_slice(text.as_bytes())?;
    Ok(())
}

// A line for each for-each, behind what is there.
fn push_walks(alloc: Global, out: &mut Vec<u8>, walks: &[Walk]) -> Result<(), NoMemory>
    ensures { OnOk result (out.new.items ≡ out.old.items ++ flat_map walk_line walks.now) }
{
    for w in walks {
        push_walk(alloc, out, *w)?;
    }
    Ok(())
}

// How many were narrowed.
fn count(walks: &[Walk]) -> usize
    ensures { result ≡ narrowed_among walks.now }
{
    let mut n = 0;
    for w in walks {
        if w.stays.is_none() {
            n += 1;
        }
    }
    n
}

// The line of how many were narrowed.
fn counted(alloc: Global, n: usize) -> Result<String, AllocError>
    ensures { IfOk result (λ s. string_bytes s ≡ line (codes "narrowed " ++ decimal n)) }
{
    let text = format!(in alloc; "narrowed {n}\n")?;
    Ok(text)
}

fn push_count(alloc: Global, out: &mut Vec<u8>, n: usize) -> Result<(), NoMemory>
    ensures { OnOk result (out.new.items ≡ out.old.items ++ line (codes "narrowed " ++ decimal n)) }
{
    let text = counted(alloc, n)?;
    out.extend_from_slice(text.as_bytes())?;
    Ok(())
}

/// A line for each for-each, and how many were narrowed. Only want of memory is an error.
pub fn report(alloc: Global, walks: &[Walk]) -> Result<Bytes, NoMemory>
    ensures { IfOk result (λ bytes. bytes ≡ report_text walks.now) }
{
    let mut out = Vec::new(alloc);
    push_walks(alloc, &mut out, walks)?;
    push_count(alloc, &mut out, count(walks))?;
    Ok(Bytes::from_vec(out))
}
