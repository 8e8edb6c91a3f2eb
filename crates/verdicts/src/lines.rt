// The lines of a report.
ghost use Rattle.std.specs.Prelude.{◌≡◌, ◌++◌, IfOk, OnOk, length, string_bytes};
ghost use Rattle.std.specs.List.{flat_map};
ghost use Rattle.verdicts.specs.declared.verdict.Said.{Said};
ghost use Rattle.verdicts.specs.Lines.{place_text};
ghost use Rattle.verdicts.specs.Reports.{said_text, verdict_line, pruned_line, unnested_line};

use crate::verdict::{LoopVerdict, Said};
use qbs_base::{Bytes, NoMemory, Span};
use std::alloc::{AllocError, Global};

// A place as line and column.
fn place(alloc: Global, at: Span) -> Result<String, AllocError>
    ensures { IfOk result (λ s. string_bytes s ≡ place_text at) }
{
    let row = at.line;
    let column = at.column;
    let text = format!(in alloc; "{row}:{column}")?;
    Ok(text)
}

fn found(alloc: Global, k: u64) -> Result<String, AllocError>
    ensures { IfOk result (λ s. string_bytes s ≡ said_text (Said.Found k)) }
{
    let text = format!(in alloc; "found {k}")?;
    Ok(text)
}

fn none_of(alloc: Global, n: u64) -> Result<String, AllocError>
    ensures { IfOk result (λ s. string_bytes s ≡ said_text (Said.NoneOf n)) }
{
    let text = format!(in alloc; "none of {n}")?;
    Ok(text)
}

fn budget(alloc: Global, b: u64, n: u64) -> Result<String, AllocError>
    ensures { IfOk result (λ s. string_bytes s ≡ said_text (Said.Budget b n)) }
{
    let text = format!(in alloc; "budget {b} of {n}")?;
    Ok(text)
}

fn outside(alloc: Global, rule: u32, at: Span) -> Result<String, AllocError>
    ensures { IfOk result (λ s. string_bytes s ≡ said_text (Said.Outside rule at)) }
{
    let place = place(alloc, at)?;
    let text = format!(in alloc; "outside K{rule} at {place}")?;
    Ok(text)
}

// What is said of a loop.
fn said(alloc: Global, said: Said) -> Result<String, AllocError>
    ensures { IfOk result (λ s. string_bytes s ≡ said_text said) }
{
    match said {
        Said::Found { k } => found(alloc, k),
        Said::NoneOf { n } => none_of(alloc, n),
        Said::Budget { b, n } => budget(alloc, b, n),
        Said::Outside { rule, at } => outside(alloc, rule, at),
    }
}

// The line of a loop that was tried.
fn verdict(alloc: Global, v: LoopVerdict) -> Result<String, AllocError>
    ensures { IfOk result (λ s. string_bytes s ≡ verdict_line v) }
{
    let place = place(alloc, v.at)?;
    let said = said(alloc, v.said)?;
    let text = format!(in alloc; "loop {place} {said}\n")?;
    Ok(text)
}

fn pruned(alloc: Global, n: u64) -> Result<String, AllocError>
    ensures { IfOk result (λ s. string_bytes s ≡ pruned_line n) }
{
    let text = format!(in alloc; "pruned {n}\n")?;
    Ok(text)
}

fn push_verdict(alloc: Global, out: &mut Vec<u8>, v: LoopVerdict) -> Result<(), NoMemory>
    ensures { OnOk result (out.new.items ≡ out.old.items ++ verdict_line v) }
{
    let text = verdict(alloc, v)?;
    out.extend_from_slice(text.as_bytes())?;
    Ok(())
}

// A line for each verdict, behind what is there.
fn push_verdicts(alloc: Global, out: &mut Vec<u8>, verdicts: &[LoopVerdict]) -> Result<(), NoMemory>
    ensures { OnOk result (out.new.items ≡ out.old.items ++ flat_map verdict_line verdicts.now) }
{
    for v in verdicts {
        push_verdict(alloc, out, *v)?;
    }
    Ok(())
}

fn push_pruned(alloc: Global, out: &mut Vec<u8>, n: u64) -> Result<(), NoMemory>
    ensures { OnOk result (out.new.items ≡ out.old.items ++ pruned_line n) }
{
    let text = pruned(alloc, n)?;
    out.extend_from_slice(text.as_bytes())?;
    Ok(())
}

/// A line for each verdict, and how many candidates were dropped.
pub fn report(alloc: Global, verdicts: &[LoopVerdict], dropped: u64) -> Result<Bytes, NoMemory>
    ensures { IfOk result (λ bytes. bytes ≡ flat_map verdict_line verdicts.now ++ pruned_line dropped) }
{
    let mut out = Vec::new(alloc);
    push_verdicts(alloc, &mut out, verdicts)?;
    push_pruned(alloc, &mut out, dropped)?;
    Ok(Bytes::from_vec(out))
}

fn unnested(alloc: Global, n: u64) -> Result<String, AllocError>
    ensures { IfOk result (λ s. string_bytes s ≡ unnested_line n) }
{
    let text = format!(in alloc; "unnested {n}\n")?;
    Ok(text)
}

fn push_unnested(alloc: Global, out: &mut Vec<u8>, n: u64) -> Result<(), NoMemory>
    ensures { OnOk result (out.new.items ≡ out.old.items ++ unnested_line n) }
{
    let text = unnested(alloc, n)?;
    out.extend_from_slice(text.as_bytes())?;
    Ok(())
}

/// A line for each loop that was unnested, and how many they are.
pub fn unnest_report(alloc: Global, verdicts: &[LoopVerdict]) -> Result<Bytes, NoMemory>
    ensures { IfOk result (λ bytes. bytes ≡ flat_map verdict_line verdicts.now ++ unnested_line (length verdicts.now)) }
{
    let mut out = Vec::new(alloc);
    push_verdicts(alloc, &mut out, verdicts)?;
    push_unnested(alloc, &mut out, verdicts.len() as u64)?;
    Ok(Bytes::from_vec(out))
}
