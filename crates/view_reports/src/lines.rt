// The lines of a report on a file that is viewed.
ghost use Rattle.std.specs.Prelude.{◌≡◌, ◌++◌, IfOk, OnOk, string_bytes};
ghost use Rattle.std.specs.List.{flat_map};
ghost use Rattle.verdicts.specs.declared.verdict.Said.{Said};
ghost use Rattle.verdicts.specs.Lines.{place_text};
ghost use Rattle.verdicts.specs.Reports.{said_text, pruned_line};
ghost use Rattle.view_reports.specs.Lines.{view_line};

use qbs_base::{Bytes, NoMemory, Span};
use std::alloc::{AllocError, Global};
use verdicts::{LoopVerdict, Said};

/// What is said of a file that is viewed: where the slice with a number, counted from 1, begins; or that a loop isn't seen, by the rule, from 1
/// to 12, that what stands round it or in it breaks first, and the place that breaks it; or what is said of a loop that was tried; or that one
/// gave way and isn't written, since rows that are listed could be told from other objects, or since it can't be written so that it is seen again.
#[derive(Clone, Copy, PartialEq, Eq)]
pub enum ViewLine {
    Slice { k: u64, at: Span },
    Unseen { at: Span, rule: u32, because: Span },
    Tried { verdict: LoopVerdict },
    Shared { at: Span },
    Unlike { at: Span },
}

/// A place as line and column.
fn place(alloc: Global, at: Span) -> Result<String, AllocError>
    ensures { IfOk result (λ s. string_bytes s ≡ place_text at) }
{
    let row = at.line;
    let column = at.column;
    let text = format!(in alloc; "{row}:{column}")?;
    Ok(text)
}

fn slice(alloc: Global, k: u64, at: Span) -> Result<String, AllocError>
    ensures { IfOk result (λ s. string_bytes s ≡ view_line (ViewLine.Slice k at)) }
{
    let place = place(alloc, at)?;
    let text = format!(in alloc; "slice {k} {place}\n")?;
    Ok(text)
}

fn unseen(alloc: Global, at: Span, rule: u32, because: Span) -> Result<String, AllocError>
    ensures { IfOk result (λ s. string_bytes s ≡ view_line (ViewLine.Unseen at rule because)) }
{
    let place_of_loop = place(alloc, at)?;
    let place_of_cause = place(alloc, because)?;
    let text = format!(in alloc; "loop {place_of_loop} unseen V{rule} at {place_of_cause}\n")?;
    Ok(text)
}

fn found(alloc: Global, k: u64) -> Result<String, AllocError>
    ensures { IfOk result (λ s. string_bytes s ≡ said_text (Said.Found k)) }
{
    let text = format!(in alloc; "found {k}")?;
    Ok(text)
}

fn none_of(alloc: Global, n: u64) -> Result<String, AllocError>
    ensures { IfOk result (λ s. string_bytes s ≡ said_text (Said.NoneOf n)) }
{
    let text = format!(in alloc; "none of {n}")?;
    Ok(text)
}

fn budget(alloc: Global, b: u64, n: u64) -> Result<String, AllocError>
    ensures { IfOk result (λ s. string_bytes s ≡ said_text (Said.Budget b n)) }
{
    let text = format!(in alloc; "budget {b} of {n}")?;
    Ok(text)
}

fn outside(alloc: Global, rule: u32, at: Span) -> Result<String, AllocError>
    ensures { IfOk result (λ s. string_bytes s ≡ said_text (Said.Outside rule at)) }
{
    let place = place(alloc, at)?;
    let text = format!(in alloc; "outside K{rule} at {place}")?;
    Ok(text)
}

/// What is said of a loop that was tried.
fn said(alloc: Global, said: Said) -> Result<String, AllocError>
    ensures { IfOk result (λ s. string_bytes s ≡ said_text said) }
{
    match said {
        Said::Found { k } => found(alloc, k),
        Said::NoneOf { n } => none_of(alloc, n),
        Said::Budget { b, n } => budget(alloc, b, n),
        Said::Outside { rule, at } => outside(alloc, rule, at),
    }
}

fn tried(alloc: Global, v: LoopVerdict) -> Result<String, AllocError>
    ensures { IfOk result (λ s. string_bytes s ≡ view_line (ViewLine.Tried v)) }
{
    let place = place(alloc, v.at)?;
    let said = said(alloc, v.said)?;
    let text = format!(in alloc; "loop {place} {said}\n")?;
    Ok(text)
}

fn shared(alloc: Global, at: Span) -> Result<String, AllocError>
    ensures { IfOk result (λ s. string_bytes s ≡ view_line (ViewLine.Shared at)) }
{
    let place = place(alloc, at)?;
    let text = format!(in alloc; "loop {place} shared\n")?;
    Ok(text)
}

fn unlike(alloc: Global, at: Span) -> Result<String, AllocError>
    ensures { IfOk result (λ s. string_bytes s ≡ view_line (ViewLine.Unlike at)) }
{
    let place = place(alloc, at)?;
    let text = format!(in alloc; "loop {place} unlike\n")?;
    Ok(text)
}

fn text_of(alloc: Global, line: ViewLine) -> Result<String, AllocError>
    ensures { IfOk result (λ s. string_bytes s ≡ view_line line) }
{
    match line {
        ViewLine::Slice { k, at } => slice(alloc, k, at),
        ViewLine::Unseen { at, rule, because } => unseen(alloc, at, rule, because),
        ViewLine::Tried { verdict } => tried(alloc, verdict),
        ViewLine::Shared { at } => shared(alloc, at),
        ViewLine::Unlike { at } => unlike(alloc, at),
    }
}

fn push_line(alloc: Global, out: &mut Vec<u8>, line: ViewLine) -> Result<(), NoMemory>
    ensures { OnOk result (out.new.items ≡ out.old.items ++ view_line line) }
{
    let text = text_of(alloc, line)?;
    out.extend_from_slice(text.as_bytes())?;
    Ok(())
}

/// A line for each, behind what is there.
fn push_lines(alloc: Global, out: &mut Vec<u8>, lines: &[ViewLine]) -> Result<(), NoMemory>
    ensures { OnOk result (out.new.items ≡ out.old.items ++ flat_map view_line lines.now) }
{
    for line in lines {
        push_line(alloc, out, *line)?;
    }
    Ok(())
}

/// The lines, one behind the other.
pub fn view_report(alloc: Global, lines: &[ViewLine]) -> Result<Bytes, NoMemory>
    ensures { IfOk result (λ bytes. bytes ≡ flat_map view_line lines.now) }
{
    let mut out = Vec::new(alloc);
    push_lines(alloc, &mut out, lines)?;
    Ok(Bytes::from_vec(out))
}

fn pruned(alloc: Global, n: u64) -> Result<String, AllocError>
    ensures { IfOk result (λ s. string_bytes s ≡ pruned_line n) }
{
    let text = format!(in alloc; "pruned {n}\n")?;
    Ok(text)
}

fn push_pruned(alloc: Global, out: &mut Vec<u8>, n: u64) -> Result<(), NoMemory>
    ensures { OnOk result (out.new.items ≡ out.old.items ++ pruned_line n) }
{
    let text = pruned(alloc, n)?;
    out.extend_from_slice(text.as_bytes())?;
    Ok(())
}

/// The lines, one behind the other, and how many candidates were dropped.
pub fn rewrite_report(alloc: Global, lines: &[ViewLine], dropped: u64) -> Result<Bytes, NoMemory>
    ensures { IfOk result (λ bytes. bytes ≡ flat_map view_line lines.now ++ pruned_line dropped) }
{
    let mut out = Vec::new(alloc);
    push_lines(alloc, &mut out, lines)?;
    push_pruned(alloc, &mut out, dropped)?;
    Ok(Bytes::from_vec(out))
}
