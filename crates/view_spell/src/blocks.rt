// The statements of a patch in the words of a file.
ghost use Rattle.std.specs.Prelude.{◌≡◌};
ghost use Rattle.view_text.specs.Layout.{stretches_of};

use crate::arguments::{Spelled, Spelling, push_words};
use crate::asks::push_ask;
use crate::origins::{Origin, Taken, bytes_of, has_body, origin_of};
use java_ast::Stmt;
use qbs_base::NoMemory;
use std::alloc::Global;
use view_statements::Ending;

/// Whether a kept statement stands in the bytes that a patch takes.
fn is_kept_whole(taken: Taken, at: Origin) -> bool {
    taken.at.from <= at.from && at.to <= taken.at.to
}

/// Pushes a kept statement as it stands.
fn push_kept(out: &mut Vec<u8>, s: &Spelling, taken: Taken, statement: &Stmt) -> Spelled
    requires { s.now.seen.now.stretches.now ≡ stretches_of s.now.seen.now.cells.now }
{
    let Some(at) = origin_of(s.seen, statement.span.start, statement.span.end) else {
        return Ok(false);
    };
    if is_kept_whole(taken, at) {
        push_words(out, bytes_of(s.seen, at))
    } else {
        Ok(false)
    }
}

fn push_one(
    alloc: Global,
    out: &mut Vec<u8>,
    s: &Spelling,
    taken: Taken,
    statement: &Stmt,
) -> Spelled
    requires { s.now.seen.now.stretches.now ≡ stretches_of s.now.seen.now.cells.now }
{
    if has_body(s.seen, statement.span.end) {
        push_ask(alloc, out, s, taken, statement)
    } else {
        push_kept(out, s, taken, statement)
    }
}

fn push_break(out: &mut Vec<u8>, margin: &[u8]) -> Result<(), NoMemory> {
    out.extend_from_slice(b"\n")?;
    out.extend_from_slice(margin)?;
    Ok(())
}

fn push_all(
    alloc: Global,
    out: &mut Vec<u8>,
    s: &Spelling,
    taken: Taken,
    margin: &[u8],
    block: &[Stmt],
) -> Spelled
    requires { s.now.seen.now.stretches.now ≡ stretches_of s.now.seen.now.cells.now }
{
    let mut first = true;
    for statement in block {
        if !first {
            push_break(out, margin)?;
        }
        first = false;
        if !push_one(alloc, out, s, taken, statement)? {
            return Ok(false);
        }
    }
    Ok(true)
}

/// Pushes the `return` behind a group.
fn push_return(out: &mut Vec<u8>, s: &Spelling, margin: &[u8]) -> Spelled {
    match &s.slice.ending {
        Ending::Grouped(group) => {
            push_break(out, margin)?;
            out.extend_from_slice(b"return ")?;
            out.extend_from_slice(group.variable.as_slice())?;
            push_words(out, b";")
        }
        Ending::Open | Ending::Returned(_) => Ok(true),
    }
}

/// Pushes the statements of a patch, each further one on a line with the margin.
pub fn push_block(
    alloc: Global,
    out: &mut Vec<u8>,
    s: &Spelling,
    taken: Taken,
    margin: &[u8],
    block: &[Stmt],
) -> Spelled
    requires { s.now.seen.now.stretches.now ≡ stretches_of s.now.seen.now.cells.now }
{
    let spelled = push_all(alloc, out, s, taken, margin, block)?;
    if spelled && taken.found {
        push_return(out, s, margin)
    } else {
        Ok(spelled)
    }
}
