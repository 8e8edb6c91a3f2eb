// Where bodies begin and end.
ghost use Rattle.std.specs.Prelude.{◌≡◌, take};
ghost use Rattle.view_statements.specs.Places.{frame_of};
ghost use Rattle.view_statements.specs.Reading.{statements};
ghost use Rattle.view_statements.specs.Statements as specs;

use crate::{Frame, Statement};
use view_rules::{Sighted, here, is_at, next, past};

/// The number itself, where the item before it has the number that is named.
pub fn to_end(f: &Frame, end: usize, i: usize) -> Option<usize>
    ensures { result ≡ specs.to_end (frame_of f.now) end i }
{
    let j = next(f.within, end)?;
    if j == i { Some(i) } else { None }
}

fn is_nothing(body: &[Statement]) -> bool
    ensures { result ≡ specs.is_nothing (statements body.now) }
{
    match body {
        [] => true,
        [_st, _rest @ ..] => false,
    }
}

fn bare_from(f: &Frame, body: &[Statement], i: usize) -> Option<usize>
    ensures { result ≡ specs.bare_from (frame_of f.now) (statements body.now) i }
{
    match body {
        [] => past(f.within, b";", i),
        [_st, rest @ ..] => { if is_nothing(rest) { Some(i) } else { None } }
    }
}

/// Where the statements of a body begin; behind a semicolon that stands for none.
pub fn body_from(f: &Frame, braces: bool, body: &[Statement], i: usize) -> Option<usize>
    ensures { result ≡ specs.body_from (frame_of f.now) braces (statements body.now) i }
{
    if braces {
        past(f.within, b"{", i)
    } else {
        bare_from(f, body, i)
    }
}

fn past_brace(f: &Frame, braces: bool, i: usize) -> Option<usize>
    ensures { result ≡ specs.past_brace (frame_of f.now) braces i }
{
    if braces {
        past(f.within, b"}", i)
    } else {
        Some(i)
    }
}

fn past_body(f: &Frame, braces: bool, end: usize, i: usize) -> Option<usize>
    ensures { result ≡ specs.past_body (frame_of f.now) braces end i }
{
    let j = past_brace(f, braces, i)?;
    to_end(f, end, j)
}

fn past_then(f: &Frame, braces: bool, end: usize, i: usize) -> Option<usize>
    ensures { result ≡ specs.past_then (frame_of f.now) braces end i }
{
    let j = past_body(f, braces, end, i)?;
    if is_at(f.within, j, b"else") {
        None
    } else {
        Some(j)
    }
}

fn past_else(
    f: &Frame,
    other_at: usize,
    braces: bool,
    other: &[Statement],
    i: usize,
) -> Option<usize>
    ensures { result ≡ specs.past_else (frame_of f.now) other_at braces (statements other.now) i }
{
    let h = here(other_at, i)?;
    let j = past(f.within, b"else", h)?;
    body_from(f, braces, other, j)
}

/// Where the statements behind `else` begin, behind the statements before it.
pub fn other_from(
    f: &Frame,
    other_at: usize,
    braces: bool,
    other: &[Statement],
    passed: Option<usize>,
) -> Option<usize>
    ensures { result ≡ specs.other_from (frame_of f.now) other_at braces (statements other.now) passed }
{
    past_else(f, other_at, braces, other, passed?)
}

fn past_block(f: &Frame, close: usize, end: usize, i: usize) -> Option<usize>
    ensures { result ≡ specs.past_block (frame_of f.now) close end i }
{
    let h = here(close, i)?;
    let j = past(f.within, b"}", h)?;
    to_end(f, end, j)
}

fn past_rest(f: &Frame, end: usize, i: usize) -> Option<usize>
    ensures { result ≡ specs.past_rest (frame_of f.now) end i }
{
    if is_at(f.within, i, b"}") {
        to_end(f, end, i)
    } else {
        None
    }
}

// ---- Out of a body

/// The number behind the part of an `if` before `else`. What is declared there is out of sight.
pub fn leave_brace(
    f: &Frame,
    sight: &mut Vec<Sighted>,
    len: usize,
    braces: bool,
    passed: Option<usize>,
) -> Option<usize>
    ensures { specs.with_sight sight.new.items result ≡ specs.left len (specs.past_brace (frame_of f.now) braces) (specs.with_sight sight.old.items passed) }
{
    let i = passed?;
    sight.truncate(len);
    past_brace(f, braces, i)
}

/// The number behind the body of a statement that ends with it.
pub fn leave_body(
    f: &Frame,
    sight: &mut Vec<Sighted>,
    len: usize,
    braces: bool,
    end: usize,
    passed: Option<usize>,
) -> Option<usize>
    ensures { specs.with_sight sight.new.items result ≡ specs.left len (specs.past_body (frame_of f.now) braces end) (specs.with_sight sight.old.items passed) }
{
    let i = passed?;
    sight.truncate(len);
    past_body(f, braces, end, i)
}

/// The number behind the body of an `if` without `else`.
pub fn leave_then(
    f: &Frame,
    sight: &mut Vec<Sighted>,
    len: usize,
    braces: bool,
    end: usize,
    passed: Option<usize>,
) -> Option<usize>
    ensures { specs.with_sight sight.new.items result ≡ specs.left len (specs.past_then (frame_of f.now) braces end) (specs.with_sight sight.old.items passed) }
{
    let i = passed?;
    sight.truncate(len);
    past_then(f, braces, end, i)
}

/// The number behind a block whose brace has a number that is named.
pub fn leave_block(
    f: &Frame,
    sight: &mut Vec<Sighted>,
    len: usize,
    close: usize,
    end: usize,
    passed: Option<usize>,
) -> Option<usize>
    ensures { specs.with_sight sight.new.items result ≡ specs.left len (specs.past_block (frame_of f.now) close end) (specs.with_sight sight.old.items passed) }
{
    let i = passed?;
    sight.truncate(len);
    past_block(f, close, end, i)
}

/// The number of the brace at which what is skipped ends.
pub fn leave_rest(
    f: &Frame,
    sight: &mut Vec<Sighted>,
    len: usize,
    end: usize,
    passed: Option<usize>,
) -> Option<usize>
    ensures { specs.with_sight sight.new.items result ≡ specs.left len (specs.past_rest (frame_of f.now) end) (specs.with_sight sight.old.items passed) }
{
    let i = passed?;
    sight.truncate(len);
    past_rest(f, end, i)
}
