// Loops, conditions and ways out, up to their bodies.
ghost use Rattle.std.specs.Prelude.{◌≡◌, map};
ghost use Rattle.view_rules.specs.Reading.{expression};
ghost use Rattle.view_statements.specs.Places.{frame_of};
ghost use Rattle.view_statements.specs.Reading.{statements};
ghost use Rattle.view_statements.specs.Statements as specs;
ghost use Rattle.view_statements.specs.Steps as steps;

use crate::bodies::body_from;
use crate::sights::{is_hashed, is_new_name};
use crate::steps::{are_unnamed, condition_in, past_close, walker};
use crate::{Frame, Place, Statement};
use view_rules::{
    Expression, JavaType, Sighted, argument_at, bytes_at, check_walked, here, is_clear, is_element,
    is_list, many_at, next, past, past_all, same_type,
};

/// Where the body of an `if` or `while` begins.
pub fn conditional(
    f: &Frame,
    sight: &[Sighted],
    word: &[u8],
    at: usize,
    condition: &Expression,
    close: usize,
    braces: bool,
    body: &[Statement],
    i: usize,
) -> Option<usize>
    ensures { result ≡ specs.conditional (frame_of f.now) sight.now word.now at (expression condition.now) close braces (statements body.now) i }
{
    let j = condition_in(f, sight, word, condition, at, close, i)?;
    body_from(f, braces, body, j)
}

// ---- For-each

fn walked_to(
    f: &Frame,
    sight: &[Sighted],
    name: usize,
    walked: &Expression,
) -> Option<(usize, JavaType)>
    ensures { result ≡ specs.walked_to (frame_of f.now) sight.now name (expression walked.now) }
{
    let i = next(f.within, name)?;
    let j = past(f.within, b":", i)?;
    if is_hashed(walked) {
        None
    } else {
        check_walked(f.within, sight, walked, j)
    }
}

fn each_head(
    f: &Frame,
    sight: &[Sighted],
    at: usize,
    inferred: bool,
    name: usize,
    java: JavaType,
    walked: &Expression,
    close: usize,
    i: usize,
) -> Option<usize>
    ensures { result ≡ specs.each_head (frame_of f.now) sight.now at inferred name java (expression walked.now) close i }
{
    let h = here(at, i)?;
    let j = past_all(f.within, &[b"for", b"("], h)?;
    let many = walked_to(f, sight, name, walked)?;
    let declared = walker(f, sight, inferred, name, j, many.1)?;
    if same_type(declared, java) {
        past_close(f, close, many.0)
    } else {
        None
    }
}

/// Where the body of a for-each begins.
pub fn each_from(
    f: &Frame,
    sight: &[Sighted],
    at: usize,
    inferred: bool,
    name: usize,
    java: JavaType,
    walked: &Expression,
    close: usize,
    braces: bool,
    body: &[Statement],
    i: usize,
) -> Option<usize>
    ensures { result ≡ specs.each_from (frame_of f.now) sight.now at inferred name java (expression walked.now) close braces (statements body.now) i }
{
    let j = each_head(f, sight, at, inferred, name, java, walked, close, i)?;
    body_from(f, braces, body, j)
}

// ---- By an index or an iterator

fn element_to(
    f: &Frame,
    sight: &[Sighted],
    name: usize,
    java: JavaType,
    many: JavaType,
    words: &[&[u8]],
    i: usize,
) -> Option<usize>
    ensures { result ≡ specs.element_to (frame_of f.now) sight.now name java many (map (λ word. word.now) words.now) i }
{
    let declared = walker(f, sight, false, name, i, many)?;
    if same_type(declared, java) {
        let j = next(f.within, name)?;
        past_all(f.within, words, j)
    } else {
        None
    }
}

fn own_list_at(f: &Frame, sight: &[Sighted], list: usize) -> Option<JavaType>
    ensures { result ≡ specs.own_list_at (frame_of f.now) sight.now list }
{
    let java = many_at(f.within, sight, list)?;
    if is_list(java) { Some(java) } else { None }
}

fn past_size(f: &Frame, i: &[u8], xs: &[u8], at: usize) -> Option<usize>
    ensures { result ≡ specs.past_size (frame_of f.now) i.now xs.now at }
{
    past_all(
        f.within,
        &[
            b"=", b"0", b";", i, b"<", xs, b".", b"size", b"(", b")", b";",
        ],
        at,
    )
}

fn past_count(f: &Frame, i: &[u8], first: bool, at: usize) -> Option<usize>
    ensures { result ≡ specs.past_count (frame_of f.now) i.now first at }
{
    if first {
        past_all(f.within, &[b"++", i, b")", b"{"], at)
    } else {
        past_all(f.within, &[i, b"++", b")", b"{"], at)
    }
}

fn index_to(
    f: &Frame,
    sight: &[Sighted],
    list: usize,
    first: bool,
    name: usize,
    java: JavaType,
    i: usize,
) -> Option<usize>
    ensures { result ≡ specs.index_to (frame_of f.now) sight.now list first name java i }
{
    let a = bytes_at(f.within, i);
    let xs = bytes_at(f.within, list);
    let many = own_list_at(f, sight, list)?;
    let g = next(f.within, i)?;
    let j = past_size(f, a, xs, g)?;
    let k = past_count(f, a, first, j)?;
    element_to(
        f,
        sight,
        name,
        java,
        many,
        &[b"=", xs, b".", b"get", b"(", a, b")", b";"],
        k,
    )
}

fn unnamed_to(f: &Frame, a: usize, list: usize, close: usize, i: usize) -> Option<usize>
    ensures { result ≡ specs.unnamed_to (frame_of f.now) a list close i }
{
    if are_unnamed(f, bytes_at(f.within, a), bytes_at(f.within, list), i, close) {
        Some(i)
    } else {
        None
    }
}

/// Where the body of a loop over a list by an index begins.
pub fn index_head(
    f: &Frame,
    sight: &[Sighted],
    at: usize,
    list: usize,
    first: bool,
    name: usize,
    java: JavaType,
    close: usize,
    i: usize,
) -> Option<usize>
    ensures { result ≡ specs.index_head (frame_of f.now) sight.now at list first name java close i }
{
    let h = here(at, i)?;
    let j = past_all(f.within, &[b"for", b"(", b"int"], h)?;
    if !is_new_name(f, sight, j) {
        return None;
    }
    let l = index_to(f, sight, list, first, name, java, j)?;
    unnamed_to(f, j, list, close, l)
}

fn past_iterator(f: &Frame, it: &[u8], xs: &[u8], at: usize) -> Option<usize>
    ensures { result ≡ specs.past_iterator (frame_of f.now) it.now xs.now at }
{
    past_all(
        f.within,
        &[
            b"=",
            xs,
            b".",
            b"iterator",
            b"(",
            b")",
            b";",
            it,
            b".",
            b"hasNext",
            b"(",
            b")",
            b";",
            b")",
            b"{",
        ],
        at,
    )
}

fn iterator_to(
    f: &Frame,
    sight: &[Sighted],
    list: usize,
    name: usize,
    java: JavaType,
    element: JavaType,
    it: usize,
) -> Option<usize>
    ensures { result ≡ specs.iterator_to (frame_of f.now) sight.now list name java element it }
{
    let a = bytes_at(f.within, it);
    let many = many_at(f.within, sight, list)?;
    if !is_element(many, element) {
        return None;
    }
    let g = next(f.within, it)?;
    let j = past_iterator(f, a, bytes_at(f.within, list), g)?;
    element_to(
        f,
        sight,
        name,
        java,
        many,
        &[b"=", a, b".", b"next", b"(", b")", b";"],
        j,
    )
}

/// Where the body of a loop over a list or set by an iterator begins.
pub fn iterator_head(
    f: &Frame,
    sight: &[Sighted],
    at: usize,
    list: usize,
    name: usize,
    java: JavaType,
    close: usize,
    i: usize,
) -> Option<usize>
    ensures { result ≡ specs.iterator_head (frame_of f.now) sight.now at list name java close i }
{
    if !is_clear(f.within, b"Iterator") {
        return None;
    }
    let h = here(at, i)?;
    let j = past_all(f.within, &[b"for", b"(", b"Iterator"], h)?;
    let e = argument_at(f.within, j)?;
    if !is_new_name(f, sight, e.to) {
        return None;
    }
    let l = iterator_to(f, sight, list, name, java, e.java, e.to)?;
    unnamed_to(f, e.to, list, close, l)
}

// ---- Ways out

/// The number behind `break;` in a loop.
pub fn broken_off(f: &Frame, p: Place, at: usize, i: usize) -> Option<usize>
    ensures { result ≡ specs.broken_off (frame_of f.now) p at i }
{
    if !p.looped {
        return None;
    }
    let h = here(at, i)?;
    past_all(f.within, &[b"break", b";"], h)
}

/// The word of a truth value.
pub fn truth_word(value: bool) -> &'static [u8]
    ensures { result.now ≡ specs.truth_word value }
{
    if value { b"true" } else { b"false" }
}

/// The number behind the `return` of a group.
pub fn found_at(f: &Frame, p: Place, at: usize, literal: usize, i: usize) -> Option<usize>
    ensures { result ≡ specs.found_at (frame_of f.now) p at literal i }
{
    let value = p.found?;
    let h = here(at, i)?;
    let j = past(f.within, b"return", h)?;
    let k = here(literal, j)?;
    past_all(f.within, &[truth_word(value), b";"], k)
}

fn past_continue(f: &Frame, braces: bool, i: usize) -> Option<usize>
    ensures { result ≡ specs.past_continue (frame_of f.now) braces i }
{
    if braces {
        past_all(f.within, &[b"{", b"continue", b";", b"}"], i)
    } else {
        past_all(f.within, &[b"continue", b";"], i)
    }
}

/// The number behind `if (c) continue;` directly in the block of a for-each.
pub fn skip_head(
    f: &Frame,
    p: Place,
    sight: &[Sighted],
    at: usize,
    condition: &Expression,
    close: usize,
    braces: bool,
    i: usize,
) -> Option<usize>
    ensures { result ≡ specs.skip_head (frame_of f.now) p sight.now at (expression condition.now) close braces i }
{
    if !p.direct {
        return None;
    }
    let j = condition_in(f, sight, b"if", condition, at, close, i)?;
    past_continue(f, braces, j)
}
