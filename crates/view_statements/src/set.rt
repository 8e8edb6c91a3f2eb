// Statements that set a variable or change a list.
ghost use Rattle.std.specs.Prelude.{◌≡◌};
ghost use Rattle.view_rules.specs.Reading.{expression};
ghost use Rattle.view_statements.specs.Places.{frame_of};
ghost use Rattle.view_statements.specs.Statements as specs;

use crate::declared::{assigned_to, is_narrowed_well};
use crate::orders::ordered_by;
use crate::sights::is_hashed;
use crate::steps::{counted_at, past_close, set_at, value_to};
use crate::{Frame, Place, SortPart, Step};
use view_rules::{
    Expression, JavaType, Sighted, bytes_at, check_expression, here, is_clear, is_int, is_many,
    is_number, many_at, may_be_added, may_be_assigned, next, past, past_all, same_type,
    variable_at,
};

fn outer_many_at(f: &Frame, sight: &[Sighted], name: usize) -> Option<JavaType>
    ensures { result ≡ specs.outer_many_at (frame_of f.now) sight.now name }
{
    let v = variable_at(f.within, sight, name)?;
    if v.outside && is_many(v.java) {
        Some(v.java)
    } else {
        None
    }
}

fn is_fresh_of(declared: JavaType, java: JavaType, value: &Expression, e: (usize, JavaType)) -> bool
    ensures { result ≡ specs.is_fresh_of declared java (expression value.now) e }
{
    same_type(declared, java) && (may_be_assigned(java, e.1) && !is_hashed(value))
}

/// The number behind `xs = e;` of a list or set from outside, at the slice's own level.
pub fn first_set(
    f: &Frame,
    p: Place,
    sight: &[Sighted],
    name: usize,
    java: JavaType,
    value: &Expression,
    i: usize,
) -> Option<usize>
    ensures { result ≡ specs.first_set (frame_of f.now) p sight.now name java (expression value.now) i }
{
    if !p.top {
        return None;
    }
    let h = here(name, i)?;
    let declared = outer_many_at(f, sight, h)?;
    let e = assigned_to(f, sight, b"=", h, value)?;
    if is_fresh_of(declared, java, value, e) {
        Some(e.0)
    } else {
        None
    }
}

/// The number behind `x = e;`.
pub fn assignment(
    f: &Frame,
    sight: &[Sighted],
    name: usize,
    value: &Expression,
    i: usize,
) -> Option<usize>
    ensures { result ≡ specs.assignment (frame_of f.now) sight.now name (expression value.now) i }
{
    let h = here(name, i)?;
    let v = set_at(f, sight, h)?;
    let e = assigned_to(f, sight, b"=", h, value)?;
    if may_be_assigned(v.java, e.1) && (is_narrowed_well(v.java, value) && !is_hashed(value)) {
        Some(e.0)
    } else {
        None
    }
}

/// The number behind `x += e;` or `x -= e;`.
pub fn changed(
    f: &Frame,
    sight: &[Sighted],
    sign: &[u8],
    name: usize,
    value: &Expression,
    i: usize,
) -> Option<usize>
    ensures { result ≡ specs.changed (frame_of f.now) sight.now sign.now name (expression value.now) i }
{
    let h = here(name, i)?;
    counted_at(f, sight, h)?;
    let e = assigned_to(f, sight, sign, h, value)?;
    if is_number(e.1) { Some(e.0) } else { None }
}

fn past_counted(f: &Frame, sight: &[Sighted], name: usize, i: usize) -> Option<usize>
    ensures { result ≡ specs.past_counted (frame_of f.now) sight.now name i }
{
    let h = here(name, i)?;
    counted_at(f, sight, h)?;
    next(f.within, h)
}

fn past_sign_at(f: &Frame, word: &[u8], sign: usize, i: usize) -> Option<usize>
    ensures { result ≡ specs.past_sign_at (frame_of f.now) word.now sign i }
{
    let h = here(sign, i)?;
    past(f.within, word, h)
}

fn stepped_behind(
    f: &Frame,
    sight: &[Sighted],
    word: &[u8],
    name: usize,
    sign: usize,
    i: usize,
) -> Option<usize>
    ensures { result ≡ specs.stepped_behind (frame_of f.now) sight.now word.now name sign i }
{
    let j = past_counted(f, sight, name, i)?;
    past_sign_at(f, word, sign, j)
}

fn stepped_before(
    f: &Frame,
    sight: &[Sighted],
    word: &[u8],
    name: usize,
    sign: usize,
    i: usize,
) -> Option<usize>
    ensures { result ≡ specs.stepped_before (frame_of f.now) sight.now word.now name sign i }
{
    let j = past_sign_at(f, word, sign, i)?;
    past_counted(f, sight, name, j)
}

fn stepped_by(
    f: &Frame,
    sight: &[Sighted],
    step: Step,
    name: usize,
    sign: usize,
    i: usize,
) -> Option<usize>
    ensures { result ≡ specs.stepped_by (frame_of f.now) sight.now step name sign i }
{
    match step {
        Step::Up => stepped_behind(f, sight, b"++", name, sign, i),
        Step::UpFirst => stepped_before(f, sight, b"++", name, sign, i),
        Step::Down => stepped_behind(f, sight, b"--", name, sign, i),
        Step::DownFirst => stepped_before(f, sight, b"--", name, sign, i),
    }
}

/// The number behind `x++;` and the like.
pub fn stepped(
    f: &Frame,
    sight: &[Sighted],
    at: usize,
    step: Step,
    name: usize,
    sign: usize,
    i: usize,
) -> Option<usize>
    ensures { result ≡ specs.stepped (frame_of f.now) sight.now at step name sign i }
{
    let h = here(at, i)?;
    let j = stepped_by(f, sight, step, name, sign, h)?;
    past(f.within, b";", j)
}

fn extreme_word(greatest: bool) -> &'static [u8]
    ensures { result.now ≡ specs.extreme_word greatest }
{
    if greatest { b"max" } else { b"min" }
}

fn extreme_arguments(
    f: &Frame,
    sight: &[Sighted],
    name: usize,
    value: &Expression,
    variable_first: bool,
    i: usize,
) -> Option<(usize, JavaType)>
    ensures { result ≡ specs.extreme_arguments (frame_of f.now) sight.now name (expression value.now) variable_first i }
{
    let x = bytes_at(f.within, name);
    if variable_first {
        let j = past_all(f.within, &[x, b","], i)?;
        value_to(f, sight, value, &[b")", b";"], j)
    } else {
        value_to(f, sight, value, &[b",", x, b")", b";"], i)
    }
}

fn is_no_longer(x: JavaType, e: JavaType) -> bool
    ensures { result ≡ specs.is_no_longer x e }
{
    is_number(e) && (!is_int(x) || is_int(e))
}

/// The number behind `x = Math.max(x, e);` and the like.
pub fn extreme(
    f: &Frame,
    sight: &[Sighted],
    name: usize,
    greatest: bool,
    variable_first: bool,
    value: &Expression,
    i: usize,
) -> Option<usize>
    ensures { result ≡ specs.extreme (frame_of f.now) sight.now name greatest variable_first (expression value.now) i }
{
    if !is_clear(f.within, b"Math") {
        return None;
    }
    let h = here(name, i)?;
    let x = counted_at(f, sight, h)?;
    let j = next(f.within, h)?;
    let k = past_all(
        f.within,
        &[b"=", b"Math", b".", extreme_word(greatest), b"("],
        j,
    )?;
    let e = extreme_arguments(f, sight, name, value, variable_first, k)?;
    if is_no_longer(x, e.1) {
        Some(e.0)
    } else {
        None
    }
}

/// The number behind `xs.add(e);`.
pub fn added(
    f: &Frame,
    sight: &[Sighted],
    name: usize,
    value: &Expression,
    close: usize,
    i: usize,
) -> Option<usize>
    ensures { result ≡ specs.added (frame_of f.now) sight.now name (expression value.now) close i }
{
    let h = here(name, i)?;
    let java = many_at(f.within, sight, h)?;
    let g = next(f.within, h)?;
    let j = past_all(f.within, &[b".", b"add", b"("], g)?;
    let e = check_expression(f.within, sight, value, j)?;
    if may_be_added(java, e.1) {
        let l = past_close(f, close, e.0)?;
        past(f.within, b";", l)
    } else {
        None
    }
}

/// The number behind a statement that sorts.
pub fn ordered(
    f: &Frame,
    sight: &[Sighted],
    at: usize,
    by_class: bool,
    list: usize,
    parts: &[SortPart],
    i: usize,
) -> Option<usize>
    ensures { result ≡ specs.ordered (frame_of f.now) sight.now at by_class list parts.now i }
{
    let h = here(at, i)?;
    ordered_by(f, sight, by_class, list, parts, h)
}
