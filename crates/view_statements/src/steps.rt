// The parts of statements: what stands between expressions, what is declared, variables that are set.
ghost use Rattle.std.specs.Prelude.{◌≡◌, map, option_copied};
ghost use Rattle.view_rules.specs.Reading.{expression};
ghost use Rattle.view_rules.specs.Setting.{within_of};
ghost use Rattle.view_statements.specs.Places.{frame_of};
ghost use Rattle.view_statements.specs.Steps as specs;

use crate::Frame;
use crate::sights::{has_columns, is_new_name};
use view_rules::{
    Expression, JavaType, Param, Sighted, Spelled, Within, bytes_at, check_expression, element_of,
    here, is_boolean, is_number, is_param, is_scalar, is_text_kind, may_be_read, may_be_walked,
    past, past_all, type_at, variable_at,
};
use view_shapes::{is_named, variable_prefix_end};

// ---- Expressions

fn then_past(f: &Frame, words: &[&[u8]], e: (usize, JavaType)) -> Option<(usize, JavaType)>
    ensures { result ≡ specs.then_past (frame_of f.now) (map (λ word. word.now) words.now) e }
{
    let j = past_all(f.within, words, e.0)?;
    Some((j, e.1))
}

/// The number behind an expression and these words, and the expression's type.
pub fn value_to(
    f: &Frame,
    sight: &[Sighted],
    e: &Expression,
    words: &[&[u8]],
    i: usize,
) -> Option<(usize, JavaType)>
    ensures { result ≡ specs.value_to (frame_of f.now) sight.now (expression e.now) (map (λ word. word.now) words.now) i }
{
    let seen = check_expression(f.within, sight, e, i)?;
    then_past(f, words, seen)
}

/// The number behind a parenthesis of this number.
pub fn past_close(f: &Frame, close: usize, i: usize) -> Option<usize>
    ensures { result ≡ specs.past_close (frame_of f.now) close i }
{
    let h = here(close, i)?;
    past(f.within, b")", h)
}

/// The number behind a word and a truth value in parentheses.
pub fn condition_in(
    f: &Frame,
    sight: &[Sighted],
    word: &[u8],
    e: &Expression,
    at: usize,
    close: usize,
    i: usize,
) -> Option<usize>
    ensures { result ≡ specs.condition_in (frame_of f.now) sight.now word.now (expression e.now) at close i }
{
    let h = here(at, i)?;
    let j = past_all(f.within, &[word, b"("], h)?;
    let c = check_expression(f.within, sight, e, j)?;
    if is_boolean(c.1) {
        past_close(f, close, c.0)
    } else {
        None
    }
}

// ---- What is declared

fn declared_to(f: &Frame, sight: &[Sighted], name: usize, t: Spelled) -> Option<JavaType>
    ensures { result ≡ specs.declared_to (frame_of f.now) sight.now name t }
{
    let n = here(name, t.to)?;
    if is_new_name(f, sight, n) {
        Some(t.java)
    } else {
        None
    }
}

/// The type of a variable that is declared with this name, behind annotations and `final`.
pub fn declared_at(f: &Frame, sight: &[Sighted], name: usize, i: usize) -> Option<JavaType>
    ensures { result ≡ specs.declared_at (frame_of f.now) sight.now name i }
{
    let k = variable_prefix_end(f.within.items, f.closings, i)?;
    let t = type_at(f.within, k)?;
    declared_to(f, sight, name, t)
}

/// The number of the name, where `var` and it stand behind annotations and `final`.
pub fn inferred_at(f: &Frame, sight: &[Sighted], name: usize, i: usize) -> Option<usize>
    ensures { result ≡ specs.inferred_at (frame_of f.now) sight.now name i }
{
    let k = variable_prefix_end(f.within.items, f.closings, i)?;
    let n = past(f.within, b"var", k)?;
    let m = here(name, n)?;
    if is_new_name(f, sight, m) {
        Some(m)
    } else {
        None
    }
}

/// Whether `var` takes this type.
pub fn is_inferred(java: JavaType) -> bool
    ensures { result ≡ specs.is_inferred java }
{
    match java {
        JavaType::Scalar(t) => !t.boxed || is_text_kind(t.kind),
        _ => false,
    }
}

// ---- What is set

fn is_its_param(name: &[u8], p: &Param) -> bool
    ensures { result ≡ specs.is_its_param name.now p.now }
{
    is_param(Some(p), name, None)
}

fn has_param(name: &[u8], params: &[Param]) -> bool
    ensures { result ≡ specs.has_param name.now params.now }
{
    params.iter().any(|p| is_its_param(name, p))
}

/// Whether a scalar from outside is a parameter of the same name.
pub fn is_handed(w: &Within, v: &Sighted) -> bool
    ensures { result ≡ specs.is_handed (within_of w.now) v.now }
{
    may_be_read(w, v) && has_param(v.name.as_slice(), w.params)
}

fn may_be_set(w: &Within, sight: &[Sighted], v: &Sighted) -> bool
    ensures { result ≡ specs.may_be_set (within_of w.now) sight.now v.now }
{
    !v.column.is_some()
        && (!has_columns(sight, v.name.as_slice())
            && (!v.outside || (is_scalar(v.java) && is_handed(w, v))))
}

/// The variable that an item names, where it may be set.
pub fn set_at<'a>(f: &Frame, sight: &'a [Sighted], name: usize) -> Option<&'a Sighted>
    ensures { option_copied result ≡ specs.set_at (frame_of f.now) sight.now name }
{
    let v = variable_at(f.within, sight, name)?;
    if may_be_set(f.within, sight, v) {
        Some(v)
    } else {
        None
    }
}

/// The type of a variable that an item names, where it may be set and is a number.
pub fn counted_at(f: &Frame, sight: &[Sighted], name: usize) -> Option<JavaType>
    ensures { result ≡ specs.counted_at (frame_of f.now) sight.now name }
{
    let v = set_at(f, sight, name)?;
    if is_number(v.java) {
        Some(v.java)
    } else {
        None
    }
}

// ---- Loops

/// The type of what goes through a list or set, where it is declared with this name.
pub fn walker(
    f: &Frame,
    sight: &[Sighted],
    inferred: bool,
    name: usize,
    i: usize,
    many: JavaType,
) -> Option<JavaType>
    ensures { result ≡ specs.walker (frame_of f.now) sight.now inferred name i many }
{
    if inferred {
        inferred_at(f, sight, name, i)?;
        element_of(many)
    } else {
        let java = declared_at(f, sight, name, i)?;
        if may_be_walked(many, java) {
            Some(java)
        } else {
            None
        }
    }
}

/// Whether neither name stands between two numbers.
pub fn are_unnamed(f: &Frame, a: &[u8], b: &[u8], from: usize, to: usize) -> bool
    ensures { result ≡ specs.are_unnamed (frame_of f.now) a.now b.now from to }
{
    !is_named(f.within.items, a, from, to) && !is_named(f.within.items, b, from, to)
}
