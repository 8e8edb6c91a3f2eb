// Lists and sets.
ghost use Rattle.std.specs.Prelude.{◌≡◌, map};
ghost use Rattle.view_rules.specs.Lists as specs;
ghost use Rattle.view_rules.specs.Reading.{expression};
ghost use Rattle.view_rules.specs.Seen as seen;
ghost use Rattle.view_rules.specs.Setting.{within_of};

use crate::decisions::{
    contains, element_of, is_int, is_text_kind, same_kind, same_type, truth, unboxed_type,
};
use crate::names::variable_at;
use crate::spelled::argument_at;
use crate::steps::{here, is_at, next, past, past_all};
use crate::{Expression, JavaType, Sighted, Within};
use view_map::ScalarKind;

/// Whether a type is that of a list.
pub fn is_list(java: JavaType) -> bool
    ensures { result ≡ specs.is_list java }
{
    matches!(java, JavaType::Rows(_) | JavaType::Scalars(_))
}

/// Whether a type is that of a list or a set.
pub fn is_many(java: JavaType) -> bool
    ensures { result ≡ specs.is_many java }
{
    matches!(
        java,
        JavaType::Rows(_) | JavaType::Scalars(_) | JavaType::Distinct(_)
    )
}

fn own_many(v: &Sighted) -> Option<JavaType>
    ensures { result ≡ specs.own_many v.now }
{
    if !v.outside && is_many(v.java) {
        Some(v.java)
    } else {
        None
    }
}

/// The type of the list or set of the slice's own that an item names.
pub fn many_at(w: &Within, sight: &[Sighted], i: usize) -> Option<JavaType>
    ensures { result ≡ specs.many_at (within_of w.now) sight.now i }
{
    let v = variable_at(w, sight, i)?;
    own_many(v)
}

fn past_method(
    w: &Within,
    sight: &[Sighted],
    at: usize,
    words: &[&[u8]],
    i: usize,
) -> Option<(usize, JavaType)>
    ensures { result ≡ specs.past_method (within_of w.now) sight.now at (map (λ word. word.now) words.now) i }
{
    let h = here(at, i)?;
    let java = many_at(w, sight, h)?;
    let j = next(w, h)?;
    let k = past_all(w, words, j)?;
    Some((k, java))
}

pub fn size_at(w: &Within, sight: &[Sighted], at: usize, i: usize) -> Option<(usize, JavaType)>
    ensures { result ≡ seen.size_at (within_of w.now) sight.now at i }
{
    let xs = past_method(w, sight, at, &[b".", b"size", b"(", b")"], i)?;
    Some((xs.0, unboxed_type(ScalarKind::Int)))
}

pub fn is_empty_at(w: &Within, sight: &[Sighted], at: usize, i: usize) -> Option<(usize, JavaType)>
    ensures { result ≡ seen.is_empty_at (within_of w.now) sight.now at i }
{
    let xs = past_method(w, sight, at, &[b".", b"isEmpty", b"(", b")"], i)?;
    Some((xs.0, truth()))
}

pub fn past_contains(
    w: &Within,
    sight: &[Sighted],
    at: usize,
    i: usize,
) -> Option<(usize, JavaType)>
    ensures { result ≡ seen.past_contains (within_of w.now) sight.now at i }
{
    past_method(w, sight, at, &[b".", b"contains", b"("], i)
}

fn got_element(java: JavaType) -> Option<JavaType>
    ensures { result ≡ specs.got_element java }
{
    match java {
        JavaType::Distinct(_) => None,
        java => element_of(java),
    }
}

pub fn past_get(w: &Within, sight: &[Sighted], at: usize, i: usize) -> Option<(usize, JavaType)>
    ensures { result ≡ specs.past_get (within_of w.now) sight.now at i }
{
    let xs = past_method(w, sight, at, &[b".", b"get", b"("], i)?;
    if w.gets {
        let java = got_element(xs.1)?;
        Some((xs.0, java))
    } else {
        None
    }
}

pub fn got(element: JavaType, place: (usize, JavaType)) -> Option<(usize, JavaType)>
    ensures { result ≡ specs.got element place }
{
    if is_int(place.1) {
        Some((place.0, element))
    } else {
        None
    }
}

pub fn contained(w: &Within, xs: JavaType, value: (usize, JavaType)) -> Option<(usize, JavaType)>
    ensures { result ≡ specs.contained (within_of w.now) xs value }
{
    if contains(w.map.texts_binary, xs, value.1) {
        Some((value.0, truth()))
    } else {
        None
    }
}

// ---- New ones

fn is_type_of_set(binary: bool, java: JavaType) -> bool
    ensures { result ≡ specs.is_type_of_set binary java }
{
    match java {
        JavaType::Distinct(kind) => binary || !is_text_kind(kind),
        _ => false,
    }
}

fn is_argument(element: Option<JavaType>, java: JavaType) -> bool
    ensures { result ≡ specs.is_argument element java }
{
    match element {
        Some(element) => same_type(element, java),
        None => false,
    }
}

fn past_arguments(w: &Within, java: JavaType, i: usize) -> Option<usize>
    ensures { result ≡ specs.past_arguments (within_of w.now) java i }
{
    let j = past(w, b"<", i)?;
    if is_at(w, j, b">") {
        past(w, b">", j)
    } else {
        let e = argument_at(w, i)?;
        if is_argument(element_of(java), e.java) {
            Some(e.to)
        } else {
            None
        }
    }
}

/// The number behind `new C<..>(`.
pub fn past_new(w: &Within, word: &[u8], java: JavaType, at: usize, i: usize) -> Option<usize>
    ensures { result ≡ specs.past_new (within_of w.now) word.now java at i }
{
    let h = here(at, i)?;
    let j = past(w, b"new", h)?;
    let k = past(w, word, j)?;
    let l = past_arguments(w, java, k)?;
    past(w, b"(", l)
}

pub fn new_list(w: &Within, java: JavaType, at: usize, i: usize) -> Option<(usize, JavaType)>
    ensures { result ≡ specs.new_list (within_of w.now) java at i }
{
    let j = past_new(w, b"ArrayList", java, at, i)?;
    let k = past(w, b")", j)?;
    if is_list(java) { Some((k, java)) } else { None }
}

pub fn set_word(hashed: bool) -> &'static [u8]
    ensures { result.now ≡ specs.set_word hashed }
{
    if hashed { b"HashSet" } else { b"LinkedHashSet" }
}

pub fn new_set(
    w: &Within,
    hashed: bool,
    java: JavaType,
    at: usize,
    i: usize,
) -> Option<(usize, JavaType)>
    ensures { result ≡ specs.new_set (within_of w.now) hashed java at i }
{
    let j = past_new(w, set_word(hashed), java, at, i)?;
    let k = past(w, b")", j)?;
    if is_type_of_set(w.map.texts_binary, java) {
        Some((k, java))
    } else {
        None
    }
}

pub fn is_query(e: &Expression) -> bool
    ensures { result ≡ specs.is_query (expression e.now) }
{
    matches!(e, Expression::Query { .. })
}

fn is_set_of(set: JavaType, list: JavaType) -> bool
    ensures { result ≡ specs.is_set_of set list }
{
    match (set, list) {
        (JavaType::Distinct(a), JavaType::Scalars(b)) => same_kind(a, b),
        _ => false,
    }
}

pub fn set_of_query(
    w: &Within,
    java: JavaType,
    query: bool,
    e: (usize, JavaType),
) -> Option<(usize, JavaType)>
    ensures { result ≡ specs.set_of_query (within_of w.now) java query e }
{
    if (query && is_set_of(java, e.1)) && is_type_of_set(w.map.texts_binary, java) {
        Some((e.0, java))
    } else {
        None
    }
}
