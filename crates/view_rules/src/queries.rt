// Fetches, and queries by the map's templates.
ghost use Rattle.std.specs.Prelude.{◌≡◌, ◌≤◌, IsSome, option_copied};
ghost use Rattle.view_rules.specs.Queries as specs;
ghost use Rattle.view_rules.specs.Setting.{within_of, past as past_of};

use crate::decisions::{boxed_type, is_scalar, unboxed_type};
use crate::literals::is_text;
use crate::spelled::element_word;
use crate::steps::{bytes_at, here, is_at, is_clear, is_number_among, next, past, past_all};
use crate::{JavaType, Within};
use view_map::{FetchPattern, Part, PatternItem, QueryKind, ScalarKind, Template};

// ---- Fetches

fn past_items(w: &Within, items: &[PatternItem], i: usize) -> Option<usize>
    ensures { result ≡ specs.past_items (within_of w.now) items.now i }
{
    let mut j = i;
    for item in items {
        j = past(w, item.bytes.as_slice(), j)?;
    }
    Some(j)
}

fn ends(w: &Within, i: usize) -> bool
    ensures { result ≡ specs.ends (within_of w.now) i }
{
    !(is_at(w, i, b".") || (is_at(w, i, b"(") || (is_at(w, i, b"[") || is_at(w, i, b"::"))))
}

fn fetched(w: &Within, pattern: Option<&FetchPattern>, i: usize) -> Option<(usize, JavaType)>
    ensures { result ≡ specs.fetched (within_of w.now) (option_copied pattern.entry) i }
{
    match pattern {
        Some(f) => {
            let j = past_items(w, f.items.as_slice(), i)?;
            if ends(w, j) && is_number_among(f.table, w.classes) {
                Some((j, JavaType::Rows(f.table)))
            } else {
                None
            }
        }
        None => None,
    }
}

pub fn fetch_at(w: &Within, number: u32, at: usize, i: usize) -> Option<(usize, JavaType)>
    ensures { result ≡ specs.fetch_at (within_of w.now) number at i }
{
    let h = here(at, i)?;
    if is_number_among(number, w.fetches) {
        fetched(w, w.map.fetches.as_slice().get(number as usize), h)
    } else {
        None
    }
}

// ---- Templates

/// A template that may be read in the method.
pub fn template_of<'a>(w: &Within<'a>, number: u32) -> Option<&'a Template>
    ensures { option_copied result ≡ specs.template_of (within_of w.now) number }
{
    if is_number_among(number, w.templates) {
        w.map.templates.as_slice().get(number as usize)
    } else {
        None
    }
}

fn is_long_kind(kind: QueryKind) -> bool
    ensures { result ≡ specs.is_long_kind kind }
{
    matches!(kind, QueryKind::Long)
}

fn past_cast(w: &Within, kind: QueryKind, cast: bool, at: usize, i: usize) -> Option<usize>
    ensures { result ≡ specs.past_cast (within_of w.now) kind cast at i }
{
    if !cast {
        return here(at, i);
    }
    let h = here(at, i)?;
    if is_long_kind(kind) {
        past_all(w, &[b"(", b"int", b")"], h)
    } else {
        None
    }
}

fn class_of_elements<'a>(w: &Within<'a>, java: JavaType) -> &'a [u8]
    ensures { result.now ≡ specs.class_of_elements (within_of w.now) java }
{
    match java {
        JavaType::Rows(class) => match w.map.classes.as_slice().get(class as usize) {
            Some(c) => c.class.as_slice(),
            None => &[],
        },
        JavaType::Scalars(kind) => element_word(kind),
        _ => &[],
    }
}

fn may_be_elements(w: &Within, java: JavaType) -> bool
    ensures { result ≡ specs.may_be_elements (within_of w.now) java }
{
    match java {
        JavaType::Rows(class) => is_number_among(class, w.classes),
        JavaType::Scalars(_) => true,
        _ => false,
    }
}

fn past_text(w: &Within, text: usize, i: usize) -> Option<usize>
    ensures { result ≡ specs.past_text (within_of w.now) text i }
{
    let h = here(text, i)?;
    if is_text(bytes_at(w, h)) {
        next(w, h)
    } else {
        None
    }
}

/// Whether a class is named before `.class`, or nothing obscures it.
fn is_class_name(w: &Within, word: &[u8], i: usize) -> bool
    ensures { result ≡ specs.is_class_name (within_of w.now) word.now i }
{
    past_all(w, &[b".", b"class"], i).is_some() || is_clear(w, word)
}

fn past_class(w: &Within, word: &[u8], i: usize) -> Option<usize>
    ensures { result ≡ specs.past_class (within_of w.now) word.now i }
{
    let j = past(w, word, i)?;
    if is_class_name(w, word, j) {
        Some(j)
    } else {
        None
    }
}

fn past_part(w: &Within, text: usize, java: JavaType, part: &Part, i: usize) -> Option<usize>
    ensures { result ≡ specs.past_part (within_of w.now) text java part.now i }
{
    match part {
        Part::Item(item) => past(w, item.bytes.as_slice(), i),
        Part::Sql => past_text(w, text, i),
        Part::Type => {
            if may_be_elements(w, java) {
                past_class(w, class_of_elements(w, java), i)
            } else {
                None
            }
        }
        Part::Number | Part::Argument => None,
    }
}

fn past_parts(w: &Within, text: usize, java: JavaType, parts: &[Part], i: usize) -> Option<usize>
    ensures { result ≡ specs.past_parts (within_of w.now) text java parts.now i }
{
    let mut j = i;
    for part in parts {
        j = past_part(w, text, java, part, j)?;
    }
    Some(j)
}

fn past_number(w: &Within, n: u8, i: usize) -> Option<usize>
    requires { n ≤ 9 }
    ensures { result ≡ past_of (within_of w.now) (specs.number_word n) i }
{
    past(w, &[b'0' + n], i)
}

fn past_numbered(w: &Within, n: u8, part: &Part, i: usize) -> Option<usize>
    requires { n ≤ 9 }
    ensures { result ≡ specs.past_numbered (within_of w.now) n part.now i }
{
    match part {
        Part::Item(item) => past(w, item.bytes.as_slice(), i),
        Part::Number => past_number(w, n, i),
        Part::Sql | Part::Type | Part::Argument => None,
    }
}

fn past_front(w: &Within, n: u8, parts: &[Part], i: usize) -> Option<usize>
    requires { n ≤ 9 }
    ensures { result ≡ specs.past_front (within_of w.now) n parts.now i }
{
    let mut j = i;
    for part in parts {
        match part {
            Part::Argument => return Some(j),
            part => j = past_numbered(w, n, part, j)?,
        }
    }
    None
}

fn past_back(w: &Within, n: u8, parts: &[Part], i: usize) -> Option<usize>
    requires { n ≤ 9 }
    ensures { result ≡ specs.past_back (within_of w.now) n parts.now i }
{
    let mut j = i;
    for part in parts {
        j = past_numbered(w, n, part, j)?;
    }
    Some(j)
}

fn behind_argument(parts: &[Part]) -> &[Part]
    ensures { result.now ≡ specs.behind_argument parts.now }
{
    let mut rest = parts;
    loop {
        match rest {
            [] => return rest,
            [Part::Argument, more @ ..] => return more,
            [_, more @ ..] => rest = more,
        }
    }
}

fn query_type(kind: QueryKind, cast: bool, java: JavaType) -> Option<JavaType>
    ensures { result ≡ specs.query_type kind cast java }
{
    match kind {
        QueryKind::List => match java {
            JavaType::Rows(_) | JavaType::Scalars(_) => Some(java),
            _ => None,
        },
        QueryKind::Long => {
            if cast {
                Some(unboxed_type(ScalarKind::Int))
            } else {
                Some(unboxed_type(ScalarKind::Long))
            }
        }
        QueryKind::Boolean => Some(boxed_type(ScalarKind::Boolean)),
    }
}

/// The number of the item at which the arguments of a query begin.
pub fn past_query(
    w: &Within,
    t: &Template,
    cast: bool,
    text: usize,
    java: JavaType,
    at: usize,
    i: usize,
) -> Option<usize>
    ensures { result ≡ specs.past_query (within_of w.now) t.now cast text java at i }
{
    let j = past_cast(w, t.kind, cast, at, i)?;
    past_parts(w, text, java, t.front.as_slice(), j)
}

/// The rest of a query behind its arguments.
pub fn queried(
    w: &Within,
    t: &Template,
    cast: bool,
    text: usize,
    java: JavaType,
    i: usize,
) -> Option<(usize, JavaType)>
    ensures { result ≡ specs.queried (within_of w.now) t.now cast text java i }
{
    let j = past_parts(w, text, java, t.back.as_slice(), i)?;
    if ends(w, j) {
        let java = query_type(t.kind, cast, java)?;
        Some((j, java))
    } else {
        None
    }
}

fn is_apart(w: &Within, from: usize, to: usize) -> bool
    ensures { result ≡ specs.is_apart (within_of w.now) from to }
{
    let before = from.saturating_sub(1);
    (is_at(w, before, b",") || is_at(w, before, b"(")) && (is_at(w, to, b",") || is_at(w, to, b")"))
}

/// The number of the item at which an argument begins, of the number from 1 to 9.
pub fn before_argument(w: &Within, n: u8, each: &[Part], i: usize) -> Option<usize>
    ensures value { result ≡ specs.before_argument (within_of w.now) n each.now i }
    ensures few { IsSome result → n ≤ 9 }
{
    if n <= 9 {
        past_front(w, n, each, i)
    } else {
        None
    }
}

/// The number of the item behind an argument and what belongs to it.
pub fn passed(
    w: &Within,
    n: u8,
    each: &[Part],
    from: usize,
    level: u8,
    e: (usize, JavaType),
) -> Option<usize>
    requires { n ≤ 9 }
    ensures { result ≡ specs.passed (within_of w.now) n each.now from level e }
{
    if is_scalar(e.1) && (8 <= level || is_apart(w, from, e.0)) {
        past_back(w, n, behind_argument(each), e.0)
    } else {
        None
    }
}
