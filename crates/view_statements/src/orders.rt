// Orders of lists by their columns.
ghost use Rattle.std.specs.Prelude.{◌≡◌};
ghost use Rattle.view_statements.specs.declared.statement.SortPart.TheVariants as order;
ghost use Rattle.view_statements.specs.Orders as specs;
ghost use Rattle.view_statements.specs.Places.{frame_of};

use crate::sights::is_new_name;
use crate::{Frame, KeyForm, SortKey, SortPart};
use view_map::{Member, ScalarKind};
use view_rules::{
    JavaType, Sighted, bytes_at, here, is_at, is_clear, is_text_kind, many_at, member_of, next,
    past, past_all, past_member,
};

fn class_name<'a>(f: &Frame<'a>, class: u32) -> &'a [u8]
    ensures { result.now ≡ specs.class_name (frame_of f.now) class }
{
    match f.within.map.classes.as_slice().get(class as usize) {
        Some(class) => class.class.as_slice(),
        None => &[],
    }
}

fn past_reference(f: &Frame, key: SortKey, m: &Member, i: usize) -> Option<usize>
    ensures { result ≡ specs.past_reference (frame_of f.now) key m.now i }
{
    let class = class_name(f, key.class);
    if m.is_call && is_clear(f.within, class) {
        past_all(f.within, &[class, b"::", m.name.as_slice()], i)
    } else {
        None
    }
}

fn past_lambda(f: &Frame, sight: &[Sighted], key: SortKey, i: usize) -> Option<usize>
    ensures { result ≡ specs.past_lambda (frame_of f.now) sight.now key i }
{
    if !is_new_name(f, sight, i) {
        return None;
    }
    let g = next(f.within, i)?;
    let k = past_all(f.within, &[b"->", bytes_at(f.within, i)], g)?;
    let seen = past_member(f.within, key.class, key.member, k)?;
    Some(seen.0)
}

fn past_typed_lambda(f: &Frame, sight: &[Sighted], key: SortKey, i: usize) -> Option<usize>
    ensures { result ≡ specs.past_typed_lambda (frame_of f.now) sight.now key i }
{
    let x = past_all(f.within, &[b"(", class_name(f, key.class)], i)?;
    if !is_new_name(f, sight, x) {
        return None;
    }
    let g = next(f.within, x)?;
    let k = past_all(f.within, &[b")", b"->", bytes_at(f.within, x)], g)?;
    let seen = past_member(f.within, key.class, key.member, k)?;
    Some(seen.0)
}

fn past_key(f: &Frame, sight: &[Sighted], key: SortKey, m: &Member, i: usize) -> Option<usize>
    ensures { result ≡ specs.past_key (frame_of f.now) sight.now key m.now key.form i }
{
    match key.form {
        KeyForm::Reference => past_reference(f, key, m, i),
        KeyForm::Lambda => past_lambda(f, sight, key, i),
        KeyForm::TypedLambda => past_typed_lambda(f, sight, key, i),
    }
}

fn order_call(first: bool) -> &'static [u8]
    ensures { result.now ≡ specs.order_call first }
{
    if first {
        b"comparing"
    } else {
        b"thenComparing"
    }
}

fn special_call(first: bool, kind: ScalarKind) -> &'static [u8]
    ensures { result.now ≡ specs.special_call first kind }
{
    match (first, kind) {
        (true, ScalarKind::Int) => b"comparingInt",
        (true, ScalarKind::Long) => b"comparingLong",
        (false, ScalarKind::Int) => b"thenComparingInt",
        (false, ScalarKind::Long) => b"thenComparingLong",
        (first, _) => order_call(first),
    }
}

fn is_order_call(f: &Frame, first: bool, kind: ScalarKind, i: usize) -> bool
    ensures { result ≡ specs.is_order_call (frame_of f.now) first kind i }
{
    is_at(f.within, i, order_call(first)) || is_at(f.within, i, special_call(first, kind))
}

fn may_be_key(f: &Frame, m: &Member) -> bool
    ensures { result ≡ specs.may_be_key (frame_of f.now) m.now }
{
    f.within.map.texts_binary || !is_text_kind(m.java.kind)
}

fn past_key_in(f: &Frame, sight: &[Sighted], key: SortKey, m: &Member, i: usize) -> Option<usize>
    ensures { result ≡ specs.past_key_in (frame_of f.now) sight.now key m.now i }
{
    let j = past(f.within, b"(", i)?;
    let k = here(key.at, j)?;
    let l = past_key(f, sight, key, m, k)?;
    past(f.within, b")", l)
}

fn past_comparison(
    f: &Frame,
    sight: &[Sighted],
    first: bool,
    key: SortKey,
    i: usize,
) -> Option<usize>
    ensures { result ≡ specs.past_comparison (frame_of f.now) sight.now first key i }
{
    let m = member_of(f.within, key.class, key.member)?;
    if may_be_key(f, m) && is_order_call(f, first, m.java.kind, i) {
        let g = next(f.within, i)?;
        past_key_in(f, sight, key, m, g)
    } else {
        None
    }
}

fn past_further(f: &Frame, sight: &[Sighted], class: u32, key: SortKey, i: usize) -> Option<usize>
    ensures { result ≡ specs.past_part (frame_of f.now) sight.now class (order.Key key) i }
{
    if key.class == class {
        let h = past(f.within, b".", i)?;
        past_comparison(f, sight, false, key, h)
    } else {
        None
    }
}

fn past_part(f: &Frame, sight: &[Sighted], class: u32, part: SortPart, i: usize) -> Option<usize>
    ensures { result ≡ specs.past_part (frame_of f.now) sight.now class part i }
{
    match part {
        SortPart::Key(key) => past_further(f, sight, class, key, i),
        SortPart::Reversed(at) => {
            let h = here(at, i)?;
            past_all(f.within, &[b".", b"reversed", b"(", b")"], h)
        }
    }
}

fn past_parts(
    f: &Frame,
    sight: &[Sighted],
    class: u32,
    parts: &[SortPart],
    i: usize,
) -> Option<usize>
    ensures { result ≡ specs.past_parts (frame_of f.now) sight.now class parts.now i }
{
    match parts {
        [] => Some(i),
        [part, parts @ ..] => {
            let k = past_part(f, sight, class, *part, i)?;
            past_parts(f, sight, class, parts, k)
        }
    }
}

fn past_first_key(f: &Frame, sight: &[Sighted], class: u32, key: SortKey, i: usize) -> Option<usize>
    ensures { result ≡ specs.past_first (frame_of f.now) sight.now class (order.Key key) i }
{
    if is_clear(f.within, b"Comparator") && key.class == class {
        let h = past_all(f.within, &[b"Comparator", b"."], i)?;
        past_comparison(f, sight, true, key, h)
    } else {
        None
    }
}

fn past_first(f: &Frame, sight: &[Sighted], class: u32, part: SortPart, i: usize) -> Option<usize>
    ensures { result ≡ specs.past_first (frame_of f.now) sight.now class part i }
{
    match part {
        SortPart::Key(key) => past_first_key(f, sight, class, key, i),
        SortPart::Reversed(_) => None,
    }
}

fn past_comparator(
    f: &Frame,
    sight: &[Sighted],
    class: u32,
    parts: &[SortPart],
    i: usize,
) -> Option<usize>
    ensures { result ≡ specs.past_comparator (frame_of f.now) sight.now class parts.now i }
{
    match parts {
        [] => None,
        [part, parts @ ..] => {
            let k = past_first(f, sight, class, *part, i)?;
            past_parts(f, sight, class, parts, k)
        }
    }
}

fn class_of_rows(java: JavaType) -> Option<u32>
    ensures { result ≡ specs.class_of_rows java }
{
    match java {
        JavaType::Rows(class) => Some(class),
        _ => None,
    }
}

fn rows_at(f: &Frame, sight: &[Sighted], list: usize, i: usize) -> Option<u32>
    ensures { result ≡ specs.rows_at (frame_of f.now) sight.now list i }
{
    let h = here(list, i)?;
    let java = many_at(f.within, sight, h)?;
    class_of_rows(java)
}

fn ordered_by_list(
    f: &Frame,
    sight: &[Sighted],
    list: usize,
    parts: &[SortPart],
    i: usize,
) -> Option<usize>
    ensures { result ≡ specs.ordered_by_list (frame_of f.now) sight.now list parts.now i }
{
    let class = rows_at(f, sight, list, i)?;
    let h = next(f.within, i)?;
    let j = past_all(f.within, &[b".", b"sort", b"("], h)?;
    let k = past_comparator(f, sight, class, parts, j)?;
    past_all(f.within, &[b")", b";"], k)
}

fn ordered_by_class(
    f: &Frame,
    sight: &[Sighted],
    list: usize,
    parts: &[SortPart],
    i: usize,
) -> Option<usize>
    ensures { result ≡ specs.ordered_by_class (frame_of f.now) sight.now list parts.now i }
{
    if !is_clear(f.within, b"Collections") {
        return None;
    }
    let x = past_all(f.within, &[b"Collections", b".", b"sort", b"("], i)?;
    let class = rows_at(f, sight, list, x)?;
    let g = next(f.within, x)?;
    let j = past(f.within, b",", g)?;
    let k = past_comparator(f, sight, class, parts, j)?;
    past_all(f.within, &[b")", b";"], k)
}

/// The number behind `xs.sort(C);` or, by class, `Collections.sort(xs, C);`.
pub fn ordered_by(
    f: &Frame,
    sight: &[Sighted],
    by_class: bool,
    list: usize,
    parts: &[SortPart],
    i: usize,
) -> Option<usize>
    ensures { result ≡ specs.ordered_by (frame_of f.now) sight.now by_class list parts.now i }
{
    if by_class {
        ordered_by_class(f, sight, list, parts, i)
    } else {
        ordered_by_list(f, sight, list, parts, i)
    }
}
