// Operators, and what stands round and behind operands.
ghost use Rattle.std.specs.Prelude.{◌≡◌};
ghost use Rattle.view_rules.specs.Operators as specs;
ghost use Rattle.view_rules.specs.Setting.{within_of};

use crate::decisions::{
    arithmetic, is_boolean, is_number, is_text, may_compare, may_equal, may_equal_objects, truth,
    unboxed,
};
use crate::levels::{joined_level, operator_level};
use crate::names::{is_row_of, past_member};
use crate::steps::{bytes_at, here, is_clear, next, past, past_all};
use crate::{JavaType, Operator, Within};

/// The sign of an operator.
pub fn operator_sign(operator: Operator) -> &'static [u8]
    ensures { result.now ≡ specs.operator_sign operator }
{
    match operator {
        Operator::Or => b"||",
        Operator::And => b"&&",
        Operator::Same => b"==",
        Operator::Other => b"!=",
        Operator::Less => b"<",
        Operator::LessOrSame => b"<=",
        Operator::Greater => b">",
        Operator::GreaterOrSame => b">=",
        Operator::Plus => b"+",
        Operator::Minus => b"-",
        Operator::Times => b"*",
    }
}

fn truth_where(test: bool) -> Option<JavaType>
    ensures { result ≡ specs.truth_where test }
{
    if test { Some(truth()) } else { None }
}

fn operated(operator: Operator, a: JavaType, b: JavaType) -> Option<JavaType>
    ensures { result ≡ specs.operated operator a b }
{
    match operator {
        Operator::Or | Operator::And => truth_where(is_boolean(a) && is_boolean(b)),
        Operator::Same | Operator::Other => truth_where(may_compare(a, b)),
        Operator::Less | Operator::LessOrSame | Operator::Greater | Operator::GreaterOrSame =>
            truth_where(is_number(a) && is_number(b)),
        Operator::Plus | Operator::Minus | Operator::Times => arithmetic(a, b),
    }
}

fn binds(operator: Operator, left: u8, right: u8) -> bool
    ensures { result ≡ specs.binds operator left right }
{
    operator_level(operator) <= left && operator_level(operator) < right
}

/// What an operator gives of a left operand and a right one with their levels.
pub fn binary(
    operator: Operator,
    m: u8,
    left: JavaType,
    n: u8,
    right: (usize, JavaType),
) -> Option<(usize, JavaType)>
    ensures { result ≡ specs.binary operator m left n right }
{
    if binds(operator, m, n) {
        let java = operated(operator, left, right.1)?;
        Some((right.0, java))
    } else {
        None
    }
}

fn seen_where(test: bool, to: usize, java: JavaType) -> Option<(usize, JavaType)>
    ensures { result ≡ specs.seen_where test to java }
{
    if test { Some((to, java)) } else { None }
}

pub fn negated(level: u8, e: (usize, JavaType)) -> Option<(usize, JavaType)>
    ensures { result ≡ specs.negated level e }
{
    seen_where(7 <= level && is_boolean(e.1), e.0, truth())
}

pub fn tested_before(all: bool, level: u8, e: (usize, JavaType)) -> Option<(usize, JavaType)>
    ensures { result ≡ specs.tested_before all level e }
{
    seen_where(joined_level(all) < level && is_boolean(e.1), e.0, truth())
}

pub fn tested_behind(all: bool, level: u8, java: JavaType, to: usize) -> Option<(usize, JavaType)>
    ensures { result ≡ specs.tested_behind all level java to }
{
    seen_where(joined_level(all) <= level && is_boolean(java), to, truth())
}

pub fn opened(w: &Within, at: usize, i: usize) -> Option<usize>
    ensures { result ≡ specs.opened (within_of w.now) at i }
{
    past(w, b"(", here(at, i)?)
}

pub fn closed(w: &Within, close: usize, e: (usize, JavaType)) -> Option<(usize, JavaType)>
    ensures { result ≡ specs.closed (within_of w.now) close e }
{
    let h = here(close, e.0)?;
    let j = past(w, b")", h)?;
    Some((j, e.1))
}

pub fn past_equals(w: &Within, dot: usize, i: usize) -> Option<usize>
    ensures { result ≡ specs.past_equals (within_of w.now) dot i }
{
    past_all(w, &[b".", b"equals", b"("], here(dot, i)?)
}

pub fn past_objects(w: &Within, at: usize, i: usize) -> Option<usize>
    ensures { result ≡ specs.past_objects (within_of w.now) at i }
{
    let h = here(at, i)?;
    if is_clear(w, b"Objects") {
        past_all(w, &[b"Objects", b".", b"equals", b"("], h)
    } else {
        None
    }
}

pub fn past_sign(w: &Within, word: &[u8], at: usize, i: usize) -> Option<usize>
    ensures { result ≡ specs.past_sign (within_of w.now) word.now at i }
{
    past(w, word, here(at, i)?)
}

fn agrees(texts: bool, b: bool) -> bool
    ensures { result ≡ specs.agrees texts b }
{
    if texts { b } else { !b }
}

/// `a.equals(b)`, with whether texts are compared.
pub fn equalled(
    w: &Within,
    texts: bool,
    level: u8,
    a: JavaType,
    b: (usize, JavaType),
) -> Option<(usize, JavaType)>
    ensures { result ≡ specs.equalled (within_of w.now) texts level a b }
{
    let may = (8 <= level && agrees(texts, is_text(a))) && may_equal(w.map.texts_binary, a, b.1);
    seen_where(may, b.0, truth())
}

/// `Objects.equals(a, b)`, with whether texts are compared.
pub fn equalled_objects(
    w: &Within,
    texts: bool,
    level: u8,
    a: JavaType,
    b: (usize, JavaType),
) -> Option<(usize, JavaType)>
    ensures { result ≡ specs.equalled_objects (within_of w.now) texts level a b }
{
    let may = ((!texts || 8 <= level) && agrees(texts, is_text(a)))
        && may_equal_objects(w.map.texts_binary, a, b.1);
    seen_where(may, b.0, truth())
}

/// `.longValue()` and its kin behind a receiver.
pub fn unboxed_at(
    w: &Within,
    dot: usize,
    level: u8,
    e: (usize, JavaType),
) -> Option<(usize, JavaType)>
    ensures { result ≡ specs.unboxed_at (within_of w.now) dot level e }
{
    let h = here(dot, e.0)?;
    let j = past(w, b".", h)?;
    let k = next(w, j)?;
    let l = past_all(w, &[b"(", b")"], k)?;
    if 8 <= level {
        let java = unboxed(bytes_at(w, j), e.1)?;
        Some((l, java))
    } else {
        None
    }
}

/// `.m` or `.m()` behind a row.
pub fn column_at(
    w: &Within,
    dot: usize,
    class: u32,
    member: u32,
    level: u8,
    e: (usize, JavaType),
) -> Option<(usize, JavaType)>
    ensures { result ≡ specs.column_at (within_of w.now) dot class member level e }
{
    let h = here(dot, e.0)?;
    if 8 <= level && is_row_of(class, e.1) {
        past_member(w, class, member, h)
    } else {
        None
    }
}
