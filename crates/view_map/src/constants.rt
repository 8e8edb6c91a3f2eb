// The constants of a map.
ghost use Rattle.std.specs.Prelude.{◌≡◌, ◌≤◌, ◌++◌, ◌∷◌, [], IfOk, length};
ghost use Rattle.std.specs.List.{prefix_len};
ghost use Rattle.qbs_base.specs.Bytes.{is_digit as is_digit_byte};
ghost use Rattle.view_map.specs.Constants as specs;
ghost use Rattle.view_map.specs.Reading.{Gives};

use crate::draft::ConstantDraft;
use crate::fault::{MapFault, MapRule};
use crate::keys::Keys;
use crate::model::{Constant, Literal, ScalarKind, ScalarType};
use crate::patterns::copied;
use crate::reading::{begins, fault_at, name, sign, unexpected};
use crate::words::{
    fits_literal, is_constant_type, is_number_kind, is_spelled, is_text_kind, type_of,
};
use qbs_base::{Fail, Name, Names, NoMemory, is_digit};
use schema::fields::long;
use std::alloc::Global;
use view_items::Item;

fn digits_len(bytes: &[u8]) -> usize
    ensures value { result ≡ prefix_len is_digit_byte bytes.now }
    ensures within { result ≤ length bytes.now }
{
    bytes.iter().take_while(|byte| is_digit(**byte)).count()
}

/// Digits with their sign.
fn signed(alloc: Global, negative: bool, digits: &[u8]) -> Result<Vec<u8>, NoMemory>
    ensures { IfOk result (λ v. v.items ≡ specs.signed negative digits.now) }
{
    let mut bytes = Vec::new(alloc);
    if negative {
        bytes.push(b'-')?;
    }
    bytes.extend_from_slice(digits)?;
    Ok(bytes)
}

fn fits_int(number: i64) -> bool
    ensures { result ≡ specs.fits_int number }
{
    -2147483648 <= number && number <= 2147483647
}

fn is_int(number: Option<i64>) -> bool
    ensures { result ≡ specs.is_int number }
{
    match number {
        None => false,
        Some(number) => fits_int(number),
    }
}

fn is_decimal(digits: &[u8]) -> bool
    ensures { result ≡ specs.is_decimal digits.now }
{
    match digits {
        [] => false,
        [_] => true,
        [first, _, ..] => *first != b'0',
    }
}

/// The type of a number, by what stands behind its digits.
fn suffix_type(suffix: &[u8]) -> Option<ScalarKind>
    ensures { result ≡ specs.suffix_type suffix.now }
{
    match suffix {
        [] => Some(ScalarKind::Int),
        [b'L'] => Some(ScalarKind::Long),
        _ => None,
    }
}

fn in_range(kind: ScalarKind, number: Option<i64>) -> bool
    ensures { result ≡ specs.in_range kind number }
{
    match kind {
        ScalarKind::Int => is_int(number),
        ScalarKind::Long | ScalarKind::Boolean | ScalarKind::Text => number.is_some(),
    }
}

fn number_by(
    alloc: Global,
    negative: bool,
    digits: &[u8],
    kind: ScalarKind,
) -> Result<Option<ScalarKind>, NoMemory>
    ensures { IfOk result (λ k. k ≡ specs.number_by negative digits.now kind) }
{
    let text = signed(alloc, negative, digits)?;
    if is_decimal(digits) && in_range(kind, long(text.as_slice())) {
        Ok(Some(kind))
    } else {
        Ok(None)
    }
}

/// The type of a decimal number within it, behind a minus sign or not.
#[tactic(auto, unfolding(crate::specs::Constants::number_type))]
fn number_type(alloc: Global, negative: bool, bytes: &[u8]) -> Result<Option<ScalarKind>, NoMemory>
    ensures { IfOk result (λ k. k ≡ specs.number_type negative bytes.now) }
{
    let (digits, suffix) = bytes.split_at(digits_len(bytes));
    match suffix_type(suffix) {
        None => Ok(None),
        Some(kind) => number_by(alloc, negative, digits, kind),
    }
}

fn literal(
    alloc: Global,
    negative: bool,
    item: &Item,
    kind: ScalarKind,
) -> Result<Literal, NoMemory>
    ensures { IfOk result (λ l. l ≡ specs.literal negative item.now kind) }
{
    Ok(Literal {
        kind,
        negative,
        bytes: copied(alloc, item.bytes.as_slice())?,
    })
}

fn number_in(alloc: Global, negative: bool, item: &Item) -> Result<Option<Literal>, NoMemory>
    ensures { IfOk result (λ l. l ≡ specs.number_in negative item.now) }
{
    if !is_number_kind(item.kind) {
        return Ok(None);
    }
    match number_type(alloc, negative, item.bytes.as_slice())? {
        None => Ok(None),
        Some(kind) => Ok(Some(literal(alloc, negative, item, kind)?)),
    }
}

fn is_truth(item: &Item) -> bool
    ensures { result ≡ specs.is_truth item.now }
{
    is_spelled("true", item) || is_spelled("false", item)
}

fn literal_in(alloc: Global, item: &Item) -> Result<Option<Literal>, NoMemory>
    ensures { IfOk result (λ l. l ≡ specs.literal_in item.now) }
{
    if is_text_kind(item.kind) {
        Ok(Some(literal(alloc, false, item, ScalarKind::Text)?))
    } else if is_truth(item) {
        Ok(Some(literal(alloc, false, item, ScalarKind::Boolean)?))
    } else {
        number_in(alloc, false, item)
    }
}

/// A number behind a minus sign.
fn negative_at(
    alloc: Global,
    end: usize,
    items: &[Item],
) -> Result<(Literal, &[Item]), Fail<MapFault>>
    ensures { Gives (λ x. (x.0, x.1.now)) result (specs.negative_at end items.now) }
{
    match items {
        [] => Err(unexpected(end, items)),
        [first, rest @ ..] => match number_in(alloc, true, first)? {
            Some(literal) => Ok((literal, rest)),
            None => Err(unexpected(end, items)),
        },
    }
}

fn positive_at(
    alloc: Global,
    end: usize,
    items: &[Item],
) -> Result<(Literal, &[Item]), Fail<MapFault>>
    ensures { Gives (λ x. (x.0, x.1.now)) result (specs.positive_at end items.now) }
{
    match items {
        [] => Err(unexpected(end, items)),
        [first, rest @ ..] => match literal_in(alloc, first)? {
            Some(literal) => Ok((literal, rest)),
            None => Err(unexpected(end, items)),
        },
    }
}

#[tactic(auto, unfolding(crate::specs::Constants::literal_at))]
fn literal_at(
    alloc: Global,
    end: usize,
    items: &[Item],
) -> Result<(Literal, &[Item]), Fail<MapFault>>
    ensures { Gives (λ x. (x.0, x.1.now)) result (specs.literal_at end items.now) }
{
    if begins("-", items) {
        let rest = sign("-", end, items)?;
        negative_at(alloc, end, rest)
    } else {
        positive_at(alloc, end, items)
    }
}

fn constant_type_of(java: ScalarType, at: usize) -> Option<(ScalarKind, usize)>
    ensures { result ≡ specs.constant_type_of java at }
{
    if is_constant_type(java) {
        Some((java.kind, at))
    } else {
        None
    }
}

fn constant_type_in(item: &Item) -> Option<(ScalarKind, usize)>
    ensures { result ≡ specs.constant_type_in item.now }
{
    match type_of(item.bytes.as_slice()) {
        None => None,
        Some(java) => constant_type_of(java, item.from),
    }
}

/// The type of a constant, and where it stands.
fn constant_type(end: usize, items: &[Item]) -> Result<(ScalarKind, usize, &[Item]), Fail<MapFault>>
    ensures { Gives (λ x. ((x.0, x.1), x.2.now)) result (specs.constant_type_at end items.now) }
{
    match items {
        [] => Err(unexpected(end, items)),
        [first, rest @ ..] => match constant_type_in(first) {
            Some((kind, at)) => Ok((kind, at, rest)),
            None => Err(unexpected(end, items)),
        },
    }
}

/// A dot and a name.
#[tactic(auto, unfolding(crate::specs::Constants::next_name_at))]
fn next_name(alloc: Global, end: usize, items: &[Item]) -> Result<(Name, &[Item]), Fail<MapFault>>
    ensures { Gives (λ x. (x.0, x.1.now)) result (specs.next_name_at end items.now) }
{
    let rest = sign(".", end, items)?;
    let (name, rest) = name(alloc, end, rest)?;
    Ok((name.name, rest))
}

/// Names behind a first one, with a dot before each.
fn names_behind(
    alloc: Global,
    first: Name,
    end: usize,
    items: &[Item],
) -> Result<(Names, &[Item]), Fail<MapFault>>
    ensures { Gives (λ x. (x.0, x.1.now)) result (specs.names_behind (first ∷ []) (length items.now) end items.now) }
{
    let mut names = Names::new(alloc);
    names.push(first)?;
    let mut rest = items;
    // Each has an item at least.
    for _ in 0..items.len() {
        if !begins(".", rest) {
            break;
        }
        let (name, after) = next_name(alloc, end, rest)?;
        names.push(name)?;
        rest = after;
    }
    Ok((names, rest))
}

/// What stands behind `constant`.
#[tactic(auto, unfolding(crate::specs::Constants::constant_at))]
pub fn constant(
    alloc: Global,
    end: usize,
    items: &[Item],
) -> Result<(ConstantDraft, &[Item]), Fail<MapFault>>
    ensures { Gives (λ x. (x.0, x.1.now)) result (specs.constant_at end items.now) }
{
    let (kind, at, rest) = constant_type(end, items)?;
    let (first, rest) = name(alloc, end, rest)?;
    let names_at = first.at;
    let (names, rest) = names_behind(alloc, first.name, end, rest)?;
    let rest = sign("=", end, rest)?;
    let (value, rest) = literal_at(alloc, end, rest)?;
    let rest = sign(";", end, rest)?;
    Ok((
        ConstantDraft {
            kind,
            at,
            names,
            names_at,
            value,
        },
        rest,
    ))
}

/// Names with a dot behind each.
#[tactic(auto, unfolding(crate::specs::Constants::dotted))]
fn dotted(alloc: Global, names: &[Name]) -> Result<Vec<u8>, NoMemory>
    ensures { IfOk result (λ v. v.items ≡ specs.dotted names.now) }
{
    let mut bytes = Vec::new(alloc);
    for name in names {
        bytes.extend_from_slice(name.as_slice())?;
        bytes.push(b'.')?;
    }
    Ok(bytes)
}

/// Adds a constant to those that were given, whose keys these are, where it breaks no rule.
pub fn judge_constant(
    alloc: Global,
    keys: &mut Keys,
    draft: ConstantDraft,
) -> Result<Constant, Fail<MapFault>>
    ensures value { Gives (λ c. c) result (specs.constant_judged keys.old draft) }
    ensures keys { IfOk result (λ c. keys.new ≡ keys.old ++ specs.constant_key c ∷ []) }
{
    if !fits_literal(draft.kind, draft.value.kind) {
        return Err(fault_at(MapRule::Mismatch, draft.at));
    }
    let key = dotted(alloc, draft.names.as_slice())?;
    if !keys.add(key)? {
        return Err(fault_at(MapRule::DoubleName, draft.names_at));
    }
    Ok(Constant {
        kind: draft.kind,
        names: draft.names,
        value: draft.value,
    })
}
