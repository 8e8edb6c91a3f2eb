// Items of a map from left to right.
ghost use Rattle.std.specs.Prelude.{◌≡◌};
ghost use Rattle.view_map.specs.Reading as specs;

use crate::draft::Placed;
use crate::fault::{MapFault, MapRule};
use crate::model::ScalarType;
use crate::words::{is_spelled, name_in, type_of, word_in};
use qbs_base::{Fail, Name};
use std::alloc::Global;
use view_items::Item;

/// Where the first of these items stands, or the end.
pub fn first_from(end: usize, items: &[Item]) -> usize
    ensures { result ≡ specs.first_from end items.now }
{
    match items {
        [] => end,
        [first, ..] => first.from,
    }
}

pub fn fault_at(rule: MapRule, at: usize) -> Fail<MapFault>
    ensures { result ≡ Fail.Fault (specs.fault_at rule at) }
{
    Fail::Fault(MapFault { rule, at })
}

/// No map goes on with the first of these items, or with the end.
pub fn unexpected(end: usize, items: &[Item]) -> Fail<MapFault>
    ensures { result ≡ Fail.Fault (specs.unexpected end items.now) }
{
    fault_at(MapRule::Unexpected, first_from(end, items))
}

/// Whether an item of these bytes is next.
pub fn begins(word: &str, items: &[Item]) -> bool
    ensures { result ≡ specs.begins word.now items.now }
{
    match items {
        [] => false,
        [first, ..] => is_spelled(word, first),
    }
}

/// What stands behind the item of these bytes.
pub fn sign<'a>(word: &str, end: usize, items: &'a [Item]) -> Result<&'a [Item], Fail<MapFault>>
    ensures { specs.Gives (λ rest. rest.now) result (specs.sign_at word.now end items.now) }
{
    match items {
        [first, rest @ ..] if is_spelled(word, first) => Ok(rest),
        _ => Err(unexpected(end, items)),
    }
}

/// A name of a table or of a column.
pub fn word(alloc: Global, end: usize, items: &[Item]) -> Result<(Placed, &[Item]), Fail<MapFault>>
    ensures { specs.Gives (λ x. (x.0, x.1.now)) result (specs.word_at end items.now) }
{
    match items {
        [] => Err(unexpected(end, items)),
        [first, rest @ ..] => match word_in(alloc, first)? {
            Some(word) => Ok((word, rest)),
            None => Err(unexpected(end, items)),
        },
    }
}

/// A name of Java.
pub fn name(alloc: Global, end: usize, items: &[Item]) -> Result<(Placed, &[Item]), Fail<MapFault>>
    ensures { specs.Gives (λ x. (x.0, x.1.now)) result (specs.name_at end items.now) }
{
    match items {
        [] => Err(unexpected(end, items)),
        [first, rest @ ..] => match name_in(alloc, first)? {
            Some(name) => Ok((name, rest)),
            None => Err(unexpected(end, items)),
        },
    }
}

/// A type, and where it stands.
pub fn java_type(end: usize, items: &[Item]) -> Result<(ScalarType, usize, &[Item]), Fail<MapFault>>
    ensures { specs.Gives (λ x. ((x.0, x.1), x.2.now)) result (specs.type_at end items.now) }
{
    match items {
        [] => Err(unexpected(end, items)),
        [first, rest @ ..] => match type_of(first.bytes.as_slice()) {
            Some(java) => Ok((java, first.from, rest)),
            None => Err(unexpected(end, items)),
        },
    }
}

/// The class behind `in`, where `in` is next.
#[tactic(auto, unfolding(crate::specs::Reading::within_at))]
pub fn within(
    alloc: Global,
    end: usize,
    items: &[Item],
) -> Result<(Option<Name>, &[Item]), Fail<MapFault>>
    ensures { specs.Gives (λ x. (x.0, x.1.now)) result (specs.within_at end items.now) }
{
    if !begins("in", items) {
        return Ok((None, items));
    }
    let rest = sign("in", end, items)?;
    let (class, rest) = name(alloc, end, rest)?;
    Ok((Some(class.name), rest))
}

/// The name behind `=`, where `=` is next.
#[tactic(auto, unfolding(crate::specs::Reading::given_at))]
pub fn given(
    alloc: Global,
    end: usize,
    items: &[Item],
) -> Result<(Option<Placed>, &[Item]), Fail<MapFault>>
    ensures { specs.Gives (λ x. (x.0, x.1.now)) result (specs.given_at end items.now) }
{
    if !begins("=", items) {
        return Ok((None, items));
    }
    let rest = sign("=", end, items)?;
    let (word, rest) = word(alloc, end, rest)?;
    Ok((Some(word), rest))
}

/// Whether the first of two items is next, and then what stands behind both.
#[tactic(auto, unfolding(crate::specs::Reading::pair_at))]
pub fn pair<'a>(
    first: &str,
    second: &str,
    end: usize,
    items: &'a [Item],
) -> Result<(bool, &'a [Item]), Fail<MapFault>>
    ensures { specs.Gives (λ x. (x.0, x.1.now)) result (specs.pair_at first.now second.now end items.now) }
{
    if !begins(first, items) {
        return Ok((false, items));
    }
    let rest = sign(first, end, items)?;
    let rest = sign(second, end, rest)?;
    Ok((true, rest))
}
