// The fetch patterns of a map.
ghost use Rattle.std.specs.Prelude.{◌≡◌, ◌<◌, ◌++◌, ◌∷◌, [], IfOk, IfSome, length};
ghost use Rattle.view_map.specs.Fetches as specs;
ghost use Rattle.view_map.specs.Reading.{Gives};

use crate::draft::Placed;
use crate::fault::{MapFault, MapRule};
use crate::keys::Keys;
use crate::model::{FetchPattern, PatternItem, RowClass};
use crate::patterns::{pattern, pattern_items};
use crate::reading::{fault_at, first_from, name, sign, within};
use qbs_base::{Fail, Name, NoMemory};
use std::alloc::Global;
use view_items::Item;

/// The number of the class of a name.
fn class_number(classes: &[RowClass], name: &[u8]) -> Option<usize>
    ensures value { result ≡ specs.class_number classes.now name.now }
    ensures within { IfSome result (λ n. n < length classes.now) }
{
    classes.iter().position(|c| c.class.as_slice() == name)
}

#[tactic(auto, unfolding(crate::specs::Fetches::class_judged))]
fn judge_class(classes: &[RowClass], class: &Placed) -> Result<u32, Fail<MapFault>>
    ensures { Gives (λ n. n) result (specs.class_judged classes.now class.now) }
{
    match class_number(classes, class.name.as_slice()) {
        None => Err(fault_at(MapRule::Unknown, class.at)),
        // There are no more classes than tables.
        Some(number) => match u32::try_from(number) {
            Ok(number) => Ok(number),
            Err(_) => Err(Fail::NoMemory),
        },
    }
}

fn within_bytes(within: &Option<Name>) -> &[u8]
    ensures { result.now ≡ specs.within_bytes within.now }
{
    match within {
        None => &[],
        Some(name) => name.as_slice(),
    }
}

/// Appends items one by one.
#[tactic(auto, unfolding(crate::specs::Fetches::spelled))]
fn put_spelled(bytes: &mut Vec<u8>, items: &[PatternItem]) -> Result<(), NoMemory>
    ensures { IfOk result (λ _. bytes.new.items ≡ bytes.old.items ++ specs.spelled items.now) }
{
    for item in items {
        bytes.extend_from_slice(item.bytes.as_slice())?;
        bytes.push(b'\n')?;
    }
    Ok(())
}

fn pattern_key(alloc: Global, fetch: &FetchPattern) -> Result<Vec<u8>, NoMemory>
    ensures { IfOk result (λ v. v.items ≡ specs.pattern_key fetch.now) }
{
    let mut bytes = within_bytes(&fetch.within).to_vec(alloc)?;
    bytes.push(b'\n')?;
    put_spelled(&mut bytes, fetch.items.as_slice())?;
    Ok(bytes)
}

/// Adds a pattern to those of these keys, if it is none of them.
fn judge_pattern(
    alloc: Global,
    keys: &mut Keys,
    fetch: FetchPattern,
    at: usize,
) -> Result<FetchPattern, Fail<MapFault>>
    ensures value { Gives (λ f. f) result (specs.pattern_judged keys.old fetch at) }
    ensures keys { IfOk result (λ f. keys.new ≡ keys.old ++ specs.pattern_key f ∷ []) }
{
    let key = pattern_key(alloc, &fetch)?;
    if keys.add(key)? {
        Ok(fetch)
    } else {
        Err(fault_at(MapRule::DoubleName, at))
    }
}

/// What stands behind `fetch`. The pattern is added to those of these keys.
#[tactic(auto, unfolding(crate::specs::Fetches::fetch_at))]
pub fn fetch<'a>(
    alloc: Global,
    classes: &[RowClass],
    keys: &mut Keys,
    end: usize,
    items: &'a [Item],
) -> Result<(FetchPattern, &'a [Item]), Fail<MapFault>>
    ensures value { Gives (λ x. (x.0, x.1.now)) result (specs.fetch_at classes.now keys.old end items.now) }
    ensures keys { IfOk result (λ x. keys.new ≡ keys.old ++ specs.pattern_key x.0 ∷ []) }
{
    let (class, rest) = name(alloc, end, items)?;
    let number = judge_class(classes, &class)?;
    let (within, rest) = within(alloc, end, rest)?;
    let rest = sign("=", end, rest)?;
    let (pattern, after) = pattern(false, end, rest)?;
    let after = sign(";", end, after)?;
    let fetch = FetchPattern {
        table: number,
        within,
        items: pattern_items(alloc, pattern)?,
    };
    let fetch = judge_pattern(alloc, keys, fetch, first_from(end, rest))?;
    Ok((fetch, after))
}
