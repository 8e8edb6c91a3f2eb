// Values under keys, where the place of a key is mostly known.
ghost use Rattle.std.specs.Prelude.{◌≡◌, IsTrue, IfOk, IfSome, IfNone, OnOk, Some};
ghost use Rattle.std.specs.Map.{lookup};
ghost use Rattle.std.specs.Option.{option_copied};
ghost use Rattle.indexmap.specs.IndexMap.{insert_entry};
ghost use Rattle.java_steps.specs.Placed.{test, same, Stands, IsAt};

use indexmap::IndexMap;
use qbs_base::NoMemory;
use std::mem;

// The value under a key, by its hash.
#[inline(never)]
fn elsewhere<'b, 'a, V>(map: &'b IndexMap<&'a [u8], V>, key: &[u8]) -> Option<&'b V>
    ensures { option_copied result ≡ lookup (test key.now) map.now.entries }
{
    map.get(key)
}

/// The value under a key. It is looked for at a place first: where the key stands there, the look-up
/// takes no hash.
#[inline(always)]
pub fn at_place<'b, 'a, V>(
    map: &'b IndexMap<&'a [u8], V>,
    place: usize,
    key: &[u8],
) -> Option<&'b V>
    ensures { option_copied result ≡ lookup (test key.now) map.now.entries }
{
    if let Some((found, value)) = map.get_index(place) {
        if *found == key {
            return Some(value);
        }
    }
    elsewhere(map, key)
}

/// The value at a place, where the key stands there.
pub fn there<'b, 'a, V>(map: &'b IndexMap<&'a [u8], V>, place: usize, key: &[u8]) -> Option<&'b V>
    ensures found { IfSome result (λ v. IsAt map.now.entries place key.now v.now) }
    ensures none { IfNone result (Stands map.now.entries place key.now → ⊥) }
{
    match map.get_index(place) {
        Some((found, value)) => {
            if *found == key {
                return Some(value);
            }
            None
        }
        None => None,
    }
}

// Whether the key stands at a place.
fn is_there<'a, V>(map: &IndexMap<&'a [u8], V>, place: usize, key: &[u8]) -> bool
    ensures { IsTrue result → Stands map.now.entries place key.now }
{
    match map.get_index(place) {
        Some((found, _)) => *found == key,
        None => false,
    }
}

/// Puts a value in place of the one at a place, and gives that one.
#[tactic(auto, using(crate::proofs::Placing::stands_within))]
pub fn put_there<'a, V: Drop>(
    map: &mut IndexMap<&'a [u8], V>,
    place: usize,
    key: &'a [u8],
    value: V,
) -> V
    requires { Stands map.old.entries place key.now }
    ensures was { (v : V) → IsAt map.old.entries place key.now v → v ≡ result }
    ensures old { Some result ≡ lookup (test key.now) map.old.entries }
    ensures entries { map.new.entries ≡ insert_entry same map.old.entries key.entry value }
{
    let (_, there) = map.pair_mut(place);
    mem::replace(there, value)
}

/// Puts a value under a key, and gives the key's place and the value that was there. The key is
/// looked for at a place first.
pub fn put_at_place<'a, V: Drop>(
    map: &mut IndexMap<&'a [u8], V>,
    place: usize,
    key: &'a [u8],
    value: V,
) -> Result<(usize, Option<V>), NoMemory>
    ensures old { IfOk result (λ r. r.1 ≡ lookup (test key.now) map.old.entries) }
    ensures entries { OnOk result (map.new.entries ≡ insert_entry same map.old.entries key.entry value) }
{
    if is_there(map, place, key) {
        return Ok((place, Some(put_there(map, place, key, value))));
    }
    match map.insert_full(key, value) {
        Ok(put) => Ok(put),
        Err(_) => Err(NoMemory),
    }
}
