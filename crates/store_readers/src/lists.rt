// The lines of known lists.
ghost use Rattle.std.specs.Prelude.{◌≡◌};
ghost use Rattle.readers.specs.Reading.{Gives};
ghost use Rattle.store_readers.specs.Into.{read_into, pushed};
ghost use Rattle.store_readers.specs.Reading as spec;

use crate::values::{count, put_values, spaced, ty_of};
use qbs_base::{Items, Scalar, ScalarLists, Scalars};
use readers::ReadError;
use std::alloc::Global;
use text_readers::{byte, word};

/// So many members, of the first one's type.
fn put_members<'a>(
    alloc: Global,
    count: u64,
    members: &mut Vec<Scalar>,
    bytes: &'a [u8],
) -> Result<&'a [u8], ReadError>
    ensures { Gives (λ x. (members.new.items, x.now)) result (read_into pushed members.old.items (spec.members_at count bytes.now)) }
{
    if count == 0 {
        return Ok(bytes);
    }
    let (x, rest) = spaced(alloc, None, bytes)?;
    let ty = ty_of(&x);
    members.push(x)?;
    put_values(alloc, Some(ty), count - 1, members, rest)
}

fn members(alloc: Global, count: u64, bytes: &[u8]) -> Result<(Vec<Scalar>, &[u8]), ReadError>
    ensures { Gives (λ x. (x.0.items, x.1.now)) result (spec.members_at count bytes.now) }
{
    let mut members = Vec::new(alloc);
    let rest = put_members(alloc, count, &mut members, bytes)?;
    Ok((members, rest))
}

/// The line of a known list.
#[tactic(auto, unfolding(crate::specs::Reading::list_at))]
fn list(alloc: Global, bytes: &[u8]) -> Result<(Scalars, &[u8]), ReadError>
    ensures { Gives (λ x. (x.0, x.1.now)) result (spec.list_at bytes.now) }
{
    let rest = word(b"list ", bytes)?;
    let (count, rest) = count(rest)?;
    let (members, rest) = members(alloc, count, rest)?;
    let rest = byte(b'\n', rest)?;
    Ok((Items::from_vec(members), rest))
}

/// So many known lists.
fn put_lists<'a>(
    alloc: Global,
    count: u64,
    lists: &mut Vec<Scalars>,
    bytes: &'a [u8],
) -> Result<&'a [u8], ReadError>
    ensures { Gives (λ x. (lists.new.items, x.now)) result (read_into pushed lists.old.items (spec.times count spec.list_at bytes.now)) }
{
    if count == 0 {
        return Ok(bytes);
    }
    let (list, rest) = list(alloc, bytes)?;
    lists.push(list)?;
    put_lists(alloc, count - 1, lists, rest)
}

fn lists(alloc: Global, count: u64, bytes: &[u8]) -> Result<(Vec<Scalars>, &[u8]), ReadError>
    ensures { Gives (λ x. (x.0.items, x.1.now)) result (spec.times count spec.list_at bytes.now) }
{
    let mut lists = Vec::new(alloc);
    let rest = put_lists(alloc, count, &mut lists, bytes)?;
    Ok((lists, rest))
}

/// The lines of known lists, and what stands behind them.
#[tactic(auto, unfolding(crate::specs::Reading::known_at, crate::specs::Reading::lines_at))]
pub fn known(alloc: Global, bytes: &[u8]) -> Result<(ScalarLists, &[u8]), ReadError>
    ensures { Gives (λ x. (x.0, x.1.now)) result (spec.known_at bytes.now) }
{
    let rest = word(b"known ", bytes)?;
    let (count, rest) = count(rest)?;
    let rest = byte(b'\n', rest)?;
    let (lists, rest) = lists(alloc, count, rest)?;
    Ok((Items::from_vec(lists), rest))
}
