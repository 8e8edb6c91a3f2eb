// Values behind spaces, and the line of entry values.
ghost use Rattle.std.specs.Prelude.{◌≡◌};
ghost use Rattle.readers.specs.Reading.{Gives};
ghost use Rattle.scalar_readers.specs.Scalars.{ty_of as ty_of_scalar};
ghost use Rattle.store_readers.specs.Into.{read_into, pushed};
ghost use Rattle.store_readers.specs.Reading as spec;

use qbs_base::{Items, Scalar, Scalars, Ty};
use readers::ReadError;
use scalar_readers::{any_scalar, scalar};
use std::alloc::Global;
use text_readers::{byte, number, word};

/// How many there are.
#[tactic(auto, unfolding(crate::specs::Reading::count_at))]
pub fn count(bytes: &[u8]) -> Result<(u64, &[u8]), ReadError>
    ensures { Gives (λ x. (x.0, x.1.now)) result (spec.count_at bytes.now) }
{
    number(65, bytes)
}

/// The type of a scalar.
pub fn ty_of(x: &Scalar) -> Ty
    ensures { result ≡ ty_of_scalar x.now }
{
    match x {
        Scalar::Long(_) => Ty::Long,
        Scalar::Bool(_) => Ty::Bool,
        Scalar::Text(_) => Ty::Text,
    }
}

/// A space and a value of this type, or of any.
#[tactic(auto, unfolding(crate::specs::Reading::spaced_at, crate::specs::Reading::kind_at))]
pub fn spaced(alloc: Global, kind: Option<Ty>, bytes: &[u8]) -> Result<(Scalar, &[u8]), ReadError>
    ensures { Gives (λ x. (x.0, x.1.now)) result (spec.spaced_at kind bytes.now) }
{
    let rest = byte(b' ', bytes)?;
    match kind {
        None => any_scalar(alloc, rest),
        Some(ty) => scalar(alloc, ty, rest),
    }
}

/// So many of them, behind those that are there.
pub fn put_values<'a>(
    alloc: Global,
    kind: Option<Ty>,
    count: u64,
    values: &mut Vec<Scalar>,
    bytes: &'a [u8],
) -> Result<&'a [u8], ReadError>
    ensures { Gives (λ x. (values.new.items, x.now)) result (read_into pushed values.old.items (spec.times count (spec.spaced_at kind) bytes.now)) }
{
    if count == 0 {
        return Ok(bytes);
    }
    let (x, rest) = spaced(alloc, kind, bytes)?;
    values.push(x)?;
    put_values(alloc, kind, count - 1, values, rest)
}

/// So many of any type.
fn values(alloc: Global, count: u64, bytes: &[u8]) -> Result<(Vec<Scalar>, &[u8]), ReadError>
    ensures { Gives (λ x. (x.0.items, x.1.now)) result (spec.times count (spec.spaced_at None) bytes.now) }
{
    let mut values = Vec::new(alloc);
    let rest = put_values(alloc, None, count, &mut values, bytes)?;
    Ok((values, rest))
}

/// The line of entry values, and what stands behind it.
#[tactic(auto, unfolding(crate::specs::Reading::entry_at))]
pub fn entry(alloc: Global, bytes: &[u8]) -> Result<(Scalars, &[u8]), ReadError>
    ensures { Gives (λ x. (x.0, x.1.now)) result (spec.entry_at bytes.now) }
{
    let rest = word(b"entry ", bytes)?;
    let (count, rest) = count(rest)?;
    let (values, rest) = values(alloc, count, rest)?;
    let rest = byte(b'\n', rest)?;
    Ok((Items::from_vec(values), rest))
}
