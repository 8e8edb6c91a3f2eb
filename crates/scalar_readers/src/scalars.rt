// Scalars, from left to right.
ghost use Rattle.std.specs.Prelude.{◌≡◌, IfErr};
ghost use Rattle.readers.specs.Reading.{Gives, first_passes};
ghost use Rattle.scalar_readers.specs.Scalars as spec;

use crate::longs::long;
use crate::texts::text;
use qbs_base::{Scalar, Ty};
use readers::ReadError;
use std::alloc::Global;
use text_readers::{is_next, word};

/// `true` or `false`.
#[tactic(auto, unfolding(crate::specs::Scalars::truth_at))]
fn truth(bytes: &[u8]) -> Result<(bool, &[u8]), ReadError>
    ensures exact { Gives (λ x. (x.0, x.1.now)) result (spec.truth_at bytes.now) }
    ensures no_memory { IfErr result (λ e. e ≡ ReadError.Memory → ⊥) }
{
    if is_next(b't', bytes) {
        let rest = word(b"true", bytes)?;
        Ok((true, rest))
    } else {
        let rest = word(b"false", bytes)?;
        Ok((false, rest))
    }
}

/// A scalar of this type by its text, and what stands behind it.
#[tactic(auto, unfolding(crate::specs::Scalars::scalar_at))]
pub fn scalar(alloc: Global, ty: Ty, bytes: &[u8]) -> Result<(Scalar, &[u8]), ReadError>
    ensures { Gives (λ x. (x.0, x.1.now)) result (spec.scalar_at ty bytes.now) }
{
    match ty {
        Ty::Long => {
            let (n, rest) = long(bytes)?;
            Ok((Scalar::Long(n), rest))
        }
        Ty::Bool => {
            let (b, rest) = truth(bytes)?;
            Ok((Scalar::Bool(b), rest))
        }
        Ty::Text => {
            let (text, rest) = text(alloc, bytes)?;
            Ok((Scalar::Text(text), rest))
        }
    }
}

/// Whether a truth value is next.
fn is_truth_next(bytes: &[u8]) -> bool
    ensures { result ≡ first_passes spec.is_truth bytes.now }
{
    match bytes {
        [] => false,
        [first, ..] => *first == b't' || *first == b'f',
    }
}

/// A scalar of any type by its text, and what stands behind it.
#[tactic(auto, unfolding(crate::specs::Scalars::any_at))]
pub fn any_scalar(alloc: Global, bytes: &[u8]) -> Result<(Scalar, &[u8]), ReadError>
    ensures { Gives (λ x. (x.0, x.1.now)) result (spec.any_at bytes.now) }
{
    if is_next(b'"', bytes) {
        scalar(alloc, Ty::Text, bytes)
    } else if is_truth_next(bytes) {
        scalar(alloc, Ty::Bool, bytes)
    } else {
        scalar(alloc, Ty::Long, bytes)
    }
}
