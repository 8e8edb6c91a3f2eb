// Numbers of 64 bits with a sign, from left to right.
ghost use Rattle.std.specs.Prelude.{◌≡◌, ◌≤◌, ◌<◌, ◌^◌, ◌+◌, IfOk, IfErr};
ghost use Rattle.readers.specs.Reading.{Gives};
ghost use Rattle.scalar_readers.specs.Scalars as spec;

use readers::ReadError;
use text_readers::{byte, is_next, number, unexpected};

// 2^63, behind which no number of 64 bits with a sign is.
const LIMIT: u64 = 0x8000_0000_0000_0000;

/// A number from 1 to 2^63.
#[tactic(auto, unfolding(crate::specs::Scalars::positive_at))]
fn positive(bytes: &[u8]) -> Result<(u64, &[u8]), ReadError>
    ensures exact { Gives (λ x. (x.0, x.1.now)) result (spec.positive_at bytes.now) }
    ensures below { IfOk result (λ x. x.0 < 2 ^ 63 + 1) }
    ensures no_memory { IfErr result (λ e. e ≡ ReadError.Memory → ⊥) }
{
    if is_next(b'0', bytes) {
        return Err(unexpected(bytes));
    }
    number(LIMIT + 1, bytes)
}

/// The negative of a number.
fn below_zero(n: u64) -> i64
    requires { n ≤ 2 ^ 63 }
    ensures { result ≡ spec.below_zero n }
{
    -1 - n.saturating_sub(1) as i64
}

#[tactic(auto, unfolding(crate::specs::Scalars::negative_at))]
fn negative(bytes: &[u8]) -> Result<(i64, &[u8]), ReadError>
    ensures exact { Gives (λ x. (x.0, x.1.now)) result (spec.negative_at bytes.now) }
    ensures no_memory { IfErr result (λ e. e ≡ ReadError.Memory → ⊥) }
{
    let rest = byte(b'-', bytes)?;
    let (n, rest) = positive(rest)?;
    Ok((below_zero(n), rest))
}

#[tactic(auto, unfolding(crate::specs::Scalars::natural_at))]
fn natural(bytes: &[u8]) -> Result<(i64, &[u8]), ReadError>
    ensures exact { Gives (λ x. (x.0, x.1.now)) result (spec.natural_at bytes.now) }
    ensures no_memory { IfErr result (λ e. e ≡ ReadError.Memory → ⊥) }
{
    let (n, rest) = number(LIMIT, bytes)?;
    Ok((n as i64, rest))
}

/// A number of 64 bits with a sign, and what stands behind it.
#[tactic(auto, unfolding(crate::specs::Scalars::long_at))]
pub fn long(bytes: &[u8]) -> Result<(i64, &[u8]), ReadError>
    ensures exact { Gives (λ x. (x.0, x.1.now)) result (spec.long_at bytes.now) }
    ensures no_memory { IfErr result (λ e. e ≡ ReadError.Memory → ⊥) }
{
    if is_next(b'-', bytes) {
        negative(bytes)
    } else {
        natural(bytes)
    }
}
