// Single bytes, words and numbers, from left to right.
ghost use Rattle.std.specs.Prelude.{◌≡◌, ◌<◌, ◌≤◌, IfOk, IfErr, length, nat_eq};
ghost use Rattle.readers.specs.Reading.{Gives, first_passes, is_over};
ghost use Rattle.text_readers.specs.Bytes.{byte_at, word_at, digit_in, below, with_digit as with_digit_of, digits_from, number_at};

use readers::{Fault, ReadError};

/// Reading stops at the first of these bytes.
pub fn unexpected(bytes: &[u8]) -> ReadError
    ensures { result ≡ ReadError.Fault (Fault.Unexpected (length bytes.now)) }
{
    ReadError::Fault(Fault::Unexpected(bytes.len()))
}

/// Whether this byte is next.
pub fn is_next(expected: u8, bytes: &[u8]) -> bool
    ensures { result ≡ first_passes (λ b. nat_eq b expected) bytes.now }
{
    match bytes {
        [] => false,
        [first, ..] => *first == expected,
    }
}

/// Whether this byte is next, or none is.
pub fn is_over_at(expected: u8, bytes: &[u8]) -> bool
    ensures { result ≡ is_over (λ b. nat_eq b expected) bytes.now }
{
    match bytes {
        [] => true,
        [first, ..] => *first == expected,
    }
}

/// What stands behind this byte.
pub fn byte(expected: u8, bytes: &[u8]) -> Result<&[u8], ReadError>
    ensures exact { Gives (λ x. (tt, x.now)) result (byte_at expected bytes.now) }
    ensures no_memory { IfErr result (λ e. e ≡ ReadError.Memory → ⊥) }
{
    match bytes {
        [first, rest @ ..] if *first == expected => Ok(rest),
        _ => Err(unexpected(bytes)),
    }
}

/// What stands behind these bytes.
#[tactic(auto, unfolding(crate::specs::Bytes::word_at))]
pub fn word<'a>(expected: &[u8], bytes: &'a [u8]) -> Result<&'a [u8], ReadError>
    ensures exact { Gives (λ x. (tt, x.now)) result (word_at expected.now bytes.now) }
    ensures no_memory { IfErr result (λ e. e ≡ ReadError.Memory → ⊥) }
{
    match expected {
        [] => Ok(bytes),
        [first, further @ ..] => {
            let rest = byte(*first, bytes)?;
            word(further, rest)
        }
    }
}

/// The value of a digit.
fn digit(byte: u8) -> Option<u64>
    ensures { result ≡ digit_in byte }
{
    if byte.is_ascii_digit() {
        Some((byte - b'0') as u64)
    } else {
        None
    }
}

/// The number, where it is below the limit.
fn within(limit: u64, value: u128) -> Option<u64>
    ensures { result ≡ below limit value }
{
    if value < limit as u128 {
        Some(value as u64)
    } else {
        None
    }
}

/// The number with one more digit, where the byte is one and the number stays below the limit.
fn with_digit(limit: u64, value: u64, byte: u8) -> Option<u64>
    ensures { result ≡ with_digit_of limit value byte }
{
    match digit(byte) {
        None => None,
        Some(digit) => within(limit, value as u128 * 10 + digit as u128),
    }
}

/// A number that digits go on with, as long as it stays below the limit.
#[tactic(auto, unfolding(crate::specs::Bytes::digits_from))]
fn digits(limit: u64, value: u64, bytes: &[u8]) -> (u64, &[u8])
    ensures { (result.0, result.1.now) ≡ digits_from limit value bytes.now }
{
    match bytes {
        [] => (value, bytes),
        [first, rest @ ..] => match with_digit(limit, value, *first) {
            None => (value, bytes),
            Some(more) => digits(limit, more, rest),
        },
    }
}

#[tactic(auto, unfolding(crate::specs::Bytes::number_at))]
fn number_below(limit: u64, bytes: &[u8]) -> Result<(u64, &[u8]), ReadError>
    ensures exact { Gives (λ x. (x.0, x.1.now)) result (number_at limit bytes.now) }
    ensures no_memory { IfErr result (λ e. e ≡ ReadError.Memory → ⊥) }
{
    match bytes {
        [] => Err(unexpected(bytes)),
        [first, rest @ ..] => match digit(*first) {
            None => Err(unexpected(bytes)),
            Some(0) => Ok((0, rest)),
            Some(value) => Ok(digits(limit, value, rest)),
        },
    }
}

/// A number below the limit without leading zeros, and what stands behind it. Where one more digit
/// would reach the limit, that digit stands behind the number.
pub fn number(limit: u64, bytes: &[u8]) -> Result<(u64, &[u8]), ReadError>
    requires { 10 ≤ limit }
    ensures exact { Gives (λ x. (x.0, x.1.now)) result (number_at limit bytes.now) }
    ensures below { IfOk result (λ x. x.0 < limit) }
    ensures no_memory { IfErr result (λ e. e ≡ ReadError.Memory → ⊥) }
{
    number_below(limit, bytes)
}
