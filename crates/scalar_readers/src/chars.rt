// Characters of a text in quotes, from left to right.
ghost use Rattle.std.specs.Prelude.{◌≡◌, ◌-◌, ◌&&◌, not, nat_lt, IfErr};
ghost use Rattle.std.specs.Str.Lossy.{second_byte_min, second_byte_max};
ghost use Rattle.readers.specs.Reading.{Gives, first_passes, token_at};
ghost use Rattle.scalar_readers.specs.Chars as spec;
ghost use Rattle.scalar_readers.specs.Choices.{between};

use readers::ReadError;
use text_readers::{byte, is_next, unexpected};

// ---- bytes

/// Whether the next byte is below the limit.
fn is_below(limit: u8, bytes: &[u8]) -> bool
    ensures { result ≡ first_passes (spec.is_below limit) bytes.now }
{
    match bytes {
        [] => false,
        [first, ..] => *first < limit,
    }
}

/// A byte from the first to the last of a range.
fn in_range(low: u8, high: u8, bytes: &[u8]) -> Result<(u8, &[u8]), ReadError>
    ensures exact { Gives (λ x. (x.0, x.1.now)) result (token_at (between low high) bytes.now) }
    ensures no_memory { IfErr result (λ e. e ≡ ReadError.Memory → ⊥) }
{
    match bytes {
        [first, rest @ ..] if low <= *first && *first <= high => Ok((*first, rest)),
        _ => Err(unexpected(bytes)),
    }
}

/// A byte that goes on with a character.
#[tactic(auto, unfolding(crate::specs::Chars::further_at))]
fn further(bytes: &[u8]) -> Result<(u8, &[u8]), ReadError>
    ensures exact { Gives (λ x. (x.0, x.1.now)) result (spec.further_at bytes.now) }
    ensures no_memory { IfErr result (λ e. e ≡ ReadError.Memory → ⊥) }
{
    in_range(0x80, 0xBF, bytes)
}

/// The least byte that may stand behind this one.
fn second_min(first: u8) -> u8
    ensures { result ≡ second_byte_min first }
{
    match first {
        0xE0 => 0xA0,
        0xF0 => 0x90,
        _ => 0x80,
    }
}

/// The greatest byte that may stand behind this one.
fn second_max(first: u8) -> u8
    ensures { result ≡ second_byte_max first }
{
    match first {
        0xED => 0x9F,
        0xF4 => 0x8F,
        _ => 0xBF,
    }
}

/// The second byte, behind this first one.
#[tactic(auto, unfolding(crate::specs::Chars::second_at))]
fn second(first: u8, bytes: &[u8]) -> Result<(u8, &[u8]), ReadError>
    ensures exact { Gives (λ x. (x.0, x.1.now)) result (spec.second_at first bytes.now) }
    ensures no_memory { IfErr result (λ e. e ≡ ReadError.Memory → ⊥) }
{
    in_range(second_min(first), second_max(first), bytes)
}

// ---- escapes and characters of one byte

/// What a byte behind a backslash stands for.
fn unescaped(byte: u8) -> Option<u32>
    ensures { result ≡ spec.unescaped byte }
{
    match byte {
        b'"' => Some(34),
        b'\\' => Some(92),
        b'n' => Some(10),
        b'r' => Some(13),
        b't' => Some(9),
        _ => None,
    }
}

fn sign(bytes: &[u8]) -> Result<(u32, &[u8]), ReadError>
    ensures exact { Gives (λ x. (x.0, x.1.now)) result (token_at spec.unescaped bytes.now) }
    ensures no_memory { IfErr result (λ e. e ≡ ReadError.Memory → ⊥) }
{
    match bytes {
        [] => Err(unexpected(bytes)),
        [first, rest @ ..] => match unescaped(*first) {
            None => Err(unexpected(bytes)),
            Some(code) => Ok((code, rest)),
        },
    }
}

/// A backslash, and what stands behind it.
#[tactic(auto, unfolding(crate::specs::Chars::escape_at))]
fn escape(bytes: &[u8]) -> Result<(u32, &[u8]), ReadError>
    ensures exact { Gives (λ x. (x.0, x.1.now)) result (spec.escape_at bytes.now) }
    ensures no_memory { IfErr result (λ e. e ≡ ReadError.Memory → ⊥) }
{
    let rest = byte(b'\\', bytes)?;
    sign(rest)
}

/// Whether a byte is written by an escape.
fn is_escaped(byte: u8) -> bool
    ensures { result ≡ spec.is_escaped byte }
{
    byte == b'"' || byte == b'\\' || byte == b'\n' || byte == b'\r' || byte == b'\t'
}

/// Whether a byte is a character that stands for itself.
fn is_plain(byte: u8) -> bool
    ensures { result ≡ nat_lt byte 128 && not (spec.is_escaped byte) }
{
    byte < 128 && !is_escaped(byte)
}

#[tactic(auto, unfolding(crate::specs::Chars::plain_at))]
fn plain(bytes: &[u8]) -> Result<(u32, &[u8]), ReadError>
    ensures exact { Gives (λ x. (x.0, x.1.now)) result (spec.plain_at bytes.now) }
    ensures no_memory { IfErr result (λ e. e ≡ ReadError.Memory → ⊥) }
{
    match bytes {
        [first, rest @ ..] if is_plain(*first) => Ok((*first as u32, rest)),
        _ => Err(unexpected(bytes)),
    }
}

// ---- longer characters

/// The bits behind the mark of a first byte or a further one.
fn bits(mark: u8, byte: u8) -> u32
    ensures { result ≡ byte - mark }
{
    byte.saturating_sub(mark) as u32
}

#[tactic(auto, unfolding(crate::specs::Chars::two_at))]
fn two(bytes: &[u8]) -> Result<(u32, &[u8]), ReadError>
    ensures exact { Gives (λ x. (x.0, x.1.now)) result (spec.two_at bytes.now) }
    ensures no_memory { IfErr result (λ e. e ≡ ReadError.Memory → ⊥) }
{
    let (first, rest) = in_range(0xC2, 0xDF, bytes)?;
    let (last, rest) = further(rest)?;
    Ok((bits(0xC0, first) * 64 + bits(0x80, last), rest))
}

#[tactic(auto, unfolding(crate::specs::Chars::three_at))]
fn three(bytes: &[u8]) -> Result<(u32, &[u8]), ReadError>
    ensures exact { Gives (λ x. (x.0, x.1.now)) result (spec.three_at bytes.now) }
    ensures no_memory { IfErr result (λ e. e ≡ ReadError.Memory → ⊥) }
{
    let (first, rest) = in_range(0xE0, 0xEF, bytes)?;
    let (next, rest) = second(first, rest)?;
    let (last, rest) = further(rest)?;
    let code = bits(0xE0, first) * 4096 + (bits(0x80, next) * 64 + bits(0x80, last));
    Ok((code, rest))
}

#[tactic(auto, unfolding(crate::specs::Chars::four_at))]
fn four(bytes: &[u8]) -> Result<(u32, &[u8]), ReadError>
    ensures exact { Gives (λ x. (x.0, x.1.now)) result (spec.four_at bytes.now) }
    ensures no_memory { IfErr result (λ e. e ≡ ReadError.Memory → ⊥) }
{
    let (first, rest) = in_range(0xF0, 0xF4, bytes)?;
    let (next, rest) = second(first, rest)?;
    let (third, rest) = further(rest)?;
    let (last, rest) = further(rest)?;
    let code = bits(0xF0, first) * 262144
        + (bits(0x80, next) * 4096 + (bits(0x80, third) * 64 + bits(0x80, last)));
    Ok((code, rest))
}

// ---- all

/// A character by its number.
#[tactic(auto, unfolding(crate::specs::Chars::char_at))]
fn code(bytes: &[u8]) -> Result<(u32, &[u8]), ReadError>
    ensures exact { Gives (λ x. (x.0, x.1.now)) result (spec.char_at bytes.now) }
    ensures no_memory { IfErr result (λ e. e ≡ ReadError.Memory → ⊥) }
{
    if is_next(b'\\', bytes) {
        escape(bytes)
    } else if is_below(128, bytes) {
        plain(bytes)
    } else if is_below(224, bytes) {
        two(bytes)
    } else if is_below(240, bytes) {
        three(bytes)
    } else {
        four(bytes)
    }
}

/// A character of a text in quotes, and what stands behind it.
pub fn character(bytes: &[u8]) -> Result<(char, &[u8]), ReadError>
    ensures exact { Gives (λ x. (x.0, x.1.now)) result (spec.char_at bytes.now) }
    ensures no_memory { IfErr result (λ e. e ≡ ReadError.Memory → ⊥) }
{
    let (code, rest) = code(bytes)?;
    match char::from_u32(code) {
        Some(c) => Ok((c, rest)),
        None => unreachable!(),
    }
}
