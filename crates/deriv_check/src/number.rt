// Numbers below 2^32.
ghost use Rattle.std.specs.Prelude.{◌≡◌, IfErr};
ghost use Rattle.readers.specs.Reading.{Gives};
ghost use Rattle.deriv_check.specs.Reading.{number_at};

use readers::ReadError;

const LIMIT: u64 = 1 << 32;

/// A number below 2^32 without leading zeros, and what stands behind it: so it has ten digits at most.
pub fn number(bytes: &[u8]) -> Result<(u32, &[u8]), ReadError>
    ensures exact { Gives (λ x. (x.0, x.1.now)) result (number_at bytes.now) }
    ensures no_memory { IfErr result (λ e. e ≡ ReadError.Memory → ⊥) }
{
    let (value, rest) = text_readers::number(LIMIT, bytes)?;
    Ok((value as u32, rest))
}
