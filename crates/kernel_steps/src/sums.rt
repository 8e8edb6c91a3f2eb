// Running counts and sums.
ghost use Rattle.std.specs.Prelude.{◌≡◌, ◌+ℤ◌, pos};
ghost use Rattle.kernel_steps.specs.Stops.{GivesNumber, long_or_none};

use crate::end::Stop;

fn checked_sum(m: i64, n: i64) -> Option<i64>
    ensures { result ≡ long_or_none (m +ℤ n) }
{
    m.checked_add(n)
}

/// A sum, where it has 64 bits.
pub fn sum(m: i64, n: i64) -> Result<i64, Stop>
    ensures { GivesNumber result (m +ℤ n) }
{
    match checked_sum(m, n) {
        Some(all) => Ok(all),
        None => Err(Stop::Overflow),
    }
}

/// A count with one more, where it has 64 bits.
pub fn ticked(n: i64) -> Result<i64, Stop>
    ensures { GivesNumber result (n +ℤ pos 1) }
{
    sum(n, 1)
}
