// Limits of lists.
ghost use Rattle.std.specs.Prelude.{◌≡◌, ◌&&◌, ◌^◌, nat_lt, nat_eq};

/// Whether a limit has 63 bits, and its list is that of the only loop.
pub fn limit_stands(limit: u64, loops: usize) -> bool
    ensures { result ≡ (nat_lt limit (2 ^ 63) && nat_eq loops 1) }
{
    limit < 9223372036854775808 && loops == 1
}
