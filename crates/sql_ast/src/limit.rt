// Limits of list queries.
ghost use Rattle.std.specs.Prelude.{◌≡◌};
ghost use Rattle.sql_ast.specs.Limits.{limit_within};

/// The number, where a limit may have it: below 2^63.
pub fn limit_within(number: u64) -> Option<u64>
    ensures { result ≡ limit_within number }
{
    if number < 1 << 63 { Some(number) } else { None }
}
