// The limits of programs, and of what is read where these are left aside.
ghost use Rattle.std.specs.Prelude.{◌≡◌};
ghost use Rattle.java_limits.specs.Limits.{longest as longest_of};

/// How many things may be open at a token.
pub const DEEPEST: u32 = 64;

/// How many operators, or parts behind dots, a chain of a program may have.
const WITHIN_LIMITS: u32 = 64;

/// How many it may have where the limits of a program are left aside.
const BEYOND_LIMITS: u32 = 8192;

/// How many operators, or parts behind dots, a chain may have where so many more things may be open.
#[tactic(auto, unfolding(crate::specs::Limits::longest))]
pub fn longest(room: u32) -> u32
    ensures { result ≡ longest_of room }
{
    if room <= 64 {
        WITHIN_LIMITS
    } else {
        BEYOND_LIMITS
    }
}
