//! How loosely the parts of an expression of the source language bind, as ranks: the smaller the tighter.
#![tactic(auto)]

ghost use Rattle.std.specs.Prelude.{◌≡◌};

/// The rank of `!`, and of what may stand behind it without parentheses.
const NOT: u32 = 2;

/// How loosely what stands behind `!` may bind without parentheses: no more loosely than `!` itself.
pub fn behind_not() -> u32
    ensures { result ≡ 2 }
{
    NOT
}
