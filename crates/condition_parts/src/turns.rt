// The turns of a loop.
ghost use Rattle.std.specs.Prelude.{◌≡◌};
ghost use Rattle.tor_terms.specs.declared.term.Index.TheVariants as indexes;

use tor_terms::Index;

/// One turn of a loop more than are done.
pub fn next_turn(over: u32) -> Index
    ensures { result ≡ indexes.Next over }
{
    Index::Next(over)
}
