// The loop of which an index counts one turn more.
ghost use Rattle.std.specs.Prelude.{◌≡◌};
ghost use Rattle.tor_terms.specs.Next as spec;

use crate::Index;

/// The loop of which an index counts one turn more than are done; none, where it is another index.
pub fn next_of(index: Index) -> Option<u32>
    ensures { result ≡ spec.next_of index }
{
    match index {
        Index::Next(j) => Some(j),
        _ => None,
    }
}
