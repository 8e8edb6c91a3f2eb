// The path of an atom.
ghost use Rattle.std.specs.Prelude.{◌≡◌, ◌∷◌, [], IfOk};
ghost use Rattle.tor_terms.specs.Truth.{same_bool};

use qbs_base::{Items, NoMemory};
use std::alloc::Global;

/// Atoms, by their numbers, each with its truth.
pub type Path = Items<(u32, bool)>;

/// Paths, one after the other.
pub type Paths = Items<Path>;

/// The truth that an atom has to have where it has to be of this truth for the wanted one.
pub fn same_truth(s: bool, want: bool) -> bool
    ensures { result ≡ same_bool s want }
{
    s == want
}

/// The path that gives an atom its truth, alone.
pub fn one_path(alloc: Global, atom: u32, holds: bool) -> Result<Paths, NoMemory>
    ensures { IfOk result (λ r. r ≡ ((atom, holds) ∷ []) ∷ []) }
{
    let mut path = Items::new(alloc);
    path.push((atom, holds))?;
    let mut paths = Items::new(alloc);
    paths.push(path)?;
    Ok(paths)
}
