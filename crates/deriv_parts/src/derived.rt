// What is decided of a derivation.
ghost use Rattle.std.specs.Prelude.{◌≡◌, ◌++◌, ◌∷◌, [], Some, None, IfOk, if◌then◌else◌};
ghost use Rattle.deriv_parts.specs.Limits as spec;

use qbs_base::{Items, NoMemory};

const SPLITS: u32 = 10;

/// How many splits may stand inside one another, in a search and in a text.
pub fn most_splits() -> u32
    ensures { result ≡ spec.most_splits }
{
    SPLITS
}

/// What leads both sides to their normal forms, where these are the same.
pub fn where_same<T: Drop>(same: bool, left: T, right: T) -> Option<(T, T)>
    ensures { result ≡ (if same then Some (left, right) else None) }
{
    if same { Some((left, right)) } else { None }
}

/// A list with one thing more behind the others, as facts with the one that a branch is about.
pub fn with_behind<T: Drop>(items: Items<T>, more: T) -> Result<Items<T>, NoMemory>
    ensures { IfOk result (λ all. all ≡ items ++ more ∷ []) }
{
    let mut all = items;
    all.push(more)?;
    Ok(all)
}
