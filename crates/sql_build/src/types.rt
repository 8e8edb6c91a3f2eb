// The types of parameters.
ghost use Rattle.std.specs.Prelude.{◌≡◌, IfOk, map, slice_get};
ghost use Rattle.sql_build.specs.Types as spec;

use qbs_base::{Items, NoMemory, Ty, Tys};
use std::alloc::Global;

/// The type of an entry. An entry that isn't there is a Long.
fn type_of(types: &[Ty], k: u64) -> Ty
    ensures { result ≡ spec.type_of (slice_get types.now k) }
{
    match types.get(k as usize) {
        Some(ty) => *ty,
        None => Ty::Long,
    }
}

/// The types of the entries of parameters.
pub fn types_in(alloc: Global, types: &[Ty], order: &[u64]) -> Result<Tys, NoMemory>
    ensures { IfOk result (λ tys. tys ≡ map (λ k. spec.type_of (slice_get types.now k)) order.now) }
{
    let mut all = Items::new(alloc);
    for k in order {
        all.push(type_of(types, *k))?;
    }
    Ok(all)
}
