// The ways to decide a formula by its atoms.
ghost use Rattle.std.specs.Prelude.{◌≡◌, ◌++◌, ◌∷◌, [], map, IfOk};
ghost use Rattle.tor_terms.specs.Plain.{form_of};
ghost use Rattle.kernel_lang.specs.Paths as spec;
ghost use Rattle.kernel_lang.specs.Plain.{guard_of};

use condition_parts::{one_path, same_truth};
pub use condition_parts::{Path, Paths};
use qbs_base::{Items, NoMemory};
use std::alloc::Global;
use tor_terms::Formula;

/// A path followed by another.
pub fn joined(alloc: Global, p: &[(u32, bool)], q: &[(u32, bool)]) -> Result<Path, NoMemory>
    ensures { IfOk result (λ r. r ≡ p.now ++ q.now) }
{
    let mut all = p.to_vec(alloc)?;
    all.extend_from_slice(q)?;
    Ok(Items::from_vec(all))
}

fn add_each(alloc: Global, p: &Path, qs: &[Path], all: &mut Paths) -> Result<(), NoMemory>
    ensures { IfOk result (λ _. all.new ≡ all.old ++ map (λ q. p.now ++ q) qs.now) }
{
    for q in qs {
        let both = joined(alloc, p.as_slice(), q.as_slice())?;
        all.push(both)?;
    }
    Ok(())
}

/// Each of `ps` followed by each of `qs`, the former varying slowest.
pub fn each_with(alloc: Global, ps: &[Path], qs: &[Path]) -> Result<Paths, NoMemory>
    ensures { IfOk result (λ r. r ≡ spec.each_with ps.now qs.now) }
{
    let mut all = Items::new(alloc);
    for p in ps {
        add_each(alloc, p, qs, &mut all)?;
    }
    Ok(all)
}

// Each of `ps` followed by each of `qs`, which aren't kept.
fn combined(alloc: Global, ps: Paths, qs: Paths) -> Result<Paths, NoMemory>
    ensures { IfOk result (λ r. r ≡ spec.each_with ps qs) }
{
    each_with(alloc, ps.as_slice(), qs.as_slice())
}

fn followed(ps: Paths, qs: Paths) -> Result<Paths, NoMemory>
    ensures { IfOk result (λ r. r ≡ ps ++ qs) }
{
    let mut all = ps.into_vec();
    let mut more = qs.into_vec();
    all.append(&mut more)?;
    Ok(Items::from_vec(all))
}

// These paths, and then each of `first` followed by each of `second`.
fn and_combined(alloc: Global, alone: Paths, first: Paths, second: Paths) -> Result<Paths, NoMemory>
    ensures { IfOk result (λ r. r ≡ alone ++ spec.each_with first second) }
{
    let both = combined(alloc, first, second)?;
    followed(alone, both)
}

/// The path that decides nothing.
pub fn empty_path(alloc: Global) -> Result<Paths, NoMemory>
    ensures { IfOk result (λ r. r ≡ [] ∷ []) }
{
    let mut paths = Items::new(alloc);
    paths.push(Items::new(alloc))?;
    Ok(paths)
}

/// The paths to a truth of a formula.
pub fn paths(alloc: Global, f: &Formula, want: bool) -> Result<Paths, NoMemory>
    ensures { IfOk result (λ r. r ≡ spec.paths (form_of f.now) want) }
{
    match f {
        Formula::Is(k, s) => one_path(alloc, *k, same_truth(*s, want)),
        Formula::Both(g, h) => {
            if want {
                let first = paths(alloc, g, true)?;
                let second = paths(alloc, h, true)?;
                combined(alloc, first, second)
            } else {
                let fails = paths(alloc, g, false)?;
                let first = paths(alloc, g, true)?;
                let others = paths(alloc, h, false)?;
                and_combined(alloc, fails, first, others)
            }
        }
        Formula::Either(g, h) => {
            if want {
                let holds = paths(alloc, g, true)?;
                let first = paths(alloc, g, false)?;
                let second = paths(alloc, h, true)?;
                and_combined(alloc, holds, first, second)
            } else {
                let first = paths(alloc, g, false)?;
                let second = paths(alloc, h, false)?;
                combined(alloc, first, second)
            }
        }
    }
}

/// The paths to a truth of a guard.
pub fn guard_paths(alloc: Global, guard: &Option<Formula>, want: bool) -> Result<Paths, NoMemory>
    ensures { IfOk result (λ r. r ≡ spec.guard_paths (guard_of guard.now) want) }
{
    match guard {
        Some(f) => paths(alloc, f, want),
        None => {
            if want {
                empty_path(alloc)
            } else {
                Ok(Items::new(alloc))
            }
        }
    }
}
