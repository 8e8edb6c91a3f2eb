// Values in ascending order, each once.
ghost use Rattle.std.specs.Prelude.{◌≡◌, ◌++◌, ◌∷◌, [], OnOk};
ghost use Rattle.kernel_steps.specs.Put as spec;

use qbs_base::{NoMemory, Scalar, Scalars, copy_scalar};
use std::alloc::Global;
use tor_terms::{same_cell, scalar_before};

/// Pushes a copy of a value.
pub fn push_copy(alloc: Global, x: &Scalar, all: &mut Scalars) -> Result<(), NoMemory>
    ensures { OnOk result (all.new ≡ all.old ++ x.now ∷ []) }
{
    all.push(copy_scalar(alloc, x)?)
}

fn push_all(alloc: Global, values: &[Scalar], all: &mut Scalars) -> Result<(), NoMemory>
    ensures { OnOk result (all.new ≡ all.old ++ values.now) }
{
    for x in values {
        push_copy(alloc, x, &mut *all)?;
    }
    Ok(())
}

/// Pushes values with one more at its place, where it isn't there.
pub fn push_with(
    alloc: Global,
    x: &Scalar,
    values: &[Scalar],
    all: &mut Scalars,
) -> Result<(), NoMemory>
    ensures { OnOk result (all.new ≡ all.old ++ spec.put x.now values.now) }
{
    match values.split_first() {
        None => push_copy(alloc, x, all),
        Some((y, rest)) => {
            if scalar_before(x, y) {
                push_copy(alloc, x, &mut *all)?;
                return push_all(alloc, values, all);
            }
            if same_cell(x, y) {
                return push_all(alloc, values, all);
            }
            push_copy(alloc, y, &mut *all)?;
            push_with(alloc, x, rest, all)
        }
    }
}
