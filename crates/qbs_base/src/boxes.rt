// Values in boxes. Who owns a box across a `?` has one pointer to free on the way out, where the value itself would have each part of it dropped.
ghost use Rattle.std.specs.Prelude.{◌≡◌, IfOk, Ok};

use crate::memory::NoMemory;
use std::alloc::Global;

/// A value in a box. Memory may run out.
pub fn boxed<T: Drop>(alloc: Global, value: T) -> Result<Box<T>, NoMemory>
    ensures { IfOk result (λ b. b.value ≡ value) }
{
    Ok(Box::new(alloc, value)?)
}

/// What a call gave, in a box, where memory lasted for both. The call's result is handed on as it came, so that the caller never owns the value
/// outside of the box.
pub fn held<T: Drop>(alloc: Global, found: Result<T, NoMemory>) -> Result<Box<T>, NoMemory>
    ensures { IfOk result (λ b. found ≡ Ok b.value) }
{
    Ok(Box::new(alloc, found?)?)
}
