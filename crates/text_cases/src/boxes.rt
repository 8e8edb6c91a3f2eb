// What was read, held on the heap. A tree that a function owns is walked at each of its ways out, and a box isn't.
use qbs_base::Fail;
use std::alloc::Global;

/// What was read, in a box, or why nothing was.
pub fn boxed<T: Drop, F>(alloc: Global, read: Result<T, Fail<F>>) -> Result<Box<T>, Fail<F>> {
    match read {
        Ok(value) => Ok(Box::new(alloc, value)?),
        Err(fail) => Err(fail),
    }
}
