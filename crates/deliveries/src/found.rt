// What a call gave: a value, or a fault.
ghost use Rattle.deliveries.specs.Found.{IsFaultOf, IsValueOf};

use qbs_base::{Fail, NoMemory};

/// The fault of a call, and none where it gave a value.
pub fn fault_of<T: Drop, F: Drop>(given: Result<T, Fail<F>>) -> Result<Option<F>, NoMemory>
    ensures { IsFaultOf given result }
{
    match given {
        Ok(_) => Ok(None),
        Err(Fail::Fault(fault)) => Ok(Some(fault)),
        Err(Fail::NoMemory) => Err(NoMemory),
    }
}

/// The value of a call, and none where it gave a fault.
pub fn value_of<T: Drop, F: Drop>(given: Result<T, Fail<F>>) -> Result<Option<T>, NoMemory>
    ensures { IsValueOf given result }
{
    match given {
        Ok(value) => Ok(Some(value)),
        Err(Fail::Fault(_)) => Ok(None),
        Err(Fail::NoMemory) => Err(NoMemory),
    }
}
