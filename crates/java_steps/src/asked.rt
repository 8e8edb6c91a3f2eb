// What is asked of a value.
ghost use Rattle.std.specs.Prelude.{◌≡◌, IfOk};
ghost use Rattle.java_mean.specs.Expression.{as_scalar, as_row, as_rows, as_long, as_bool, as_member, alone as alone_row};
ghost use Rattle.java_steps.specs.Gives.{Gives, GivesBy};
ghost use Rattle.java_steps.specs.Held.{rows_in, value_in};

use crate::held::{Held, List};
use crate::stop::Stop;
use java_mean::Ending;
use qbs_base::{Cells, Kind, NoMemory, Row, Scalar, copy_row};
use std::alloc::Global;

/// A scalar.
pub fn scalar_of(held: Held) -> Result<Scalar, Stop>
    ensures { Gives result (as_scalar (value_in held.entry)) }
{
    match held {
        Held::One(x) => Ok(x),
        Held::Whole(_) => Err(Stop::Ends(Ending::Stuck)),
        Held::Lent(_) => Err(Stop::Ends(Ending::Stuck)),
        Held::Many(_) => Err(Stop::Ends(Ending::Stuck)),
    }
}

/// A row.
pub fn row_of(alloc: Global, held: Held) -> Result<Row, Stop>
    ensures { Gives result (as_row (value_in held.entry)) }
{
    match held {
        Held::One(_) => Err(Stop::Ends(Ending::Stuck)),
        Held::Whole(row) => Ok(row),
        Held::Lent(row) => Ok(copy_row(alloc, row)?),
        Held::Many(_) => Err(Stop::Ends(Ending::Stuck)),
    }
}

/// The rows of a list or a set.
pub fn list_in<'a>(held: Held<'a>) -> Result<List<'a>, Stop>
    ensures { GivesBy rows_in result (as_rows (value_in held.entry)) }
{
    match held {
        Held::One(_) => Err(Stop::Ends(Ending::Stuck)),
        Held::Whole(_) => Err(Stop::Ends(Ending::Stuck)),
        Held::Lent(_) => Err(Stop::Ends(Ending::Stuck)),
        Held::Many(list) => Ok(list),
    }
}

/// A whole number.
pub fn long_of(x: &Scalar) -> Result<i64, Stop>
    ensures { Gives result (as_long x.now) }
{
    match x {
        Scalar::Long(n) => Ok(*n),
        Scalar::Bool(_) => Err(Stop::Ends(Ending::Stuck)),
        Scalar::Text(_) => Err(Stop::Ends(Ending::Stuck)),
    }
}

/// A truth value.
pub fn bool_of(x: &Scalar) -> Result<bool, Stop>
    ensures { Gives result (as_bool x.now) }
{
    match x {
        Scalar::Long(_) => Err(Stop::Ends(Ending::Stuck)),
        Scalar::Bool(b) => Ok(*b),
        Scalar::Text(_) => Err(Stop::Ends(Ending::Stuck)),
    }
}

fn alone(alloc: Global, x: Scalar) -> Result<Row, NoMemory>
    ensures { IfOk result (λ row. row ≡ alone_row x) }
{
    let mut cells = Cells::new(alloc);
    cells.push(x)?;
    Ok(Row {
        kind: Kind::Plain,
        cells,
    })
}

/// A member of a list: a row, or a scalar as a row of one cell.
pub fn member_of(alloc: Global, held: Held) -> Result<Row, Stop>
    ensures { Gives result (as_member (value_in held.entry)) }
{
    match held {
        Held::One(x) => Ok(alone(alloc, x)?),
        Held::Whole(row) => Ok(row),
        Held::Lent(row) => Ok(copy_row(alloc, row)?),
        Held::Many(_) => Err(Stop::Ends(Ending::Stuck)),
    }
}
