// The rows of the loops round a place.
ghost use Rattle.std.specs.Prelude.{◌≡◌};
ghost use Rattle.kernel_interp.specs.Reading.{rows_in};

use qbs_base::Row;

/// The rows of the loops round a place, the innermost first, and the row that stands for that of
/// any other loop.
#[derive(Clone, Copy)]
pub enum Place<'a> {
    Outside(&'a Row),
    In(u32, &'a Row, &'a Place<'a>),
}

/// The row of a loop.
pub fn row_at<'a>(place: &'a Place<'a>, j: u32) -> &'a Row
    ensures { result.now ≡ rows_in place.now j }
{
    match place {
        Place::Outside(row) => row,
        Place::In(over, row, outer) => { if *over == j { row } else { row_at(outer, j) } }
    }
}
