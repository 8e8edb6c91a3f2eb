// Comparisons of values.
ghost use Rattle.std.specs.Prelude.{◌≡◌};
ghost use Rattle.qbs_base.specs.Scalar.{compared, scalar_same, scalar_less, value_before};
ghost use Rattle.sql_ast.specs.Meaning.{holds};
ghost use Rattle.sql_ast.specs.Meaning as meaning;
ghost use Rattle.sql_rows.specs.Reading.{value_of};

use sql_ast::Cmp;
use sql_rows::Cell;

/// Whether both values are there, of one type and equal.
pub fn is_same(x: &Cell, y: &Cell) -> bool
    ensures { result ≡ compared scalar_same (value_of x.now) (value_of y.now) }
{
    match (x, y) {
        (Cell::Long(a), Cell::Long(b)) => a.cmp(b).is_eq(),
        (Cell::Truth(a), Cell::Truth(b)) => a.cmp(b).is_eq(),
        (Cell::Text(a), Cell::Text(b)) => a.cmp(b).is_eq(),
        _ => false,
    }
}

/// Whether both values are there, of one type, and the first is less.
pub fn is_less(x: &Cell, y: &Cell) -> bool
    ensures { result ≡ compared scalar_less (value_of x.now) (value_of y.now) }
{
    match (x, y) {
        (Cell::Long(a), Cell::Long(b)) => a.cmp(b).is_lt(),
        (Cell::Truth(a), Cell::Truth(b)) => a.cmp(b).is_lt(),
        (Cell::Text(a), Cell::Text(b)) => a.cmp(b).is_lt(),
        _ => false,
    }
}

/// Whether a comparison holds.
pub fn compare(cmp: Cmp, x: &Cell, y: &Cell) -> bool
    ensures { result ≡ holds cmp (value_of x.now) (value_of y.now) }
{
    match cmp {
        Cmp::Eq => is_same(x, y),
        Cmp::Ne => !is_same(x, y),
        Cmp::Lt => is_less(x, y),
        Cmp::Le => !is_less(y, x),
        Cmp::Gt => is_less(y, x),
        Cmp::Ge => !is_less(x, y),
    }
}

/// Whether a value is the truth value true.
pub fn is_true(x: &Cell) -> bool
    ensures { result ≡ meaning.is_true (value_of x.now) }
{
    match x {
        Cell::Truth(b) => *b,
        _ => false,
    }
}

/// The order of keys: a missing value first, then numbers, truth values and texts.
pub fn is_before(x: &Cell, y: &Cell) -> bool
    ensures { result ≡ value_before (value_of x.now) (value_of y.now) }
{
    match (x, y) {
        (Cell::Missing, Cell::Missing) => false,
        (Cell::Missing, _) => true,
        (Cell::Long(a), Cell::Long(b)) => a.cmp(b).is_lt(),
        (Cell::Truth(a), Cell::Truth(b)) => a.cmp(b).is_lt(),
        (Cell::Text(a), Cell::Text(b)) => a.cmp(b).is_lt(),
        (Cell::Long(_), Cell::Truth(_)) => true,
        (Cell::Long(_), Cell::Text(_)) => true,
        (Cell::Truth(_), Cell::Text(_)) => true,
        _ => false,
    }
}
