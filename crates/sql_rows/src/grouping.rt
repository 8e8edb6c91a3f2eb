// The values of groups.
ghost use Rattle.std.specs.Prelude.{◌≡◌, map, IfOk};
ghost use Rattle.sql_ast.specs.Grouped.{firsts};
ghost use Rattle.sql_ast.specs.Meaning.{same_value};
ghost use Rattle.sql_rows.specs.Reading.{value_of};

use crate::firsts::first_occurrences;
use crate::place::Cell;
use qbs_base::NoMemory;
use std::alloc::Global;

/// Values, each once, where it occurs first.
pub fn first_values<'a>(alloc: Global, cells: &[Cell<'a>]) -> Result<Vec<Cell<'a>>, NoMemory>
    ensures { IfOk result (λ v. map value_of v.items ≡ firsts same_value (map value_of cells.now)) }
{
    first_occurrences(alloc, cells)
}
