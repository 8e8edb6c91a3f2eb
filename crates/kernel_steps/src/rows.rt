// The rows of a set.
ghost use Rattle.std.specs.Prelude.{◌≡◌, IfOk};
ghost use Rattle.tor_terms.specs.Evaluation as found;

use qbs_base::{NoMemory, Row, Rows};
use tor_terms::has_row;

/// Rows with one last, where it isn't among them.
pub fn with_row(rows: Rows, row: Row) -> Result<Rows, NoMemory>
    ensures { IfOk result (λ all. all ≡ found.with_row rows row) }
{
    if has_row(rows.as_slice(), &row) {
        return Ok(rows);
    }
    let mut all = rows;
    all.push(row)?;
    Ok(all)
}
