// Positions of FROM items, and keys that are positions.
ghost use Rattle.std.specs.Prelude.{◌≡◌, ◌++◌, ◌∷◌, [], false, OnOk};
ghost use Rattle.sql_build.specs.Keys as spec;

use qbs_base::NoMemory;
use sql_ast::{SqlCol, SqlColumn, SqlKey, SqlKeys};

/// The position of the FROM item of this number.
pub fn position(n: u32) -> SqlCol
    ensures { result ≡ spec.position n }
{
    SqlCol {
        item: n,
        column: SqlColumn::Pos,
    }
}

/// The position of a FROM item as a key, or the least position of a group.
pub fn position_key(least: bool, n: u32) -> SqlKey
    ensures { result ≡ spec.position_key least n }
{
    SqlKey {
        least,
        col: position(n),
        down: false,
    }
}

/// Puts the position of a FROM item behind keys. Its only error is want of memory.
pub fn put_position(n: u32, all: &mut SqlKeys) -> Result<(), NoMemory>
    ensures { OnOk result (all.new ≡ all.old ++ (spec.position_key false n ∷ [])) }
{
    all.push(position_key(false, n))?;
    Ok(())
}
