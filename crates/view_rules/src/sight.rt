// The variables in sight, and what a slice is handed from outside.
ghost use Rattle.std.specs.Prelude.{◌≡◌, option_copied};
ghost use Rattle.view_rules.specs.Sights as specs;

use crate::JavaType;
use qbs_base::Bytes;
use view_map::{Literal, ScalarKind};

/// A variable in sight: its name, the type that it is declared with, whether it comes from outside of the slice, and the column that it
/// stands for.
#[derive(Drop)]
pub struct Sighted {
    pub name: Bytes,
    pub java: JavaType,
    pub outside: bool,
    pub column: Option<ColumnName>,
}

/// The column of a row of the slice's own for which a local name stands: the row's name, its class, and the member's number in the class.
#[derive(Drop)]
pub struct ColumnName {
    pub row: Bytes,
    pub class: u32,
    pub member: u32,
}

/// A parameter of the method that a slice is seen as, and its name there: a scalar from outside, or a column of a row from outside, by the
/// column's number in the table.
#[derive(Drop)]
pub struct Param {
    pub variable: Bytes,
    pub column: Option<u32>,
    pub name: Bytes,
}

/// A constant of the class: its name, its type, which is primitive or a text, and its value.
#[derive(Drop)]
pub struct ClassConstant {
    pub name: Bytes,
    pub kind: ScalarKind,
    pub value: Literal,
}

/// The first variable of a name in sight. No two have one name, since Java lets no local variable hide another one.
pub fn find_sighted<'a>(sight: &'a [Sighted], name: &[u8]) -> Option<&'a Sighted>
    ensures { option_copied result ≡ specs.in_sight sight.now name.now }
{
    for v in sight {
        if v.name.as_slice() == name {
            return Some(v);
        }
    }
    None
}
