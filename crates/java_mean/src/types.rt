// The types of the language.
use qbs_base::Ty;

/// What a member of a list or a variable may be: a scalar, or a row of the table with this number.
#[derive(Clone, Copy, PartialEq, Eq)]
pub enum Single {
    ScalarOf(Ty),
    RowOf(u32),
}

/// The type of a variable: one scalar or row, a list, or a set, whose members are distinct.
#[derive(Clone, Copy, PartialEq, Eq)]
pub enum JavaType {
    Of(Single),
    Listed(Single),
    Distinct(Single),
}

/// What an expression is of: one type, or any type of lists where it is a new list, or any type of
/// sets where it is a new set.
#[derive(Clone, Copy, PartialEq, Eq)]
pub enum Kindred {
    Only(JavaType),
    AnyList,
    AnySet,
}
