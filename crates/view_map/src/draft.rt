// Parts of a map as they are read, before they are judged.
use crate::model::{Constant, FetchPattern, Literal, RowClass, ScalarKind, ScalarType, Template};
use qbs_base::{Items, Name, Names};

/// A name, and how many bytes stand before it.
#[derive(Drop)]
pub struct Placed {
    pub name: Name,
    pub at: usize,
}

/// What stands before the members of a table: the name of the class, the class that it is nested in, and the table's name where it is
/// given.
#[derive(Drop)]
pub struct Head {
    pub class: Placed,
    pub within: Option<Name>,
    pub table: Option<Placed>,
}

/// A member: its type and where that stands, its name, and the name of its column where it is given.
#[derive(Drop)]
pub struct MemberDraft {
    pub java: ScalarType,
    pub at: usize,
    pub name: Placed,
    pub is_call: bool,
    pub column: Option<Placed>,
    pub never_null: bool,
}

/// A constant: its type and where that stands, its name, and where that stands.
#[derive(Drop)]
pub struct ConstantDraft {
    pub kind: ScalarKind,
    pub at: usize,
    pub names: Names,
    pub names_at: usize,
    pub value: Literal,
}

/// What has been read of a map.
#[derive(Drop)]
pub struct Draft {
    pub classes: Items<RowClass>,
    pub fetches: Items<FetchPattern>,
    pub constants: Items<Constant>,
    pub list: Option<Template>,
    pub long: Option<Template>,
    pub truth: Option<Template>,
    pub texts_binary: bool,
}
