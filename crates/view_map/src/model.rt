// Maps, and what stands in them.
use qbs_base::{Bytes, Items, Name, Names};
use view_items::ItemKind;

/// A Java type of one value.
#[derive(Clone, Copy, PartialEq, Eq)]
pub enum ScalarKind {
    Int,
    Long,
    Boolean,
    Text,
}

/// A Java type of one value as it is spelled: `int` or `Integer`, `long` or `Long`, `boolean` or `Boolean`. `String` is a boxed text.
#[derive(Clone, Copy, PartialEq, Eq)]
pub struct ScalarType {
    pub kind: ScalarKind,
    pub boxed: bool,
}

/// A field or a method without parameters that gives a column of a row: its type and its name, and the number of the column in the table.
#[derive(Drop)]
pub struct Member {
    pub java: ScalarType,
    pub name: Name,
    pub is_call: bool,
    pub column: u32,
}

/// A Java class whose objects are rows: its name, the class that it is nested in, the number of the table in the schema, whether its rows
/// are told apart by their columns alone, and its members. No two members have one name; a column may have several members, or none.
#[derive(Drop)]
pub struct RowClass {
    pub class: Name,
    pub within: Option<Name>,
    pub table: u32,
    pub by_value: bool,
    pub members: Items<Member>,
}

/// An item of a pattern, wherever it stands.
#[derive(Drop)]
pub struct PatternItem {
    pub kind: ItemKind,
    pub bytes: Bytes,
}

/// An expression that gives all rows of a class: the number of the class in the map, the class in whose file alone it does, and its items.
#[derive(Drop)]
pub struct FetchPattern {
    pub table: u32,
    pub within: Option<Name>,
    pub items: Items<PatternItem>,
}

/// A literal as it is spelled, and the type that it has by itself: a number with an `L` is a `Long`, any other an `Int`. The minus sign
/// before it isn't among its bytes.
#[derive(Drop)]
pub struct Literal {
    pub kind: ScalarKind,
    pub negative: bool,
    pub bytes: Bytes,
}

/// A constant: its type, its name part by part, and its value.
#[derive(Drop)]
pub struct Constant {
    pub kind: ScalarKind,
    pub names: Names,
    pub value: Literal,
}

/// What a query gives: a list, a whole number or a truth value.
#[derive(Clone, Copy, PartialEq, Eq)]
pub enum QueryKind {
    List,
    Long,
    Boolean,
}

/// A part of a template.
#[derive(Drop)]
pub enum Part {
    Item(PatternItem),
    /// `$sql`, the text of the query.
    Sql,
    /// `$type`, the class of its elements.
    Type,
    /// `$i`, the number of an argument, from 1.
    Number,
    /// `$arg`, an argument.
    Argument,
}

/// How a query is asked in Java: what stands in front of the arguments, what stands for each argument in order, and what stands behind them.
/// `$sql` stands once in `front` and `back` together, and `$type` too where the query gives a list, else nowhere. `$arg` stands once in
/// `each`, and `$i` nowhere else. `front` and `each` begin with an item.
#[derive(Drop)]
pub struct Template {
    pub kind: QueryKind,
    pub front: Items<Part>,
    pub each: Items<Part>,
    pub back: Items<Part>,
}

/// A map: its classes, fetch patterns and constants in the order of the text, the templates of a list, a whole number and a truth value in
/// this order, and whether the database compares texts by their bytes.
#[derive(Drop)]
pub struct ViewMap {
    pub classes: Items<RowClass>,
    pub fetches: Items<FetchPattern>,
    pub constants: Items<Constant>,
    pub templates: Items<Template>,
    pub texts_binary: bool,
}
