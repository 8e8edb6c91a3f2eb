// The types of members, and what stands for each.
ghost use Rattle.std.specs.Prelude.{◌≡◌};
ghost use Rattle.view_maps.specs.Kinds as specs;

use view_map::{ScalarKind, ScalarType};

/// The type that a word spells, if it is one of members.
pub fn kind_of(word: &[u8]) -> Option<ScalarType> {
    if word == "int".as_bytes() {
        primitive(ScalarKind::Int)
    } else if word == "long".as_bytes() {
        primitive(ScalarKind::Long)
    } else if word == "boolean".as_bytes() {
        primitive(ScalarKind::Boolean)
    } else if word == "Integer".as_bytes() {
        boxed(ScalarKind::Int)
    } else if word == "Long".as_bytes() {
        boxed(ScalarKind::Long)
    } else if word == "Boolean".as_bytes() {
        boxed(ScalarKind::Boolean)
    } else if word == "String".as_bytes() {
        boxed(ScalarKind::Text)
    } else {
        None
    }
}

fn primitive(kind: ScalarKind) -> Option<ScalarType> {
    Some(ScalarType { kind, boxed: false })
}

fn boxed(kind: ScalarKind) -> Option<ScalarType> {
    Some(ScalarType { kind, boxed: true })
}

/// The type of the columns that hold values of a type.
pub fn column_type(kind: ScalarKind) -> &'static str
    ensures { result.now ≡ specs.column_type kind }
{
    match kind {
        ScalarKind::Int => "INT",
        ScalarKind::Long => "BIGINT",
        ScalarKind::Boolean => "BOOLEAN",
        ScalarKind::Text => "TEXT",
    }
}

/// The name of the class that stands for a type.
pub fn marker(java: ScalarType) -> &'static str
    ensures { result.now ≡ specs.marker java }
{
    match (java.kind, java.boxed) {
        (ScalarKind::Int, false) => "IsInt",
        (ScalarKind::Long, false) => "IsLong",
        (ScalarKind::Boolean, false) => "IsBool",
        (ScalarKind::Int, true) => "IsBoxedInt",
        (ScalarKind::Long, true) => "IsBoxedLong",
        (ScalarKind::Boolean, true) => "IsBoxedBool",
        (ScalarKind::Text, _) => "IsText",
    }
}

/// The class that stands for the type of a constant.
pub fn constant_marker(kind: ScalarKind) -> &'static str
    ensures { result.now ≡ specs.constant_marker kind }
{
    marker(ScalarType {
        kind,
        boxed: matches!(kind, ScalarKind::Text),
    })
}
