// What is known of the column of a field.
use crate::fields::{Accessor, Field};
use crate::fronts::{Annotation, Said, last_called, said_name, value_of, word_in};
use crate::kinds::kind_of;
use crate::source::{Source, bytes_at};
use crate::texts::{put, put_bytes};
use crate::types::put_type;
use qbs_base::NoMemory;
use view_map::ScalarType;
use view_shapes::{Stretch, is_one_of_words, is_word};

/// Annotations of fields that aren't one column of their type.
const BARS: [&str; 13] = [
    "Convert",
    "ColumnTransformer",
    "Enumerated",
    "Formula",
    "ManyToOne",
    "OneToOne",
    "OneToMany",
    "ManyToMany",
    "Embedded",
    "EmbeddedId",
    "ElementCollection",
    "Type",
    "Temporal",
];

/// Why a column isn't known.
#[derive(Clone, Copy)]
pub enum Reason {
    /// An annotation: the number of its name.
    Annotated(usize),
    Typed,
    OtherTable,
    NoLiteral,
    NoWord,
    Unsaid,
}

/// What is known of a column: the item that names it, if one does, and whether it is a literal, its type, why it isn't known, and whether it may hold
/// NULL and is a key.
#[derive(Clone, Copy)]
pub struct FieldColumn {
    pub name: Option<usize>,
    pub is_literal: bool,
    pub java: Option<ScalarType>,
    pub reason: Option<Reason>,
    pub may_be_null: bool,
    pub is_key: bool,
}

/// The type that items spell, if it is one of columns.
pub fn java_of(source: Source, ty: Stretch) -> Option<ScalarType> {
    if ty.from.saturating_add(1) == ty.to {
        kind_of(bytes_at(source, ty.from))
    } else {
        None
    }
}

/// The last annotation of this name of the accessors of a field, else of the field.
fn last_of(
    source: Source,
    field: &Field,
    accessors: &[Accessor],
    name: &str,
) -> Option<Annotation> {
    let mut found = last_called(source, field.annotations.as_slice(), name);
    for place in field.accessors.as_slice() {
        if let Some(accessor) = accessors.get(*place) {
            let other = last_called(source, accessor.annotations.as_slice(), name);
            found = if other.is_some() { other } else { found };
        }
    }
    found
}

/// Whether a field or one of its accessors has an annotation of this name.
pub fn is_annotated(source: Source, field: &Field, accessors: &[Accessor], name: &str) -> bool {
    last_of(source, field, accessors, name).is_some()
}

fn first_bar(source: Source, annotations: &[Annotation]) -> Option<usize> {
    for annotation in annotations {
        if is_one_of_words(&BARS, source.items, annotation.name) {
            return Some(annotation.name);
        }
    }
    None
}

/// The name of the first annotation of a field and its accessors by which it isn't one column of its type.
fn bar_of(source: Source, field: &Field, accessors: &[Accessor]) -> Option<usize> {
    let own = first_bar(source, field.annotations.as_slice());
    if own.is_some() {
        return own;
    }
    for place in field.accessors.as_slice() {
        if let Some(accessor) = accessors.get(*place) {
            let bar = first_bar(source, accessor.annotations.as_slice());
            if bar.is_some() {
                return bar;
            }
        }
    }
    None
}

fn has_capital(bytes: &[u8]) -> bool {
    bytes.iter().any(|byte| b'A' <= *byte && *byte <= b'Z')
}

/// What is said of a name of a column.
#[derive(Clone, Copy)]
enum Naming {
    Literal(usize),
    Own,
    Unknown(Reason),
}

/// The field's own name, where every strategy leaves it.
fn own_name(source: Source, field: &Field) -> Naming {
    if has_capital(bytes_at(source, field.name)) {
        Naming::Unknown(Reason::Unsaid)
    } else {
        Naming::Own
    }
}

fn named_at(source: Source, number: usize) -> Naming {
    if word_in(source, number).is_some() {
        return Naming::Literal(number);
    }
    match bytes_at(source, number) {
        [b'"', ..] => Naming::Unknown(Reason::NoWord),
        _ => Naming::Unknown(Reason::NoLiteral),
    }
}

fn naming_of(source: Source, field: &Field, column: Option<Annotation>) -> Naming {
    let Some(column) = column else {
        return own_name(source, field);
    };
    match said_name(source, column) {
        Said::Nothing => own_name(source, field),
        Said::More => Naming::Unknown(Reason::NoLiteral),
        Said::Item(number) => named_at(source, number),
    }
}

fn is_said_not_null(source: Source, column: Option<Annotation>) -> bool {
    let Some(column) = column else {
        return false;
    };
    match value_of(source, column, "nullable") {
        Said::Item(number) => is_word("false", source.items, number),
        _ => false,
    }
}

/// Whether the column of a field may stand in another table than that of its class.
fn is_elsewhere(source: Source, column: Option<Annotation>) -> bool {
    let Some(column) = column else {
        return false;
    };
    match value_of(source, column, "table") {
        Said::Nothing => false,
        Said::Item(_) | Said::More => true,
    }
}

fn is_primitive(java: Option<ScalarType>) -> bool {
    match java {
        Some(java) => !java.boxed,
        None => false,
    }
}

/// What is known of the column of a field by its type, its annotations and those of its accessors.
pub fn column_of(source: Source, field: &Field, accessors: &[Accessor]) -> FieldColumn {
    let column = last_of(source, field, accessors, "Column");
    let java = java_of(source, field.ty);
    let is_key = is_annotated(source, field, accessors, "Id");
    let never_null = is_primitive(java)
        || is_key
        || is_said_not_null(source, column)
        || is_annotated(source, field, accessors, "NotNull")
        || is_annotated(source, field, accessors, "NotBlank");
    let (name, is_literal, unnamed) = match naming_of(source, field, column) {
        Naming::Literal(number) => (Some(number), true, None),
        Naming::Own => (Some(field.name), false, None),
        Naming::Unknown(reason) => (None, false, Some(reason)),
    };
    let reason = match bar_of(source, field, accessors) {
        Some(bar) => Some(Reason::Annotated(bar)),
        None if java.is_none() => Some(Reason::Typed),
        None if is_elsewhere(source, column) => Some(Reason::OtherTable),
        None => unnamed,
    };
    FieldColumn {
        name,
        is_literal,
        java,
        reason,
        may_be_null: !never_null,
        is_key,
    }
}

fn literal_word<'a>(source: Source<'a>, number: usize) -> &'a [u8] {
    match word_in(source, number) {
        Some(word) => word,
        None => "..".as_bytes(),
    }
}

/// The name of a column, `..` where it isn't known.
pub fn name_of<'a>(source: Source<'a>, column: FieldColumn) -> &'a [u8] {
    match column.name {
        None => "..".as_bytes(),
        Some(number) if column.is_literal => literal_word(source, number),
        Some(number) => bytes_at(source, number),
    }
}

/// Appends why the column of a field isn't known.
pub fn put_reason(
    out: &mut Vec<u8>,
    source: Source,
    field: &Field,
    reason: Reason,
) -> Result<(), NoMemory> {
    match reason {
        Reason::Annotated(number) => {
            put(out, "@")?;
            put_bytes(out, bytes_at(source, number))
        }
        Reason::Typed => {
            put_type(out, source, field.ty)?;
            put(out, " is no type of columns")
        }
        Reason::OtherTable => put(out, "@Column names a table"),
        Reason::NoLiteral => put(out, "the column's name is no literal"),
        Reason::NoWord => put(out, "the column's name is no plain word"),
        Reason::Unsaid => put(out, "no @Column says how its column is called"),
    }
}
