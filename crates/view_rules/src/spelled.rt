// Types as they are spelled.
ghost use Rattle.std.specs.Prelude.{◌≡◌, option_copied};
ghost use Rattle.view_rules.specs.Setting.{within_of};
ghost use Rattle.view_rules.specs.Spelled as specs;

use crate::decisions::is_text_kind;
use crate::steps::{bytes_at, is_at, next, past};
use crate::{JavaType, Within};
use view_map::{RowClass, ScalarKind, ScalarType};

/// A type, and the number of the item behind it.
#[derive(Clone, Copy)]
pub struct Spelled {
    pub java: JavaType,
    pub to: usize,
}

fn scalar_of_word(word: &[u8]) -> Option<ScalarType>
    ensures { result ≡ specs.scalar_of_word word.now }
{
    if word == b"int".as_slice() {
        Some(scalar_type(ScalarKind::Int, false))
    } else if word == b"long".as_slice() {
        Some(scalar_type(ScalarKind::Long, false))
    } else if word == b"boolean".as_slice() {
        Some(scalar_type(ScalarKind::Boolean, false))
    } else if word == b"String".as_slice() {
        Some(scalar_type(ScalarKind::Text, true))
    } else if word == b"Integer".as_slice() {
        Some(scalar_type(ScalarKind::Int, true))
    } else if word == b"Long".as_slice() {
        Some(scalar_type(ScalarKind::Long, true))
    } else if word == b"Boolean".as_slice() {
        Some(scalar_type(ScalarKind::Boolean, true))
    } else {
        None
    }
}

fn scalar_type(kind: ScalarKind, boxed: bool) -> ScalarType
    ensures { result ≡ specs.scalar_type kind boxed }
{
    ScalarType { kind, boxed }
}

fn is_class(class: Option<&RowClass>, word: &[u8]) -> bool
    ensures { result ≡ specs.is_class (option_copied class.entry) word.now }
{
    match class {
        Some(class) => class.class.as_slice() == word,
        None => false,
    }
}

fn names_class(w: &Within, n: u32, word: &[u8]) -> bool
    ensures { result ≡ specs.names_class (within_of w.now) n word.now }
{
    is_class(w.map.classes.as_slice().get(n as usize), word)
}

fn class_among(w: &Within, classes: &[u32], word: &[u8]) -> Option<u32>
    ensures { result ≡ specs.class_among (within_of w.now) classes.now word.now }
{
    for n in classes {
        if names_class(w, *n, word) {
            return Some(*n);
        }
    }
    None
}

fn class_of_word(w: &Within, word: &[u8]) -> Option<u32>
    ensures { result ≡ specs.class_of_word (within_of w.now) word.now }
{
    class_among(w, w.classes, word)
}

fn plain_of_word(w: &Within, word: &[u8]) -> Option<JavaType>
    ensures { result ≡ specs.plain_of_word (within_of w.now) word.now }
{
    match scalar_of_word(word) {
        Some(t) => Some(JavaType::Scalar(t)),
        None => Some(JavaType::Row(class_of_word(w, word)?)),
    }
}

fn list_of(java: JavaType) -> Option<JavaType>
    ensures { result ≡ specs.list_of java }
{
    match java {
        JavaType::Row(class) => Some(JavaType::Rows(class)),
        JavaType::Scalar(t) => {
            if t.boxed {
                Some(JavaType::Scalars(t.kind))
            } else {
                None
            }
        }
        _ => None,
    }
}

fn set_of(binary: bool, java: JavaType) -> Option<JavaType>
    ensures { result ≡ specs.set_of binary java }
{
    match java {
        JavaType::Scalar(t) => {
            if t.boxed && (binary || !is_text_kind(t.kind)) {
                Some(JavaType::Distinct(t.kind))
            } else {
                None
            }
        }
        _ => None,
    }
}

fn spelled_to(java: JavaType, to: usize) -> Spelled
    ensures { result ≡ specs.spelled_to java to }
{
    Spelled { java, to }
}

/// The type between `<` and `>`.
pub fn argument_at(w: &Within, i: usize) -> Option<Spelled>
    ensures { result ≡ specs.argument_at (within_of w.now) i }
{
    let j = past(w, b"<", i)?;
    let element = plain_of_word(w, bytes_at(w, j))?;
    let k = next(w, j)?;
    let l = past(w, b">", k)?;
    Some(spelled_to(element, l))
}

fn listed(element: Option<Spelled>) -> Option<Spelled>
    ensures { result ≡ specs.listed element }
{
    match element {
        Some(e) => Some(spelled_to(list_of(e.java)?, e.to)),
        None => None,
    }
}

fn distinct(binary: bool, element: Option<Spelled>) -> Option<Spelled>
    ensures { result ≡ specs.distinct binary element }
{
    match element {
        Some(e) => Some(spelled_to(set_of(binary, e.java)?, e.to)),
        None => None,
    }
}

/// The type that the items from one on spell, and the number of the item behind it: `int` `long` `boolean` `String` `Integer` `Long`
/// `Boolean`, a class of the map, a `List` of a class, a boxed type or `String`, or a `Set` of one of these but a class. A set of texts is
/// seen only where the database compares texts by their bytes.
pub fn type_at(w: &Within, i: usize) -> Option<Spelled>
    ensures { result ≡ specs.type_at (within_of w.now) i }
{
    let j = next(w, i)?;
    if is_at(w, i, b"List") {
        listed(argument_at(w, j))
    } else if is_at(w, i, b"Set") {
        distinct(w.map.texts_binary, argument_at(w, j))
    } else {
        Some(spelled_to(plain_of_word(w, bytes_at(w, i))?, j))
    }
}

// ---- In what is seen

/// The name of the table that a class is seen as.
pub fn table_of<'a>(w: &Within<'a>, class: u32) -> &'a [u8]
    ensures { result.now ≡ specs.table_of (within_of w.now) class }
{
    match w.map.classes.as_slice().get(class as usize) {
        Some(class) => match w.tables.get(class.table as usize) {
            Some(table) => table.name.as_slice(),
            None => &[],
        },
        None => &[],
    }
}

/// The word of a kind.
pub fn kind_word(kind: ScalarKind) -> &'static [u8]
    ensures { result.now ≡ specs.kind_word kind }
{
    match kind {
        ScalarKind::Int => b"int",
        ScalarKind::Long => b"long",
        ScalarKind::Boolean => b"boolean",
        ScalarKind::Text => b"String",
    }
}

/// The word of a kind as an element.
pub fn element_word(kind: ScalarKind) -> &'static [u8]
    ensures { result.now ≡ specs.element_word kind }
{
    match kind {
        ScalarKind::Int => b"Integer",
        ScalarKind::Long => b"Long",
        ScalarKind::Boolean => b"Boolean",
        ScalarKind::Text => b"String",
    }
}

/// The word of what a list or set holds.
pub fn element_of_type<'a>(w: &Within<'a>, java: JavaType) -> &'a [u8]
    ensures { result.now ≡ specs.element_of_type (within_of w.now) java }
{
    match java {
        JavaType::Rows(class) => table_of(w, class),
        JavaType::Scalars(kind) | JavaType::Distinct(kind) => element_word(kind),
        _ => &[],
    }
}
