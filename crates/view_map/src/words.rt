// Names and words among the items of a map.
ghost use Rattle.std.specs.Prelude.{◌≡◌, IsTrue, IfOk, Some};
ghost use Rattle.std.specs.List.{AllPass};
ghost use Rattle.view_map.specs.Reading as reading;
ghost use Rattle.view_map.specs.Words as specs;

use crate::draft::Placed;
use crate::model::{ScalarKind, ScalarType};
use java_words::is_among;
use qbs_base::{Name, NoMemory, Ty, is_name_part};
use std::alloc::Global;
use view_items::{Item, ItemKind};

/// The words of Java that are no names.
const JAVA_KEYWORDS: [&str; 54] = [
    "abstract",
    "assert",
    "boolean",
    "break",
    "byte",
    "case",
    "catch",
    "char",
    "class",
    "const",
    "continue",
    "default",
    "do",
    "double",
    "else",
    "enum",
    "extends",
    "false",
    "final",
    "finally",
    "float",
    "for",
    "goto",
    "if",
    "implements",
    "import",
    "instanceof",
    "int",
    "interface",
    "long",
    "native",
    "new",
    "null",
    "package",
    "private",
    "protected",
    "public",
    "return",
    "short",
    "static",
    "strictfp",
    "super",
    "switch",
    "synchronized",
    "this",
    "throw",
    "throws",
    "transient",
    "true",
    "try",
    "void",
    "volatile",
    "while",
    "_",
];

pub fn is_name_kind(kind: ItemKind) -> bool
    ensures { result ≡ specs.is_name_kind kind }
{
    matches!(kind, ItemKind::Name)
}

pub fn is_number_kind(kind: ItemKind) -> bool
    ensures { result ≡ specs.is_number_kind kind }
{
    matches!(kind, ItemKind::Number)
}

pub fn is_text_kind(kind: ItemKind) -> bool
    ensures { result ≡ specs.is_text_kind kind }
{
    matches!(kind, ItemKind::Text)
}

pub fn is_literal_kind(kind: ItemKind) -> bool
    ensures { result ≡ specs.is_literal_kind kind }
{
    !matches!(kind, ItemKind::Name | ItemKind::Sign)
}

/// Whether these bytes are the item.
pub fn is_spelled(word: &str, item: &Item) -> bool
    ensures { result ≡ specs.is_spelled word.now item.now }
{
    item.bytes.as_slice() == word.as_bytes()
}

fn is_plain_byte(byte: u8) -> bool
    ensures { result ≡ specs.is_plain_byte byte }
{
    is_name_part(byte) || byte == b'$'
}

fn are_plain(bytes: &[u8]) -> bool
    ensures value { result ≡ specs.are_plain bytes.now }
    ensures passes { IsTrue result → AllPass specs.is_plain_byte bytes.now }
{
    bytes.iter().all(|byte| is_plain_byte(*byte))
}

/// The bytes as text.
fn text_of(alloc: Global, bytes: &[u8]) -> Result<Name, NoMemory>
    requires { AllPass specs.is_plain_byte bytes.now }
    ensures { IfOk result (λ t. t ≡ bytes.now) }
{
    let mut text = String::new(alloc);
    for byte in bytes {
        text.push(char::from(*byte))?;
    }
    Ok(Name::from_string(text))
}

fn java_type(kind: ScalarKind, boxed: bool) -> Option<ScalarType>
    ensures { result ≡ Some (specs.scalar_type kind boxed) }
{
    Some(ScalarType { kind, boxed })
}

/// The type that a word spells.
pub fn type_of(word: &[u8]) -> Option<ScalarType>
    ensures { result ≡ specs.type_of word.now }
{
    if word == "int".as_bytes() {
        java_type(ScalarKind::Int, false)
    } else if word == "long".as_bytes() {
        java_type(ScalarKind::Long, false)
    } else if word == "boolean".as_bytes() {
        java_type(ScalarKind::Boolean, false)
    } else if word == "Integer".as_bytes() {
        java_type(ScalarKind::Int, true)
    } else if word == "Long".as_bytes() {
        java_type(ScalarKind::Long, true)
    } else if word == "Boolean".as_bytes() {
        java_type(ScalarKind::Boolean, true)
    } else if word == "String".as_bytes() {
        java_type(ScalarKind::Text, true)
    } else {
        None
    }
}

/// Whether a type is primitive, or `String`.
pub fn is_constant_type(java: ScalarType) -> bool
    ensures { result ≡ specs.is_constant_type java }
{
    !java.boxed || matches!(java.kind, ScalarKind::Text)
}

/// Whether a Java type is one of a column's.
pub fn fits_column(kind: ScalarKind, ty: Ty) -> bool
    ensures { result ≡ specs.fits_column kind ty }
{
    match (kind, ty) {
        (ScalarKind::Int, Ty::Long) => true,
        (ScalarKind::Long, Ty::Long) => true,
        (ScalarKind::Boolean, Ty::Bool) => true,
        (ScalarKind::Text, Ty::Text) => true,
        _ => false,
    }
}

/// Whether a literal of a type may be assigned to another.
pub fn fits_literal(kind: ScalarKind, literal: ScalarKind) -> bool
    ensures { result ≡ specs.fits_literal kind literal }
{
    match (kind, literal) {
        (ScalarKind::Int, ScalarKind::Int) => true,
        (ScalarKind::Long, ScalarKind::Int) => true,
        (ScalarKind::Long, ScalarKind::Long) => true,
        (ScalarKind::Boolean, ScalarKind::Boolean) => true,
        (ScalarKind::Text, ScalarKind::Text) => true,
        _ => false,
    }
}

/// The name that an item is, of letters, digits, `_` and `$` alone.
pub fn word_in(alloc: Global, item: &Item) -> Result<Option<Placed>, NoMemory>
    ensures { IfOk result (λ word. word ≡ reading.word_in item.now) }
{
    let bytes = item.bytes.as_slice();
    if !is_name_kind(item.kind) || !are_plain(bytes) {
        return Ok(None);
    }
    Ok(Some(Placed {
        name: text_of(alloc, bytes)?,
        at: item.from,
    }))
}

fn is_keyword(name: &Name) -> bool
    ensures { result ≡ specs.is_keyword name.now }
{
    is_among(name.as_str(), &JAVA_KEYWORDS)
}

fn no_keyword(word: Placed) -> Option<Placed>
    ensures { result ≡ reading.no_keyword word }
{
    if is_keyword(&word.name) {
        None
    } else {
        Some(word)
    }
}

/// The name that an item is, where it is none of the words of Java.
pub fn name_in(alloc: Global, item: &Item) -> Result<Option<Placed>, NoMemory>
    ensures { IfOk result (λ name. name ≡ reading.name_in item.now) }
{
    match word_in(alloc, item)? {
        None => Ok(None),
        Some(word) => Ok(no_keyword(word)),
    }
}
