// The types of columns.
ghost use Rattle.std.specs.Prelude.{◌≡◌, ◌≤◌, ◌+◌, IfOk, length, false};
ghost use Rattle.std.specs.List.{list_any};
ghost use Rattle.dump_items.specs.Bytes.{spells as word_spells};
ghost use Rattle.dump_tables.specs.Types as specs;

use crate::Sort;
use crate::parts::{behind_close, depth_after};
use crate::words::{
    begins, begins_pair, is_close, is_comma, is_dot, is_one_of, is_open, is_word, is_word_kind,
    within_quotes,
};
use dump_items::{Item, ItemKind, spells};
use qbs_base::{Bytes, NoMemory};
use std::alloc::Global;

/// What may stand behind the type of a column.
const MARKS: [&str; 36] = [
    "NOT",
    "NULL",
    "DEFAULT",
    "PRIMARY",
    "UNIQUE",
    "REFERENCES",
    "CHECK",
    "CONSTRAINT",
    "COLLATE",
    "GENERATED",
    "AUTO_INCREMENT",
    "AUTOINCREMENT",
    "IDENTITY",
    "COMMENT",
    "ON",
    "CHARSET",
    "KEY",
    "INVISIBLE",
    "VISIBLE",
    "VIRTUAL",
    "STORED",
    "PERSISTED",
    "AS",
    "ENCODING",
    "STORAGE",
    "COMPRESSION",
    "COLUMN_FORMAT",
    "SPARSE",
    "ROWGUIDCOL",
    "SELECTIVITY",
    "DEFERRABLE",
    "INITIALLY",
    "ENABLE",
    "DISABLE",
    "FIRST",
    "AFTER",
];

const WHOLE: [&str; 9] = [
    "BIGINT",
    "INTEGER",
    "INT",
    "SMALLINT",
    "TINYINT",
    "MEDIUMINT",
    "INT2",
    "INT4",
    "INT8",
];

/// Whole numbers that the database counts up.
const SERIAL: [&str; 6] = [
    "SERIAL",
    "BIGSERIAL",
    "SMALLSERIAL",
    "SERIAL2",
    "SERIAL4",
    "SERIAL8",
];

const DECIMAL: [&str; 4] = ["NUMBER", "NUMERIC", "DECIMAL", "DEC"];

const TRUTH: [&str; 2] = ["BOOLEAN", "BOOL"];

const TEXT: [&str; 12] = [
    "VARCHAR",
    "TEXT",
    "VARCHAR2",
    "NVARCHAR",
    "NVARCHAR2",
    "TINYTEXT",
    "MEDIUMTEXT",
    "LONGTEXT",
    "NTEXT",
    "CLOB",
    "NCLOB",
    "STRING",
];

const PADDED: [&str; 4] = ["CHARACTER", "CHAR", "NCHAR", "BPCHAR"];

fn is_mark(item: &Item) -> bool
    ensures { result ≡ specs.is_mark item.now }
{
    is_one_of(&MARKS, item)
}

/// Whether what stands behind the type of a column begins here.
fn begins_mark(items: &[Item]) -> bool
    ensures { result ≡ specs.begins_mark items.now }
{
    match items {
        [] => false,
        [first, ..] => is_mark(first) || begins_pair("CHARACTER", "SET", items),
    }
}

/// How many items a type has, at the front of what stands behind the name of a column.
#[tactic(auto, unfolding(crate::specs::Types::type_len))]
pub fn type_len(items: &[Item]) -> usize
    ensures value { result ≡ specs.type_len 0 items.now }
    ensures within { result ≤ length items.now }
{
    let mut depth = 0;
    let mut rest = items;
    let mut len = 0;
    while let [item, after @ ..] = rest {
        if depth == 0 && begins_mark(rest) {
            return len;
        }
        depth = depth_after(depth, item.kind);
        len += 1;
        rest = after;
    }
    len
}

fn is_spaced(kind: ItemKind) -> bool
    ensures { result ≡ specs.is_spaced kind }
{
    matches!(
        kind,
        ItemKind::Word | ItemKind::Quoted | ItemKind::Text | ItemKind::Close
    )
}

fn space_before(spaced: bool, kind: ItemKind) -> &'static [u8]
    ensures { result.now ≡ specs.space_before spaced kind }
{
    if spaced && is_word_kind(kind) {
        b" "
    } else {
        b""
    }
}

/// A type as it is spelled.
#[tactic(auto, unfolding(crate::specs::Types::spelling))]
pub fn spelling(alloc: Global, items: &[Item]) -> Result<Bytes, NoMemory>
    ensures { IfOk result (λ bs. bs ≡ specs.spelling false items.now) }
{
    let mut bytes = Vec::new(alloc);
    let mut spaced = false;
    for item in items {
        bytes.extend_from_slice(space_before(spaced, item.kind))?;
        bytes.extend_from_slice(item.bytes.as_slice())?;
        spaced = is_spaced(item.kind);
    }
    Ok(Bytes::from_vec(bytes))
}

/// Whether a word is one of these keywords.
fn one_of(keywords: &[&str], word: &[u8]) -> bool
    ensures { result ≡ list_any (λ k. word_spells k.now word.now) keywords.now }
{
    keywords.iter().any(|keyword| spells(keyword, word))
}

/// What stands behind the parentheses of a type, where it has such.
fn behind_room(items: &[Item]) -> &[Item]
    ensures { result.now ≡ specs.behind_room items.now }
{
    match items {
        [first, rest @ ..] if is_open(first.kind) => behind_close(rest),
        _ => items,
    }
}

/// Whether the items are a 1 in parentheses.
fn is_one_in_parentheses(items: &[Item]) -> bool
    ensures { result ≡ specs.is_one_in_parentheses items.now }
{
    match items {
        [open, one, close] => is_open(open.kind) && is_word("1", one) && is_close(close.kind),
        _ => false,
    }
}

/// Whether digits are a number from 1 to 18.
fn is_few_digits(digits: &[u8]) -> bool
    ensures { result ≡ specs.is_few_digits digits.now }
{
    match digits {
        [digit] => b'1' <= *digit && *digit <= b'9',
        [ten, digit] => *ten == b'1' && b'0' <= *digit && *digit <= b'8',
        _ => false,
    }
}

fn is_no_scale(items: &[Item]) -> bool
    ensures { result ≡ specs.is_no_scale items.now }
{
    match items {
        [scale, close, ..] => is_word("0", scale) && is_close(close.kind),
        _ => false,
    }
}

/// Whether a decimal number has at most 18 digits, and none behind the point.
fn is_whole_room(items: &[Item]) -> bool
    ensures { result ≡ specs.is_whole_room items.now }
{
    match items {
        [open, digits, end, rest @ ..] => is_open(open.kind)
            && is_word_kind(digits.kind)
            && is_few_digits(digits.bytes.as_slice())
            && (is_close(end.kind) || (is_comma(end.kind) && is_no_scale(rest))),
        _ => false,
    }
}

fn is_number_word(item: &Item) -> bool
    ensures { result ≡ specs.is_number_word item.now }
{
    is_one_of(&["UNSIGNED", "ZEROFILL", "SIGNED"], item)
}

fn is_unsigned_word(item: &Item) -> bool
    ensures { result ≡ specs.is_unsigned_word item.now }
{
    is_one_of(&["UNSIGNED", "ZEROFILL"], item)
}

fn are_number_words(items: &[Item]) -> bool
    ensures { result ≡ specs.are_number_words items.now }
{
    items.iter().all(|item| is_number_word(item))
}

fn has_unsigned_word(items: &[Item]) -> bool
    ensures { result ≡ specs.has_unsigned_word items.now }
{
    items.iter().any(|item| is_unsigned_word(item))
}

/// A type of whole numbers by its word and the items behind it.
fn whole_sort(word: &[u8], items: &[Item]) -> Sort
    ensures { result ≡ specs.whole_sort word.now items.now }
{
    if !are_number_words(items) {
        Sort::Other
    } else if spells("BIGINT", word) && has_unsigned_word(items) {
        Sort::Unsigned
    } else {
        Sort::Whole
    }
}

fn where_nothing(sort: Sort, items: &[Item]) -> Sort
    ensures { result ≡ specs.where_nothing sort items.now }
{
    if items.is_empty() { sort } else { Sort::Other }
}

/// A type that begins with CHARACTER or the like, by the items behind that.
fn padded_sort(items: &[Item]) -> Sort
    ensures { result ≡ specs.padded_sort items.now }
{
    if begins("VARYING", items) {
        where_nothing(Sort::Text, behind_room(&items[1..]))
    } else if begins_pair("LARGE", "OBJECT", items) {
        where_nothing(Sort::Text, behind_room(&items[2..]))
    } else {
        where_nothing(Sort::Padded, behind_room(items))
    }
}

fn is_whole_word(word: &[u8]) -> bool
    ensures { result ≡ specs.is_whole_word word.now }
{
    one_of(&WHOLE, word) || one_of(&SERIAL, word)
}

fn is_truth_word(word: &[u8]) -> bool
    ensures { result ≡ specs.is_truth_word word.now }
{
    one_of(&TRUTH, word) || spells("BIT", word)
}

fn is_one_bit(word: &[u8], items: &[Item]) -> bool
    ensures { result ≡ specs.is_one_bit word.now items.now }
{
    is_one_in_parentheses(items) && one_of(&["TINYINT", "BIT"], word)
}

fn decimal_sort(word: &[u8], items: &[Item]) -> Sort
    ensures { result ≡ specs.decimal_sort word.now items.now }
{
    if is_whole_room(items) {
        whole_sort(word, behind_room(items))
    } else {
        Sort::Other
    }
}

/// A type by its first word and the items behind it.
#[tactic(auto, unfolding(crate::specs::Types::sort_by))]
fn sort_by(word: &[u8], items: &[Item]) -> Sort
    ensures { result ≡ specs.sort_by word.now items.now }
{
    if is_one_bit(word, items) {
        Sort::Truth
    } else if is_whole_word(word) {
        whole_sort(word, behind_room(items))
    } else if one_of(&DECIMAL, word) {
        decimal_sort(word, items)
    } else if is_truth_word(word) {
        where_nothing(Sort::Truth, items)
    } else if one_of(&TEXT, word) {
        where_nothing(Sort::Text, behind_room(items))
    } else if one_of(&PADDED, word) {
        padded_sort(items)
    } else {
        Sort::Other
    }
}

fn in_brackets(bytes: &[u8]) -> &[u8]
    ensures { result.now ≡ specs.in_brackets bytes.now }
{
    match bytes {
        [b'[', ..] => within_quotes(bytes),
        _ => &[],
    }
}

/// The word of a type, none where it stands in other quotes than brackets.
fn type_word(item: &Item) -> &[u8]
    ensures { result.now ≡ specs.type_word item.now }
{
    match item.kind {
        ItemKind::Word => item.bytes.as_slice(),
        ItemKind::Quoted => in_brackets(item.bytes.as_slice()),
        _ => &[],
    }
}

/// A type without the name of PostgreSQL's own schema.
fn plain_type(items: &[Item]) -> &[Item]
    ensures { result.now ≡ specs.plain_type items.now }
{
    match items {
        [schema, dot, rest @ ..] if is_word("PG_CATALOG", schema) && is_dot(dot.kind) => rest,
        _ => items,
    }
}

/// What a type is to the language.
pub fn sort_of(items: &[Item]) -> Sort
    ensures { result ≡ specs.sort_of items.now }
{
    match plain_type(items) {
        [] => Sort::Other,
        [first, rest @ ..] => sort_by(type_word(first), rest),
    }
}

/// Whether a type is one of numbers that the database counts up.
pub fn is_serial(items: &[Item]) -> bool
    ensures { result ≡ specs.is_serial items.now }
{
    match plain_type(items) {
        [] => false,
        [first, ..] => one_of(&SERIAL, type_word(first)),
    }
}
