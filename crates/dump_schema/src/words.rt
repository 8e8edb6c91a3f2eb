// Names of the language, and its reserved words.
ghost use Rattle.std.specs.Prelude.{◌≡◌, map, IfSome, IsSome, IsUtf8};
ghost use Rattle.std.specs.List.{list_all};
ghost use Rattle.std.specs.Option.{option_copied};
ghost use Rattle.qbs_base.specs.Bytes as base;
ghost use Rattle.schema.specs.Bytes as kinds;
ghost use Rattle.schema.specs.Words.{spells as word_spells, is_among, is_reserved as is_reserved_name};
ghost use Rattle.dump_schema.specs.Names as specs;

use java_words::{is_reserved_word, is_type_word};
use qbs_base::{is_name_part, is_name_start};
use schema::keywords::spells;

/// The words of queries, which are reserved in any letter case.
const QUERY_WORDS: [&str; 17] = [
    "SELECT", "FROM", "WHERE", "GROUP", "BY", "ORDER", "LIMIT", "AND", "OR", "NOT", "EXISTS", "IN",
    "AS", "ASC", "DESC", "TRUE", "FALSE",
];

/// Whether a word is a keyword in any letter case, for some keyword.
fn spells_some(keywords: &[&str], word: &[u8]) -> bool
    ensures { result ≡ is_among word_spells (map (λ w. w.now) keywords.now) word.now }
{
    for keyword in keywords {
        if spells(keyword, word) {
            return true;
        }
    }
    false
}

/// Whether a name is reserved.
fn is_word(name: &str) -> bool
    ensures { result ≡ is_reserved_name name.now }
{
    name.as_bytes().first() == Some(&b'_')
        || spells_some(&QUERY_WORDS, name.as_bytes())
        || is_reserved_word(name)
}

/// Whether no column may have this name.
#[tactic(auto, unfolding(crate::specs::Names::is_column_word))]
pub fn is_column_word(name: &str) -> bool
    ensures { result ≡ specs.is_column_word name.now }
{
    is_word(name)
}

/// Whether no table may have this name.
#[tactic(auto, unfolding(crate::specs::Names::is_table_word))]
pub fn is_table_word(name: &str) -> bool
    ensures { result ≡ specs.is_table_word name.now }
{
    is_word(name) || is_type_word(name)
}

fn are_name_parts(rest: &[u8]) -> bool
    ensures { result ≡ list_all base.is_name_part rest.now }
{
    for byte in rest {
        if !is_name_part(*byte) {
            return false;
        }
    }
    true
}

fn is_name(name: &[u8]) -> bool
    ensures { result ≡ kinds.is_name name.now }
{
    match name {
        [] => false,
        [first, rest @ ..] => is_name_start(*first) && are_name_parts(rest),
    }
}

/// The text that bytes are, which is None where they aren't UTF-8.
fn as_text(bytes: &[u8]) -> Option<&str>
    ensures value { IfSome result (λ t. t.now ≡ bytes.now) }
    ensures some { IsUtf8 bytes.now → IsSome result }
{
    match str::from_utf8(bytes) {
        Ok(text) => Some(text),
        Err(_) => None,
    }
}

/// The name that bytes are: letters, digits and `_`, and no digit first.
pub fn name_in(bytes: &[u8]) -> Option<&str>
    ensures { option_copied result ≡ specs.name_in bytes.now }
{
    if is_name(bytes) { as_text(bytes) } else { None }
}
