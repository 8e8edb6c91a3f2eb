// Reserved names.
ghost use Rattle.std.specs.Prelude.{◌≡◌, map, codes};
ghost use Rattle.schema.specs.Words.{spells as word_spells, is_among, is_reserved as is_reserved_name, is_reserved_table as is_reserved_table_name};

use java_words::{is_reserved_word, is_type_word};
use schema::keywords::spells;

/// The words of queries, which are reserved in any letter case.
const QUERY_WORDS: [&str; 17] = [
    "SELECT", "FROM", "WHERE", "GROUP", "BY", "ORDER", "LIMIT", "AND", "OR", "NOT", "EXISTS", "IN",
    "AS", "ASC", "DESC", "TRUE", "FALSE",
];

/// Whether a word is a keyword in any letter case, for some keyword.
fn spells_some(keywords: &[&str], word: &[u8]) -> bool
    ensures { result ≡ is_among word_spells (map (λ w. w.now) keywords.now) word.now }
{
    for keyword in keywords {
        if spells(keyword, word) {
            return true;
        }
    }
    false
}

/// Whether no column may have this name.
pub fn is_reserved(name: &str) -> bool
    ensures { result ≡ is_reserved_name name.now }
{
    name.as_bytes().first() == Some(&b'_')
        || spells_some(&QUERY_WORDS, name.as_bytes())
        || is_reserved_word(name)
}

/// Whether no table may have this name.
pub fn is_reserved_table(name: &str) -> bool
    ensures { result ≡ is_reserved_table_name name.now }
{
    is_reserved(name) || is_type_word(name)
}
