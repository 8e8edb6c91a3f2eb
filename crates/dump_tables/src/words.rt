// Keywords and names among the items of a dump.
ghost use Rattle.std.specs.Prelude.{◌≡◌, ◌≤◌, [], ◌∷◌, drop, length};
ghost use Rattle.std.specs.List.{list_any, prefix_len};
ghost use Rattle.dump_tables.specs.Words as specs;

use dump_items::{Item, ItemKind, spells};

pub fn is_word_kind(kind: ItemKind) -> bool
    ensures { result ≡ specs.is_word_kind kind }
{
    matches!(kind, ItemKind::Word)
}

pub fn is_quoted(kind: ItemKind) -> bool
    ensures { result ≡ specs.is_quoted kind }
{
    matches!(kind, ItemKind::Quoted)
}

pub fn is_name(kind: ItemKind) -> bool
    ensures { result ≡ specs.is_name kind }
{
    matches!(kind, ItemKind::Word | ItemKind::Quoted)
}

pub fn is_open(kind: ItemKind) -> bool
    ensures { result ≡ specs.is_open kind }
{
    matches!(kind, ItemKind::Open)
}

pub fn is_close(kind: ItemKind) -> bool
    ensures { result ≡ specs.is_close kind }
{
    matches!(kind, ItemKind::Close)
}

pub fn is_comma(kind: ItemKind) -> bool
    ensures { result ≡ specs.is_comma kind }
{
    matches!(kind, ItemKind::Comma)
}

pub fn is_dot(kind: ItemKind) -> bool
    ensures { result ≡ specs.is_dot kind }
{
    matches!(kind, ItemKind::Dot)
}

/// Whether an item is this keyword, in any letter case and without quotes.
pub fn is_word(keyword: &str, item: &Item) -> bool
    ensures { result ≡ specs.is_word keyword.now item.now }
{
    is_word_kind(item.kind) && spells(keyword, item.bytes.as_slice())
}

/// Whether an item is one of these keywords.
pub fn is_one_of(keywords: &[&str], item: &Item) -> bool
    ensures { result ≡ list_any (λ k. specs.is_word k.now item.now) keywords.now }
{
    keywords.iter().any(|keyword| is_word(keyword, item))
}

/// Whether items begin with a keyword.
pub fn begins(keyword: &str, items: &[Item]) -> bool
    ensures { result ≡ specs.begins (keyword.now ∷ []) items.now }
{
    match items {
        [] => false,
        [first, ..] => is_word(keyword, first),
    }
}

/// Whether items begin with two keywords.
pub fn begins_pair(first: &str, second: &str, items: &[Item]) -> bool
    ensures { result ≡ specs.begins (first.now ∷ second.now ∷ []) items.now }
{
    match items {
        [] => false,
        [item, rest @ ..] => is_word(first, item) && begins(second, rest),
    }
}

/// Whether items begin with three keywords.
pub fn begins_three(first: &str, second: &str, third: &str, items: &[Item]) -> bool
    ensures { result ≡ specs.begins (first.now ∷ second.now ∷ third.now ∷ []) items.now }
{
    match items {
        [] => false,
        [item, rest @ ..] => is_word(first, item) && begins_pair(second, third, rest),
    }
}

/// The items behind a keyword, where they begin with it, and else all of them.
pub fn without<'a>(keyword: &str, items: &'a [Item]) -> &'a [Item]
    ensures { result.now ≡ specs.without (keyword.now ∷ []) items.now }
{
    if begins(keyword, items) {
        &items[1..]
    } else {
        items
    }
}

/// The items behind IF NOT EXISTS, where they begin with it, and else all of them.
pub fn without_if_not_exists(items: &[Item]) -> &[Item]
    ensures { result.now ≡ specs.without specs.if_not_exists items.now }
{
    if begins_three("IF", "NOT", "EXISTS", items) {
        &items[3..]
    } else {
        items
    }
}

/// How many of these keywords stand at the front.
fn words_len(keywords: &[&str], items: &[Item]) -> usize
    ensures value { result ≡ prefix_len (λ i. list_any (λ k. specs.is_word k.now i) keywords.now) items.now }
    ensures within { result ≤ length items.now }
{
    items
        .iter()
        .take_while(|item| is_one_of(keywords, item))
        .count()
}

/// The items behind all of these keywords that stand at the front.
pub fn without_words<'a>(keywords: &[&str], items: &'a [Item]) -> &'a [Item]
    ensures { result.now ≡ drop (prefix_len (λ i. list_any (λ k. specs.is_word k.now i) keywords.now) items.now) items.now }
{
    &items[words_len(keywords, items)..]
}

/// What stands within the quotes of a quoted name.
pub fn within_quotes(bytes: &[u8]) -> &[u8]
    ensures { result.now ≡ specs.within_quotes bytes.now }
{
    match bytes {
        [_, inside @ .., _] => inside,
        _ => &[],
    }
}

/// What a name means: in quotes what stands between them.
pub fn meaning(item: &Item) -> &[u8]
    ensures { result.now ≡ specs.meaning item.now }
{
    if is_quoted(item.kind) {
        within_quotes(item.bytes.as_slice())
    } else {
        item.bytes.as_slice()
    }
}
