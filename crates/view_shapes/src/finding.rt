// What stands at a number of a list of items, and the first of what is sought outside of brackets.
ghost use Rattle.std.specs.Prelude.{◌≡◌, ◌<◌, ◌≤◌, false, map, IfSome, length, IsTrue};
ghost use Rattle.view_shapes.specs.Found as specs;

use view_items::{Item, ItemKind, closes, opens, sign_of};

/// What is sought outside of brackets.
#[derive(Clone, Copy)]
pub enum Sought {
    Semicolon,
    /// `{`
    Brace,
    /// The word `class` that no dot stands before.
    Class,
}

fn same_kind(one: ItemKind, other: ItemKind) -> bool
    ensures { result ≡ specs.same_kind one other }
{
    one == other
}

pub fn has_kind(kind: ItemKind, items: &[Item], number: usize) -> bool
    ensures value { result ≡ specs.has_kind kind items.now number }
    ensures within { IsTrue result → number < length items.now }
{
    match items.get(number) {
        None => false,
        Some(item) => same_kind(item.kind, kind),
    }
}

fn is_item(kind: ItemKind, bytes: &[u8], items: &[Item], number: usize) -> bool
    ensures value { result ≡ specs.is_item kind bytes.now items.now number }
    ensures within { IsTrue result → number < length items.now }
{
    match items.get(number) {
        None => false,
        Some(item) => same_kind(item.kind, kind) && item.bytes.as_slice() == bytes,
    }
}

/// Whether the item with this number is this word.
pub fn is_word(word: &str, items: &[Item], number: usize) -> bool
    ensures value { result ≡ specs.is_word word.now items.now number }
    ensures within { IsTrue result → number < length items.now }
{
    is_item(ItemKind::Name, word.as_bytes(), items, number)
}

/// Whether the item with this number is this sign.
pub fn is_sign(sign: &str, items: &[Item], number: usize) -> bool
    ensures value { result ≡ specs.is_sign sign.now items.now number }
    ensures within { IsTrue result → number < length items.now }
{
    is_item(ItemKind::Sign, sign.as_bytes(), items, number)
}

/// Whether the item with this number is the name of these bytes.
pub fn has_name(items: &[Item], name: &[u8], number: usize) -> bool
    ensures value { result ≡ specs.is_word name.now items.now number }
    ensures within { IsTrue result → number < length items.now }
{
    is_item(ItemKind::Name, name, items, number)
}

/// Whether the item with this number is a name or a word of the language.
pub fn is_name(items: &[Item], number: usize) -> bool
    ensures value { result ≡ specs.is_name items.now number }
    ensures within { IsTrue result → number < length items.now }
{
    has_kind(ItemKind::Name, items, number)
}

/// Whether the item with this number is one of these words.
pub fn is_one_of_words(words: &[&str], items: &[Item], number: usize) -> bool
    ensures value { result ≡ specs.is_one_of_words (map (λ w. w.now) words.now) items.now number }
    ensures within { IsTrue result → number < length items.now }
{
    match words {
        [] => false,
        [word, words @ ..] => {
            is_word(word, items, number) || is_one_of_words(words, items, number)
        }
    }
}

/// Whether the item with this number is one of these signs.
pub fn is_one_of_signs(signs: &[&str], items: &[Item], number: usize) -> bool
    ensures value { result ≡ specs.is_one_of_signs (map (λ s. s.now) signs.now) items.now number }
    ensures within { IsTrue result → number < length items.now }
{
    match signs {
        [] => false,
        [sign, signs @ ..] => {
            is_sign(sign, items, number) || is_one_of_signs(signs, items, number)
        }
    }
}

fn is_opening(items: &[Item], number: usize) -> bool
    ensures { result ≡ specs.is_opening items.now number }
{
    match items.get(number) {
        None => false,
        Some(item) => opens(sign_of(item)),
    }
}

/// Whether there is no item with this number, or it is a closing bracket.
pub fn is_over(items: &[Item], number: usize) -> bool
    ensures value { result ≡ specs.is_over items.now number }
    ensures within { result ≡ false → number < length items.now }
{
    match items.get(number) {
        None => true,
        Some(item) => closes(sign_of(item)),
    }
}

/// The number of the closing bracket, where the item with this number opens one; it is that of an item further on.
pub fn closing_at(items: &[Item], closings: &[usize], number: usize) -> Option<usize>
    ensures value { result ≡ specs.closing_at items.now closings.now number }
    ensures within { IfSome result (λ c. (number < c) × (c < length items.now)) }
{
    match closings.get(number) {
        Some(closing) if number < *closing && *closing < items.len() => Some(*closing),
        _ => None,
    }
}

/// The number behind the closing bracket.
pub fn behind(items: &[Item], closings: &[usize], number: usize) -> Option<usize>
    ensures value { result ≡ specs.behind items.now closings.now number }
    ensures within { IfSome result (λ m. (number < m) × (m ≤ length items.now)) }
{
    let closing = closing_at(items, closings, number)?;
    Some(closing + 1)
}

/// The number behind an item, or behind the brackets that it opens.
pub fn step_over(items: &[Item], closings: &[usize], number: usize) -> Option<usize>
    requires { number < length items.now }
    ensures value { result ≡ specs.step_over items.now closings.now number }
    ensures within { IfSome result (λ m. (number < m) × (m ≤ length items.now)) }
{
    if is_opening(items, number) {
        behind(items, closings, number)
    } else {
        Some(number + 1)
    }
}

fn is_sought(sought: Sought, items: &[Item], number: usize) -> bool
    ensures { result ≡ specs.is_sought sought items.now number }
{
    match sought {
        Sought::Semicolon => is_sign(";", items, number),
        Sought::Brace => is_sign("{", items, number),
        Sought::Class => {
            is_word("class", items, number) && !(number > 0 && is_sign(".", items, number - 1))
        }
    }
}

/// The number of the first item of what is sought from a number on, outside of brackets that are opened from there on. Time goes with
/// the number of items that are passed.
#[tactic(auto, using(crate::proofs::Looking::found_here, crate::proofs::Looking::found_over, crate::proofs::Looking::found_stuck, crate::proofs::Looking::found_next, crate::proofs::Looking::found_end))]
pub fn found(sought: Sought, items: &[Item], closings: &[usize], first: usize) -> Option<usize>
    ensures value { result ≡ specs.found sought items.now closings.now first }
    ensures within { IfSome result (λ k. (first ≤ k) × (k < length items.now)) }
{
    let mut number = first;
    for _ in 0..items.len() {
        if is_sought(sought, items, number) {
            return Some(number);
        }
        if is_over(items, number) {
            return None;
        }
        number = step_over(items, closings, number)?;
    }
    None
}
