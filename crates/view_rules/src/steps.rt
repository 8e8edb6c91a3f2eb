// The items of the file one by one.
ghost use Rattle.std.specs.Prelude.{◌≡◌, map};
ghost use Rattle.view_rules.specs.Setting as specs;
ghost use Rattle.view_rules.specs.Setting.{within_of};
ghost use Rattle.view_rules.specs.Spelled.{bytes_at as bytes_of};

use crate::Within;
use qbs_base::Bytes;

/// Whether the item of a number is this word or sign.
pub fn is_at(w: &Within, i: usize, word: &[u8]) -> bool
    ensures { result ≡ specs.is_at (within_of w.now) i word.now }
{
    match w.items.get(i) {
        Some(item) => item.bytes.as_slice() == word,
        None => false,
    }
}

/// The number behind an item, where that is this word or sign.
pub fn past(w: &Within, word: &[u8], i: usize) -> Option<usize>
    ensures { result ≡ specs.past (within_of w.now) word.now i }
{
    match w.items.get(i) {
        Some(item) => {
            if item.bytes.as_slice() == word {
                Some(i + 1)
            } else {
                None
            }
        }
        None => None,
    }
}

/// The number behind items, where those are these words and signs.
pub fn past_all(w: &Within, words: &[&[u8]], i: usize) -> Option<usize>
    ensures { result ≡ specs.past_all (within_of w.now) (map (λ word. word.now) words.now) i }
{
    match words {
        [] => Some(i),
        [word, words @ ..] => past_all(w, words, past(w, word, i)?),
    }
}

/// The number behind an item, whatever it is.
pub fn next(w: &Within, i: usize) -> Option<usize>
    ensures { result ≡ specs.next (within_of w.now) i }
{
    match w.items.get(i) {
        Some(_) => Some(i + 1),
        None => None,
    }
}

/// The number that a tree names, where it is the one that was come to.
pub fn here(at: usize, i: usize) -> Option<usize>
    ensures { result ≡ specs.here at i }
{
    if at == i { Some(i) } else { None }
}

/// The bytes of an item.
pub fn bytes_at<'a>(w: &Within<'a>, i: usize) -> &'a [u8]
    ensures { result.now ≡ bytes_of (within_of w.now) i }
{
    match w.items.get(i) {
        Some(item) => item.bytes.as_slice(),
        None => &[],
    }
}

/// Whether a number is one of these.
pub fn is_number_among(n: u32, numbers: &[u32]) -> bool
    ensures { result ≡ specs.is_number_among n numbers.now }
{
    numbers.iter().any(|m| n == *m)
}

/// Whether a name is one of these.
pub fn is_name_among(name: &[u8], names: &[Bytes]) -> bool
    ensures { result ≡ specs.is_name_among name.now names.now }
{
    names.iter().any(|other| name == other.as_slice())
}

/// Whether nothing obscures the name of a class in the file.
pub fn is_clear(w: &Within, name: &[u8]) -> bool
    ensures { result ≡ specs.is_clear (within_of w.now) name.now }
{
    is_name_among(name, w.clear)
}
