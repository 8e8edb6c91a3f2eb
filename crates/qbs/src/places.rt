// Where slices stand in what is written.
ghost use Rattle.std.specs.Prelude.{◌≡◌, ◌-◌, ◌∷◌, IfSome, true, slice_get, take, drop};
ghost use Rattle.view_spell.specs.Marks as marks;
ghost use Rattle.qbs.specs.ItemBytes.{begins_at, ends_at};
ghost use Rattle.qbs.specs.SeenAgain.{words_of};

use text_patches::TextPatch;
use view_items::Item;
use view_spell::{Mark, Origin, moved, origin_of_items, past};
use view_statements::Slice;

/// The items where a slice stands in what is written.
#[derive(Clone, Copy)]
pub struct Place {
    pub from: usize,
    pub to: usize,
}

/// The item that begins at a byte.
fn item_from(items: &[Item], byte: u64) -> Option<usize>
    ensures { IfSome result (λ n. begins_at (slice_get items.now n) ≡ byte) }
{
    let number = items.partition_point(|item| (item.from as u64) < byte);
    match items.get(number) {
        Some(item) => {
            if item.from as u64 == byte {
                Some(number)
            } else {
                None
            }
        }
        None => None,
    }
}

/// The number behind the item that ends at a byte.
fn item_to(items: &[Item], byte: u64) -> Option<usize>
    ensures { IfSome result (λ n. ends_at (slice_get items.now (n - 1)) ≡ byte) }
{
    let number = items.partition_point(|item| (item.to as u64) < byte);
    match items.get(number) {
        Some(item) => {
            if item.to as u64 == byte {
                Some(number + 1)
            } else {
                None
            }
        }
        None => None,
    }
}

fn same_word(a: &Item, b: &Item) -> bool
    ensures { result ≡ true → a.now.bytes ≡ b.now.bytes }
{
    a.bytes.as_slice() == b.bytes.as_slice()
}

/// The items behind the first one, where that is the same word as another.
fn behind_word<'a>(items: &'a [Item], word: &Item) -> Option<&'a [Item]>
    ensures { IfSome result (λ behind. words_of items.now ≡ word.now.bytes ∷ words_of behind.now) }
{
    match items {
        [] => None,
        [first, behind @ ..] => {
            if same_word(first, word) {
                Some(behind)
            } else {
                None
            }
        }
    }
}

/// Whether items are the same words, one by one.
pub fn same_items(a: &[Item], b: &[Item]) -> bool
    ensures { result ≡ true → words_of a.now ≡ words_of b.now }
{
    let mut rest = b;
    for item in a {
        match behind_word(rest, item) {
            Some(behind) => rest = behind,
            None => return false,
        }
    }
    rest.is_empty()
}

/// The items from a number on.
pub fn items_from(items: &[Item], from: usize) -> &[Item]
    ensures { result.now ≡ drop from items.now }
{
    if from <= items.len() {
        &items[from..]
    } else {
        &[]
    }
}

fn first_items(items: &[Item], count: usize) -> &[Item]
    ensures { result.now ≡ take count items.now }
{
    if count <= items.len() {
        &items[..count]
    } else {
        items
    }
}

/// The items from a number up to another.
pub fn items_between(items: &[Item], from: usize, to: usize) -> &[Item]
    ensures { result.now ≡ take (to - from) (drop from items.now) }
{
    first_items(items_from(items, from), to.saturating_sub(from))
}

/// Where a slice with patches stands in what is written, and the mark behind these.
pub fn place_of(
    items: &[Item],
    written: &[Item],
    slice: &Slice,
    mark: Mark,
    patches: &[TextPatch],
) -> Option<(Place, Mark)>
    ensures from { IfSome result (λ p. begins_at (slice_get written.now p.0.from) ≡ marks.moved mark (begins_at (slice_get items.now slice.now.from))) }
    ensures to { IfSome result (λ p. ends_at (slice_get written.now (p.0.to - 1)) ≡ marks.moved (marks.past mark patches.now) (ends_at (slice_get items.now (slice.now.to - 1)))) }
    ensures behind { IfSome result (λ p. p.1 ≡ marks.past mark patches.now) }
{
    let Origin { from, to } = origin_of_items(items, slice.from, slice.to)?;
    let first = item_from(written, moved(mark, from as u64)?)?;
    let behind = past(mark, patches)?;
    let last = item_to(written, moved(behind, to as u64)?)?;
    Some((
        Place {
            from: first,
            to: last,
        },
        behind,
    ))
}
