// The names in fetch patterns and templates.
ghost use Rattle.std.specs.Prelude.{◌≡◌, ◌<◌, ◌≤◌, ◌+◌, ◌^◌, IsTrue, length, slice_get, option_copied};
ghost use Rattle.view_scope.specs.Patterns as specs;

use view_items::ItemKind;
use view_map::{Part, PatternItem};
use view_shapes::is_keyword_name;

fn is_mark(sign: &[u8], item: Option<&PatternItem>) -> bool
    ensures { result ≡ specs.is_mark sign.now (option_copied item.entry) }
{
    match item {
        None => false,
        Some(item) => item.kind == ItemKind::Sign && item.bytes.as_slice() == sign,
    }
}

/// Whether the item is a name, and no word of Java.
fn is_plain(item: Option<&PatternItem>) -> bool
    ensures { result ≡ specs.is_plain (option_copied item.entry) }
{
    match item {
        None => false,
        Some(item) => item.kind == ItemKind::Name && !is_keyword_name(item.bytes.as_slice()),
    }
}

fn is_spelled(word: &[u8], item: Option<&PatternItem>) -> bool
    ensures { result ≡ specs.is_spelled word.now (option_copied item.entry) }
{
    match item {
        None => false,
        Some(item) => item.kind == ItemKind::Name && item.bytes.as_slice() == word,
    }
}

fn is_this(item: Option<&PatternItem>) -> bool
    ensures { result ≡ specs.is_this (option_copied item.entry) }
{
    is_spelled(b"this", item)
}

/// Whether it is `this` or `new`, behind which the first name of a pattern stands.
fn is_passed(item: Option<&PatternItem>) -> bool
    ensures { result ≡ specs.is_passed (option_copied item.entry) }
{
    is_this(item) || is_spelled(b"new", item)
}

fn any_name(item: Option<&PatternItem>) -> bool
    ensures { result ≡ specs.any_name (option_copied item.entry) }
{
    match item {
        None => false,
        Some(item) => item.kind == ItemKind::Name,
    }
}

/// The bytes of an item, none where there is none.
fn bytes_of(item: Option<&PatternItem>) -> &[u8]
    ensures { result.now ≡ specs.bytes_of (option_copied item.entry) }
{
    match item {
        None => &[],
        Some(item) => item.bytes.as_slice(),
    }
}

/// The bytes of the item of a pattern with this number.
pub fn pattern_bytes(items: &[PatternItem], number: usize) -> &[u8]
    ensures { result.now ≡ specs.bytes_of (slice_get items.now number) }
{
    bytes_of(items.get(number))
}

/// Whether a name between two items stands neither behind a dot nor before a parenthesis.
#[tactic(auto, unfolding(crate::specs::Patterns::is_loose))]
fn is_loose(
    before: Option<&PatternItem>,
    item: Option<&PatternItem>,
    behind: Option<&PatternItem>,
) -> bool
    ensures { result ≡ specs.is_loose (option_copied before.entry) (option_copied item.entry) (option_copied behind.entry) }
{
    is_plain(item) && !is_mark(b".", before) && !is_mark(b"(", behind)
}

fn is_own(second: Option<&PatternItem>, first: Option<&PatternItem>) -> bool
    ensures { result ≡ specs.is_own (option_copied second.entry) (option_copied first.entry) }
{
    !is_mark(b".", first) || is_this(second)
}

/// Whether it is `super` or the name of the class, behind which what is the object's own stands too.
fn is_owner(class: &[u8], item: Option<&PatternItem>) -> bool
    ensures { result ≡ specs.is_owner class.now (option_copied item.entry) }
{
    is_spelled(class, item) || is_spelled(b"super", item)
}

fn is_owned(class: &[u8], second: Option<&PatternItem>, first: Option<&PatternItem>) -> bool
    ensures { result ≡ specs.is_owned class.now (option_copied second.entry) (option_copied first.entry) }
{
    is_own(second, first) || is_owner(class, second)
}

/// The item that stands so far before a number.
fn item_before(items: &[PatternItem], far: usize, number: usize) -> Option<&PatternItem>
    ensures { option_copied result ≡ specs.item_before items.now far number }
{
    if far <= number {
        items.get(number - far)
    } else {
        None
    }
}

/// Whether no dot stands before the item but that of `this`.
pub fn begins_own(items: &[PatternItem], number: usize) -> bool
    ensures { result ≡ specs.begins_own items.now number }
{
    is_own(item_before(items, 2, number), item_before(items, 1, number))
}

/// Whether the item is a name that stands behind no dot but that of `this`.
pub fn is_own_at(items: &[PatternItem], number: usize) -> bool
    ensures value { result ≡ specs.is_own_at items.now number }
    ensures within { IsTrue result → number < length items.now }
{
    is_plain(items.get(number)) && begins_own(items, number)
}

/// Whether a name of what is the object's own, or of its class, stands there.
fn is_owned_at(class: &[u8], items: &[PatternItem], number: usize) -> bool
    ensures value { result ≡ specs.is_owned_at class.now items.now number }
    ensures within { IsTrue result → number < length items.now }
{
    is_plain(items.get(number))
        && is_owned(
            class,
            item_before(items, 2, number),
            item_before(items, 1, number),
        )
}

/// Whether a method of the object itself is called there.
pub fn is_own_call(class: &[u8], items: &[PatternItem], number: usize) -> bool
    ensures { result ≡ specs.is_own_call class.now items.now number }
{
    is_owned_at(class, items, number) && is_mark(b"(", items.get(number + 1))
}

/// Whether a variable of the object itself, or a class, is named there.
pub fn is_variable(class: &[u8], items: &[PatternItem], number: usize) -> bool
    ensures { result ≡ specs.is_variable class.now items.now number }
{
    is_owned_at(class, items, number) && !is_mark(b"(", items.get(number + 1))
}

/// Whether a name stands there neither behind a dot nor before a parenthesis.
pub fn is_loose_at(items: &[PatternItem], number: usize) -> bool
    requires { number < length items.now }
    ensures { result ≡ specs.is_loose_at items.now number }
{
    is_loose(
        item_before(items, 1, number),
        items.get(number),
        items.get(number + 1),
    )
}

/// Whether `.class` goes on.
fn is_literal(first: Option<&PatternItem>, second: Option<&PatternItem>) -> bool
    ensures { result ≡ specs.is_literal (option_copied first.entry) (option_copied second.entry) }
{
    is_mark(b".", first) && is_spelled(b"class", second)
}

/// Whether a variable may take the name away from a class: it stands neither behind a dot nor before a parenthesis nor before `.class`.
pub fn may_be_hidden(items: &[PatternItem], number: usize) -> bool
    requires { number < length items.now }
    ensures { result ≡ specs.may_be_hidden items.now number }
{
    is_loose_at(items, number) && !is_literal(items.get(number + 1), items.get(number + 2))
}

/// How many parentheses are open behind an item.
fn open_behind(depth: usize, item: Option<&PatternItem>) -> usize
    requires { depth < 2 ^ 63 }
    ensures value { result ≡ specs.open_behind depth (option_copied item.entry) }
    ensures within { result ≤ depth + 1 }
{
    if is_mark(b"(", item) {
        depth + 1
    } else if is_mark(b")", item) {
        depth.saturating_sub(1)
    } else {
        depth
    }
}

fn ends_front(depth: usize, item: Option<&PatternItem>) -> bool
    ensures { result ≡ specs.ends_front depth (option_copied item.entry) }
{
    depth == 0 && any_name(item) && !is_passed(item)
}

fn ends_front_at(items: &[PatternItem], depth: usize, number: usize) -> bool
    ensures { result ≡ specs.ends_front depth (slice_get items.now number) }
{
    ends_front(depth, items.get(number))
}

fn open_behind_at(items: &[PatternItem], depth: usize, number: usize) -> usize
    requires { depth < 2 ^ 63 }
    ensures value { result ≡ specs.open_behind depth (slice_get items.now number) }
    ensures within { result ≤ depth + 1 }
{
    open_behind(depth, items.get(number))
}

/// The number behind the first name of a pattern that stands outside of parentheses, `this` and `new` aside; its length, where none does.
#[tactic(auto, using(crate::proofs::Fronts::front_in_over, crate::proofs::Fronts::front_in_next, crate::proofs::Fronts::front_in_end))]
fn front_end(items: &[PatternItem]) -> usize
    ensures { result ≡ specs.front_end items.now }
{
    let mut number = 0;
    let mut depth = 0;
    let mut left = items.len();
    while left > 0 {
        left -= 1;
        if ends_front_at(items, depth, number) {
            return number + 1;
        }
        depth = open_behind_at(items, depth, number);
        number += 1;
    }
    number
}

/// The number of the first name of a pattern that stands outside of parentheses: casts, `this` and `new` are passed over.
pub fn first_at(items: &[PatternItem]) -> usize
    ensures { result ≡ specs.first_at items.now }
{
    front_end(items).saturating_sub(1)
}

// ---- Templates

/// The item that a part is.
fn item_in(part: Option<&Part>) -> Option<&PatternItem>
    ensures { option_copied result ≡ specs.item_in (option_copied part.entry) }
{
    match part {
        Some(Part::Item(item)) => Some(item),
        _ => None,
    }
}

fn item_of(parts: &[Part], number: usize) -> Option<&PatternItem>
    ensures { option_copied result ≡ specs.item_of parts.now number }
{
    item_in(parts.get(number))
}

fn part_before(parts: &[Part], number: usize) -> Option<&PatternItem>
    ensures { option_copied result ≡ specs.part_before parts.now number }
{
    if number == 0 {
        None
    } else {
        item_of(parts, number - 1)
    }
}

/// The bytes of the item that a part is, none where it is a hole.
pub fn part_bytes(parts: &[Part], number: usize) -> &[u8]
    ensures { result.now ≡ specs.bytes_of (specs.item_of parts.now number) }
{
    bytes_of(item_of(parts, number))
}

/// Whether a part is a name that stands neither behind a dot nor before a parenthesis.
pub fn is_loose_part(parts: &[Part], number: usize) -> bool
    requires { number < length parts.now }
    ensures { result ≡ specs.is_loose_part parts.now number }
{
    is_loose(
        part_before(parts, number),
        item_of(parts, number),
        item_of(parts, number + 1),
    )
}

/// The item that stands so far before a number.
fn part_far_before(parts: &[Part], far: usize, number: usize) -> Option<&PatternItem>
    ensures { option_copied result ≡ specs.part_far_before parts.now far number }
{
    if far <= number {
        item_of(parts, number - far)
    } else {
        None
    }
}

fn is_owned_part(class: &[u8], parts: &[Part], number: usize) -> bool
    ensures { result ≡ specs.is_owned_part class.now parts.now number }
{
    is_plain(item_of(parts, number))
        && is_owned(
            class,
            part_far_before(parts, 2, number),
            part_far_before(parts, 1, number),
        )
}

/// Whether a template calls a method of the object itself there.
pub fn is_own_part_call(class: &[u8], parts: &[Part], number: usize) -> bool
    requires { number < length parts.now }
    ensures { result ≡ specs.is_own_part_call class.now parts.now number }
{
    is_owned_part(class, parts, number) && is_mark(b"(", item_of(parts, number + 1))
}

/// Whether a template names a variable of the object itself, or a class, there.
pub fn is_part_variable(class: &[u8], parts: &[Part], number: usize) -> bool
    requires { number < length parts.now }
    ensures { result ≡ specs.is_part_variable class.now parts.now number }
{
    is_owned_part(class, parts, number) && !is_mark(b"(", item_of(parts, number + 1))
}

/// Whether a variable may take the name of a template there away from a class.
pub fn may_part_be_hidden(parts: &[Part], number: usize) -> bool
    requires { number < length parts.now }
    ensures { result ≡ specs.may_part_be_hidden parts.now number }
{
    is_loose_part(parts, number)
        && !is_literal(item_of(parts, number + 1), item_of(parts, number + 2))
}

fn part_ends_front(parts: &[Part], depth: usize, number: usize) -> bool
    ensures { result ≡ specs.ends_front depth (specs.item_of parts.now number) }
{
    ends_front(depth, item_of(parts, number))
}

fn open_behind_part(parts: &[Part], depth: usize, number: usize) -> usize
    requires { depth < 2 ^ 63 }
    ensures value { result ≡ specs.open_behind depth (specs.item_of parts.now number) }
    ensures within { result ≤ depth + 1 }
{
    open_behind(depth, item_of(parts, number))
}

/// The number behind the first name of parts that stands outside of parentheses, `this` and `new` aside; their length, where none does.
#[tactic(auto, using(crate::proofs::Fronts::part_front_over, crate::proofs::Fronts::part_front_next, crate::proofs::Fronts::part_front_end))]
fn front_of_parts(parts: &[Part]) -> usize
    ensures { result ≡ specs.front_of_parts parts.now }
{
    let mut number = 0;
    let mut depth = 0;
    let mut left = parts.len();
    while left > 0 {
        left -= 1;
        if part_ends_front(parts, depth, number) {
            return number + 1;
        }
        depth = open_behind_part(parts, depth, number);
        number += 1;
    }
    number
}

/// The bytes of the first name of a template's front.
pub fn first_of_parts(parts: &[Part]) -> &[u8]
    ensures { result.now ≡ specs.first_of_parts parts.now }
{
    part_bytes(parts, front_of_parts(parts).saturating_sub(1))
}
