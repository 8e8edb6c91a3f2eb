// Templates of queries.
ghost use Rattle.std.specs.Prelude.{◌≡◌, ◌<◌, ◌≤◌, ◌+◌, IfOk, length, drop};
ghost use Rattle.view_map.specs.Templates as specs;

use crate::model::{Part, QueryKind, Template};
use crate::patterns::{is_close, is_open, pattern_item};
use crate::words::{is_name_kind, is_spelled};
use qbs_base::{Items, NoMemory};
use std::alloc::Global;
use view_items::{Item, items};

fn is_hole(item: &Item) -> bool
    ensures { result ≡ specs.is_hole item.now }
{
    is_spelled("$sql", item)
        || is_spelled("$type", item)
        || is_spelled("$i", item)
        || is_spelled("$arg", item)
}

fn count(word: &str, items: &[Item]) -> usize
    ensures value { result ≡ specs.count word.now items.now }
    ensures within { result ≤ length items.now }
{
    items.iter().filter(|item| is_spelled(word, item)).count()
}

fn mentions(word: &str, items: &[Item]) -> bool
    ensures { result ≡ specs.mentions word.now items.now }
{
    items.iter().any(|item| is_spelled(word, item))
}

/// Whether an item that is no hole stands first.
fn begins_with_item(items: &[Item]) -> bool
    ensures { result ≡ specs.begins_with_item items.now }
{
    match items {
        [] => false,
        [first, ..] => !is_hole(first),
    }
}

fn len_before(word: &str, items: &[Item]) -> usize
    ensures value { result ≡ specs.len_before word.now items.now }
    ensures within { result ≤ length items.now }
{
    items
        .iter()
        .take_while(|item| !is_spelled(word, item))
        .count()
}

/// What stands before the first item of these bytes.
fn before<'a>(word: &str, items: &'a [Item]) -> &'a [Item]
    ensures { result.now ≡ specs.before word.now items.now }
{
    &items[..len_before(word, items)]
}

fn behind_first(items: &[Item]) -> &[Item]
    ensures { result.now ≡ drop 1 items.now }
{
    match items {
        [] => items,
        [_, ..] => &items[1..],
    }
}

/// What stands behind the first item of these bytes.
fn behind<'a>(word: &str, items: &'a [Item]) -> &'a [Item]
    ensures { result.now ≡ specs.behind word.now items.now }
{
    behind_first(&items[len_before(word, items)..])
}

fn types_of(kind: QueryKind) -> usize
    ensures { result ≡ specs.types_of kind }
{
    match kind {
        QueryKind::List => 1,
        QueryKind::Long | QueryKind::Boolean => 0,
    }
}

/// Whether the brackets that these items open are closed among them.
#[tactic(auto, unfolding(crate::specs::Templates::are_closed))]
fn are_closed(items: &[Item]) -> bool
    ensures { result ≡ specs.are_closed 0 items.now }
{
    let mut depth: usize = 0;
    let mut rest = items;
    while let [item, after @ ..] = rest {
        if is_open(item) {
            depth += 1;
        } else if is_close(item) {
            if depth == 0 {
                return false;
            }
            depth -= 1;
        }
        rest = after;
    }
    depth == 0
}

/// Whether there is one pair of braces.
fn has_braces(items: &[Item]) -> bool
    ensures { result ≡ specs.has_braces items.now }
{
    count("{", items) == 1 && count("}", items) == 1 && mentions("}", behind("{", items))
}

/// Whether a hole stands so often in front of the braces and behind them.
fn stands(word: &str, times: usize, front: &[Item], back: &[Item]) -> bool
    ensures { result ≡ specs.stands word.now times front.now back.now }
{
    match times.checked_sub(count(word, front)) {
        None => false,
        Some(behind) => count(word, back) == behind,
    }
}

/// Whether a hole stands nowhere outside of the braces.
fn is_nowhere(word: &str, front: &[Item], back: &[Item]) -> bool
    ensures { result ≡ specs.is_nowhere word.now front.now back.now }
{
    !mentions(word, front) && !mentions(word, back)
}

fn is_outside(kind: QueryKind, front: &[Item], back: &[Item]) -> bool
    ensures { result ≡ specs.is_outside kind front.now back.now }
{
    stands("$sql", 1, front, back)
        && stands("$type", types_of(kind), front, back)
        && is_nowhere("$arg", front, back)
        && is_nowhere("$i", front, back)
}

fn is_inside(each: &[Item]) -> bool
    ensures { result ≡ specs.is_inside each.now }
{
    count("$arg", each) == 1
        && !mentions("$sql", each)
        && !mentions("$type", each)
        && are_closed(each)
}

fn is_before_lambdas(front: &[Item], each: &[Item]) -> bool
    ensures { result ≡ specs.is_before_lambdas front.now each.now }
{
    !mentions("->", front) && !mentions("->", before("$arg", each))
}

/// What stands in front of the braces.
fn front_of(items: &[Item]) -> &[Item]
    ensures { result.now ≡ specs.front_of items.now }
{
    before("{", items)
}

/// What stands between the braces.
fn each_of(items: &[Item]) -> &[Item]
    ensures { result.now ≡ specs.each_of items.now }
{
    before("}", behind("{", items))
}

/// What stands behind the braces.
fn back_of(items: &[Item]) -> &[Item]
    ensures { result.now ≡ specs.back_of items.now }
{
    behind("}", behind("{", items))
}

fn are_pieces(kind: QueryKind, front: &[Item], each: &[Item], back: &[Item]) -> bool
    ensures { result ≡ specs.are_pieces kind front.now each.now back.now }
{
    begins_with_item(front)
        && begins_with_item(each)
        && is_outside(kind, front, back)
        && is_inside(each)
        && is_before_lambdas(front, each)
}

/// Whether items are a template of this kind.
pub fn is_template(kind: QueryKind, items: &[Item]) -> bool
    ensures { result ≡ specs.is_template kind items.now }
{
    has_braces(items) && are_pieces(kind, front_of(items), each_of(items), back_of(items))
}

fn part_of(alloc: Global, item: &Item) -> Result<Part, NoMemory>
    ensures { IfOk result (λ p. p ≡ specs.part_of item.now) }
{
    if is_spelled("$sql", item) {
        Ok(Part::Sql)
    } else if is_spelled("$type", item) {
        Ok(Part::Type)
    } else if is_spelled("$i", item) {
        Ok(Part::Number)
    } else if is_spelled("$arg", item) {
        Ok(Part::Argument)
    } else {
        Ok(Part::Item(pattern_item(alloc, item)?))
    }
}

fn parts_of(alloc: Global, items: &[Item]) -> Result<Items<Part>, NoMemory>
    ensures { IfOk result (λ ps. ps ≡ specs.parts_of items.now) }
{
    let mut list = Items::new(alloc);
    for item in items {
        list.push(part_of(alloc, item)?)?;
    }
    Ok(list)
}

/// The template of these items.
pub fn template_of(alloc: Global, kind: QueryKind, items: &[Item]) -> Result<Template, NoMemory>
    ensures { IfOk result (λ t. t ≡ specs.template_of kind items.now) }
{
    Ok(Template {
        kind,
        front: parts_of(alloc, front_of(items))?,
        each: parts_of(alloc, each_of(items))?,
        back: parts_of(alloc, back_of(items))?,
    })
}

fn default_text(kind: QueryKind) -> &'static [u8]
    ensures { result.now ≡ specs.default_text kind }
{
    match kind {
        QueryKind::List => b"db.query($type.class, $sql {, $arg})",
        QueryKind::Long => b"db.queryLong($sql {, $arg})",
        QueryKind::Boolean => b"db.queryBoolean($sql {, $arg})",
    }
}

/// The template where the map gives none.
#[tactic(auto, unfolding(crate::specs::Templates::default_template))]
fn default_template(alloc: Global, kind: QueryKind) -> Result<Template, NoMemory>
    ensures { IfOk result (λ t. t ≡ specs.default_template kind) }
{
    let items = items(alloc, default_text(kind))?;
    template_of(alloc, kind, items.as_slice())
}

/// The template that is given, or the one where none is.
pub fn template_or(
    alloc: Global,
    kind: QueryKind,
    given: Option<Template>,
) -> Result<Template, NoMemory>
    ensures { IfOk result (λ t. t ≡ specs.template_or kind given) }
{
    match given {
        Some(template) => Ok(template),
        None => default_template(alloc, kind),
    }
}

/// Whether a part may stand where the other does.
fn fits(part: &Part, other: &Part) -> bool
    ensures { result ≡ specs.fits part.now other.now }
{
    match (part, other) {
        (Part::Item(a), Part::Item(b)) => a.bytes.as_slice() == b.bytes.as_slice(),
        (Part::Type, Part::Item(b)) => is_name_kind(b.kind),
        (Part::Sql, Part::Sql) => true,
        (Part::Type, Part::Type) => true,
        (Part::Number, Part::Number) => true,
        (Part::Argument, Part::Argument) => true,
        _ => false,
    }
}

/// Whether parts fit those with which others begin.
#[tactic(auto, unfolding(crate::specs::Templates::fits_front))]
fn fits_front(parts: &[Part], others: &[Part]) -> bool
    ensures { result ≡ specs.fits_front parts.now others.now }
{
    let mut others = others;
    for part in parts {
        match others {
            [] => return false,
            [other, rest @ ..] => {
                if !fits(part, other) {
                    return false;
                }
                others = rest;
            }
        }
    }
    true
}

fn fits_all(parts: &[Part], others: &[Part]) -> bool
    ensures { result ≡ specs.fits_all parts.now others.now }
{
    parts.len() == others.len() && fits_front(parts, others)
}

/// Whether a call without arguments that fits a template begins as one that fits the other.
fn is_front(template: &Template, other: &Template) -> bool
    ensures { result ≡ specs.is_front template.now other.now }
{
    fits_all(template.front.as_slice(), other.front.as_slice())
        && fits_front(template.back.as_slice(), other.back.as_slice())
}

/// Whether one of two templates is the front of the other.
pub fn hide(template: &Template, other: &Template) -> bool
    ensures { result ≡ specs.hide template.now other.now }
{
    is_front(template, other) || is_front(other, template)
}
