// The constants of a class.
ghost use Rattle.std.specs.Prelude.{◌≡◌, ◌<◌, ◌≤◌, ◌+◌, ◌^◌, ◌++◌, OnOk, IfOk, IfSome, length};
ghost use Rattle.view_scope.specs.Constants as specs;

use crate::obscured::word_at;
use qbs_base::{Bytes, Items, NoMemory};
use std::alloc::Global;
use view_items::Item;
use view_map::{Literal, ScalarKind};
use view_rules::{ClassConstant, same_kind, signed_kind};
use view_shapes::{Stretch, is_named, is_plain_name, is_sign, is_word, prefix_end};

const FIELD_MODIFIERS: [&str; 7] = [
    "public",
    "protected",
    "private",
    "static",
    "final",
    "transient",
    "volatile",
];

/// The number behind annotations and the modifiers that a field may have.
#[tactic(auto, unfolding(crate::specs::Constants::field_prefix_end))]
fn field_prefix_end(items: &[Item], closings: &[usize], number: usize) -> Option<usize>
    ensures { result ≡ specs.field_prefix_end items.now closings.now number }
{
    prefix_end(&FIELD_MODIFIERS, items, closings, number)
}

/// Where a constant stands: its type, the number of its name, whether its value has a minus sign, and the literal's number and type.
#[derive(Clone, Copy, PartialEq, Eq)]
pub struct ConstantPlace {
    pub kind: ScalarKind,
    pub name: usize,
    pub negative: bool,
    pub value: usize,
    pub of: ScalarKind,
}

/// The type that the item with this number is, if constants may have it.
fn constant_kind(items: &[Item], number: usize) -> Option<ScalarKind>
    ensures { result ≡ specs.constant_kind items.now number }
{
    if is_word("int", items, number) {
        Some(ScalarKind::Int)
    } else if is_word("long", items, number) {
        Some(ScalarKind::Long)
    } else if is_word("boolean", items, number) {
        Some(ScalarKind::Boolean)
    } else if is_word("String", items, number) {
        Some(ScalarKind::Text)
    } else {
        None
    }
}

/// Whether a literal of a type may be the value of a constant of another: the same, or an `int` of a `long`.
fn may_be_value(kind: ScalarKind, of: ScalarKind) -> bool
    ensures { result ≡ specs.may_be_value kind of }
{
    match (kind, of) {
        (ScalarKind::Long, ScalarKind::Int) => true,
        _ => same_kind(kind, of),
    }
}

/// The number of the literal that begins at a number, with a minus sign or not.
fn value_number(items: &[Item], number: usize) -> usize
    requires { number < 2 ^ 63 }
    ensures value { result ≡ specs.value_number items.now number }
    ensures within { result ≤ number + 1 }
{
    if is_sign("-", items, number) {
        number + 1
    } else {
        number
    }
}

/// Whether a semicolon behind the item ends the member.
fn ends_member(items: &[Item], member: Stretch, number: usize) -> bool
    requires { number < 2 ^ 63 }
    ensures { result ≡ specs.ends_member items.now member number }
{
    is_sign(";", items, number + 1) && number + 2 == member.to
}

fn is_static_final(items: &[Item], from: usize, to: usize) -> bool
    ensures { result ≡ specs.is_static_final items.now from to }
{
    is_named(items, b"static", from, to) && is_named(items, b"final", from, to)
}

fn placed(items: &[Item], number: usize, kind: ScalarKind, of: ScalarKind) -> Option<ConstantPlace>
    requires { number < 2 ^ 62 }
    ensures { result ≡ specs.placed items.now number kind of }
{
    if may_be_value(kind, of) {
        Some(ConstantPlace {
            kind,
            name: number + 1,
            negative: is_sign("-", items, number + 3),
            value: value_number(items, number + 3),
            of,
        })
    } else {
        None
    }
}

fn place_of_kind(items: &[Item], number: usize, kind: ScalarKind) -> Option<ConstantPlace>
    requires { number < 2 ^ 62 }
    ensures { result ≡ specs.place_of_kind items.now number kind }
{
    let negative = is_sign("-", items, number + 3);
    let of = signed_kind(negative, word_at(items, value_number(items, number + 3)))?;
    placed(items, number, kind, of)
}

fn is_constant_from(items: &[Item], member: Stretch, number: usize) -> bool
    requires { number < 2 ^ 62 }
    ensures { result ≡ specs.is_constant_from items.now member number }
{
    is_static_final(items, member.from, number)
        && is_plain_name(items, number + 1)
        && is_sign("=", items, number + 2)
        && ends_member(items, member, value_number(items, number + 3))
}

fn place_from(items: &[Item], member: Stretch, number: usize) -> Option<ConstantPlace>
    ensures { result ≡ specs.place_from items.now member number }
{
    let kind = constant_kind(items, number);
    match kind {
        None => None,
        Some(kind) => {
            if is_constant_from(items, member, number) {
                place_of_kind(items, number, kind)
            } else {
                None
            }
        }
    }
}

fn constant_place(items: &[Item], closings: &[usize], member: Stretch) -> Option<ConstantPlace>
    ensures { result ≡ specs.constant_place items.now closings.now member }
{
    let number = field_prefix_end(items, closings, member.from)?;
    place_from(items, member, number)
}

fn copied(alloc: Global, bytes: &[u8]) -> Result<Bytes, NoMemory>
    ensures { IfOk result (λ b. b ≡ bytes.now) }
{
    Ok(Bytes::from_vec(bytes.to_vec(alloc)?))
}

fn constant_at(alloc: Global, items: &[Item], p: ConstantPlace) -> Result<ClassConstant, NoMemory>
    ensures { IfOk result (λ c. c ≡ specs.constant_at items.now p) }
{
    Ok(ClassConstant {
        name: copied(alloc, word_at(items, p.name))?,
        kind: p.kind,
        value: Literal {
            kind: p.of,
            negative: p.negative,
            bytes: copied(alloc, word_at(items, p.value))?,
        },
    })
}

fn add_constant(
    alloc: Global,
    list: &mut Items<ClassConstant>,
    items: &[Item],
    closings: &[usize],
    member: Stretch,
) -> Result<(), NoMemory>
    ensures { OnOk result (list.new ≡ list.old ++ specs.constants_in items.now closings.now member) }
{
    match constant_place(items, closings, member) {
        None => Ok(()),
        Some(place) => list.push(constant_at(alloc, items, place)?),
    }
}

/// The constants among the members of a class: fields `static final` of type `int`, `long`, `boolean` or `String` whose value is one literal, with
/// a minus sign before a number or not. It fails only by want of memory.
pub fn constants_of(
    alloc: Global,
    items: &[Item],
    closings: &[usize],
    members: &[Stretch],
) -> Result<Items<ClassConstant>, NoMemory>
    ensures { IfOk result (λ list. list ≡ specs.constants_among items.now closings.now members.now) }
{
    let mut list = Items::new(alloc);
    for member in members {
        add_constant(alloc, &mut list, items, closings, *member)?;
    }
    Ok(list)
}
