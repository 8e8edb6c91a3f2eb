// Which fetch patterns, templates and constants may be read in a method.
ghost use Rattle.std.specs.Prelude.{◌≡◌, ◌<◌, ◌≤◌, ◌+◌, ◌^◌, IfSome, IsTrue, length, slice_get};
ghost use Rattle.view_scope.specs.Allowed as specs;
ghost use Rattle.view_shapes.specs.Members.{members_of};

use crate::method::{method_prefix_end, parameter_at};
use crate::obscured::{is_capital, is_class_name, is_clear, is_there, is_typed, word_at};
use crate::patterns::{
    begins_own, first_at, first_of_parts, is_loose_at, is_loose_part, is_own_call,
    is_own_part_call, is_part_variable, is_variable, may_be_hidden, may_part_be_hidden, part_bytes,
    pattern_bytes,
};
use qbs_base::Name;
use view_items::Item;
use view_map::{Constant, FetchPattern, Part, PatternItem, Template, ViewMap};
use view_shapes::{
    ClassPlace, Method, Parameter, Stretch, has_name, is_called, is_free, is_name, is_one_of_signs,
    is_one_of_words, is_set_at, is_sign, is_word,
};

// ---- Free names

fn is_no_parameter(items: &[Item], name: &[u8], parameters: &[Parameter]) -> bool
    ensures { result ≡ specs.is_no_parameter items.now name.now parameters.now }
{
    parameters.iter().all(|p| !has_name(items, name, p.name))
}

/// Whether a name is that of no parameter, and stands nowhere in the body where it may be declared. Time goes with the items of the body.
pub fn is_free_in(
    items: &[Item],
    closings: &[usize],
    rounds: &[usize],
    method: &Method,
    name: &[u8],
) -> bool
    ensures { result ≡ specs.is_free_in items.now closings.now rounds.now method.now name.now }
{
    is_no_parameter(items, name, method.parameters.as_slice())
        && is_free(items, closings, rounds, name, method.from, method.to)
}

/// Whether a name of a pattern may be read in a method: it is free, or that of a class of the map, of which more is asked once for a file.
fn may_be_read(
    map: &ViewMap,
    items: &[Item],
    closings: &[usize],
    rounds: &[usize],
    method: &Method,
    name: &[u8],
) -> bool
    ensures { result ≡ specs.may_be_read map.now items.now closings.now rounds.now method.now name.now }
{
    is_class_name(map, name) || is_free_in(items, closings, rounds, method, name)
}

fn is_item_free(
    map: &ViewMap,
    items: &[Item],
    closings: &[usize],
    rounds: &[usize],
    method: &Method,
    pattern: &[PatternItem],
    number: usize,
) -> bool
    requires { number < length pattern.now }
    ensures { result ≡ specs.is_item_free map.now items.now closings.now rounds.now method.now pattern.now number }
{
    !is_loose_at(pattern, number)
        || may_be_read(
            map,
            items,
            closings,
            rounds,
            method,
            pattern_bytes(pattern, number),
        )
}

#[tactic(auto, using(view_shapes::proofs::Numbers::all_but, view_shapes::proofs::Numbers::all_next, view_shapes::proofs::Numbers::all_end))]
fn are_items_free(
    map: &ViewMap,
    items: &[Item],
    closings: &[usize],
    rounds: &[usize],
    method: &Method,
    pattern: &[PatternItem],
    from: usize,
    to: usize,
) -> bool
    requires { to ≤ length pattern.now }
    ensures { result ≡ specs.are_items_free map.now items.now closings.now rounds.now method.now pattern.now from to }
{
    for number in from..to {
        if !is_item_free(map, items, closings, rounds, method, pattern, number) {
            return false;
        }
    }
    true
}

/// Whether the names of a pattern that stand neither behind a dot nor before a parenthesis are free in a method, or those of classes of the
/// map. Time goes with the items of the body for each of them.
pub fn is_pattern_free(
    map: &ViewMap,
    items: &[Item],
    closings: &[usize],
    rounds: &[usize],
    method: &Method,
    pattern: &[PatternItem],
) -> bool
    ensures { result ≡ specs.is_pattern_free map.now items.now closings.now rounds.now method.now pattern.now }
{
    are_items_free(
        map,
        items,
        closings,
        rounds,
        method,
        pattern,
        0,
        pattern.len(),
    )
}

fn is_part_free(
    map: &ViewMap,
    items: &[Item],
    closings: &[usize],
    rounds: &[usize],
    method: &Method,
    parts: &[Part],
    number: usize,
) -> bool
    requires { number < length parts.now }
    ensures { result ≡ specs.is_part_free map.now items.now closings.now rounds.now method.now parts.now number }
{
    !is_loose_part(parts, number)
        || may_be_read(
            map,
            items,
            closings,
            rounds,
            method,
            part_bytes(parts, number),
        )
}

#[tactic(auto, using(view_shapes::proofs::Numbers::all_but, view_shapes::proofs::Numbers::all_next, view_shapes::proofs::Numbers::all_end))]
fn are_parts_free(
    map: &ViewMap,
    items: &[Item],
    closings: &[usize],
    rounds: &[usize],
    method: &Method,
    parts: &[Part],
    from: usize,
    to: usize,
) -> bool
    requires { to ≤ length parts.now }
    ensures { result ≡ specs.are_parts_free map.now items.now closings.now rounds.now method.now parts.now from to }
{
    for number in from..to {
        if !is_part_free(map, items, closings, rounds, method, parts, number) {
            return false;
        }
    }
    true
}

// ---- The class's own methods and fields

/// Whether the item stands directly in the braces of the class.
fn is_in_class(rounds: &[usize], class: ClassPlace, number: usize) -> bool
    ensures { result ≡ specs.is_in_class rounds.now class number }
{
    match rounds.get(number) {
        None => false,
        Some(round) => *round == class.from.saturating_sub(1),
    }
}

/// Whether the name stands directly in the braces of the class behind a type.
fn is_typed_name(
    items: &[Item],
    rounds: &[usize],
    class: ClassPlace,
    name: &[u8],
    number: usize,
) -> bool
    ensures value { result ≡ specs.is_typed_name items.now rounds.now class name.now number }
    ensures within { IsTrue result → number < length items.now }
{
    has_name(items, name, number) && is_in_class(rounds, class, number) && is_typed(items, number)
}

fn declares_method_at(
    items: &[Item],
    rounds: &[usize],
    class: ClassPlace,
    name: &[u8],
    number: usize,
) -> bool
    ensures { result ≡ specs.declares_method_at items.now rounds.now class name.now number }
{
    is_typed_name(items, rounds, class, name, number) && is_sign("(", items, number + 1)
}

#[tactic(auto, using(view_shapes::proofs::Numbers::any_here, view_shapes::proofs::Numbers::any_next, view_shapes::proofs::Numbers::any_end))]
fn declares_method_in(
    items: &[Item],
    rounds: &[usize],
    class: ClassPlace,
    name: &[u8],
    from: usize,
    to: usize,
) -> bool
    ensures { result ≡ specs.declares_method_in items.now rounds.now class name.now from to }
{
    for number in from..to {
        if declares_method_at(items, rounds, class, name, number) {
            return true;
        }
    }
    false
}

fn declares_field_at(
    items: &[Item],
    rounds: &[usize],
    class: ClassPlace,
    name: &[u8],
    number: usize,
) -> bool
    ensures { result ≡ specs.declares_field_at items.now rounds.now class name.now number }
{
    is_typed_name(items, rounds, class, name, number)
        && is_one_of_signs(&["=", ";", ","], items, number + 1)
}

#[tactic(auto, using(view_shapes::proofs::Numbers::any_here, view_shapes::proofs::Numbers::any_next, view_shapes::proofs::Numbers::any_end))]
fn declares_field_in(
    items: &[Item],
    rounds: &[usize],
    class: ClassPlace,
    name: &[u8],
    from: usize,
    to: usize,
) -> bool
    ensures { result ≡ specs.declares_field_in items.now rounds.now class name.now from to }
{
    for number in from..to {
        if declares_field_at(items, rounds, class, name, number) {
            return true;
        }
    }
    false
}

/// Whether a member whose first item behind its modifiers has this number is a constructor of the class of a name.
fn begins_constructor(items: &[Item], name: &[u8], number: usize) -> bool
    ensures { result ≡ specs.begins_constructor items.now name.now number }
{
    has_name(items, name, number) && is_sign("(", items, number + 1)
}

/// Whether the items from a number on are `f = p; }`, up to the end of a member.
fn sets_from(items: &[Item], field: &[u8], parameter: &[u8], to: usize, number: usize) -> bool
    requires { number < 2 ^ 62 }
    ensures { result ≡ specs.sets_from items.now field.now parameter.now to number }
{
    has_name(items, field, number)
        && is_sign("=", items, number + 1)
        && has_name(items, parameter, number + 2)
        && is_sign(";", items, number + 3)
        && is_sign("}", items, number + 4)
        && number + 5 == to
}

fn sets_alone(items: &[Item], field: &[u8], parameter: &[u8], to: usize, number: usize) -> bool
    requires { number < 2 ^ 61 }
    ensures { result ≡ specs.sets_alone items.now field.now parameter.now to number }
{
    if is_word("this", items, number) && is_sign(".", items, number + 1) {
        sets_from(items, field, parameter, to, number + 2)
    } else {
        sets_from(items, field, parameter, to, number)
    }
}

fn sets_to(items: &[Item], field: &[u8], to: usize, parameter: Option<Parameter>) -> bool
    requires { IfSome parameter (λ p. p.name < length items.now) }
    ensures { result ≡ specs.sets_to items.now field.now to parameter }
{
    match parameter {
        None => false,
        Some(p) => {
            is_sign(")", items, p.name + 1)
                && is_sign("{", items, p.name + 2)
                && sets_alone(items, field, word_at(items, p.name), to, p.name + 3)
        }
    }
}

fn begins_with_set(name: &[u8]) -> bool
    ensures { result ≡ specs.begins_with_set name.now }
{
    match name {
        [a, b, c, ..] => *a == b's' && *b == b'e' && *c == b't',
        _ => false,
    }
}

/// Whether a member whose first item behind its modifiers has this number is a setter of the field.
fn begins_setter(items: &[Item], closings: &[usize], field: &[u8], to: usize, number: usize) -> bool
    ensures { result ≡ specs.begins_setter items.now closings.now field.now to number }
{
    is_word("void", items, number)
        && is_name(items, number + 1)
        && begins_with_set(word_at(items, number + 1))
        && is_sign("(", items, number + 2)
        && sets_to(items, field, to, parameter_at(items, closings, number + 3))
}

/// Whether a member is a constructor, or a setter of the field.
fn may_set_field(
    items: &[Item],
    closings: &[usize],
    class: ClassPlace,
    field: &[u8],
    member: Stretch,
) -> bool
    ensures { result ≡ specs.may_set_field items.now closings.now class field.now member }
{
    match method_prefix_end(items, closings, member.from) {
        None => false,
        Some(number) => {
            begins_constructor(items, word_at(items, class.name), number)
                || begins_setter(items, closings, field, member.to, number)
        }
    }
}

/// Whether the field is set at a number: no type stands before the name.
fn sets_field(items: &[Item], field: &[u8], number: usize) -> bool
    ensures { result ≡ specs.sets_field items.now field.now number }
{
    has_name(items, field, number) && is_set_at(items, number) && !is_typed(items, number)
}

#[tactic(auto, using(view_shapes::proofs::Numbers::any_here, view_shapes::proofs::Numbers::any_next, view_shapes::proofs::Numbers::any_end))]
fn is_set_between(items: &[Item], field: &[u8], from: usize, to: usize) -> bool
    ensures { result ≡ specs.is_set_between items.now field.now from to }
{
    for number in from..to {
        if sets_field(items, field, number) {
            return true;
        }
    }
    false
}

fn is_kept_by(
    items: &[Item],
    closings: &[usize],
    class: ClassPlace,
    field: &[u8],
    member: Stretch,
) -> bool
    ensures { result ≡ specs.is_kept_by items.now closings.now class field.now member }
{
    !is_set_between(items, field, member.from, member.to)
        || may_set_field(items, closings, class, field, member)
}

/// Whether of these members none but constructors and setters sets the field.
fn is_kept(
    items: &[Item],
    closings: &[usize],
    class: ClassPlace,
    members: &[Stretch],
    field: &[u8],
) -> bool
    ensures { result ≡ specs.is_kept items.now closings.now class members.now field.now }
{
    members
        .iter()
        .all(|s| is_kept_by(items, closings, class, field, *s))
}

// ---- Fetches

fn is_said_here(class: &[u8], within: &Option<Name>) -> bool
    ensures { result ≡ specs.is_said_here class.now within.now }
{
    match within {
        None => false,
        Some(within) => within.as_slice() == class,
    }
}

fn calls_own(
    items: &[Item],
    rounds: &[usize],
    class: ClassPlace,
    pattern: &[PatternItem],
    number: usize,
) -> bool
    requires { number < length pattern.now }
    ensures { result ≡ specs.calls_own items.now rounds.now class pattern.now number }
{
    is_own_call(word_at(items, class.name), pattern, number)
        && declares_method_in(
            items,
            rounds,
            class,
            pattern_bytes(pattern, number),
            class.from,
            class.to,
        )
}

/// Whether the pattern calls, from an item up to another, a method on the object itself that the class declares.
#[tactic(auto, using(view_shapes::proofs::Numbers::any_here, view_shapes::proofs::Numbers::any_next, view_shapes::proofs::Numbers::any_end))]
fn calls_own_in(
    items: &[Item],
    rounds: &[usize],
    class: ClassPlace,
    pattern: &[PatternItem],
    from: usize,
    to: usize,
) -> bool
    requires { to ≤ length pattern.now }
    ensures { result ≡ specs.calls_own_in items.now rounds.now class pattern.now from to }
{
    for number in from..to {
        if calls_own(items, rounds, class, pattern, number) {
            return true;
        }
    }
    false
}

/// Whether the variable of the object itself that a pattern names there is kept.
fn is_variable_kept(
    items: &[Item],
    closings: &[usize],
    class: ClassPlace,
    members: &[Stretch],
    pattern: &[PatternItem],
    number: usize,
) -> bool
    requires { number < length pattern.now }
    ensures { result ≡ specs.is_variable_kept items.now closings.now class members.now pattern.now number }
{
    !is_variable(word_at(items, class.name), pattern, number)
        || is_kept(
            items,
            closings,
            class,
            members,
            pattern_bytes(pattern, number),
        )
}

/// Whether a name is that of no class of the map, or nothing obscures it.
fn is_meant(map: &ViewMap, items: &[Item], name: &[u8]) -> bool
    ensures { result ≡ specs.is_meant map.now items.now name.now }
{
    !is_class_name(map, name) || is_clear(items, name)
}

fn is_kept_at(
    map: &ViewMap,
    items: &[Item],
    closings: &[usize],
    class: ClassPlace,
    members: &[Stretch],
    pattern: &[PatternItem],
    number: usize,
) -> bool
    requires { number < length pattern.now }
    ensures { result ≡ specs.is_kept_at map.now items.now closings.now class members.now pattern.now number }
{
    is_variable_kept(items, closings, class, members, pattern, number)
        && (!may_be_hidden(pattern, number) || is_meant(map, items, pattern_bytes(pattern, number)))
}

#[tactic(auto, using(view_shapes::proofs::Numbers::all_but, view_shapes::proofs::Numbers::all_next, view_shapes::proofs::Numbers::all_end))]
fn are_kept(
    map: &ViewMap,
    items: &[Item],
    closings: &[usize],
    class: ClassPlace,
    members: &[Stretch],
    pattern: &[PatternItem],
    from: usize,
    to: usize,
) -> bool
    requires { to ≤ length pattern.now }
    ensures { result ≡ specs.are_kept map.now items.now closings.now class members.now pattern.now from to }
{
    for number in from..to {
        if !is_kept_at(map, items, closings, class, members, pattern, number) {
            return false;
        }
    }
    true
}

/// Whether a name is that of a field of the class, or nothing may declare a variable of it.
fn is_field_or_clear(items: &[Item], rounds: &[usize], class: ClassPlace, name: &[u8]) -> bool
    ensures { result ≡ specs.is_field_or_clear items.now rounds.now class name.now }
{
    (!is_capital(name) && declares_field_in(items, rounds, class, name, class.from, class.to))
        || is_clear(items, name)
}

fn is_first_clear(
    items: &[Item],
    rounds: &[usize],
    class: ClassPlace,
    pattern: &[PatternItem],
    number: usize,
) -> bool
    ensures { result ≡ specs.is_first_clear items.now rounds.now class pattern.now number }
{
    begins_own(pattern, number)
        && (!is_variable(word_at(items, class.name), pattern, number)
            || is_field_or_clear(items, rounds, class, pattern_bytes(pattern, number)))
}

/// Whether a fetch pattern means in the class what the map says: it calls no method that the class declares, unless the map has it for this
/// class; the fields that it names are set by constructors and setters alone; no field or variable has the name of a class of the map that it
/// names elsewhere than before `.class`; and where it begins with a class, none has its name. `members` are those of the class. It hangs on no
/// method, so it is asked once for a file. Time goes with the items of the file.
pub fn keeps_meaning(
    map: &ViewMap,
    items: &[Item],
    closings: &[usize],
    rounds: &[usize],
    class: ClassPlace,
    members: &[Stretch],
    fetch: &FetchPattern,
) -> bool
    ensures { result ≡ specs.keeps_meaning map.now items.now closings.now rounds.now class members.now fetch.now }
{
    let name = word_at(items, class.name);
    let pattern = fetch.items.as_slice();
    is_there(name, &fetch.within)
        && (is_said_here(name, &fetch.within)
            || !calls_own_in(items, rounds, class, pattern, 0, pattern.len()))
        && are_kept(
            map,
            items,
            closings,
            class,
            members,
            pattern,
            0,
            pattern.len(),
        )
        && is_first_clear(items, rounds, class, pattern, first_at(pattern))
}

/// Whether a fetch pattern may be read in a method. `members` are those of the class; `kept` is what `keeps_meaning` says of it.
pub fn is_fetch_read(
    map: &ViewMap,
    items: &[Item],
    closings: &[usize],
    rounds: &[usize],
    class: ClassPlace,
    method: &Method,
    fetch: &FetchPattern,
    kept: bool,
) -> bool
    requires { kept ≡ specs.keeps_meaning map.now items.now closings.now rounds.now class (members_of items.now closings.now class.from) fetch.now }
    ensures { result ≡ specs.is_fetch_read map.now items.now closings.now rounds.now class method.now fetch.now }
{
    kept && is_pattern_free(map, items, closings, rounds, method, fetch.items.as_slice())
}

// ---- Templates

/// Whether a template calls on the object itself a method that the class declares.
fn calls_own_part(
    items: &[Item],
    rounds: &[usize],
    class: ClassPlace,
    parts: &[Part],
    number: usize,
) -> bool
    requires { number < length parts.now }
    ensures { result ≡ specs.calls_own_part items.now rounds.now class parts.now number }
{
    is_own_part_call(word_at(items, class.name), parts, number)
        && declares_method_in(
            items,
            rounds,
            class,
            part_bytes(parts, number),
            class.from,
            class.to,
        )
}

/// Whether the variable of the object itself that a template names there is kept.
fn is_part_variable_kept(
    items: &[Item],
    closings: &[usize],
    class: ClassPlace,
    members: &[Stretch],
    parts: &[Part],
    number: usize,
) -> bool
    requires { number < length parts.now }
    ensures { result ≡ specs.is_part_variable_kept items.now closings.now class members.now parts.now number }
{
    !is_part_variable(word_at(items, class.name), parts, number)
        || is_kept(items, closings, class, members, part_bytes(parts, number))
}

fn is_part_kept(
    map: &ViewMap,
    items: &[Item],
    closings: &[usize],
    rounds: &[usize],
    class: ClassPlace,
    members: &[Stretch],
    parts: &[Part],
    number: usize,
) -> bool
    requires { number < length parts.now }
    ensures { result ≡ specs.is_part_kept map.now items.now closings.now rounds.now class members.now parts.now number }
{
    !calls_own_part(items, rounds, class, parts, number)
        && is_part_variable_kept(items, closings, class, members, parts, number)
        && (!may_part_be_hidden(parts, number) || is_meant(map, items, part_bytes(parts, number)))
}

#[tactic(auto, using(view_shapes::proofs::Numbers::all_but, view_shapes::proofs::Numbers::all_next, view_shapes::proofs::Numbers::all_end))]
fn are_parts_kept(
    map: &ViewMap,
    items: &[Item],
    closings: &[usize],
    rounds: &[usize],
    class: ClassPlace,
    members: &[Stretch],
    parts: &[Part],
    from: usize,
    to: usize,
) -> bool
    requires { to ≤ length parts.now }
    ensures { result ≡ specs.are_parts_kept map.now items.now closings.now rounds.now class members.now parts.now from to }
{
    for number in from..to {
        if !is_part_kept(map, items, closings, rounds, class, members, parts, number) {
            return false;
        }
    }
    true
}

fn is_no_class_or_clear(items: &[Item], name: &[u8]) -> bool
    ensures { result ≡ specs.is_no_class_or_clear items.now name.now }
{
    !is_capital(name) || is_clear(items, name)
}

/// Whether a template means in the class what the map says: it calls no method that the class declares; the fields that it names are set by
/// constructors and setters alone; and no field or variable has the name of a class of the map that it names elsewhere than before `.class`,
/// or of a class that it begins with. `members` are those of the class. It hangs on no method, so it is asked once for a file. Time goes with
/// the items of the file.
pub fn keeps_template(
    map: &ViewMap,
    items: &[Item],
    closings: &[usize],
    rounds: &[usize],
    class: ClassPlace,
    members: &[Stretch],
    template: &Template,
) -> bool
    ensures { result ≡ specs.keeps_template map.now items.now closings.now rounds.now class members.now template.now }
{
    let front = template.front.as_slice();
    let each = template.each.as_slice();
    let back = template.back.as_slice();
    let front_len = front.len();
    let each_len = each.len();
    let back_len = back.len();
    is_no_class_or_clear(items, first_of_parts(front))
        && are_parts_kept(
            map, items, closings, rounds, class, members, front, 0, front_len,
        )
        && are_parts_kept(
            map, items, closings, rounds, class, members, each, 0, each_len,
        )
        && are_parts_kept(
            map, items, closings, rounds, class, members, back, 0, back_len,
        )
}

/// Whether the names of a template are free in a method, or those of classes of the map. It may be read there where `keeps_template` holds too.
pub fn is_template_read(
    map: &ViewMap,
    items: &[Item],
    closings: &[usize],
    rounds: &[usize],
    method: &Method,
    template: &Template,
) -> bool
    ensures { result ≡ specs.is_template_read map.now items.now closings.now rounds.now method.now template.now }
{
    let front = template.front.as_slice();
    let each = template.each.as_slice();
    let back = template.back.as_slice();
    are_parts_free(map, items, closings, rounds, method, front, 0, front.len())
        && are_parts_free(map, items, closings, rounds, method, each, 0, each.len())
        && are_parts_free(map, items, closings, rounds, method, back, 0, back.len())
}

// ---- Constants

/// Whether the item isn't the name, or stands beside a dot.
fn is_beside_dot(items: &[Item], name: &[u8], number: usize) -> bool
    ensures { result ≡ specs.is_beside_dot items.now name.now number }
{
    !has_name(items, name, number)
        || (number > 0 && is_sign(".", items, number - 1))
        || is_sign(".", items, number + 1)
}

#[tactic(auto, using(view_shapes::proofs::Numbers::all_but, view_shapes::proofs::Numbers::all_next, view_shapes::proofs::Numbers::all_end))]
fn are_beside_dots(items: &[Item], name: &[u8], from: usize, to: usize) -> bool
    ensures { result ≡ specs.are_beside_dots items.now name.now from to }
{
    for number in from..to {
        if !is_beside_dot(items, name, number) {
            return false;
        }
    }
    true
}

fn is_no_field_of(items: &[Item], closings: &[usize], rounds: &[usize], names: &[Name]) -> bool
    ensures { result ≡ specs.is_no_field items.now closings.now rounds.now names.now }
{
    match names {
        [first, _, ..] => are_beside_dots(items, first.as_slice(), 0, items.len()),
        [first] => is_free(items, closings, rounds, first.as_slice(), 0, items.len()),
        [] => true,
    }
}

/// Whether no field has the first name of a constant of the map: of several it stands nowhere in the file but beside a dot, and a lone one
/// nowhere where it may be declared. It hangs on no method, so it is asked once for a file. Time goes with the items of the file.
pub fn is_no_field(
    items: &[Item],
    closings: &[usize],
    rounds: &[usize],
    constant: &Constant,
) -> bool
    ensures { result ≡ specs.is_no_field items.now closings.now rounds.now constant.now.names }
{
    is_no_field_of(items, closings, rounds, constant.names.as_slice())
}

/// Whether the first of the names of a constant of the map is free in a method. Time goes with the items of the body.
pub fn first_is_free(
    items: &[Item],
    closings: &[usize],
    rounds: &[usize],
    method: &Method,
    names: &[Name],
) -> bool
    ensures { result ≡ specs.first_is_free items.now closings.now rounds.now method.now names.now }
{
    match names {
        [] => false,
        [first, ..] => is_free_in(items, closings, rounds, method, first.as_slice()),
    }
}

/// Whether a constant of the map may be read in a method. `no_field` is what `is_no_field` says of it.
pub fn is_constant_read(
    items: &[Item],
    closings: &[usize],
    rounds: &[usize],
    method: &Method,
    constant: &Constant,
    no_field: bool,
) -> bool
    requires { no_field ≡ specs.is_no_field items.now closings.now rounds.now constant.now.names }
    ensures { result ≡ specs.is_constant_read items.now closings.now rounds.now method.now constant.now }
{
    no_field && first_is_free(items, closings, rounds, method, constant.names.as_slice())
}
