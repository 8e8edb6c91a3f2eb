// Names that must mean in the file what Java or the map means by them.
ghost use Rattle.std.specs.Prelude.{◌≡◌, ◌<◌, ◌≤◌, ◌+◌, ◌^◌, map, IsTrue, length};
ghost use Rattle.std.specs.List.{list_any};
ghost use Rattle.std.specs.Str.{bytes_eq};
ghost use Rattle.view_scope.specs.Obscured as specs;

use crate::patterns::{first_at, first_of_parts, is_own_at, pattern_bytes};
use qbs_base::Name;
use view_items::Item;
use view_map::{Constant, FetchPattern, PatternItem, RowClass, Template, ViewMap};
use view_shapes::{
    has_name, is_called, is_name, is_one_of_signs, is_one_of_words, is_sign, is_word,
};

const JAVA_CLASSES: [&str; 14] = [
    "List",
    "Set",
    "ArrayList",
    "LinkedHashSet",
    "HashSet",
    "Iterator",
    "Collections",
    "Comparator",
    "Math",
    "Objects",
    "String",
    "Integer",
    "Long",
    "Boolean",
];

fn is_among(words: &[&str], name: &[u8]) -> bool
    ensures { result ≡ list_any (λ n. bytes_eq n name.now) (map (λ n. n.now) words.now) }
{
    match words {
        [] => false,
        [word, words @ ..] => word.as_bytes() == name || is_among(words, name),
    }
}

#[tactic(auto, unfolding(crate::specs::Obscured::is_java_class))]
fn is_java_class(name: &[u8]) -> bool
    ensures { result ≡ specs.is_java_class name.now }
{
    is_among(&JAVA_CLASSES, name)
}

/// The bytes of the item with this number, none where there is none.
pub fn word_at(items: &[Item], number: usize) -> &[u8]
    ensures { result.now ≡ specs.word_at items.now number }
{
    match items.get(number) {
        Some(item) => item.bytes.as_slice(),
        None => &[],
    }
}

// ---- Names of the map

/// Whether a class or a pattern is there in the file of a class: those that the map has for one class alone are there in its file.
pub fn is_there(class: &[u8], within: &Option<Name>) -> bool
    ensures { result ≡ specs.is_there class.now within.now }
{
    match within {
        None => true,
        Some(name) => name.as_slice() == class,
    }
}

fn is_first_of(name: &[u8], names: &[Name]) -> bool
    ensures { result ≡ specs.is_first_of name.now names.now }
{
    match names {
        [] => false,
        [first, ..] => first.as_slice() == name,
    }
}

fn begins_constant(name: &[u8], constant: &Constant) -> bool
    ensures { result ≡ specs.begins_constant name.now constant.now }
{
    is_first_of(name, constant.names.as_slice())
}

fn begins_template(name: &[u8], template: &Template) -> bool
    ensures { result ≡ specs.begins_template name.now template.now }
{
    first_of_parts(template.front.as_slice()) == name
}

fn is_own_name(pattern: &[PatternItem], number: usize, name: &[u8]) -> bool
    ensures { result ≡ specs.is_own_name pattern.now number name.now }
{
    is_own_at(pattern, number) && pattern_bytes(pattern, number) == name
}

fn begins_fetch(name: &[u8], fetch: &FetchPattern) -> bool
    ensures { result ≡ specs.begins_fetch name.now fetch.now }
{
    is_own_name(
        fetch.items.as_slice(),
        first_at(fetch.items.as_slice()),
        name,
    )
}

/// Whether a constant of several names begins with this one.
fn begins_longer(name: &[u8], constant: &Constant) -> bool
    ensures { result ≡ specs.begins_longer name.now constant.now }
{
    constant.names.as_slice().len() >= 2 && begins_constant(name, constant)
}

fn begins_some_longer(name: &[u8], constants: &[Constant]) -> bool
    ensures { result ≡ list_any (specs.begins_longer name.now) constants.now }
{
    constants.iter().any(|c| begins_longer(name, c))
}

/// Whether a name begins with a capital letter, with which by custom a class begins and no field.
pub fn is_capital(name: &[u8]) -> bool
    ensures { result ≡ specs.is_capital name.now }
{
    match name {
        [] => false,
        [first, ..] => 65 <= *first && *first <= 90,
    }
}

fn begins_by_class(name: &[u8], template: &Template) -> bool
    ensures { result ≡ specs.begins_by_class name.now template.now }
{
    is_capital(name) && begins_template(name, template)
}

fn begins_some_by_class(name: &[u8], templates: &[Template]) -> bool
    ensures { result ≡ list_any (specs.begins_by_class name.now) templates.now }
{
    templates.iter().any(|t| begins_by_class(name, t))
}

/// Whether a name is that of a class of the map.
pub fn is_class_name(map: &ViewMap, name: &[u8]) -> bool
    ensures { result ≡ specs.is_class_name map.now name.now }
{
    map.classes
        .as_slice()
        .iter()
        .any(|c| c.class.as_slice() == name)
}

fn begins_some_constant(name: &[u8], constants: &[Constant]) -> bool
    ensures { result ≡ list_any (specs.begins_constant name.now) constants.now }
{
    for constant in constants {
        if begins_constant(name, constant) {
            return true;
        }
    }
    false
}

fn begins_some_template(name: &[u8], templates: &[Template]) -> bool
    ensures { result ≡ list_any (specs.begins_template name.now) templates.now }
{
    for template in templates {
        if begins_template(name, template) {
            return true;
        }
    }
    false
}

fn begins_some_fetch(name: &[u8], fetches: &[FetchPattern]) -> bool
    ensures { result ≡ list_any (specs.begins_fetch name.now) fetches.now }
{
    for fetch in fetches {
        if begins_fetch(name, fetch) {
            return true;
        }
    }
    false
}

// ---- Types of the file

fn is_type_word(items: &[Item], number: usize) -> bool
    ensures value { result ≡ specs.is_type_word items.now number }
    ensures within { IsTrue result → number < length items.now }
{
    is_one_of_words(&["class", "interface", "enum", "record"], items, number)
}

/// Whether a type of this name is declared at a number.
fn declares_type(items: &[Item], name: &[u8], number: usize) -> bool
    ensures { result ≡ specs.declares_type items.now name.now number }
{
    is_type_word(items, number) && has_name(items, name, number + 1)
}

#[tactic(auto, using(view_shapes::proofs::Numbers::any_here, view_shapes::proofs::Numbers::any_next, view_shapes::proofs::Numbers::any_end))]
fn is_declared_in(items: &[Item], name: &[u8], from: usize, to: usize) -> bool
    ensures { result ≡ specs.is_declared_in items.now name.now from to }
{
    for number in from..to {
        if declares_type(items, name, number) {
            return true;
        }
    }
    false
}

fn may_be_nested(
    items: &[Item],
    class: &[u8],
    number: usize,
    name: &[u8],
    within: &Option<Name>,
) -> bool
    requires { number < length items.now }
    ensures { result ≡ specs.may_be_nested items.now class.now number name.now within.now }
{
    match within {
        None => false,
        Some(within) => {
            within.as_slice() != class || !is_declared_in(items, name, number + 1, items.len())
        }
    }
}

/// Whether the type of this name that is declared at a number hides a class of the map.
fn hides_class(items: &[Item], class: &[u8], number: usize, name: &[u8], row: &RowClass) -> bool
    requires { number < length items.now }
    ensures { result ≡ specs.hides_class items.now class.now number name.now row.now }
{
    row.class.as_slice() == name && !may_be_nested(items, class, number, name, &row.within)
}

/// Whether another type than the class itself hides what constants or fetch patterns begin with.
fn hides_first(map: &ViewMap, class: &[u8], name: &[u8]) -> bool
    ensures { result ≡ specs.hides_first map.now class.now name.now }
{
    name != class
        && (begins_some_constant(name, map.constants.as_slice())
            || begins_some_fetch(name, map.fetches.as_slice()))
}

#[tactic(auto, unfolding(crate::specs::Obscured::hides_name))]
fn hides_name(map: &ViewMap, items: &[Item], class: &[u8], number: usize, name: &[u8]) -> bool
    requires { number < length items.now }
    ensures { result ≡ specs.hides_name map.now items.now class.now number name.now }
{
    is_java_class(name)
        || begins_some_template(name, map.templates.as_slice())
        || hides_first(map, class, name)
        || hides_some(items, class, number, name, map.classes.as_slice())
}

fn hides_some(items: &[Item], class: &[u8], number: usize, name: &[u8], rows: &[RowClass]) -> bool
    requires { number < length items.now }
    ensures { result ≡ list_any (specs.hides_class items.now class.now number name.now) rows.now }
{
    for row in rows {
        if hides_class(items, class, number, name, row) {
            return true;
        }
    }
    false
}

fn hides_by_type(map: &ViewMap, items: &[Item], class: &[u8], number: usize) -> bool
    ensures { result ≡ specs.hides_by_type map.now items.now class.now number }
{
    is_type_word(items, number)
        && is_name(items, number + 1)
        && hides_name(map, items, class, number, word_at(items, number + 1))
}

// ---- Imports

fn is_from_java(items: &[Item], number: usize) -> bool
    requires { number < 2 ^ 62 }
    ensures { result ≡ specs.is_from_java items.now number }
{
    is_word("java", items, number)
        && is_sign(".", items, number + 1)
        && is_one_of_words(&["util", "lang"], items, number + 2)
        && is_sign(".", items, number + 3)
}

/// Whether names from one number to another are those of a class of `java.util` or `java.lang`.
fn is_java_name(items: &[Item], from: usize, last: usize) -> bool
    requires { from < 2 ^ 62 }
    ensures { result ≡ specs.is_java_name items.now from last }
{
    is_from_java(items, from) && from + 4 == last
}

/// Whether a dot and a name stand behind an item.
fn goes_on(items: &[Item], number: usize) -> bool
    requires { number < 2 ^ 62 }
    ensures value { result ≡ specs.goes_on items.now number }
    ensures within { IsTrue result → number + 2 < length items.now }
{
    is_sign(".", items, number + 1) && is_name(items, number + 2)
}

/// The number of the last of names with dots between them that begin at a number.
#[tactic(auto, unfolding(crate::specs::Obscured::last_of_names))]
fn last_of_names(items: &[Item], first: usize) -> usize
    requires { first < 2 ^ 62 }
    ensures { result ≡ specs.last_of_names (length items.now) items.now first }
{
    let mut number = first;
    let mut left = items.len();
    while left > 0 {
        left -= 1;
        if !goes_on(items, number) {
            return number;
        }
        number += 2;
    }
    number
}

/// Whether an import may be one of a field.
fn is_static(items: &[Item], number: usize) -> bool
    requires { number < 2 ^ 61 }
    ensures { result ≡ specs.is_static items.now number }
{
    is_word("static", items, number + 1)
}

/// Where the names of an import begin.
fn import_from(items: &[Item], number: usize) -> usize
    requires { number < 2 ^ 61 }
    ensures value { result ≡ specs.import_from items.now number }
    ensures within { result ≤ number + 2 }
{
    if is_static(items, number) {
        number + 2
    } else {
        number + 1
    }
}

/// Whether a field of this name hides a class of the map, or a class that constants and templates begin with.
fn hides_as_field(map: &ViewMap, name: &[u8]) -> bool
    ensures { result ≡ specs.hides_as_field map.now name.now }
{
    is_class_name(map, name)
        || begins_some_longer(name, map.constants.as_slice())
        || begins_some_by_class(name, map.templates.as_slice())
}

/// Whether an imported name, that of a field or not, hides what Java or the map means by it.
fn hides_imported(map: &ViewMap, name: &[u8], field: bool) -> bool
    ensures { result ≡ specs.hides_imported map.now name.now field }
{
    is_java_class(name)
        || begins_some_fetch(name, map.fetches.as_slice())
        || (field && hides_as_field(map, name))
}

/// Whether imported names hide what a name means, of which these are the first and the last.
#[tactic(auto, unfolding(crate::specs::Obscured::hides_last))]
fn hides_last(map: &ViewMap, items: &[Item], field: bool, from: usize, last: usize) -> bool
    requires { from < 2 ^ 62 }
    ensures { result ≡ specs.hides_last map.now items.now field from last }
{
    is_name(items, last)
        && hides_imported(map, word_at(items, last), field)
        && !is_java_name(items, from, last)
}

fn hides_from(map: &ViewMap, items: &[Item], field: bool, from: usize) -> bool
    requires { from < 2 ^ 62 }
    ensures { result ≡ specs.hides_from map.now items.now field from }
{
    hides_last(map, items, field, from, last_of_names(items, from))
}

fn hides_by_import(map: &ViewMap, items: &[Item], number: usize) -> bool
    requires { number < 2 ^ 61 }
    ensures { result ≡ specs.hides_by_import map.now items.now number }
{
    is_word("import", items, number)
        && hides_from(
            map,
            items,
            is_static(items, number),
            import_from(items, number),
        )
}

// ---- All of them

pub fn hides(map: &ViewMap, items: &[Item], class: &[u8], number: usize) -> bool
    requires { number < 2 ^ 61 }
    ensures { result ≡ specs.hides map.now items.now class.now number }
{
    hides_by_type(map, items, class, number) || hides_by_import(map, items, number)
}

#[tactic(auto, using(view_shapes::proofs::Numbers::any_here, view_shapes::proofs::Numbers::any_next, view_shapes::proofs::Numbers::any_end))]
fn hides_in(map: &ViewMap, items: &[Item], class: &[u8], from: usize, to: usize) -> bool
    requires { to < 2 ^ 61 }
    ensures { result ≡ specs.hides_in map.now items.now class.now from to }
{
    for number in from..to {
        if hides(map, items, class, number) {
            return true;
        }
    }
    false
}

/// Whether the names of Java and of the map mean in the file what Java and the map mean by them: no type of the file has the name of a class
/// of Java or of the map, or what a constant, a template or a fetch pattern begins with; no class of Java's names, nor what a fetch pattern
/// begins with, is imported from elsewhere than `java.util` and `java.lang`; and no static import has the name of a class of the map, or what a
/// constant of several names begins with, or a template with a class. A class of the map may be nested, once, in the class for which the map
/// has it. Time goes with the items of the file, and with the map for each type and import.
pub fn means_the_same(map: &ViewMap, items: &[Item], class: &[u8]) -> bool
    ensures { result ≡ specs.means_the_same map.now items.now class.now }
{
    !hides_in(map, items, class, 0, items.len())
}

// ---- Variables of the file

fn may_be_imported(items: &[Item], number: usize) -> bool
    ensures { result ≡ specs.may_be_imported items.now number }
{
    is_name(items, number) || is_sign(".", items, number) || is_sign("*", items, number)
}

/// Whether the item is in an import: behind the word, names and dots.
#[tactic(auto, using(crate::proofs::Imports::is_in_import_here, crate::proofs::Imports::is_in_import_other, crate::proofs::Imports::is_in_import_first, crate::proofs::Imports::is_in_import_next, crate::proofs::Imports::is_in_import_end))]
fn is_in_import(items: &[Item], last: usize) -> bool
    ensures { result ≡ specs.is_in_import (length items.now) items.now last }
{
    let mut number = last;
    let mut left = items.len();
    while left > 0 {
        left -= 1;
        if is_word("import", items, number) {
            return true;
        }
        if !may_be_imported(items, number) {
            return false;
        }
        if number == 0 {
            return false;
        }
        number -= 1;
    }
    false
}

const PRIMITIVE_WORDS: [&str; 9] = [
    "int", "long", "boolean", "char", "byte", "short", "float", "double", "void",
];

/// Whether the item may end a type.
fn ends_type(items: &[Item], number: usize) -> bool
    ensures { result ≡ specs.ends_type items.now number }
{
    (is_called(items, number) && !is_word("yield", items, number))
        || is_one_of_words(&PRIMITIVE_WORDS, items, number)
        || is_one_of_signs(&[">", "]"], items, number)
}

/// Whether a type stands before the item.
#[tactic(auto, unfolding(crate::specs::Obscured::is_typed))]
pub fn is_typed(items: &[Item], number: usize) -> bool
    ensures { result ≡ specs.is_typed items.now number }
{
    number > 0 && ends_type(items, number - 1)
}

/// Whether the item may stand behind a class that is named.
fn is_behind_class(items: &[Item], number: usize) -> bool
    ensures { result ≡ specs.is_behind_class items.now number }
{
    is_one_of_signs(
        &[".", "::", "(", "<", ">", "[", "{", "...", "*"],
        items,
        number,
    ) || is_name(items, number)
}

/// Whether the item may go on behind the variable of a pattern, and not behind a class.
fn goes_on_behind_pattern(items: &[Item], number: usize) -> bool
    ensures { result ≡ specs.goes_on_behind_pattern items.now number }
{
    is_one_of_words(&["when", "instanceof"], items, number)
}

/// Whether brackets stand behind the name that may be an array's.
fn is_array_name(items: &[Item], number: usize) -> bool
    requires { number < length items.now }
    ensures { result ≡ specs.is_array_name items.now number }
{
    is_sign("[", items, number + 1)
        && (is_typed(items, number) || (number > 0 && is_sign(",", items, number - 1)))
}

/// Whether the name at a number may be one that is declared there.
fn declares_variable(items: &[Item], number: usize) -> bool
    requires { number < length items.now }
    ensures { result ≡ specs.declares_variable items.now number }
{
    goes_on_behind_pattern(items, number + 1)
        || is_array_name(items, number)
        || (!is_behind_class(items, number + 1) && !is_in_import(items, number))
}

/// Whether a variable or a field may have the name that stands at a number.
fn may_declare(items: &[Item], name: &[u8], number: usize) -> bool
    ensures { result ≡ specs.may_declare items.now name.now number }
{
    has_name(items, name, number) && declares_variable(items, number)
}

#[tactic(auto, using(view_shapes::proofs::Numbers::any_here, view_shapes::proofs::Numbers::any_next, view_shapes::proofs::Numbers::any_end))]
fn may_be_declared_in(items: &[Item], name: &[u8], from: usize, to: usize) -> bool
    ensures { result ≡ specs.may_be_declared_in items.now name.now from to }
{
    for number in from..to {
        if may_declare(items, name, number) {
            return true;
        }
    }
    false
}

/// Whether a class may be named by itself: it stands nowhere in the file where a variable of its name may be declared. Imports aside, it stands
/// directly before `.` `::` `(` `<` `>` `[` `{` `...` `*` or a name alone. Time goes with the items of the file.
pub fn is_clear(items: &[Item], name: &[u8]) -> bool
    ensures { result ≡ specs.is_clear items.now name.now }
{
    !may_be_declared_in(items, name, 0, items.len())
}
