// What may be read in a method.
ghost use Rattle.std.specs.Prelude.{◌≡◌, ◌+◌, ◌++◌, [], IfOk, OnOk, map, option_copied, option_map};
ghost use Rattle.view_slices.specs.Slices.{file_of};
ghost use Rattle.view_slices.specs.Words as specs;

use crate::file::class_name;
use qbs_base::{Bytes, Items, NoMemory};
use std::alloc::Global;
use view_items::Item;
use view_map::{Constant, FetchPattern, RowClass, Template, ViewMap};
use view_rules::{ClassConstant, same_kind};
use view_scope::{
    constants_of, is_clear, is_constant_read, is_fetch_read, is_free_in, is_no_field,
    is_template_read, is_there, keeps_meaning, keeps_template,
};
use view_shapes::{File, Method, Stretch};
use view_statements::{Words, copied};

/// What is asked once for a file: the numbers of the map's classes that are there in it, which fetch patterns and which templates mean in its
/// class what the map says, which constants of the map no field hides, the constants of the class, and the names of classes that nothing
/// obscures.
#[derive(Drop)]
pub struct Known {
    pub classes: Items<u32>,
    pub kept: Items<bool>,
    pub templates: Items<bool>,
    pub free: Items<bool>,
    pub constants: Items<ClassConstant>,
    pub clear: Items<Bytes>,
}

// ---- Of the class, whatever the method

/// Pushes the number of a class, if it is there in a file of a class.
fn add_class(class: &[u8], number: u32, c: &RowClass, list: &mut Items<u32>) -> Result<(), NoMemory>
    ensures { OnOk result (list.new ≡ list.old ++ specs.class_at class.now number c.now) }
{
    if is_there(class, &c.within) {
        list.push(number)
    } else {
        Ok(())
    }
}

/// The next number, unless so many things are more than fit into memory.
fn next_number(number: u32) -> Result<u32, NoMemory>
    ensures { IfOk result (λ n. n ≡ number + 1) }
{
    match number.checked_add(1) {
        Some(n) => Ok(n),
        None => Err(NoMemory),
    }
}

fn classes_from(alloc: Global, class: &[u8], classes: &[RowClass]) -> Result<Items<u32>, NoMemory>
    ensures { IfOk result (λ list. list ≡ specs.classes_from class.now 0 classes.now) }
{
    let mut list = Items::new(alloc);
    let mut number = 0u32;
    for c in classes {
        add_class(class, number, c, &mut list)?;
        number = next_number(number)?;
    }
    Ok(list)
}

fn all_kept(
    alloc: Global,
    m: &ViewMap,
    file: &File,
    members: &[Stretch],
    fetches: &[FetchPattern],
) -> Result<Items<bool>, NoMemory>
    requires { members.now ≡ specs.members (file_of file.now) }
    ensures { IfOk result (λ list. list ≡ map (specs.is_kept m.now (file_of file.now)) fetches.now) }
{
    let mut list = Items::new(alloc);
    for fetch in fetches {
        list.push(keeps_meaning(
            m,
            file.items,
            file.closings,
            file.rounds,
            file.class,
            members,
            fetch,
        ))?;
    }
    Ok(list)
}

fn all_templates_kept(
    alloc: Global,
    m: &ViewMap,
    file: &File,
    members: &[Stretch],
    templates: &[Template],
) -> Result<Items<bool>, NoMemory>
    requires { members.now ≡ specs.members (file_of file.now) }
    ensures { IfOk result (λ list. list ≡ map (specs.is_template_kept m.now (file_of file.now)) templates.now) }
{
    let mut list = Items::new(alloc);
    for template in templates {
        list.push(keeps_template(
            m,
            file.items,
            file.closings,
            file.rounds,
            file.class,
            members,
            template,
        ))?;
    }
    Ok(list)
}

fn all_unhidden(alloc: Global, file: &File, constants: &[Constant]) -> Result<Items<bool>, NoMemory>
    ensures { IfOk result (λ list. list ≡ map (specs.is_unhidden (file_of file.now)) constants.now) }
{
    let mut list = Items::new(alloc);
    for constant in constants {
        list.push(is_no_field(file.items, file.closings, file.rounds, constant))?;
    }
    Ok(list)
}

fn add_clear(
    alloc: Global,
    items: &[Item],
    name: &[u8],
    list: &mut Items<Bytes>,
) -> Result<(), NoMemory>
    ensures { OnOk result (list.new ≡ list.old ++ specs.clear_one items.now name.now) }
{
    if is_clear(items, name) {
        list.push(copied(alloc, name)?)
    } else {
        Ok(())
    }
}

fn add_clear_names(
    alloc: Global,
    items: &[Item],
    names: &[&[u8]],
    list: &mut Items<Bytes>,
) -> Result<(), NoMemory>
    ensures { OnOk result (list.new ≡ list.old ++ specs.clear_among items.now (map (λ n. n.now) names.now)) }
{
    match names {
        [] => Ok(()),
        [name, names @ ..] => {
            add_clear(alloc, items, name, list)?;
            add_clear_names(alloc, items, names, list)
        }
    }
}

fn add_clear_classes(
    alloc: Global,
    items: &[Item],
    classes: &[RowClass],
    list: &mut Items<Bytes>,
) -> Result<(), NoMemory>
    ensures { OnOk result (list.new ≡ list.old ++ specs.clear_among items.now (specs.names_of classes.now)) }
{
    for class in classes {
        add_clear(alloc, items, class.class.as_slice(), list)?;
    }
    Ok(())
}

fn clear_names(alloc: Global, map: &ViewMap, file: &File) -> Result<Items<Bytes>, NoMemory>
    ensures { IfOk result (λ list. list ≡ specs.clear_names map.now (file_of file.now)) }
{
    let mut list = Items::new(alloc);
    add_clear_names(
        alloc,
        file.items,
        &[
            b"Objects",
            b"Math",
            b"Collections",
            b"Comparator",
            b"Iterator",
        ],
        &mut list,
    )?;
    add_clear_classes(alloc, file.items, map.classes.as_slice(), &mut list)?;
    Ok(list)
}

/// What is known of a file, whatever the method. `members` are those of its class. Time goes with the items of the file for each name of the
/// map. It fails only by want of memory.
pub fn known_in(
    alloc: Global,
    map: &ViewMap,
    file: &File,
    members: &[Stretch],
) -> Result<Known, NoMemory>
    requires { members.now ≡ specs.members (file_of file.now) }
    ensures { IfOk result (λ known. known ≡ specs.known_in map.now (file_of file.now)) }
{
    Ok(Known {
        classes: classes_from(alloc, class_name(file), map.classes.as_slice())?,
        kept: all_kept(alloc, map, file, members, map.fetches.as_slice())?,
        templates: all_templates_kept(alloc, map, file, members, map.templates.as_slice())?,
        free: all_unhidden(alloc, file, map.constants.as_slice())?,
        constants: constants_of(alloc, file.items, file.closings, members)?,
        clear: clear_names(alloc, map, file)?,
    })
}

// ---- In a method

fn is_fetch_kept(
    map: &ViewMap,
    file: &File,
    method: &Method,
    f: Option<&FetchPattern>,
    kept: Option<&bool>,
) -> bool
    requires { option_copied kept ≡ option_map (specs.is_kept map.now (file_of file.now)) (option_copied f) }
    ensures { result ≡ specs.is_fetch_there map.now (file_of file.now) method.now (option_copied f.entry) }
{
    match (f, kept) {
        (Some(f), Some(kept)) => is_fetch_read(
            map,
            file.items,
            file.closings,
            file.rounds,
            file.class,
            method,
            f,
            *kept,
        ),
        _ => false,
    }
}

#[tactic(auto, using(crate::proofs::Knowing::kept_of))]
fn is_fetch_of(map: &ViewMap, file: &File, known: &Known, method: &Method, number: u32) -> bool
    requires { known.now ≡ specs.known_in map.now (file_of file.now) }
    ensures { result ≡ specs.is_fetch_of map.now (file_of file.now) method.now number }
{
    let f = map.fetches.as_slice().get(number as usize);
    let kept = known.kept.as_slice().get(number as usize);
    is_fetch_kept(map, file, method, f, kept)
}

fn are_fetches_there(
    map: &ViewMap,
    file: &File,
    known: &Known,
    method: &Method,
    numbers: &[u32],
) -> bool
    requires { known.now ≡ specs.known_in map.now (file_of file.now) }
    ensures { result ≡ specs.are_fetches_there map.now (file_of file.now) method.now numbers.now }
{
    for n in numbers {
        if !is_fetch_of(map, file, known, method, *n) {
            return false;
        }
    }
    true
}

fn is_template_there(
    map: &ViewMap,
    file: &File,
    method: &Method,
    t: Option<&Template>,
    kept: Option<&bool>,
) -> bool
    requires { option_copied kept ≡ option_map (specs.is_template_kept map.now (file_of file.now)) (option_copied t) }
    ensures { result ≡ specs.is_template_there map.now (file_of file.now) method.now (option_copied t.entry) }
{
    match (t, kept) {
        (Some(t), Some(kept)) => {
            *kept && is_template_read(map, file.items, file.closings, file.rounds, method, t)
        }
        _ => false,
    }
}

#[tactic(auto, using(crate::proofs::Knowing::template_of))]
fn is_template_of(map: &ViewMap, file: &File, known: &Known, method: &Method, number: u32) -> bool
    requires { known.now ≡ specs.known_in map.now (file_of file.now) }
    ensures { result ≡ specs.is_template_of map.now (file_of file.now) method.now number }
{
    let t = map.templates.as_slice().get(number as usize);
    let kept = known.templates.as_slice().get(number as usize);
    is_template_there(map, file, method, t, kept)
}

fn are_templates_there(
    map: &ViewMap,
    file: &File,
    known: &Known,
    method: &Method,
    numbers: &[u32],
) -> bool
    requires { known.now ≡ specs.known_in map.now (file_of file.now) }
    ensures { result ≡ specs.are_templates_there map.now (file_of file.now) method.now numbers.now }
{
    for n in numbers {
        if !is_template_of(map, file, known, method, *n) {
            return false;
        }
    }
    true
}

fn is_constant_unhidden(
    file: &File,
    method: &Method,
    c: Option<&Constant>,
    free: Option<&bool>,
) -> bool
    requires { option_copied free ≡ option_map (specs.is_unhidden (file_of file.now)) (option_copied c) }
    ensures { result ≡ specs.is_constant_there (file_of file.now) method.now (option_copied c.entry) }
{
    match (c, free) {
        (Some(c), Some(free)) => is_constant_read(
            file.items,
            file.closings,
            file.rounds,
            method,
            c,
            *free,
        ),
        _ => false,
    }
}

#[tactic(auto, using(crate::proofs::Knowing::free_of))]
fn is_constant_of(map: &ViewMap, file: &File, known: &Known, method: &Method, number: u32) -> bool
    requires { known.now ≡ specs.known_in map.now (file_of file.now) }
    ensures { result ≡ specs.is_constant_of map.now (file_of file.now) method.now number }
{
    let c = map.constants.as_slice().get(number as usize);
    let free = known.free.as_slice().get(number as usize);
    is_constant_unhidden(file, method, c, free)
}

fn are_constants_there(
    map: &ViewMap,
    file: &File,
    known: &Known,
    method: &Method,
    numbers: &[u32],
) -> bool
    requires { known.now ≡ specs.known_in map.now (file_of file.now) }
    ensures { result ≡ specs.are_constants_there map.now (file_of file.now) method.now numbers.now }
{
    for n in numbers {
        if !is_constant_of(map, file, known, method, *n) {
            return false;
        }
    }
    true
}

fn is_constant_free(file: &File, method: &Method, c: &ClassConstant) -> bool
    ensures { result ≡ specs.is_constant_free (file_of file.now) method.now c.now }
{
    is_free_in(
        file.items,
        file.closings,
        file.rounds,
        method,
        c.name.as_slice(),
    )
}

fn are_constants_free(file: &File, method: &Method, constants: &[ClassConstant]) -> bool
    ensures { result ≡ specs.are_constants_free (file_of file.now) method.now constants.now }
{
    constants.iter().all(|c| is_constant_free(file, method, c))
}

fn same_constant(c: &ClassConstant, d: &ClassConstant) -> bool
    ensures { result ≡ specs.same_constant c.now d.now }
{
    c.name.as_slice() == d.name.as_slice()
        && (same_kind(c.kind, d.kind)
            && (c.value.bytes.as_slice() == d.value.bytes.as_slice()
                && (same_kind(c.value.kind, d.value.kind)
                    && same_sign(c.value.negative, d.value.negative))))
}

pub fn same_sign(a: bool, b: bool) -> bool
    ensures { result ≡ specs.same_sign a b }
{
    (a && b) || (!a && !b)
}

fn is_no_constant(constants: &[ClassConstant]) -> bool
    ensures { result ≡ specs.is_no_constant constants.now }
{
    match constants {
        [] => true,
        [_, ..] => false,
    }
}

fn are_constants_among(constants: &[ClassConstant], all: &[ClassConstant]) -> bool
    ensures { result ≡ specs.are_constants_among constants.now all.now }
{
    let mut rest = constants;
    for d in all {
        match rest {
            [] => return true,
            [c, behind @ ..] => {
                if same_constant(c, d) {
                    rest = behind;
                }
            }
        }
    }
    is_no_constant(rest)
}

fn is_no_name(names: &[Bytes]) -> bool
    ensures { result ≡ specs.is_no_name names.now }
{
    match names {
        [] => true,
        [_, ..] => false,
    }
}

fn are_names_among(names: &[Bytes], all: &[Bytes]) -> bool
    ensures { result ≡ specs.are_names_among names.now all.now }
{
    let mut rest = names;
    for other in all {
        match rest {
            [] => return true,
            [name, behind @ ..] => {
                if name.as_slice() == other.as_slice() {
                    rest = behind;
                }
            }
        }
    }
    is_no_name(rest)
}

fn is_no_number(numbers: &[u32]) -> bool
    ensures { result ≡ specs.same_numbers [] numbers.now }
{
    match numbers {
        [] => true,
        [_, ..] => false,
    }
}

fn same_numbers(numbers: &[u32], others: &[u32]) -> bool
    ensures { result ≡ specs.same_numbers numbers.now others.now }
{
    let mut rest = others;
    for m in numbers {
        match rest {
            [] => return false,
            [n, behind @ ..] => {
                if !(*m == *n) {
                    return false;
                }
                rest = behind;
            }
        }
    }
    is_no_number(rest)
}

/// Whether all that is listed may be read in a method, by what is known of its file. Time goes with the items of the method for each name.
pub fn are_words(map: &ViewMap, file: &File, known: &Known, method: &Method, words: &Words) -> bool
    requires { known.now ≡ specs.known_in map.now (file_of file.now) }
    ensures { result ≡ specs.are_words map.now (file_of file.now) method.now words.now }
{
    same_numbers(words.classes.as_slice(), known.classes.as_slice())
        && (are_fetches_there(map, file, known, method, words.fetches.as_slice())
            && (are_templates_there(map, file, known, method, words.templates.as_slice())
                && (are_constants_there(map, file, known, method, words.map_constants.as_slice())
                    && (are_constants_free(file, method, words.constants.as_slice())
                        && (are_constants_among(
                            words.constants.as_slice(),
                            known.constants.as_slice(),
                        ) && are_names_among(words.clear.as_slice(), known.clear.as_slice()))))))
}
