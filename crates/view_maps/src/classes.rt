// The classes and records of a file.
use crate::fronts::{Annotation, Front, front_of};
use crate::source::{Source, bytes_at, past};
use crate::types::arguments_end;
use qbs_base::{Items, NoMemory};
use std::alloc::Global;
use view_shapes::{
    Stretch, closing_at, is_one_of_words, is_plain_name, is_sign, is_word, members_of,
};

/// Where a class or a record stands: the number of its name, its components, none for a class, the name behind `extends`, and its body from the
/// first item to the closing brace.
#[derive(Clone, Copy)]
pub struct ClassPlace {
    pub is_record: bool,
    pub name: usize,
    pub components: Stretch,
    pub parent: Option<usize>,
    pub body: Stretch,
}

/// A class or a record: where it stands, the name of the class round it, and its annotations.
#[derive(Drop)]
pub struct Class {
    pub place: ClassPlace,
    pub outer: Option<usize>,
    pub annotations: Items<Annotation>,
}

/// Whether a class or a record is declared by the item with this number.
fn begins_class(source: Source, number: usize) -> bool {
    is_one_of_words(&["class", "record"], source.items, number)
        && is_plain_name(source.items, number.saturating_add(1))
}

/// The parameters in parentheses at a number.
fn components_at(source: Source, number: usize) -> Option<Stretch> {
    if !is_sign("(", source.items, number) {
        return None;
    }
    let closing = closing_at(source.items, source.closings, number)?;
    Some(Stretch {
        from: number.saturating_add(1),
        to: closing,
    })
}

/// The first brace from a number on, before another, and the name behind the last `extends` before it.
fn brace_behind(source: Source, from: usize, to: usize) -> Option<(usize, Option<usize>)> {
    let mut parent = None;
    for number in from..to {
        if is_sign("{", source.items, number) {
            return Some((number, parent));
        }
        if is_word("extends", source.items, number) {
            parent = Some(number.saturating_add(1));
        }
    }
    None
}

/// The class or record with this name, whose body stands behind its components, before a number.
fn place_behind(
    source: Source,
    name: usize,
    is_record: bool,
    components: Stretch,
    to: usize,
) -> Option<ClassPlace> {
    let (brace, parent) = brace_behind(source, components.to, to)?;
    let closing = closing_at(source.items, source.closings, brace)?;
    Some(ClassPlace {
        is_record,
        name,
        components,
        parent,
        body: Stretch {
            from: brace.saturating_add(1),
            to: closing,
        },
    })
}

/// The class or record whose word has this number, if one does, before another number. A record with arguments of types is none.
fn place_at(source: Source, number: usize, to: usize) -> Option<ClassPlace> {
    if !begins_class(source, number) {
        return None;
    }
    let name = number.saturating_add(1);
    let behind = number.saturating_add(2);
    if is_word("record", source.items, number) {
        let components = components_at(source, behind)?;
        return place_behind(source, name, true, components, to);
    }
    let end = arguments_end(source, behind, to);
    let none = Stretch { from: end, to: end };
    place_behind(source, name, false, none, to)
}

/// The class or record whose word stands behind a front, outside of brackets.
fn outer_class(source: Source, front: Front) -> Option<Class> {
    let place = place_at(source, front.end, source.items.len())?;
    Some(Class {
        place,
        outer: None,
        annotations: front.annotations,
    })
}

/// The number behind a front that begins at a number, or else behind one item or the brackets that it opens.
fn next_of(source: Source, number: usize, end: usize) -> usize {
    if end > number {
        end
    } else {
        past(source, number)
    }
}

/// The first class or record outside of brackets.
fn first_class(alloc: Global, source: Source) -> Result<Option<Class>, NoMemory> {
    let end = source.items.len();
    let mut number = 0;
    for _ in 0..end {
        let front = front_of(alloc, source, number, end)?;
        if begins_class(source, front.end) {
            return Ok(outer_class(source, front));
        }
        number = next_of(source, number, front.end);
        if number >= end {
            return Ok(None);
        }
    }
    Ok(None)
}

/// The class or record that a member of another one is, if its name is short.
fn inner_class(
    alloc: Global,
    source: Source,
    outer: usize,
    member: Stretch,
) -> Result<Option<Class>, NoMemory> {
    let front = front_of(alloc, source, member.from, member.to)?;
    let Some(place) = place_at(source, front.end, member.to) else {
        return Ok(None);
    };
    if !has_short_name(source, place.name) {
        return Ok(None);
    }
    Ok(Some(Class {
        place,
        outer: Some(outer),
        annotations: front.annotations,
    }))
}

/// Adds the classes and records that stand directly in a body.
fn put_inner(
    alloc: Global,
    source: Source,
    outer: ClassPlace,
    classes: &mut Items<Class>,
) -> Result<(), NoMemory> {
    let members = members_of(alloc, source.items, source.closings, outer.body.from)?;
    for member in members.as_slice() {
        if let Some(class) = inner_class(alloc, source, outer.name, *member)? {
            classes.push(class)?;
        }
    }
    Ok(())
}

/// How many bytes the names of classes have at most: they are said with each of their columns.
const MOST_BYTES: usize = 255;

fn has_short_name(source: Source, number: usize) -> bool {
    bytes_at(source, number).len() <= MOST_BYTES
}

/// The first class or record outside of brackets, and those directly in it, in the order of the text. Those whose name or whose class's name has
/// more than 255 bytes are passed over. It fails only by want of memory.
pub fn classes_of(alloc: Global, source: Source) -> Result<Items<Class>, NoMemory> {
    let mut classes = Items::new(alloc);
    let Some(first) = first_class(alloc, source)? else {
        return Ok(classes);
    };
    let place = first.place;
    if !has_short_name(source, place.name) {
        return Ok(classes);
    }
    classes.push(first)?;
    put_inner(alloc, source, place, &mut classes)?;
    Ok(classes)
}
