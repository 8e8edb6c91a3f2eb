// The fields of a class or record, and its accessors.
use crate::classes::ClassPlace;
use crate::fronts::{Annotation, Front, front_of};
use crate::links::{Places, link, mark_replaced};
use crate::source::Source;
use crate::types::type_end;
use qbs_base::{Items, NoMemory};
use std::alloc::Global;
use view_shapes::{Stretch, is_name, is_one_of_words, is_plain_name, is_sign, is_word, members_of};

/// A field that is neither static nor transient, or a component of a record: the number of its name, its type, whether it is read itself and not by an
/// accessor, its annotations, the places of the accessors that only return it, and whether the accessor of a component does more.
#[derive(Drop)]
pub struct Field {
    pub name: usize,
    pub ty: Stretch,
    pub is_public: bool,
    pub annotations: Items<Annotation>,
    pub accessors: Items<usize>,
    pub is_replaced: bool,
}

/// A public method without parameters that gives a value: the number of its name, its type, the name of what it returns where it does nothing else, and
/// its annotations.
#[derive(Drop)]
pub struct Accessor {
    pub name: usize,
    pub ty: Stretch,
    pub returned: Option<usize>,
    pub annotations: Items<Annotation>,
}

/// What a class has of its own: its fields and accessors, the places of the accessors that return no field, and the first names of declarations of
/// several variables.
#[derive(Drop)]
pub struct Owned {
    pub fields: Vec<Field>,
    pub accessors: Items<Accessor>,
    pub others: Items<usize>,
    pub several: Items<usize>,
}

/// What begins a member that is neither a field nor a method.
const NO_TYPES: [&str; 4] = ["class", "interface", "enum", "record"];

/// The name that a body returns that does nothing else, from its brace up to a number.
fn returned_name(source: Source, from: usize, to: usize) -> Option<usize> {
    let word = from.saturating_add(1);
    let first = from.saturating_add(2);
    if !is_sign("{", source.items, from) || !is_word("return", source.items, word) {
        return None;
    }
    let this = is_word("this", source.items, first)
        && is_sign(".", source.items, from.saturating_add(3));
    let name = if this { from.saturating_add(4) } else { first };
    let returns = is_plain_name(source.items, name)
        && is_sign(";", source.items, name.saturating_add(1))
        && is_sign("}", source.items, name.saturating_add(2))
        && name.saturating_add(3) == to;
    if returns { Some(name) } else { None }
}

/// Whether a method with this name and front gives a value to everyone, without parameters, by a body.
fn is_accessor(source: Source, front: &Front, name: usize, to: usize) -> bool {
    front.modifiers.is_public
        && !front.modifiers.is_static
        && is_sign("(", source.items, name.saturating_add(1))
        && is_sign(")", source.items, name.saturating_add(2))
        && is_sign("}", source.items, to.saturating_sub(1))
        && !is_word("void", source.items, front.end)
}

impl Owned {
    fn nothing(alloc: Global) -> Owned {
        Owned {
            fields: Vec::new(alloc),
            accessors: Items::new(alloc),
            others: Items::new(alloc),
            several: Items::new(alloc),
        }
    }

    /// With a field of a type up to its name.
    fn put_field(
        &mut self,
        alloc: Global,
        front: Front,
        name: usize,
        is_public: bool,
    ) -> Result<(), NoMemory> {
        self.fields.push(Field {
            name,
            ty: Stretch {
                from: front.end,
                to: name,
            },
            is_public,
            annotations: front.annotations,
            accessors: Items::new(alloc),
            is_replaced: false,
        })?;
        Ok(())
    }

    fn put_accessor(
        &mut self,
        source: Source,
        front: Front,
        name: usize,
        to: usize,
    ) -> Result<(), NoMemory> {
        self.accessors.push(Accessor {
            name,
            ty: Stretch {
                from: front.end,
                to: name,
            },
            returned: returned_name(source, name.saturating_add(3), to),
            annotations: front.annotations,
        })
    }

    fn put_components(
        &mut self,
        alloc: Global,
        source: Source,
        components: Stretch,
    ) -> Result<(), NoMemory> {
        let mut number = components.from;
        for _ in components.from..components.to {
            let front = front_of(alloc, source, number, components.to)?;
            let Some(name) = type_end(source, front.end, components.to) else {
                break;
            };
            if !is_name(source.items, name) {
                break;
            }
            self.put_field(alloc, front, name, true)?;
            number = name.saturating_add(2);
            if number >= components.to {
                break;
            }
        }
        Ok(())
    }

    /// With the variable of a name. What `several` says of others isn't known.
    fn put_variable(
        &mut self,
        alloc: Global,
        source: Source,
        front: Front,
        name: usize,
    ) -> Result<(), NoMemory> {
        let next = name.saturating_add(1);
        if front.modifiers.is_static || front.modifiers.is_transient {
            return Ok(());
        }
        if !is_sign(";", source.items, next) && !is_sign("=", source.items, next) {
            return self.several.push(name);
        }
        let is_public = front.modifiers.is_public;
        self.put_field(alloc, front, name, is_public)
    }

    fn put_member(
        &mut self,
        alloc: Global,
        source: Source,
        is_record: bool,
        member: Stretch,
    ) -> Result<(), NoMemory> {
        let front = front_of(alloc, source, member.from, member.to)?;
        if is_one_of_words(&NO_TYPES, source.items, front.end) {
            return Ok(());
        }
        let Some(name) = type_end(source, front.end, member.to) else {
            return Ok(());
        };
        if !is_name(source.items, name) {
            return Ok(());
        }
        if !is_sign("(", source.items, name.saturating_add(1)) {
            if is_record {
                return Ok(());
            }
            return self.put_variable(alloc, source, front, name);
        }
        if is_accessor(source, &front, name, member.to) {
            return self.put_accessor(source, front, name, member.to);
        }
        Ok(())
    }

    fn put_members(
        &mut self,
        alloc: Global,
        source: Source,
        place: ClassPlace,
    ) -> Result<(), NoMemory> {
        let members = members_of(alloc, source.items, source.closings, place.body.from)?;
        for member in members.as_slice() {
            self.put_member(alloc, source, place.is_record, *member)?;
        }
        Ok(())
    }
}

/// Finds which accessor returns which field.
fn link_all(
    alloc: Global,
    source: Source,
    owned: &mut Owned,
    is_record: bool,
) -> Result<(), NoMemory> {
    let places = Places::of(alloc, source, owned.fields.as_slice())?;
    let accessors = owned.accessors.as_slice();
    let others = link(
        alloc,
        source,
        &places,
        owned.fields.as_mut_slice(),
        accessors,
    )?;
    if is_record {
        mark_replaced(source, &places, owned.fields.as_mut_slice(), accessors);
    }
    owned.others = others;
    Ok(())
}

/// What a class or record has of its own. It fails only by want of memory.
pub fn owned_by(alloc: Global, source: Source, place: ClassPlace) -> Result<Owned, NoMemory> {
    let mut owned = Owned::nothing(alloc);
    owned.put_components(alloc, source, place.components)?;
    owned.put_members(alloc, source, place)?;
    link_all(alloc, source, &mut owned, place.is_record)?;
    Ok(owned)
}
