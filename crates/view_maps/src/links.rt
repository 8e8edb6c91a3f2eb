// Which accessor returns which field.
use crate::fields::{Accessor, Field};
use crate::source::{Source, bytes_at};
use indexmap::IndexMap;
use qbs_base::{Items, NoMemory};
use std::alloc::Global;

/// The places of fields by their names, the first one for each. A look-up takes one hash.
#[derive(Drop)]
pub struct Places<'a> {
    places: IndexMap<&'a [u8], usize>,
}

impl<'a> Places<'a> {
    fn put(&mut self, name: &'a [u8], place: usize) -> Result<(), NoMemory> {
        if self.places.get(name).is_some() {
            return Ok(());
        }
        match self.places.insert(name, place) {
            Ok(_) => Ok(()),
            Err(_) => Err(NoMemory),
        }
    }

    /// Those of these fields.
    pub fn of(alloc: Global, source: Source<'a>, fields: &[Field]) -> Result<Places<'a>, NoMemory> {
        let mut places = Places {
            places: IndexMap::new(alloc),
        };
        for (place, field) in fields.iter().enumerate() {
            places.put(bytes_at(source, field.name), place)?;
        }
        Ok(places)
    }

    /// The place of the field that an accessor only returns.
    fn returned(&self, source: Source, accessor: &Accessor) -> Option<usize> {
        let name = accessor.returned?;
        self.places.get(bytes_at(source, name)).copied()
    }

    /// The place of the component that an accessor has the name of.
    fn named(&self, source: Source, accessor: &Accessor) -> Option<usize> {
        self.places.get(bytes_at(source, accessor.name)).copied()
    }

    /// The place of the component whose accessor does more than return it.
    fn replaced(&self, source: Source, accessor: &Accessor) -> Option<usize> {
        let place = self.named(source, accessor)?;
        if self.returned(source, accessor) == Some(place) {
            None
        } else {
            Some(place)
        }
    }
}

fn put_accessor(fields: &mut [Field], place: usize, accessor: usize) -> Result<(), NoMemory> {
    match fields.get_mut(place) {
        Some(field) => field.accessors.push(accessor),
        None => Ok(()),
    }
}

/// Adds to each field the places of the accessors that only return it. Those of the others are given.
pub fn link(
    alloc: Global,
    source: Source,
    places: &Places,
    fields: &mut [Field],
    accessors: &[Accessor],
) -> Result<Items<usize>, NoMemory> {
    let mut others = Items::new(alloc);
    for (number, accessor) in accessors.iter().enumerate() {
        match places.returned(source, accessor) {
            Some(place) => put_accessor(fields, place, number)?,
            None => others.push(number)?,
        }
    }
    Ok(others)
}

fn replace(fields: &mut [Field], place: usize) {
    if let Some(field) = fields.get_mut(place) {
        field.is_replaced = true;
    }
}

/// Marks the components of a record whose accessors do more than return them.
pub fn mark_replaced(
    source: Source,
    places: &Places,
    fields: &mut [Field],
    accessors: &[Accessor],
) {
    for accessor in accessors {
        if let Some(place) = places.replaced(source, accessor) {
            replace(fields, place);
        }
    }
}
