// The numbers of a method's names and query texts, by the places in its source where they stand.
ghost use Rattle.std.specs.Prelude.{◌≡◌, ℕ, OnOk, get_or, length, nat_eq, if◌then◌else◌};
ghost use Rattle.java_steps.specs.Numbered.{noted, number_at, number_of, unnumbered, with_name};

use indexmap::IndexSet;
use qbs_base::{Name, NoMemory, Span};
use std::alloc::Global;
use std::marker::Model;

// No source is longer, in bytes. A node that says that it stands further on gets no number.
const LONGEST_SOURCE: u64 = 1_048_576;

/// A name and its number among those of a method.
#[derive(Clone, Copy)]
pub struct Slot<'a> {
    pub number: usize,
    pub name: &'a Name,
}

/// Names, each once, and the number at each place of the source, by the byte at which a node begins:
/// 0 where none was noted. A number says only where a variable or a query is looked for first. Beside
/// these it notes in which variables members are looked for again and again: their lists had better know
/// them, and it says no more.
#[derive(Drop)]
pub struct Numbers<'a> {
    names: IndexSet<&'a [u8]>,
    places: Vec<usize>,
    looked_in: IndexSet<usize>,
}

impl<'a> Model for Numbers<'a> {
    ghost use Rattle.java_steps.specs.Numbered as numbered;
    ghost use Rattle.java_steps.specs.Numbered.{numbers_of};

    ghost Value = { numbered.Numbers };

    ghost view = { λ n. numbers_of n.names.keys n.places.items };
}

// Puts a number at a place of a list, which is 0 wherever nothing was put.
#[tactic(auto, using(crate::proofs::Numbering::still_filled, crate::proofs::Numbering::number_put))]
fn put_number(numbers: &mut Vec<usize>, place: usize, number: usize) -> Result<(), NoMemory>
    ensures { OnOk result ((i : ℕ) → get_or numbers.new.items i 0 ≡ (if nat_eq i place then number else get_or numbers.old.items i 0)) }
{
    while numbers.len() <= place {
        numbers.push(0)?;
    }
    numbers[place] = number;
    Ok(())
}

impl<'a> Numbers<'a> {
    /// No names, and no number at any place.
    pub fn new(alloc: Global) -> Numbers<'a>
        ensures { result ≡ unnumbered }
    {
        Numbers {
            names: IndexSet::new(alloc),
            places: Vec::new(alloc),
            looked_in: IndexSet::new(alloc),
        }
    }

    /// How many names have a number.
    pub fn len(&self) -> usize
        ensures { result ≡ length self.now.names }
    {
        self.names.len()
    }

    /// Notes a number at the place where a node begins.
    pub fn note(&mut self, at: Span, number: usize) -> Result<(), NoMemory>
        ensures names { self.new.names ≡ self.old.names }
        ensures at { OnOk result ((place : ℕ) → number_at self.new place ≡ noted self.old at.start number place) }
    {
        if at.start >= LONGEST_SOURCE {
            return Ok(());
        }
        put_number(&mut self.places, at.start as usize, number)
    }

    /// Notes the number of a name at the place where a node begins. A new name gets the next one.
    pub fn note_name(&mut self, at: Span, name: &'a Name) -> Result<(), NoMemory>
        ensures names { OnOk result (self.new.names ≡ with_name self.old.names name.now) }
        ensures at { OnOk result ((place : ℕ) → number_at self.new place ≡ noted self.old at.start (number_of self.old.names name.now) place) }
    {
        match self.names.insert_full(name.as_slice()) {
            Ok((number, _)) => self.note(at, number),
            Err(_) => Err(NoMemory),
        }
    }

    /// Notes that members are looked for in the variable whose number is noted at a place, again and
    /// again where it is repeated.
    pub fn note_look(&mut self, at: Span, is_repeated: bool) -> Result<(), NoMemory>
        ensures { self.new ≡ self.old }
    {
        if is_repeated {
            let number = self.at(at);
            self.looked_in.insert(number)?;
        }
        Ok(())
    }

    /// Whether members are looked for again and again in the variable with this number.
    pub fn is_looked_in(&self, number: usize) -> bool {
        self.looked_in.contains(&number)
    }

    /// The number at the place where a node begins.
    pub fn at(&self, at: Span) -> usize
        ensures { result ≡ number_at self.now at.start }
    {
        match self.places.get(at.start as usize) {
            Some(number) => *number,
            None => 0,
        }
    }
}
