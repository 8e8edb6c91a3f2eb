// The variables of a run.
ghost use Rattle.std.specs.Prelude.{◌≡◌, [], IfOk, OnOk, IsTrue, IsFalse, Some, None};
ghost use Rattle.std.specs.Option.{option_copied, option_map};
ghost use Rattle.qbs_base.specs.Named.{at_name};
ghost use Rattle.java_mean.specs.Store.{put};
ghost use Rattle.qbs_base.specs.declared.scalar.Scalar.TheVariants.{Long};
ghost use Rattle.qbs_base.specs.declared.scalar.Value.TheVariants.{One};
ghost use Rattle.java_steps.specs.Held.{seen, value_in, variable_in};
ghost use Rattle.java_steps.specs.Placed.{Stands};
ghost use Rattle.java_steps.specs.Quick.{written};

use crate::held::{Held, Variable};
use crate::placed::{at_place, put_at_place, put_there, there};
use indexmap::IndexMap;
use qbs_base::{Name, NoMemory, Scalar};
use std::alloc::Global;
use std::marker::Model;

/// Variables by their names, in the order in which they came to be, and for each number of a name
/// its place among them. A look-up by a number takes two places and compares the name there, and only
/// where the variable isn't there yet a hash.
#[derive(Drop)]
pub struct Store<'a> {
    variables: IndexMap<&'a [u8], Variable<'a>>,
    places: Vec<usize>,
}

impl<'a> Model for Store<'a> {
    ghost use Rattle.std.specs.Prelude.{map};
    ghost use Rattle.java_mean.specs.Store as meant;
    ghost use Rattle.java_steps.specs.Held.{variable_in};

    ghost Value = { meant.Store };

    ghost view = { λ s. map (λ p. (p.0.now, variable_in p.1)) s.variables.entries };
}

// The place that a number has.
fn place_of(places: &[usize], number: usize) -> usize {
    match places.get(number) {
        Some(place) => *place,
        None => 0,
    }
}

// Notes the place of a number.
fn note(places: &mut Vec<usize>, number: usize, place: usize) {
    if number < places.len() {
        places[number] = place;
    }
}

// Puts a value in the variable at a place, where the name stands there, and says whether it does.
#[tactic(auto, using(crate::proofs::Placing::stands_at))]
fn put_held<'a>(
    variables: &mut IndexMap<&'a [u8], Variable<'a>>,
    place: usize,
    name: &'a [u8],
    held: Held<'a>,
) -> bool
    ensures set { IsTrue result → Some (seen variables.new.entries) ≡ written (seen variables.old.entries) name.now (value_in held.entry) }
    ensures kept { IsFalse result → variables.new ≡ variables.old }
    ensures away { IsFalse result → Stands variables.old.entries place name.now → ⊥ }
{
    let Some(variable) = there(variables, place, name) else {
        return false;
    };
    let is_set = variable.is_set;
    put_there(variables, place, name, Variable { held, is_set });
    true
}

fn long_held<'a>(n: i64) -> Held<'a>
    ensures { value_in result ≡ One (Long n) }
{
    Held::One(Scalar::Long(n))
}

impl<'a> Store<'a> {
    /// No variables, and places for so many numbers of names.
    pub fn new(alloc: Global, size: usize) -> Result<Store<'a>, NoMemory>
        ensures { IfOk result (λ store. store ≡ []) }
    {
        let mut places = Vec::new(alloc);
        places.resize(size, 0)?;
        Ok(Store {
            variables: IndexMap::new(alloc),
            places,
        })
    }

    /// The variable of this name, which is looked for by its number first.
    #[inline(always)]
    pub fn get(&self, number: usize, name: &Name) -> Option<&Variable<'a>>
        ensures { option_map variable_in (option_copied result) ≡ at_name self.now name.now }
    {
        let place = place_of(self.places.as_slice(), number);
        at_place(&self.variables, place, name.as_slice())
    }

    /// Puts a variable under a name, which is looked for by its number first, and gives the one that
    /// was there.
    pub fn replace(
        &mut self,
        number: usize,
        name: &'a Name,
        variable: Variable<'a>,
    ) -> Result<Option<Variable<'a>>, NoMemory>
        ensures old { IfOk result (λ old. option_map variable_in old ≡ at_name self.old name.now) }
        ensures stored { OnOk result (self.new ≡ put self.old name.now (variable_in variable.entry)) }
    {
        let place = place_of(self.places.as_slice(), number);
        let name = name.as_slice();
        let put = put_at_place(&mut self.variables, place, name, variable)?;
        note(&mut self.places, number, put.0);
        Ok(put.1)
    }

    /// Puts a number in the variable of this name, which stays a set or none, and says whether there is
    /// one. It is looked for by its number first.
    pub fn set_long(&mut self, number: usize, name: &'a Name, n: i64) -> bool
        ensures set { IsTrue result → Some self.new ≡ written self.old name.now (One (Long n)) }
        ensures none { IsFalse result → at_name self.old name.now ≡ None }
        ensures kept { IsFalse result → self.new ≡ self.old }
    {
        let place = place_of(self.places.as_slice(), number);
        let name = name.as_slice();
        if put_held(&mut self.variables, place, name, long_held(n)) {
            return true;
        }
        match self.variables.get_index_of(name) {
            Some(place) => {
                note(&mut self.places, number, place);
                put_held(&mut self.variables, place, name, long_held(n))
            }
            None => false,
        }
    }
}
