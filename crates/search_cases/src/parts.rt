// Operands, atoms, elements and updates.
ghost use Rattle.std.specs.Prelude.{◌<◌};

use crate::words::{number_at, numbers_from, word_at};
use kernel_lang::Update;
use qbs_base::{NoMemory, Scalar, Text};
use std::alloc::Global;
use tor_terms::{Atom, Elem, Operand, Way};

/// The scalar of a kind and a word.
pub fn scalar_of(alloc: Global, kind: &str, word: &str) -> Result<Scalar, NoMemory> {
    match kind {
        "text" => Ok(Scalar::Text(Text::from_str(alloc, word)?)),
        "bool" => Ok(Scalar::Bool(word == "true")),
        _ => Ok(Scalar::Long(word.parse().unwrap_or(0))),
    }
}

// The operand of three words, from a number on.
fn operand_at(alloc: Global, words: &[&str], n: usize) -> Result<Operand, NoMemory>
    requires { n < 10 }
{
    match word_at(words, n) {
        "field" => Ok(Operand::Field(number_at(words, n + 1), number_at(words, n + 2))),
        "entry" => Ok(Operand::Entry(number_at(words, n + 1))),
        kind => Ok(Operand::Lit(scalar_of(alloc, kind, word_at(words, n + 1))?)),
    }
}

fn flag_at(alloc: Global, words: &[&str]) -> Result<Atom, NoMemory> {
    let loops = numbers_from(alloc, words, 3)?;
    Ok(Atom::Flag(number_at(words, 2), loops))
}

/// The atom of a line.
pub fn atom_of(alloc: Global, words: &[&str]) -> Result<Atom, NoMemory> {
    match word_at(words, 1) {
        "less" => {
            let left = operand_at(alloc, words, 2)?;
            Ok(Atom::Less(left, operand_at(alloc, words, 5)?))
        }
        "same" => {
            let left = operand_at(alloc, words, 2)?;
            Ok(Atom::Same(left, operand_at(alloc, words, 5)?))
        }
        "member" => {
            let operand = operand_at(alloc, words, 2)?;
            Ok(Atom::Member(operand, number_at(words, 5)))
        }
        "flag" => flag_at(alloc, words),
        _ => Ok(Atom::Truth(operand_at(alloc, words, 2)?)),
    }
}

// The element of three words, from a number on.
fn elem_at(words: &[&str], n: usize) -> Elem
    requires { n < 10 }
{
    match word_at(words, n) {
        "field" => Elem::Field(number_at(words, n + 1), number_at(words, n + 2)),
        _ => Elem::Whole(number_at(words, n + 1)),
    }
}

/// The update of words from a number on: its name, and then its element.
pub fn update_at(words: &[&str], n: usize) -> Update
    requires { n < 5 }
{
    let elem = elem_at(words, n + 1);
    match word_at(words, n) {
        "push" => Update::Push(elem),
        "new" => Update::PushNew(elem),
        "plus" => Update::Plus(elem),
        "max" => Update::Best(Way::Max, elem),
        "min" => Update::Best(Way::Min, elem),
        "tick" => Update::Tick,
        _ => Update::Mark,
    }
}
