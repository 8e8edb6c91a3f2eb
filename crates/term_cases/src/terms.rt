// Terms that are written in postfix, one letter a step: `n` Nil, `w` Walk(0), `v` Walk(1), `o` One([0]),
// `p` One([1]), `q` One([0, 1]), `u` Unit of column 1, `r` Unit of the whole row, `i` Item, `h` Hold(2), `0`, `1` and
// `m` the numbers 0, 1 and -1, `t` and `f` truth values; `Z`, `A`, `N`, `L`, `M` Top of Zero, At(0), Next(0), Len(0),
// Next(1); `E`, `Y`, `X`, `O`, `B`, `F` Sel with no formula, with atom 0, with its negation, with atom 1, with both, with
// a nest of three; `P` Proj of column 1, `T` Proj of the whole row, `U` Uniq, `I` Insert of column 1, `V` Insert of the
// whole row, `K` Count, `S` Sum, `a` Any; `C` Cat, `J` Join, `+` Add, `|` Or, `b` and `l` Best by Max and Min, `k` Pick.
use crate::made::{either, is, numbers};
use qbs_base::{Items, NoMemory, Scalar, boxed};
use std::alloc::Global;
use tor_terms::{Elem, Formula, Formulas, Index, Term, Way};

fn leaf(alloc: Global, letter: u8) -> Result<Box<Term>, NoMemory> {
    match letter {
        b'w' => boxed(alloc, Term::Walk(0)),
        b'v' => boxed(alloc, Term::Walk(1)),
        b'o' => boxed(alloc, Term::One(numbers(alloc, &[0])?)),
        b'p' => boxed(alloc, Term::One(numbers(alloc, &[1])?)),
        b'q' => boxed(alloc, Term::One(numbers(alloc, &[0, 1])?)),
        b'u' => boxed(alloc, Term::Unit(Elem::Field(0, 1))),
        b'r' => boxed(alloc, Term::Unit(Elem::Whole(0))),
        b'i' => boxed(alloc, Term::Item(Elem::Field(0, 1))),
        b'h' => boxed(alloc, Term::Hold(2)),
        b'0' => boxed(alloc, Term::Lit(Scalar::Long(0))),
        b'1' => boxed(alloc, Term::Lit(Scalar::Long(1))),
        b'm' => boxed(alloc, Term::Lit(Scalar::Long(-1))),
        b't' => boxed(alloc, Term::Lit(Scalar::Bool(true))),
        b'f' => boxed(alloc, Term::Lit(Scalar::Bool(false))),
        _ => boxed(alloc, Term::Nil),
    }
}

// Either of the first two with the third, and that the second doesn't hold.
fn nest(alloc: Global) -> Result<Formulas, NoMemory> {
    let first = is(alloc, 0, true)?;
    let second = is(alloc, 1, false)?;
    let either = either(alloc, first, second)?;
    let third = is(alloc, 2, true)?;
    let mut list = Items::new(alloc);
    list.push(Formula::Both(either, third))?;
    list.push(Formula::Is(1, false))?;
    Ok(list)
}

fn literals(alloc: Global, letter: u8) -> Result<Formulas, NoMemory> {
    let mut list = Items::new(alloc);
    match letter {
        b'Y' => list.push(Formula::Is(0, true))?,
        b'X' => list.push(Formula::Is(0, false))?,
        b'O' => list.push(Formula::Is(1, true))?,
        b'B' => {
            list.push(Formula::Is(1, true))?;
            list.push(Formula::Is(0, true))?;
        }
        _ => {}
    }
    Ok(list)
}

fn over_one(alloc: Global, letter: u8, child: Box<Term>) -> Result<Box<Term>, NoMemory> {
    match letter {
        b'Z' => boxed(alloc, Term::Top(Index::Zero, child)),
        b'A' => boxed(alloc, Term::Top(Index::At(0), child)),
        b'N' => boxed(alloc, Term::Top(Index::Next(0), child)),
        b'L' => boxed(alloc, Term::Top(Index::Len(0), child)),
        b'M' => boxed(alloc, Term::Top(Index::Next(1), child)),
        b'P' => boxed(alloc, Term::Proj(Elem::Field(0, 1), child)),
        b'T' => boxed(alloc, Term::Proj(Elem::Whole(0), child)),
        b'U' => boxed(alloc, Term::Uniq(child)),
        b'I' => boxed(alloc, Term::Insert(child, Elem::Field(0, 1))),
        b'V' => boxed(alloc, Term::Insert(child, Elem::Whole(0))),
        b'K' => boxed(alloc, Term::Count(child)),
        b'S' => boxed(alloc, Term::Sum(child)),
        b'a' => boxed(alloc, Term::Any(child)),
        b'F' => boxed(alloc, Term::Sel(nest(alloc)?, child)),
        _ => boxed(alloc, Term::Sel(literals(alloc, letter)?, child)),
    }
}

fn over_two(
    alloc: Global,
    letter: u8,
    first: Box<Term>,
    second: Box<Term>,
) -> Result<Box<Term>, NoMemory> {
    match letter {
        b'J' => boxed(alloc, Term::Join(first, second)),
        b'+' => boxed(alloc, Term::Add(first, second)),
        b'|' => boxed(alloc, Term::Or(first, second)),
        b'b' => boxed(alloc, Term::Best(Way::Max, first, second)),
        b'l' => boxed(alloc, Term::Best(Way::Min, first, second)),
        b'k' => boxed(alloc, Term::Pick(Way::Max, first, second)),
        _ => boxed(alloc, Term::Cat(first, second)),
    }
}

fn taken(alloc: Global, stack: &mut Vec<Box<Term>>) -> Result<Box<Term>, NoMemory> {
    match stack.pop() {
        Some(term) => Ok(term),
        None => boxed(alloc, Term::Nil),
    }
}

fn made(alloc: Global, stack: &mut Vec<Box<Term>>, letter: u8) -> Result<Box<Term>, NoMemory> {
    match letter {
        b'C' | b'J' | b'+' | b'|' | b'b' | b'l' | b'k' => {
            let second = taken(alloc, stack)?;
            let first = taken(alloc, stack)?;
            over_two(alloc, letter, first, second)
        }
        b'a' | b'A'..=b'Z' => over_one(alloc, letter, taken(alloc, stack)?),
        _ => leaf(alloc, letter),
    }
}

/// The term of a word.
pub fn term_of(alloc: Global, word: &str) -> Result<Box<Term>, NoMemory> {
    let mut stack = Vec::new(alloc);
    for letter in word.as_bytes() {
        let term = made(alloc, &mut stack, *letter)?;
        stack.push(term)?;
    }
    taken(alloc, &mut stack)
}
