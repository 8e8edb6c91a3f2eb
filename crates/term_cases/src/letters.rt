// Terms as the letters that they are read from. What no letter makes is `?`.
use qbs_base::Scalar;
use std::alloc::AllocError;
use tor_terms::{Elem, Formula, Index, Term, Way};

// One letter for column 1 of the current row, and another one for the whole row.
fn of_elem(elem: Elem, field: char, whole: char) -> char {
    match elem {
        Elem::Field(0, 1) => field,
        Elem::Whole(0) => whole,
        _ => '?',
    }
}

fn of_index(index: Index) -> char {
    match index {
        Index::Zero => 'Z',
        Index::At(0) => 'A',
        Index::Next(0) => 'N',
        Index::Next(1) => 'M',
        Index::Len(0) => 'L',
        _ => '?',
    }
}

fn of_scalar(scalar: &Scalar) -> char {
    match scalar {
        Scalar::Long(0) => '0',
        Scalar::Long(1) => '1',
        Scalar::Long(-1) => 'm',
        Scalar::Bool(true) => 't',
        Scalar::Bool(false) => 'f',
        _ => '?',
    }
}

fn of_loops(loops: &[u32]) -> char {
    match loops {
        [0] => 'o',
        [1] => 'p',
        [0, 1] => 'q',
        _ => '?',
    }
}

fn of_formulas(formulas: &[Formula]) -> char {
    match formulas {
        [] => 'E',
        [Formula::Is(0, true)] => 'Y',
        [Formula::Is(0, false)] => 'X',
        [Formula::Is(1, true)] => 'O',
        [Formula::Is(1, true), Formula::Is(0, true)] => 'B',
        _ => '?',
    }
}

fn of_best(way: Way) -> char {
    match way {
        Way::Max => 'b',
        Way::Min => 'l',
    }
}

fn of_pick(way: Way) -> char {
    match way {
        Way::Max => 'k',
        Way::Min => '?',
    }
}

fn of_number(n: u32, numbers: &[(u32, char)]) -> char {
    for (number, letter) in numbers {
        if *number == n {
            return *letter;
        }
    }
    '?'
}

// The letter of a head.
fn of_head(term: &Term) -> char {
    match term {
        Term::Nil => 'n',
        Term::Walk(j) => of_number(*j, &[(0, 'w'), (1, 'v')]),
        Term::Top(index, _) => of_index(*index),
        Term::One(loops) => of_loops(loops.as_slice()),
        Term::Unit(elem) => of_elem(*elem, 'u', 'r'),
        Term::Cat(_, _) => 'C',
        Term::Join(_, _) => 'J',
        Term::Sel(formulas, _) => of_formulas(formulas.as_slice()),
        Term::Proj(elem, _) => of_elem(*elem, 'P', 'T'),
        Term::Uniq(_) => 'U',
        Term::Insert(_, elem) => of_elem(*elem, 'I', 'V'),
        Term::Hold(j) => of_number(*j, &[(2, 'h')]),
        Term::Lit(scalar) => of_scalar(scalar),
        Term::Item(elem) => of_elem(*elem, 'i', '?'),
        Term::Count(_) => 'K',
        Term::Sum(_) => 'S',
        Term::Any(_) => 'a',
        Term::Best(way, _, _) => of_best(*way),
        Term::Pick(way, _, _) => of_pick(*way),
        Term::Add(_, _) => '+',
        Term::Or(_, _) => '|',
    }
}

/// Appends a term: its children, and then its head.
pub fn put_term(out: &mut String, term: &Term) -> Result<(), AllocError> {
    match term {
        Term::Cat(first, second)
        | Term::Join(first, second)
        | Term::Best(_, first, second)
        | Term::Pick(_, first, second)
        | Term::Add(first, second)
        | Term::Or(first, second) => {
            put_term(out, first)?;
            put_term(out, second)?;
        }
        Term::Top(_, child)
        | Term::Sel(_, child)
        | Term::Proj(_, child)
        | Term::Uniq(child)
        | Term::Insert(child, _)
        | Term::Count(child)
        | Term::Sum(child)
        | Term::Any(child) => put_term(out, child)?,
        _ => {}
    }
    out.push(of_head(term))
}
