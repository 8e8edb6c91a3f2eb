// Terms, formulas and atoms. Loops are named by their numbers.
use qbs_base::{Items, Scalar};

/// Loops, by their numbers.
pub type Loops = Items<u32>;

/// A place in a term: the number of a child, counted from 0, for each level down.
pub type TermPath = Items<u32>;

/// An operand of a test: a column of a loop's row, an entry value by its number, or a literal.
#[derive(Drop)]
pub enum Operand {
    Field(u32, u32),
    Entry(u32),
    Lit(Scalar),
}

/// A test of a tuple.
#[derive(Drop)]
pub enum Atom {
    Less(Operand, Operand),
    Same(Operand, Operand),
    /// An operand that is true.
    Truth(Operand),
    /// An operand that is in the known list of this number.
    Member(Operand, u32),
    /// The flag of the accumulator with this number, at the rows of the loops round its
    /// declaration.
    Flag(u32, Loops),
}

pub type Atoms = Items<Atom>;

/// A formula over numbered atoms. `Is(k, holds)` says that atom k has this truth.
#[derive(Drop)]
pub enum Formula {
    Is(u32, bool),
    Both(Box<Formula>, Box<Formula>),
    Either(Box<Formula>, Box<Formula>),
}

pub type Formulas = Items<Formula>;

/// What is taken of a tuple: the row of a loop, or a column of it.
#[derive(Clone, Copy, Debug)]
pub enum Elem {
    Whole(u32),
    Field(u32, u32),
}

/// Whether the greatest or the least value is looked for.
#[derive(Clone, Copy, Debug)]
pub enum Way {
    Max,
    Min,
}

/// How many rows of a list are taken: none, as many as a loop has done turns, one more, or as many
/// as the loop's list has.
#[derive(Clone, Copy)]
pub enum Index {
    Zero,
    At(u32),
    Next(u32),
    Len(u32),
}

/// A term: a list of tuples, a list of elements, a number or a truth value. Its children are
/// counted from 0, in the order in which they stand.
#[derive(Drop)]
pub enum Term {
    /// The empty list.
    Nil,
    /// The list of a loop.
    Walk(u32),
    /// The first tuples of a list.
    Top(Index, Box<Term>),
    /// One tuple: the current rows of these loops.
    One(Loops),
    /// The list of one element, at the current rows.
    Unit(Elem),
    Cat(Box<Term>, Box<Term>),
    /// Each of the first, in order, with each of the second, in order.
    Join(Box<Term>, Box<Term>),
    /// The tuples for which all formulas hold.
    Sel(Formulas, Box<Term>),
    /// An element of each tuple.
    Proj(Elem, Box<Term>),
    /// The first occurrences.
    Uniq(Box<Term>),
    /// The list with an element last, where it isn't in the list.
    Insert(Box<Term>, Elem),
    /// The value held at the entry of a level.
    Hold(u32),
    Lit(Scalar),
    /// A column of the current row.
    Item(Elem),
    Count(Box<Term>),
    Sum(Box<Term>),
    /// Whether the list isn't empty.
    Any(Box<Term>),
    /// The greatest or least of the first and of all of the second.
    Best(Way, Box<Term>, Box<Term>),
    /// The greater or lesser of two.
    Pick(Way, Box<Term>, Box<Term>),
    Add(Box<Term>, Box<Term>),
    Or(Box<Term>, Box<Term>),
}
