// Verification conditions and their derivations.
use crate::Literals;
use qbs_base::Items;
use tor_terms::{Atoms, Term, TermPath};

/// A verification condition: two terms that are to have one value wherever the facts hold.
#[derive(Drop)]
pub struct Vc {
    pub atoms: Atoms,
    pub facts: Literals,
    pub left: Term,
    pub right: Term,
}

pub type Vcs = Items<Vc>;

/// A verification condition over atoms that stand elsewhere.
#[derive(Drop)]
pub struct Condition {
    pub facts: Literals,
    pub left: Term,
    pub right: Term,
}

/// A rule, by its number, and the place at which it is applied.
#[derive(Clone, Drop)]
pub struct Step {
    pub rule: u32,
    pub path: TermPath,
}

pub type Steps = Items<Step>;

/// A derivation of a condition: steps that bring both terms to one term, a derivation where an
/// atom holds and one where it doesn't, or that the facts contradict each other.
#[derive(Drop)]
pub enum Derivation {
    Steps {
        left: Steps,
        right: Steps,
    },
    Split {
        atom: u32,
        yes: Box<Derivation>,
        no: Box<Derivation>,
    },
    Absurd,
}

pub type Derivations = Items<Derivation>;
