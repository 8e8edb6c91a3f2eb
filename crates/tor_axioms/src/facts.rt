// Facts: which atoms are recorded to hold, and which not to.
use crate::judged::decide;
use deriv_parts::{Known, denies, with_behind};
use qbs_base::{Items, NoMemory};
use std::alloc::Global;
use std::marker::Model;
use tor_terms::Atoms;

/// An atom, by its number, that holds or doesn't.
#[derive(Clone, Copy, PartialEq, Eq)]
pub struct Literal {
    pub atom: u32,
    pub holds: bool,
}

pub type Literals = Items<Literal>;

/// Recorded literals, in the order in which they were added.
#[derive(Drop)]
pub struct Facts {
    literals: Literals,
}

impl Model for Facts {
    ghost use Rattle.std.specs.Prelude.{List};
    ghost use Rattle.tor_axioms.specs.declared.facts.Literal.{Literal as PlainLiteral};

    ghost Value = { List PlainLiteral };

    ghost view = { λ a. a.literals };
}

/// What becomes of facts to which a literal is added.
#[derive(Drop)]
pub enum WithAnswer {
    Facts(Facts),
    Contradiction,
    NoMemory,
}

impl Facts {
    ghost use Rattle.std.specs.Prelude.{◌≡◌, [], ◌∷◌, ◌++◌, cond, IfOk, Some, None};
    ghost use Rattle.tor_terms.specs.Truth.{World, truth};
    ghost use Rattle.tor_axioms.specs.Added.{AnswersWith};
    ghost use Rattle.tor_axioms.specs.Decide.{decide as decide_of, with_fact, literal, Satisfied, Agrees};

    /// No facts. It takes no memory.
    pub fn none(alloc: Global) -> Facts
        ensures { result ≡ [] }
    {
        Facts {
            literals: Items::new(alloc),
        }
    }

    /// The recorded literals, in their order.
    pub fn as_slice(&self) -> &[Literal]
        ensures { result.now ≡ self.now }
    {
        self.literals.as_slice()
    }

    fn decided(&self, atoms: &Atoms, atom: u32) -> Known
        ensures { result ≡ decide_of atoms.now self.now atom }
    {
        decide(atoms.as_slice(), self.literals.as_slice(), atom)
    }

    /// What the facts say of an atom: an operand isn't less than itself and is the same as itself;
    /// a recorded atom is as recorded; what is recorded to be more isn't less; all else is open.
    /// An atom that isn't there doesn't hold.
    pub fn decide(&self, atoms: &Atoms, atom: u32) -> Known
        ensures exact { result ≡ decide_of atoms.now self.now atom }
        ensures sound { (w : World) → Satisfied w atoms.now self.now → Agrees result (truth w atoms.now w.current atom) }
    {
        self.decided(atoms, atom)
    }

    // Adds a literal. False, with no literal added, exactly where the facts contradict it.
    fn add(&mut self, atoms: &Atoms, fact: Literal) -> Result<bool, NoMemory>
        ensures { IfOk result (λ added. cond added (Some self.new) None ≡ with_fact atoms.now self.old fact) }
    {
        if denies(self.decided(atoms, fact.atom), fact.holds) {
            return Ok(false);
        }
        self.literals.push(fact)?;
        Ok(true)
    }

    // A copy with one literal more.
    fn with_literal(&self, alloc: Global, more: Literal) -> Result<Facts, NoMemory>
        ensures { IfOk result (λ facts. facts ≡ self.now ++ more ∷ []) }
    {
        let literals = Items::from_vec(self.literals.as_slice().to_vec(alloc)?);
        let literals = with_behind(literals, more)?;
        Ok(Facts { literals })
    }

    /// The facts with one literal more. `Contradiction` comes exactly where the atom is decided
    /// the other way, `NoMemory` only where memory runs out.
    pub fn with(&self, alloc: Global, atoms: &Atoms, atom: u32, holds: bool) -> WithAnswer
        ensures { AnswersWith (with_fact atoms.now self.now (literal atom holds)) result }
    {
        if denies(self.decide(atoms, atom), holds) {
            return WithAnswer::Contradiction;
        }
        match self.with_literal(alloc, Literal { atom, holds }) {
            Ok(facts) => WithAnswer::Facts(facts),
            Err(_) => WithAnswer::NoMemory,
        }
    }
}

ghost use Rattle.std.specs.Prelude.{◌≡◌, [], IfOk};
ghost use Rattle.tor_axioms.specs.Decide.{literal, with_fact as with_fact_of, with_facts as with_facts_of};

/// The facts with one more, or None where they contradict it. The error is want of memory.
#[tactic(auto, using(crate::proofs::Added::added))]
pub fn with_fact(
    alloc: Global,
    atoms: &Atoms,
    facts: &Facts,
    atom: u32,
    holds: bool,
) -> Result<Option<Facts>, NoMemory>
    ensures { IfOk result (λ o. o ≡ with_fact_of atoms.now facts.now (literal atom holds)) }
{
    match facts.with(alloc, atoms, atom, holds) {
        WithAnswer::Facts(more) => Ok(Some(more)),
        WithAnswer::Contradiction => Ok(None),
        WithAnswer::NoMemory => Err(NoMemory),
    }
}

/// These facts added one after another, or None where one contradicts those before it. The error is
/// want of memory.
pub fn with_facts(alloc: Global, atoms: &Atoms, new: &[Literal]) -> Result<Option<Facts>, NoMemory>
    ensures { IfOk result (λ o. o ≡ with_facts_of atoms.now [] new.now) }
{
    let mut facts = Facts::none(alloc);
    for fact in new {
        if !facts.add(atoms, *fact)? {
            return Ok(None);
        }
    }
    Ok(Some(facts))
}
