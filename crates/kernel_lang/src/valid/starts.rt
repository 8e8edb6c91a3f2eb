// What accumulators start with, and tests that have fields.
ghost use Rattle.std.specs.Prelude.{◌≡◌};
ghost use Rattle.kernel_lang.specs.Parts.{parts_of};
ghost use Rattle.kernel_lang.specs.Plain.{accumulator};
ghost use Rattle.kernel_lang.specs.Validity as spec;

use crate::parts::{Acc, Parts, Update};
use qbs_base::Scalar;
use tor_terms::{Atom, Elem, Operand};

/// Whether an update sets a flag.
pub fn is_mark(update: Update) -> bool
    ensures { result ≡ spec.is_mark update }
{
    match update {
        Update::Mark => true,
        _ => false,
    }
}

/// Whether only a flag is declared inside a loop or kept by its opposite.
#[tactic(auto, unfolding(crate::specs::Validity::base_is_valid))]
pub fn base_is_valid(a: &Acc) -> bool
    ensures { result ≡ spec.base_is_valid (accumulator a.now) }
{
    is_mark(a.update) || (a.base == 0 && !a.opposite)
}

fn is_field(operand: &Operand) -> bool
    ensures { result ≡ spec.is_field operand.now }
{
    match operand {
        Operand::Field(_, _) => true,
        _ => false,
    }
}

fn has_a_field(atom: &Atom) -> bool
    ensures { result ≡ spec.has_a_field atom.now }
{
    match atom {
        Atom::Less(a, b) => is_field(a) || is_field(b),
        Atom::Same(a, b) => is_field(a) || is_field(b),
        Atom::Truth(a) => is_field(a),
        Atom::Member(a, _) => is_field(a),
        Atom::Flag(_, _) => true,
    }
}

/// Whether comparisons have a field, and other tests are of fields.
#[tactic(auto, unfolding(crate::specs::Validity::tests_have_fields))]
pub fn tests_have_fields(p: &Parts) -> bool
    ensures { result ≡ spec.tests_have_fields (parts_of p.now) }
{
    p.atoms.as_slice().iter().all(|atom| has_a_field(atom))
}

fn starts_with_nought(start: &Option<Scalar>) -> bool
    ensures { result ≡ spec.starts_as spec.is_nought start.now }
{
    match start {
        Some(Scalar::Long(n)) => *n == 0,
        _ => false,
    }
}

fn starts_with_number(start: &Option<Scalar>) -> bool
    ensures { result ≡ spec.starts_as spec.is_number start.now }
{
    match start {
        Some(Scalar::Long(_)) => true,
        _ => false,
    }
}

fn starts_with_false(start: &Option<Scalar>) -> bool
    ensures { result ≡ spec.starts_as spec.is_false start.now }
{
    match start {
        Some(Scalar::Bool(b)) => !*b,
        _ => false,
    }
}

fn start_is_valid(update: Update, start: &Option<Scalar>) -> bool
    ensures { result ≡ spec.start_is_valid update start.now }
{
    match update {
        Update::Push(_) => start.is_none(),
        Update::PushNew(_) => start.is_none(),
        Update::Tick => starts_with_nought(start),
        Update::Plus(_) => starts_with_nought(start),
        Update::Best(_, _) => starts_with_number(start),
        Update::Mark => starts_with_false(start),
    }
}

fn is_column(e: Elem) -> bool
    ensures { result ≡ spec.is_column e }
{
    match e {
        Elem::Whole(_) => false,
        Elem::Field(_, _) => true,
    }
}

fn takes_a_column(update: Update) -> bool
    ensures { result ≡ spec.takes_a_column update }
{
    match update {
        Update::PushNew(e) => is_column(e),
        Update::Plus(e) => is_column(e),
        Update::Best(_, e) => is_column(e),
        _ => true,
    }
}

/// Whether an accumulator starts with what its update asks for, and adds and compares fields.
#[tactic(auto, unfolding(crate::specs::Validity::starts_rightly))]
pub fn starts_rightly(a: &Acc) -> bool
    ensures { result ≡ spec.starts_rightly (accumulator a.now) }
{
    start_is_valid(a.update, &a.start) && takes_a_column(a.update)
}
