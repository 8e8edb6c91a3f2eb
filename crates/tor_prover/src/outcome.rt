// What bringing terms to their normal forms shows.
use tor_axioms::Steps;
use tor_terms::Term;

/// The normal form of a term with the steps that lead to it, or the open atom that is met.
#[derive(Drop)]
pub enum Outcome {
    Normal(Box<Term>, Steps),
    Meets(u32),
}

/// What the normal forms of both sides show: the steps that lead both to one term, that they
/// differ, or the open atom that the first of them to meet one names.
#[derive(Drop)]
pub enum Judgement {
    Same(Steps, Steps),
    Differ,
    Splits(u32),
}
