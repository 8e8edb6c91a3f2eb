// Accumulators with what a candidate chooses for them.
use kernel_lang::Acc;
use tor_terms::Formula;

/// An accumulator with the formulas of its pool that a candidate has.
#[derive(Drop)]
pub struct Member<'a> {
    pub acc: &'a Acc,
    pub chosen: Vec<&'a Formula>,
}
