// What a search finds.
use kernel_lang::Candidate;
use tor_axioms::Derivations;

/// What a search finds: the first candidate that is accepted, with its number and the derivations of its
/// conditions; or that none of all `n` is; or that none of the first `b` is, and there are `n`, which are more.
/// `dropped` counts the candidates before the answer that were dropped.
#[derive(Drop)]
pub enum Found {
    Found {
        k: u64,
        cand: Candidate,
        proofs: Derivations,
        dropped: u64,
    },
    NoneOf {
        n: u64,
        dropped: u64,
    },
    Budget {
        b: u64,
        n: u64,
        dropped: u64,
    },
}
