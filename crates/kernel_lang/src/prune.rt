// What is said of a candidate before its conditions are derived.

/// Whether to go on with a candidate.
#[derive(Clone, Copy, PartialEq, Eq)]
pub enum PruneAnswer {
    /// Go on with the candidate.
    Keep,
    /// The candidate is refuted.
    Drop,
    /// Want of memory, which says nothing of the candidate.
    NoMemory,
}
