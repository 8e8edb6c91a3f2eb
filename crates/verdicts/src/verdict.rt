// What is said of loops that were tried.
use qbs_base::{Items, Span};

/// What is said of a loop: the number of the candidate that was found, and the loop gave way; or that none of all `n` candidates was
/// accepted; or none of the first `b`, and there are `n`, which are more; or the rule of the kernel form, from 1 to 9, that the loop
/// breaks first, and the first place that breaks it.
#[derive(Clone, Copy, PartialEq, Eq)]
pub enum Said {
    Found { k: u64 },
    NoneOf { n: u64 },
    Budget { b: u64, n: u64 },
    Outside { rule: u32, at: Span },
}

/// A loop that was tried, by its place in the program as it stood then, and what is said of it.
#[derive(Clone, Copy, PartialEq, Eq)]
pub struct LoopVerdict {
    pub at: Span,
    pub said: Said,
}

pub type Verdicts = Items<LoopVerdict>;
