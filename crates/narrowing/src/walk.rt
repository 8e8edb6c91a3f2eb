// What is said of for-eachs.
use qbs_base::{Items, Span};

/// Why a for-each stays as it is, the first that holds.
#[derive(Clone, Copy, PartialEq, Eq)]
pub enum Reason {
    /// Another loop stands round it: a query for each turn would be worse.
    Inside,
    /// Its list is no fetch of a table, nor one that is declared directly before it and named nowhere else.
    List,
    /// Its body is more than one `if`, or has an `else`.
    Body,
    /// No part of the condition is one that a query can test.
    Condition,
    /// A query stands for the whole loop: `rewrite` puts it there.
    Covered,
}

/// A for-each by its place, and why it stays, None where it is narrowed.
#[derive(Clone, Copy, PartialEq, Eq)]
pub struct Walk {
    pub at: Span,
    pub stays: Option<Reason>,
}

pub type Walks = Items<Walk>;
