//! The rewriting rules of terms, what recorded facts decide, and derivations.
#![tactic(auto)]

mod children;
mod derivation;
mod elements;
mod facts;
mod head;
mod judged;
pub mod laws;
mod lists;
mod make;
mod numbers;
mod paths;
mod select;
mod selections;
mod truths;

pub use deriv_parts::Known;
pub use derivation::{Condition, Derivation, Derivations, Step, Steps, Vc, Vcs};
pub use facts::{Facts, Literal, Literals, WithAnswer, with_fact, with_facts};
pub use judged::{decide, decide_formula};
pub use paths::apply;
pub use select::{all_yes, some_no};
