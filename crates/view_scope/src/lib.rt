//! What the class and the method round a slice say: which members are methods, which constants the class has, what fetch patterns, templates and
//! constants may be read in a method, which variables are in sight at a place, and where they are tested for null and guarded.
#![tactic(auto)]

mod allowed;
mod constants;
mod guards;
pub mod laws;
mod method;
mod nulls;
mod obscured;
mod outside;
mod patterns;
mod standing;
mod types;

pub use allowed::{
    first_is_free, is_constant_read, is_fetch_read, is_free_in, is_no_field, is_pattern_free,
    is_template_read, keeps_meaning, keeps_template,
};
pub use constants::{ConstantPlace, constants_of};
pub use guards::is_guarded;
pub use method::{Outline, method_of, method_prefix_end};
pub use nulls::{is_tested, tested_in};
pub use obscured::{hides, is_clear, is_there, means_the_same};
pub use outside::{are_rows_known, is_in_sight_at, is_inside_try};
pub use standing::{Standing, standing_of};
pub use types::java_type_end;
