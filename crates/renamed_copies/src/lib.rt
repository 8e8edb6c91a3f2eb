//! Copies in which variables are renamed, and methods and programs with other parts.
#![tactic(auto)]

mod methods;
mod naming;
mod renamed;
mod statements;

pub use methods::{method_with, program_with};
pub use naming::{Renaming, mark, new_name};
pub use renamed::renamed_copy;
pub use statements::{
    added, assigned, declared, for_each_renamed, if_else_renamed, if_renamed, printed, returned,
    sorted, while_renamed,
};
