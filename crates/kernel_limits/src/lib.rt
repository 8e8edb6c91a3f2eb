//! Which limits the lists of loops may have. It is apart from `kernel_lang` for its edit.
#![tactic(auto)]

mod limit;

pub use limit::limit_stands;
