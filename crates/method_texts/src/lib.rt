//! A source in which the methods that call others are written anew, all other bytes of which stay.
#![tactic(auto)]

mod anew;
mod calls;
mod texts;
mod worked;

pub use anew::text_anew;
pub use worked::worked_method_is_written_anew;
