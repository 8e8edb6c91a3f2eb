//! Which sequences of statements of a Java file are seen as methods of the source language, and the tokens of these.
#![tactic(auto)]

mod again;
mod bounds;
mod file;
mod kept;
mod params;
mod placed;
mod prints;
mod seen;
mod shown;
mod slices;
mod view;
mod words;
pub mod worked;

pub use again::is_again;
pub use file::{class_name, looked_at, open_file};
pub use shown::put_method;
pub use slices::{is_slice, within};
pub use view::{is_member, is_view, put_class, slice_name};
pub use words::{Known, are_words, known_in};
