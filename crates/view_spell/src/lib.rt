//! The words of a Java file in place of what a rewriter put into the text that it is seen as: patches of the file, slice by slice.
#![tactic(auto)]

mod arguments;
mod asks;
mod blocks;
mod fetched;
mod joins;
mod marks;
mod origins;
mod shared;
mod spelled;
mod spelling;
mod starts;
mod templates;
mod worked;

pub use marks::{Mark, moved, past};
pub use origins::{Origin, Seen, origin_of_items};
pub use spelled::{SliceSpelled, SlicesSpelled, leave_out, patches_in, with_spelled};
pub use spelling::spell;
pub use worked::{
    marks_say_where_bytes_stand, worked_joins_list_rows_once_or_more, worked_patches_are_apart,
};
