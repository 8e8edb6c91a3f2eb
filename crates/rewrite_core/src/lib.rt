//! Loops give way to queries: the asks that stand for a loop, that they have what the loop makes, and the program in which they stand.
#![tactic(auto)]

mod asking;
pub mod bundled;
mod checking;
pub mod laws;
mod looped;
mod outcome;
mod progress;
pub mod pruned;
mod replaced;
mod replacing;
mod rewriting;
mod rewritten;
mod searches;
mod spelling;
mod spreading;
mod stage;
pub mod tried;
pub mod unnest_laws;
pub mod unnest_texts;
mod unnested;
mod unnesting;
mod values;
pub mod worked;
pub mod written;

pub use checking::{Checked, check_bundle};
pub use replaced::{Replaced, replace_loops};
pub use replacing::replace_loop;
pub use rewriting::{rewrite, rewrite_with};
pub use rewritten::Rewritten;
pub use searches::{Search, Searches, Searching, search_loops};
pub use unnested::{Unnested, unnest};
pub use unnesting::{Unnesting, unnest_loops};
