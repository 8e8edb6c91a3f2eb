//! A store of small databases that refuted candidates: a bank of them, its text, and what candidates leave in it.
#![tactic(auto)]

mod asked;
mod bank;
mod fault;
mod gathering;
mod item;
pub mod laws;
mod print;
mod read;
mod same;
mod searched;
mod within;

pub use asked::{AskedBank, Held};
pub use bank::Bank;
pub use fault::StoreFault;
pub use gathering::gather;
pub use print::print_store;
pub use read::read_store;
