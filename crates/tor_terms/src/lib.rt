//! Terms of ordered relations, their formulas and atoms, the environments in which they have a value,
//! and the tests, copies and sums that others make of them.
#![tactic(auto)]

mod compared;
mod copy;
mod entering;
mod env;
mod eval_first;
mod eval_found;
mod eval_numbers;
mod eval_within;
mod next;
mod rows;
mod same;
mod term;

pub use compared::{both_less, both_same, is_member, is_true, same_bool, same_cell, scalar_before};
pub use copy::{
    copy_atom, copy_atoms, copy_boxed_term, copy_formula, copy_formulas, copy_operand, copy_term,
};
pub use entering::enter;
pub use env::{Env, FlagTable, FlagTables};
pub use eval_first::first_of;
pub use eval_found::{Found, Tuple, TupleList};
pub use eval_numbers::{added, better, number, number_of};
pub use eval_within::{first_loops, formula_within, has_loop, has_loops, within_first};
pub use next::next_of;
pub use rows::{has_row, is_no_cell, plain_row, same_row};
pub use same::{same_flag, same_formula, same_numbers, same_operand, same_term};
pub use term::{Atom, Atoms, Elem, Formula, Formulas, Index, Loops, Operand, Term, TermPath, Way};
