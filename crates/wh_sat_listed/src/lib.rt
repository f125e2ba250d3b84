//! A solver that, where a formula has no model, gives a list of clauses with hints that shows it, for the checker of
//! such lists.
#![tactic(auto)]

mod hints;
mod listing;
mod solving;

pub use solving::{Listed, solve_listed};
