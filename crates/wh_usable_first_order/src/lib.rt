//! First-order trees: symbols whose arguments are all of a sort, meta-variables without arguments, and nothing
//! abstracted.
#![tactic(auto)]

mod kinds;

pub use kinds::{is_first_order, is_nullary, is_of_a_sort, takes_sorts_first};
