//! Laws of extended trees, whose functional spines have their missing arguments, and of filtered trees,
//! whose symbols keep some of their arguments; each the contract of a function that does nothing.
#![tactic(auto)]

mod extended;
mod filtered;

pub use extended::{
    extended_closed_trees_are_the_same, extended_patterns_are_patterns, extended_trees_are_full,
    extended_trees_are_typed,
};
pub use filtered::{
    filtered_symbols_fit, filtered_symbols_have_one_sort, filtered_trees_are_typed,
};
