//! Laws of the path order on filtered trees: it ends together with beta, what a verdict on a line says,
//! and that steps and pairs of an oriented system are steps of it; each the contract of a function that
//! does nothing.
#![tactic(auto)]

mod order;
mod steps;
mod verdict;

pub use order::{
    orders_are_roots, path_order_ends, trees_at_least_are_many_steps, trees_greater_are_steps,
};
pub use steps::{
    filtered_calls_end, good_pairs_are_filtered_steps, steps_are_filtered_steps,
    steps_in_calls_are_filtered_steps,
};
pub use verdict::good_lines_hold;
