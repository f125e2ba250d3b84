//! Ranges of coefficients: whether no interpretation of the space lets a pair of a set go.
#![tactic(auto)]

mod bounds;
mod choosing;
mod narrowing;
mod plan;
mod search;
mod testing;

pub use search::has_none;
