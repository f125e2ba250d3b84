//! The search for path orders that let pairs of a set go: which orders are tried, how bits write them, and what the
//! search answers.
#![tactic(auto)]

mod blocking;
mod chance;
mod decoding;
mod encoding;
mod failing;
mod filters;
mod find;
mod node;
mod tables;

pub use find::find_order;
