//! Lines of inferences for two filtered trees under a given order: whether there is one, and one with the fewest
//! entries.
#![tactic(auto)]

mod best;
mod build;
mod line;
mod ways;

pub use line::{find_greater, find_inference};
