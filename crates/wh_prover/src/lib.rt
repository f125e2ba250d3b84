//! The search for a proof of termination: a tree of nodes by the graph of pairs, by projections and by interpretations;
//! else for a loop; or why there is neither.
#![tactic(auto)]

mod answer;
mod lines;
mod node;
mod numbers;
mod search;
mod walk;

pub use answer::{Answer, Cause, Finder, Options};
pub use search::prove;
