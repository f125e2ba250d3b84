//! What an argument filter and an inference of the path order are, as a certificate writes them.
#![tactic(auto)]

mod filter;
mod inference;

pub use filter::Filter;
pub use inference::{Inference, Inferences, Letter};
