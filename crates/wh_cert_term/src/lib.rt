//! The text of a term by itself: what a line of a certificate has behind the word `term`. It is a crate of its own, so
//! that what reduces terms reads nothing of the method.
#![tactic(auto)]

mod laws;
mod reader;

pub use laws::one_term;
pub use reader::read_term;
