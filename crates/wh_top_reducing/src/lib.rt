//! The text that tells how a term of a system reduces by leftmost-outermost steps. It stands beside the method: its
//! proof reads nothing of pairs, checks and searches.
#![tactic(auto)]

mod given;
mod laws;
mod telling;

pub use given::NotATerm;
pub use laws::one_text_of_reduction;
pub use telling::reduced_text;
