//! The leftmost-outermost step of a term, and reduction by such steps, as the command `reduce` takes them. It is a
//! crate of its own: nearly all crates stand on wh_step, and a change there proves them anew.
#![tactic(auto)]

mod laws;
mod redexes;
mod reducing;
mod resuming;
mod searching;
mod strands;
mod taking;

pub use laws::{first_reduct_is_leftmost, leftmost_steps_are_reductions, one_end_of_reduction};
pub use reducing::{End, Reduced, reduce};
pub use searching::first_step;
