//! What sides are worth as numbers: with two numbers for each variable, and how that grows with the interpretations of
//! symbols. Only wh_poly_ranges uses it. It stands apart since it waits for wh_poly_meaning and not for
//! wh_poly_guesses: so it is off the longest chain of crates.
#![tactic(auto)]

mod refuting;
mod weights;

pub use refuting::is_refuted;
pub use weights::{Weight, number_of};
