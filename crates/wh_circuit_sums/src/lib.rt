//! Counts and sums, by gates that join a circuit.
#![tactic(auto)]

mod adding;
mod count;
mod counting;
mod digit;

pub use adding::{added, sum};
pub use counting::exactly_one;
