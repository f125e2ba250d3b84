//! The orders that are tried for a set of pairs, and a circuit that tells where none of them lets a pair go.
#![tactic(auto)]

mod firsts;
mod guess;
mod orders;
mod sides;
mod spots;

pub use firsts::first_bits;
pub use orders::{Circuited, orders_by_circuit};
