//! Circuits of gates, and the formulas in clauses that say what their wires are.
#![tactic(auto)]

mod circuit;
mod laws;

pub use circuit::{Circuit, Gate, Mark};
pub use laws::{values_are_unique, values_exist};
pub use wh_circuit_gates::{Wire, Wires};
