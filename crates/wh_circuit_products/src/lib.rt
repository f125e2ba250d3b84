//! Products of numbers whose bits are wires, by gates that join a circuit.
#![tactic(auto)]

mod multiplying;

pub use multiplying::times;
