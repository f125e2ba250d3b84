//! Gates of a circuit as clauses, and lists of wires. The crate is small, so that its edits that must fail, each of
//! which costs a proof of it, are cheap.
#![tactic(auto)]

mod pieces;
mod wire;

pub use pieces::{clauses_of_gate, negations_of, wires_from};
pub use wire::{Wire, Wires};
