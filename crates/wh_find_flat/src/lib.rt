//! Interpretations of flat sets by one formula: what the sides are worth is made of gates over two bits for each
//! coefficient.
#![tactic(auto)]

mod bits;
mod compared;
mod find;
mod formula;
mod numbers;
mod part;
mod products;
mod rows;
mod sides;
mod stands;
mod value;

pub use find::{find_by_circuit, is_flat};
