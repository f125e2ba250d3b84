//! Counts up to two, by two wires.

use wh_circuit_gates::Wire;

/// How many of some wires are true, as far as two.
#[derive(Clone, Copy)]
pub struct Count {
    /// There is one.
    pub some: Wire,
    /// There are two or more.
    pub more: Wire,
}
