//! Digits: the two bits that the sum of three bits has.

use wh_circuit_gates::Wire;

/// The two bits of a sum.
#[derive(Clone, Copy)]
pub struct Digit {
    /// The lower bit.
    pub low: Wire,
    /// The carry.
    pub high: Wire,
}
