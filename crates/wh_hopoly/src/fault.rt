//! Faults of an evaluation: which limit a value exceeds, and which part of the expression gives that value. It is not
//! any part within which a value exceeds a limit: that would always allow part 0, the whole, and say nothing.

/// The limit that a value exceeds, and the part of the expression whose own rule gives that value. Parts are numbered
/// in preorder from 0.
#[derive(Drop)]
pub enum PolyFault {
    /// A coefficient is above 2^128 - 1.
    Overflow {
        /// The number of the part.
        at: u32,
    },
    /// The weight is above 65,536, or the arguments nest more than 400 deep.
    TooLarge {
        /// The number of the part.
        at: u32,
    },
}
