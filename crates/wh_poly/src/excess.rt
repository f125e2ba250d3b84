//! The limits that a value can exceed: of its coefficients, or of its weight and nesting.

/// The limit that a value exceeds.
#[derive(Clone, Copy)]
pub enum Excess {
    /// A coefficient is above 2^128 - 1.
    Overflow,
    /// The weight is above 65,536, or the arguments nest more than 400 deep.
    TooLarge,
}
