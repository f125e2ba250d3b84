//! Parts: which of the numbers of a flat side is meant.

/// One of the numbers that a flat side comes to.
#[derive(Clone, Copy)]
pub enum Part {
    /// The constant of the side.
    Constant,
    /// The factor of the meta-variable with this number.
    Factor(usize),
}
