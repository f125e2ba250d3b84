//! The faults of a cover: which test a list of moves fails first.

/// The first test that a list of moves fails.
#[derive(Clone, Copy)]
pub enum CoverFault {
    /// A monomial of the move is not there, its two monomials have other variables, or an argument on the left is not
    /// at least the one on the right.
    BadMove {
        /// The number of the move, from 0.
        entry: u32,
    },
    /// The moves take more from a left monomial than its coefficient.
    OverSpent {
        /// The number of the left monomial.
        monomial: u32,
    },
    /// The moves bring less to a right monomial than its coefficient.
    NotCovered {
        /// The number of the right monomial.
        monomial: u32,
    },
    /// The left polynomial has no constant, or the moves take all of it.
    NotStrict,
}
