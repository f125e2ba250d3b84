//! The space of monomials that is tried in a scope, and the polynomials made of them.
#![tactic(auto)]

mod places;
mod random;
mod space;
mod spots;

pub use random::Random;
pub use space::{MAX_COEFFICIENT, Spot, reading_of};
pub use spots::spots_of;
