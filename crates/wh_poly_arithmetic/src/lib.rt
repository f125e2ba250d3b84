//! Sums and products of polynomials. Each answers with a normal value, or with the limit that the result exceeds.
#![tactic(auto)]

mod growing;
mod products;
mod scaling;
mod sums;
mod totals;

pub use growing::{Growing, finish, multiply_by, multiply_by_variable, start};
pub use products::product;
pub use sums::sum;
pub use totals::Total;
