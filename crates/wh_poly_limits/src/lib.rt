//! The limits on values, and the steps that a limit can end: the weight of a value, a variable, the sum of two
//! monomials, what one more monomial leaves of a limit, and a row that is made as a whole. The crate is small, so that
//! its edits that must fail, each of which costs a proof of it, are cheap.
#![tactic(auto)]

mod adding;
mod light_rows;
mod limits;
mod room;
mod variables;
mod weighing;

pub use adding::add_first;
pub use light_rows::light_row;
pub use limits::{MAX_NESTING, MAX_WEIGHT, check_limits, coefficients_fit, fits, tested};
pub use room::{Room, room_for};
pub use variables::variable;
pub use weighing::{weigh, weigh_arguments, weigh_factors};
