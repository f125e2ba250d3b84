//! Flat sets of pairs, whose sides are first-order: the test, and the law of what their sides are worth under
//! interpretations of the space.
#![tactic(auto)]

mod flatness;
mod laws;
mod rooms;

pub use flatness::flat;
pub use laws::flat_sets_are_let_go_by_worth;
