//! Laws of nodes of path orders: the calls of a set of pairs end where those by the pairs that are not dropped do, and
//! the pairs of a well-made system have what that asks; each the contract of a function that does nothing.
#![tactic(auto)]

mod orderings;

pub use orderings::{
    orderings_keep_that_calls_end, pairs_have_pattern_sides, systems_have_known_sorts,
};
