//! Dependency pairs as data, and sets of them: lists that a node of a proof drops from a set, and the marked symbols of
//! a set.
#![tactic(auto)]

mod applied;
mod drops;
mod laws;
mod marked;
mod pair;
mod sets;

pub use applied::call;
pub use drops::{is_bad_drop, is_dropped, sorted};
pub use laws::{
    conditions_are_in_order, conditions_join_in_order, one_list_of_pairs, there_are_pairs,
};
pub use marked::marked_symbols;
pub use pair::{Condition, Conditions, Pair, PairList, PairSet};
pub use sets::{is_increasing, kept, numbers_below, set_of};
