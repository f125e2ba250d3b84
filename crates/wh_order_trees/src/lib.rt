//! Trees that argument filterings leave of sides of rules and of pairs, as data: their parts, their types, and whether
//! two of them are equal. A path order compares such trees. The crate is small, so that its edits that must fail, each
//! of which costs a proof of it, are cheap.
#![tactic(auto)]

mod kinds;
mod parts;
mod same;
mod tree;

pub use kinds::have_one_type;
pub use parts::{application_of, argument_at, arguments_of, body_of, meta_of, number_of};
pub use same::{same_before, same_tree, same_trees};
pub use tree::{Tree, Trees};
