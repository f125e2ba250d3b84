//! The graph of dependency pairs: which pair may follow which, its components, and the blocks of a proof node.
#![tactic(auto)]

mod back_edges;
mod blocks;
mod clash;
mod classes;
mod component;
mod edges;
mod follow;
mod laws;
mod least;
mod places;
mod root;
mod walk;

pub use blocks::{BlockFault, check_blocks};
pub use component::components;
pub use edges::Graph;
pub use follow::may_follow;
pub use laws::{blocks_are_right_or_have_a_first_fault, may_is_decided};
