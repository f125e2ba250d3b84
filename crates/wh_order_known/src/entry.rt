//! Entries of the table of goals: a goal with the least number of entries of an inference for it.

use wh_order::Claim;
use wh_order_trees::Tree;

/// The least number of entries of an inference that shows a goal and nests at most `room` deep.
#[derive(Drop)]
pub struct Entry {
    /// The claim of the goal.
    pub claim: Claim,
    /// The number for the next variable.
    pub next: u32,
    /// The left tree.
    pub left: Tree,
    /// The right tree.
    pub right: Tree,
    /// How deep the inferences may nest.
    pub room: u8,
    /// The least number of their entries; `None` where it is 2^32 at least.
    pub count: Option<u32>,
    /// The key of the goal; nothing is claimed of it.
    pub key: u32,
    /// The place of the entry before it in its bucket; its own place or a higher number where there is none.
    pub before: usize,
}
