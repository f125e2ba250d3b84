//! The evidence of a node of a path order: its inferences, and the pairs that it drops.

use wh_order_inference::Inference;

/// A line for each rule that is to be covered, one for each pair of a set, and the pairs that are dropped from it.
#[derive(Clone, Copy)]
pub struct Inferred<'a> {
    /// The inference of each rule, in order.
    pub rules: &'a [Inference],
    /// The inference of each pair of the set, in order.
    pub pairs: &'a [Inference],
    /// The numbers of the dropped pairs.
    pub drop: &'a [u32],
}
