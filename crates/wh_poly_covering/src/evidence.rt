//! The evidence of a node of interpretations: its lines of moves, and the pairs that it drops.

use wh_hopoly::Moves;

/// A line of moves for each rule that is to be covered, one for each pair of a set, and the pairs that are dropped from
/// it.
#[derive(Clone, Copy)]
pub struct Evidence<'a> {
    /// The line of each rule, in order.
    pub rules: &'a [Moves],
    /// The line of each pair of the set, in order.
    pub pairs: &'a [Moves],
    /// The numbers of the dropped pairs.
    pub drop: &'a [u32],
}
