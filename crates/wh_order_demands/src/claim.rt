//! Claims of the path order about two trees.

/// What is claimed of two trees behind the filters of an order.
#[derive(Clone, Copy)]
pub enum Claim {
    /// The two trees are the same.
    Equal,
    /// The left one is greater.
    Greater,
    /// The two trees are the same, or the left one is greater.
    AtLeast,
    /// A symbol that keeps its arguments heads the left tree, which is above the right one.
    Above,
    /// A symbol that keeps its arguments heads the left tree, and one of these is greater than the right tree.
    PartGreater,
}
