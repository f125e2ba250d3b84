//! The question about two numbers that was asked last, with its answer. It saves a search where it is asked again.

/// Whether the tree with the number `part` is a proper part of the tree with the number `whole`, as it was asked last:
/// pairs of one rule mostly have the same chosen arguments.
#[derive(Clone, Copy)]
pub struct Asked {
    /// The number of the tree that was looked into.
    pub whole: u32,
    /// The number of the tree that was sought.
    pub part: u32,
    /// The answer.
    pub has: bool,
}
