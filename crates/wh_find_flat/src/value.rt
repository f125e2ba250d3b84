//! Values: a number of a tree as wires, with what is known of the tree.

use wh_circuit::Wire;

/// A number of a tree by its bits, with what is to be known of the tree where it is applied to one more argument.
#[derive(Drop)]
pub struct Value {
    /// The bits of the number, at most two for each occurrence.
    pub wires: Vec<Wire>,
    /// How many symbols and meta-variables occur in the tree.
    pub occurrences: usize,
    /// The symbol that heads the tree.
    pub symbol: usize,
    /// How many arguments stand behind it.
    pub places: usize,
}
