//! Reading a table: its nodes by number, and its law that each tree has one number.

ghost use Rattle.std.specs.Prelude.{◌≡◌, ◌<◌, ◌≤◌, ◌^◌, [], ℕ, IfOk, length};
ghost use Rattle.wh_terms.specs.Tree.{Tm};
ghost use Rattle.wh_intern.specs.Parts.{part_tree};
ghost use Rattle.wh_intern.specs.Trees.{Below, IsPart, tree_at, tree_of};
ghost use Rattle.wh_intern.specs.TableTrees.{trees};

use super::Table;
use crate::part::Part;
use indexmap::IndexSet;
use std::alloc::{AllocError, Global};

impl Table {
    /// The table without nodes.
    pub fn new(alloc: Global) -> Table
        ensures { trees result ≡ [] }
    {
        Table {
            parts: IndexSet::new(alloc),
            alloc,
        }
    }

    /// How many nodes there are.
    pub fn count(&self) -> u32
        ensures { result ≡ length (trees self.now) }
    {
        self.parts.len() as u32
    }

    /// The node with that number.
    pub fn part(&self, number: u32) -> &Part
        requires { number < length (trees self.now) }
        ensures tree { tree_at (trees self.now) number ≡ tree_of (trees self.now) (part_tree result.now) }
        ensures below { Below number (part_tree result.now) }
    {
        &self.parts.as_slice()[number as usize]
    }

    /// The law of the table: two numbers are equal exactly where their trees are, the types of binders included. (That
    /// equal numbers have equal trees needs no saying.)
    pub fn has_each_tree_once(&self)
        ensures { (m n : ℕ) → m < length (trees self.now) → n < length (trees self.now)
            → tree_at (trees self.now) m ≡ tree_at (trees self.now) n → m ≡ n }
    {
        let _ = self.parts.len();
    }

    /// Each part of a tree has a number too, which is not above that of the tree.
    pub fn has_parts(&self)
        ensures there { (m : ℕ) (s : Tm) → m < length (trees self.now) → IsPart s (tree_at (trees self.now) m)
            → (k : ℕ) × (k < length (trees self.now)) × (tree_at (trees self.now) k ≡ s) }
        ensures low { (m k : ℕ) → m < length (trees self.now) → k < length (trees self.now)
            → IsPart (tree_at (trees self.now) k) (tree_at (trees self.now) m) → k ≤ m }
    {
        let _ = self.parts.len();
    }
}
