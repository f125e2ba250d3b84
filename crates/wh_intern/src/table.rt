//! A table of nodes, in which each tree has one number: equal parts of terms are kept once.

mod adding;
mod building;
mod reading;

ghost use Rattle.std.specs.Prelude.{◌<◌, ◌^◌, length, map};
ghost use Rattle.wh_intern.specs.Parts.{part_tree};
ghost use Rattle.wh_intern.specs.Trees.{AreFounded};

use crate::part::Part;
use indexmap::IndexSet;
use std::alloc::Global;

/// Nodes by number: no two are equal, the parts of each come before it, and the number of each fits in 32 bits.
#[derive(Drop)]
pub struct Table {
    parts: IndexSet<Part>,
    alloc: Global,
    ghost founded: { AreFounded (map part_tree parts.keys) },
    ghost few: { length parts.keys < 2 ^ 32 },
}
