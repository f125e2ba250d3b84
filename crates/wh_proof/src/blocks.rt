//! The sets of pairs that a node `blocks` leaves to be proved.

ghost use Rattle.std.specs.Prelude.{◌≡◌, ◌++◌, ℕ, List, OnOk, reverse};
ghost use Rattle.wh_proof.specs.Nodes.{AreSetsOf};

use std::alloc::{AllocError, Global};
use wh_pairs::{PairSet, set_of};
use wh_types::Numbers;

/// Puts the sets of the blocks' numbers on the stack, that of the first block on top.
pub fn open_blocks(
    alloc: Global,
    blocks: &[Numbers],
    stack: &mut Vec<PairSet>,
) -> Result<(), AllocError>
    ensures { OnOk result ((sets : List (List ℕ)) × AreSetsOf blocks.now sets
        × (reverse stack.new.items ≡ sets ++ reverse stack.old.items)) }
{
    for i in (0..blocks.len()).rev() {
        stack.push(set_of(alloc, blocks[i].as_slice())?)?;
    }
    Ok(())
}
