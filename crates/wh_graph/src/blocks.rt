//! The blocks of a proof node: they divide a set of pairs, and `check_blocks` tests that no pair leads back.

ghost use Rattle.std.specs.Prelude.{◌<◌, ◌≡◌, ◌↔◌, All, IsTrue, MatchResult, length, map};
ghost use Rattle.wh_pairs.specs.PairData.{IsIncreasing, pair_data};
ghost use Rattle.wh_system.specs.SystemView.{system_data};
ghost use Rattle.wh_graph.specs.Blocks.{AreBlocks, AreFew, IsFirstBlockFault};
ghost use Rattle.wh_graph.specs.May.{Follows};

use crate::back_edges::first_back_edge;
use crate::places::first_misplaced;
use wh_pairs::{Pair, PairList, PairSet};
use wh_system::System;
use wh_types::Numbers;

/// What is wrong with the blocks of a proof node.
#[derive(Clone, Copy)]
pub enum BlockFault {
    /// There are fewer than two blocks, or an empty one.
    FewBlocks,
    /// A number is listed more than once, or listed and not in the set, or in the set and not listed.
    NotPartition {
        /// The least such number.
        pair: u32,
    },
    /// A pair of an earlier block may follow one of a later block.
    BackEdge {
        /// The least such pair of a later block.
        a: u32,
        /// The least pair of an earlier block that may follow it.
        b: u32,
    },
}

/// Whether the blocks divide the set of pairs so that no pair of an earlier block may follow one of a later block.
///
/// `Ok` exactly where there are at least two blocks, none is empty, each number of the set stands in them once and no
/// other number does, and no pair of any earlier block may follow one of a later block. `Err` names the first of these
/// that fails, in the order of the variants. The numbers in the blocks may be any. No memory is taken.
pub fn check_blocks(
    system: &System,
    pairs: &PairList,
    set: &PairSet,
    blocks: &[Numbers],
) -> Result<(), BlockFault>
    requires { All (λ n. n < length pairs.now) set.now }
    ensures { MatchResult result (λ _. AreBlocks (Follows (system_data system.now).rules (map pair_data pairs.now)) set.now blocks.now)
        (IsFirstBlockFault (Follows (system_data system.now).rules (map pair_data pairs.now)) set.now blocks.now) }
{
    check_conditions(system, pairs.as_slice(), set.as_slice(), blocks)
}

// Whether the blocks meet the conditions of `check_blocks`, on the elements of the lists.
fn check_conditions(
    system: &System,
    pairs: &[Pair],
    set: &[u32],
    blocks: &[Numbers],
) -> Result<(), BlockFault>
    requires set { All (λ n. n < length pairs.now) set.now }
    requires increasing { IsIncreasing set.now }
    ensures { MatchResult result (λ _. AreBlocks (Follows (system_data system.now).rules (map pair_data pairs.now)) set.now blocks.now)
        (IsFirstBlockFault (Follows (system_data system.now).rules (map pair_data pairs.now)) set.now blocks.now) }
{
    if are_few(blocks) {
        return Err(BlockFault::FewBlocks);
    }
    if let Some(pair) = first_misplaced(set, blocks) {
        return Err(BlockFault::NotPartition { pair });
    }
    match first_back_edge(system, pairs, set, blocks) {
        Some(edge) => Err(BlockFault::BackEdge {
            a: edge.a,
            b: edge.b,
        }),
        None => Ok(()),
    }
}

// Whether there are fewer than two blocks, or an empty one.
fn are_few(blocks: &[Numbers]) -> bool
    ensures { IsTrue result ↔ AreFew blocks.now }
{
    if blocks.len() < 2 {
        return true;
    }
    for block in blocks {
        if block.as_slice().is_empty() {
            return true;
        }
    }
    false
}
