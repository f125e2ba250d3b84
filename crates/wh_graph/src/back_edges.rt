//! Back edges: pairs of a later block that one of an earlier block may follow. A node `blocks` must have none.

ghost use Rattle.std.specs.Prelude.{◌≡◌, ◌<◌, ◌≤◌, ℕ, All, Contains, MatchOption, length, map};
ghost use Rattle.wh_pairs.specs.PairData.{IsIncreasing, pair_data};
ghost use Rattle.wh_system.specs.SystemView.{system_data};
ghost use Rattle.wh_graph.specs.Components.{IsIn, Partition};
ghost use Rattle.wh_graph.specs.Blocks.{IsBackEdge, IsFirstBackEdge, IsListed};
ghost use Rattle.wh_graph.specs.Least.{LeastOf};
ghost use Rattle.wh_graph.specs.May.{Follows};

use crate::follow::may_follow;
use crate::least::smaller;
use crate::places::block_of;
use wh_pairs::Pair;
use wh_system::System;
use wh_types::Numbers;

/// A pair of a later block and one of an earlier block that may follow it.
#[derive(Clone, Copy)]
pub struct BackEdge {
    /// The pair of the later block.
    pub a: u32,
    /// The pair of the earlier block.
    pub b: u32,
}

/// The back edge with the least source, and of these the one with the least target.
pub fn first_back_edge(
    system: &System,
    pairs: &[Pair],
    set: &[u32],
    blocks: &[Numbers],
) -> Option<BackEdge>
    requires set { All (λ n. n < length pairs.now) set.now }
    requires increasing { IsIncreasing set.now }
    requires partition { Partition set.now blocks.now }
    ensures { MatchOption result ((a b : ℕ) → IsBackEdge (Follows (system_data system.now).rules (map pair_data pairs.now))
        blocks.now a b → ⊥) (λ e. IsFirstBackEdge (Follows (system_data system.now).rules (map pair_data pairs.now)) blocks.now e.a e.b) }
{
    for number in set {
        let place = block_of(blocks, *number);
        if let Some(b) = least_follower(system, pairs, *number, &blocks[..place]) {
            return Some(BackEdge { a: *number, b });
        }
    }
    None
}

// The least pair of the blocks that may follow the pair.
fn least_follower(system: &System, pairs: &[Pair], number: u32, blocks: &[Numbers]) -> Option<u32>
    requires number { number < length pairs.now }
    requires listed { (n : ℕ) → IsListed blocks.now n → n < length pairs.now }
    ensures { LeastOf (λ b. IsListed blocks.now b × Follows (system_data system.now).rules (map pair_data pairs.now) number b) result }
{
    let mut least = None;
    for block in blocks {
        least = smaller(
            least,
            least_follower_in(system, pairs, number, block.as_slice()),
        );
    }
    least
}

// The least pair of the list that may follow the pair.
fn least_follower_in(system: &System, pairs: &[Pair], number: u32, list: &[u32]) -> Option<u32>
    requires number { number < length pairs.now }
    requires list { All (λ n. n < length pairs.now) list.now }
    ensures { LeastOf (λ b. Contains list.now b × Follows (system_data system.now).rules (map pair_data pairs.now) number b) result }
{
    let mut least = None;
    for other in list {
        if may_follow(system, &pairs[number as usize], &pairs[*other as usize]) {
            least = smaller(least, Some(*other));
        }
    }
    least
}
