//! The strongly connected components of a set of pairs. A proof node `blocks` has them as its blocks.

ghost use Rattle.std.specs.Prelude.{◌≡◌, ◌↔◌, ◌<◌, ◌^◌, ℕ, [], All, Contains, IfOk, OnOk, Some, length, map, slice_get};
ghost use Rattle.wh_pairs.specs.PairData.{IsIncreasing, pair_data};
ghost use Rattle.wh_system.specs.SystemView.{system_data};
ghost use Rattle.wh_graph.specs.Classes.{AreGathered, HasClass};
ghost use Rattle.wh_graph.specs.Components.{AreComponents};
ghost use Rattle.wh_graph.specs.Graphs.{AreLists, AtPlaces, Edge};
ghost use Rattle.wh_graph.specs.May.{Follows};

use crate::classes::{Classes, classes_of};
use crate::edges::{Graph, empty_lists};
use crate::walk::leaving_order;
use std::alloc::{AllocError, Global};
use wh_pairs::{PairList, PairSet};
use wh_system::System;
use wh_types::{Blocks, Numbers};

/// The components of a set of pairs: the classes of mutual reachability in it by "may follow".
///
/// Each pair of the set is in one of the blocks. Two pairs are in one block exactly where each reaches the other within
/// the set. No pair of an earlier block may follow one of a later block. In each block the numbers increase. For many
/// sets of one list make the graph once.
pub fn components(
    alloc: Global,
    system: &System,
    pairs: &PairList,
    set: &PairSet,
) -> Result<Blocks, AllocError>
    requires { All (λ n. n < length pairs.now) set.now }
    ensures components { IfOk result (λ blocks. AreComponents (Follows (system_data system.now).rules (map pair_data pairs.now))
        set.now blocks) }
    ensures increasing { IfOk result (λ blocks. All IsIncreasing blocks) }
{
    let graph = Graph::new(alloc, system, pairs)?;
    graph.components(alloc, set)
}

impl Graph {
    ghost use Rattle.std.specs.Prelude.{◌<◌, All, IfOk};
    ghost use Rattle.wh_pairs.specs.PairData.{IsIncreasing};
    ghost use Rattle.wh_graph.specs.Components.{AreComponents};
    ghost use Rattle.wh_graph.specs.Graphs.{IsGraph, edge_of, size_of};

    /// The components of a set of vertices: the classes of mutual reachability in it, of which no earlier one may
    /// follow a later one. In each block the numbers increase. Of the graph only the lists of the set's vertices are
    /// read.
    pub fn components(&self, alloc: Global, set: &PairSet) -> Result<Blocks, AllocError>
        requires graph { IsGraph self.now }
        requires set { All (λ n. n < size_of self.now) set.now }
        ensures components { IfOk result (λ blocks. AreComponents (edge_of self.now) set.now blocks) }
        ensures increasing { IfOk result (λ blocks. All IsIncreasing blocks) }
    {
        let members = set.as_slice();
        let followers = at_places(alloc, &self.followers, members)?;
        let order = leaving_order(alloc, &followers)?;
        let leaders = at_places(alloc, &self.leaders, members)?;
        let classes = classes_of(alloc, &leaders, order)?;
        gather(alloc, members, &classes)
    }
}

// The lists of the members, with members alone, by their places in the set.
fn at_places(alloc: Global, rows: &[Numbers], set: &[u32]) -> Result<Vec<Numbers>, AllocError>
    requires increasing { IsIncreasing set.now }
    requires set { All (λ n. n < length rows.now) set.now }
    requires few { length set.now < 2 ^ 32 }
    ensures { IfOk result (λ placed. AreLists (AtPlaces (Edge rows.now) set.now) (length set.now) placed.items) }
{
    let mut placed = Vec::new(alloc);
    for number in set {
        placed.push(row_at_places(alloc, rows[*number as usize].as_slice(), set)?)?;
    }
    Ok(placed)
}

// The places of those of the row that are members.
fn row_at_places(alloc: Global, row: &[u32], set: &[u32]) -> Result<Numbers, AllocError>
    requires increasing { IsIncreasing set.now }
    requires few { length set.now < 2 ^ 32 }
    ensures { IfOk result (λ placed. (v : ℕ) → Contains placed v ↔ ((b : ℕ) × (slice_get set.now v ≡ Some b) × Contains row.now b)) }
{
    let mut placed = Numbers::new(alloc);
    for number in row {
        match set.binary_search(number) {
            Ok(place) => placed.push(place as u32)?,
            Err(_) => {}
        }
    }
    Ok(placed)
}

// The numbers of the set by the classes of their places.
fn gather(alloc: Global, set: &[u32], classes: &Classes) -> Result<Blocks, AllocError>
    requires increasing { IsIncreasing set.now }
    requires size { length classes.now.of.items ≡ length set.now }
    requires below { (v c : ℕ) → HasClass classes.now.of.items v c → c < classes.now.count }
    ensures { IfOk result (λ blocks. AreGathered set.now classes.now.of.items classes.now.count (length set.now) blocks) }
{
    let mut lists = empty_lists(alloc, classes.count)?;
    fill(&mut lists, set, &classes.of)?;
    blocks_of(alloc, lists)
}

// Puts each number of the set into the list of the class of its place.
fn fill(lists: &mut [Numbers], set: &[u32], of: &[Option<usize>]) -> Result<(), AllocError>
    requires increasing { IsIncreasing set.now }
    requires size { length of.now ≡ length set.now }
    requires below { (v c : ℕ) → HasClass of.now v c → c < length lists.old }
    requires none { All (λ list. list ≡ []) lists.old }
    ensures { OnOk result (AreGathered set.now of.now (length lists.old) (length set.now) lists.new) }
{
    for (place, number) in set.iter().enumerate() {
        if let Some(class) = of[place] {
            lists[class].push(*number)?;
        }
    }
    Ok(())
}

// The lists as blocks.
fn blocks_of(alloc: Global, lists: Vec<Numbers>) -> Result<Blocks, AllocError>
    ensures { IfOk result (λ blocks. blocks ≡ lists.items) }
{
    let mut blocks = Blocks::new(alloc);
    for list in lists {
        blocks.push(list)?;
    }
    Ok(blocks)
}
