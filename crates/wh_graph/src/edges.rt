//! The graph of a list of pairs, made once for all sets of them: for each pair the pairs that may follow it, and those
//! that it may follow.

ghost use Rattle.std.specs.Prelude.{◌≡◌, ◌↔◌, ◌<◌, ◌^◌, ◌⊎◌, ℕ, [], All, Contains, IfOk, OnOk, length, map};
ghost use Rattle.wh_pairs.specs.PairData.{pair_data};
ghost use Rattle.wh_system.specs.SystemView.{system_data};
ghost use Rattle.wh_graph.specs.Graphs.{AreLists, AreWithin, Edge, Turned};
ghost use Rattle.wh_graph.specs.May.{Follows};

use crate::follow::may_follow;
use std::alloc::{AllocError, Global};
use wh_pairs::{Pair, PairList};
use wh_system::System;
use wh_types::{Numbers, is_in};

/// Which pair of a list may follow which.
#[derive(Drop)]
pub struct Graph {
    pub(crate) followers: Vec<Numbers>,
    pub(crate) leaders: Vec<Numbers>,
}

impl Graph {
    ghost use Rattle.std.specs.Prelude.{◌↔◌, ◌<◌, IfOk, IsTrue, map};
    ghost use Rattle.wh_pairs.specs.PairData.{pair_data};
    ghost use Rattle.wh_system.specs.SystemView.{system_data};
    ghost use Rattle.wh_graph.specs.Graphs.{IsGraphOf, edge_of, size_of};

    /// The graph of a list of pairs. For each two pairs it is tested once whether the one may follow the other. Where
    /// there are more pairs than 32 bits count, the answer is want of memory.
    pub fn new(alloc: Global, system: &System, pairs: &PairList) -> Result<Graph, AllocError>
        ensures { IfOk result (IsGraphOf (system_data system.now).rules (map pair_data pairs.now)) }
    {
        let count = u32::try_from(pairs.as_slice().len()).or(Err(AllocError))?;
        let followers = followers_of(alloc, system, pairs.as_slice(), count)?;
        let leaders = turned(alloc, &followers)?;
        Ok(Graph { followers, leaders })
    }

    /// Whether an edge leads from one vertex to another.
    pub fn has_edge(&self, from: u32, to: u32) -> bool
        requires { from < size_of self.now }
        ensures { IsTrue result ↔ edge_of self.now from to }
    {
        is_in(self.followers[from as usize].as_slice(), to)
    }
}

// For each pair those that may follow it.
fn followers_of(
    alloc: Global,
    system: &System,
    pairs: &[Pair],
    count: u32,
) -> Result<Vec<Numbers>, AllocError>
    requires { count ≡ length pairs.now }
    ensures { IfOk result (λ rows. AreLists (Follows (system_data system.now).rules (map pair_data pairs.now)) count rows.items) }
{
    let mut rows = Vec::new(alloc);
    for number in 0..count {
        rows.push(row_of(alloc, system, pairs, count, number)?)?;
    }
    Ok(rows)
}

// The pairs that may follow one.
fn row_of(
    alloc: Global,
    system: &System,
    pairs: &[Pair],
    count: u32,
    number: u32,
) -> Result<Numbers, AllocError>
    requires count { count ≡ length pairs.now }
    requires number { number < length pairs.now }
    ensures { IfOk result (λ row. (b : ℕ) → Contains row b ↔ Follows (system_data system.now).rules (map pair_data pairs.now) number b) }
{
    let mut row = Numbers::new(alloc);
    for other in 0..count {
        if may_follow(system, &pairs[number as usize], &pairs[other as usize]) {
            row.push(other)?;
        }
    }
    Ok(row)
}

// The lists with their edges turned round.
fn turned(alloc: Global, rows: &[Numbers]) -> Result<Vec<Numbers>, AllocError>
    requires within { AreWithin rows.now }
    requires few { length rows.now < 2 ^ 32 }
    ensures { IfOk result (λ back. AreLists (Turned (Edge rows.now)) (length rows.now) back.items) }
{
    let mut back = empty_lists(alloc, rows.len())?;
    for number in 0..rows.len() {
        enter(&mut back, rows[number].as_slice(), number as u32)?;
    }
    Ok(back)
}

/// `count` empty lists.
pub fn empty_lists(alloc: Global, count: usize) -> Result<Vec<Numbers>, AllocError>
    ensures size { IfOk result (λ lists. length lists.items ≡ count) }
    ensures none { IfOk result (λ lists. All (λ list. list ≡ []) lists.items) }
{
    let mut lists = Vec::new(alloc);
    for _ in 0..count {
        lists.push(Numbers::new(alloc))?;
    }
    Ok(lists)
}

// Puts the number into the list of each number of the row.
fn enter(back: &mut [Numbers], row: &[u32], number: u32) -> Result<(), AllocError>
    requires { (b : ℕ) → Contains row.now b → b < length back.old }
    ensures size { OnOk result (length back.new ≡ length back.old) }
    ensures each { OnOk result ((b a : ℕ) → Edge back.new b a ↔ (Edge back.old b a ⊎ ((a ≡ number) × Contains row.now b))) }
{
    for target in row {
        back[*target as usize].push(number)?;
    }
    Ok(())
}
