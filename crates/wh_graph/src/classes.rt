//! The strongly connected components of a graph, by walks against the edges.
//!
//! Each class is what reaches a root and has no class yet. The order in which a walk along the edges left the vertices
//! says which vertex is the next root. Each vertex is looked for at most once and given up once, and a list is gone
//! through once: the place where a walk stopped in it is kept.

ghost use Rattle.std.specs.Prelude.{◌≡◌, ◌<◌, ◌≤◌, ℕ, All, IfOk, MatchOption, None, OnOk, Some, length, slice_get};
ghost use Rattle.wh_graph.specs.Graphs.{AreWithin, Edge, HavePassed, Turned};
ghost use Rattle.wh_graph.specs.Walks.{IsLeavingOrder};
ghost use Rattle.wh_graph.specs.Classes.{AreClasses, Grown, IsNew, IsPlaced};

use std::alloc::{AllocError, Global};
use wh_types::Numbers;

/// The class of each vertex, and how many classes there are.
#[derive(Drop)]
pub struct Classes {
    /// The class of each vertex.
    pub of: Vec<Option<usize>>,
    /// How many classes there are.
    pub count: usize,
}

/// The classes of mutual reachability, numbered so that no edge leads to an earlier one. The lists have the edges
/// turned round: for each vertex those from which an edge leads to it.
///
/// The vertex that the walk left last is in a class that no other vertex reaches. So its class is all that reaches it.
/// Then the last one of the other vertices is in such a class among these (Kosaraju and Sharir).
pub fn classes_of(alloc: Global, rows: &[Numbers], order: Vec<usize>) -> Result<Classes, AllocError>
    requires within { AreWithin rows.now }
    requires order { IsLeavingOrder (Turned (Edge rows.now)) (length rows.now) order.items }
    ensures { IfOk result (λ classes. AreClasses (Turned (Edge rows.now)) (length rows.now) classes.count classes.of.items) }
{
    let mut left = order;
    let mut of = vec![in alloc; None; rows.len()]?;
    let mut next = vec![in alloc; 0; rows.len()]?;
    let mut count = 0;
    while let Some(vertex) = left.pop() {
        if of[vertex].is_none() {
            place_class(alloc, rows, vertex, count, &mut of, &mut next)?;
            count += 1;
        }
    }
    Ok(Classes { of, count })
}

// Gives the class `number` to the vertex `root` and to each vertex without a class that reaches it.
fn place_class(
    alloc: Global,
    rows: &[Numbers],
    root: usize,
    number: usize,
    of: &mut [Option<usize>],
    next: &mut [usize],
) -> Result<(), AllocError>
    requires within { AreWithin rows.now }
    requires size { length of.old ≡ length rows.now }
    requires root { slice_get of.old root ≡ Some None }
    requires number { IsNew number of.old }
    requires passed { HavePassed (IsPlaced of.old) rows.now next.old }
    ensures grown { OnOk result (Grown (Turned (Edge rows.now)) root number of.old of.new) }
    ensures passed { OnOk result (HavePassed (IsPlaced of.new) rows.now next.new) }
{
    let mut stack = Vec::new(alloc);
    of[root] = Some(number);
    stack.push(root)?;
    while let Some(vertex) = stack.pop() {
        if let Some(other) = unplaced_predecessor(rows, of, next, vertex) {
            of[other] = Some(number);
            // the vertex may have more of them
            stack.push(vertex)?;
            stack.push(other)?;
        }
    }
    Ok(())
}

// A vertex without a class from which an edge leads to the vertex. The walk's place in its list goes on to it.
fn unplaced_predecessor(
    rows: &[Numbers],
    of: &[Option<usize>],
    next: &mut [usize],
    vertex: usize,
) -> Option<usize>
    requires within { AreWithin rows.now }
    requires vertex { vertex < length rows.now }
    requires size { length of.now ≡ length rows.now }
    requires passed { HavePassed (IsPlaced of.now) rows.now next.old }
    ensures passed { HavePassed (IsPlaced of.now) rows.now next.new }
    ensures found { MatchOption result ((y : ℕ) → Edge rows.now vertex y → IsPlaced of.now y)
        (λ y. Edge rows.now vertex y × (slice_get of.now y ≡ Some None)) }
{
    let row = rows[vertex].as_slice();
    let place = first_unplaced(row, of, next[vertex]);
    next[vertex] = place;
    if place < row.len() {
        Some(row[place] as usize)
    } else {
        None
    }
}

// The first place of the list, from one on, that has a vertex without a class; else the list's length.
fn first_unplaced(row: &[u32], of: &[Option<usize>], from: usize) -> usize
    requires { All (λ w. w < length of.now) row.now }
    ensures most { result ≤ length row.now }
    ensures passed { (k w : ℕ) → from ≤ k → k < result → slice_get row.now k ≡ Some w → IsPlaced of.now w }
    ensures found { (w : ℕ) → slice_get row.now result ≡ Some w → slice_get of.now w ≡ Some None }
{
    for place in from..row.len() {
        if of[row[place] as usize].is_none() {
            return place;
        }
    }
    row.len()
}
