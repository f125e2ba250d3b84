//! A walk of the graph in depth, and the order in which it leaves the vertices.
//!
//! The walk keeps its own stack, a path in the graph. Each vertex is found once and left once, and a list is gone
//! through once: the place where the walk stopped in it is kept. It goes from the last vertex down, so that the classes
//! come out about in the order of their vertices.

ghost use Rattle.std.specs.Prelude.{◌≡◌, ◌<◌, ◌≤◌, ℕ, [], All, IfOk, MatchOption, OnOk, Some, length, slice_get, false, true};
ghost use Rattle.wh_graph.specs.Graphs.{AreWithin, Edge, HavePassed};
ghost use Rattle.wh_graph.specs.Walks.{IsLeavingOrder, IsSeen, Walked};

use std::alloc::{AllocError, Global};
use wh_types::Numbers;

/// The vertices in the order in which a walk in depth leaves them: each after all that it reaches and that the walk had
/// not met before.
pub fn leaving_order(alloc: Global, rows: &[Numbers]) -> Result<Vec<usize>, AllocError>
    requires { AreWithin rows.now }
    ensures { IfOk result (λ order. IsLeavingOrder (Edge rows.now) (length rows.now) order.items) }
{
    let mut seen = vec![in alloc; false; rows.len()]?;
    let mut next = vec![in alloc; 0; rows.len()]?;
    let mut order = Vec::new(alloc);
    for start in (0..rows.len()).rev() {
        if !seen[start] {
            walk_from(alloc, rows, start, &mut seen, &mut next, &mut order)?;
        }
    }
    Ok(order)
}

// Walks from a vertex that was not seen yet to all that it reaches, and puts each into the order when it leaves it.
fn walk_from(
    alloc: Global,
    rows: &[Numbers],
    start: usize,
    seen: &mut [bool],
    next: &mut [usize],
    order: &mut Vec<usize>,
) -> Result<(), AllocError>
    requires within { AreWithin rows.now }
    requires walked { Walked (Edge rows.now) (length rows.now) seen.old [] order.old.items }
    requires passed { HavePassed (IsSeen seen.old) rows.now next.old }
    requires start { slice_get seen.old start ≡ Some false }
    ensures walked { OnOk result (Walked (Edge rows.now) (length rows.now) seen.new [] order.new.items) }
    ensures passed { OnOk result (HavePassed (IsSeen seen.new) rows.now next.new) }
    ensures start { OnOk result (slice_get seen.new start ≡ Some true) }
    ensures kept { OnOk result ((v : ℕ) → slice_get seen.old v ≡ Some true → slice_get seen.new v ≡ Some true) }
{
    let mut stack = Vec::new(alloc);
    seen[start] = true;
    stack.push(start)?;
    while let Some(vertex) = stack.pop() {
        match unseen_successor(rows, seen, next, vertex) {
            Some(found) => {
                seen[found] = true;
                // the vertex may have more of them
                stack.push(vertex)?;
                stack.push(found)?;
            }
            None => order.push(vertex)?,
        }
    }
    Ok(())
}

// A vertex that was not seen yet and to which an edge leads from the vertex. The walk's place in its list goes on to
// it.
fn unseen_successor(
    rows: &[Numbers],
    seen: &[bool],
    next: &mut [usize],
    vertex: usize,
) -> Option<usize>
    requires within { AreWithin rows.now }
    requires vertex { vertex < length rows.now }
    requires size { length seen.now ≡ length rows.now }
    requires passed { HavePassed (IsSeen seen.now) rows.now next.old }
    ensures passed { HavePassed (IsSeen seen.now) rows.now next.new }
    ensures found { MatchOption result ((w : ℕ) → Edge rows.now vertex w → IsSeen seen.now w)
        (λ w. Edge rows.now vertex w × (slice_get seen.now w ≡ Some false)) }
{
    let row = rows[vertex].as_slice();
    let place = first_unseen(row, seen, next[vertex]);
    next[vertex] = place;
    if place < row.len() {
        Some(row[place] as usize)
    } else {
        None
    }
}

// The first place of the list, from one on, that has a vertex which was not seen yet; else the list's length.
fn first_unseen(row: &[u32], seen: &[bool], from: usize) -> usize
    requires { All (λ w. w < length seen.now) row.now }
    ensures most { result ≤ length row.now }
    ensures passed { (k w : ℕ) → from ≤ k → k < result → slice_get row.now k ≡ Some w → IsSeen seen.now w }
    ensures found { (w : ℕ) → slice_get row.now result ≡ Some w → slice_get seen.now w ≡ Some false }
{
    for place in from..row.len() {
        if !seen[row[place] as usize] {
            return place;
        }
    }
    row.len()
}
