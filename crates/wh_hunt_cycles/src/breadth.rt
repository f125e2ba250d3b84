//! A shortest cycle through a node, by breadth.

use crate::graph::{Graph, MOST_NODES};
use std::alloc::{AllocError, Global};

// Where the walk is: the nodes in the order in which they were met, and the edge that led to each.
#[derive(Drop)]
struct Breadth {
    queue: Vec<usize>,
    came: Vec<Option<usize>>,
}

// The node behind the edge joins, if it was not met yet.
fn meet(breadth: &mut Breadth, edge: usize, to: usize) -> Result<(), AllocError> {
    if let Some(place) = breadth.came.get_mut(to) {
        if place.is_none() {
            *place = Some(edge);
            breadth.queue.push(to)?;
        }
    }
    Ok(())
}

// Goes along the edges from the node: one of them that leads to the start, if there is one.
fn look_from(
    graph: &Graph,
    breadth: &mut Breadth,
    number: usize,
    start: usize,
) -> Result<Option<usize>, AllocError> {
    let Some(node) = graph.nodes.get(number) else {
        return Ok(None);
    };
    for index in node.first..node.end {
        if let Some(edge) = graph.edges.get(index) {
            if edge.to == start {
                return Ok(Some(index));
            }
            meet(breadth, index, edge.to)?;
        }
    }
    Ok(None)
}

// The last edge of a shortest way from the start back to it.
fn last_edge(
    graph: &Graph,
    breadth: &mut Breadth,
    start: usize,
) -> Result<Option<usize>, AllocError> {
    for place in 0..MOST_NODES {
        let Some(number) = breadth.queue.get(place).copied() else {
            return Ok(None);
        };
        if let Some(found) = look_from(graph, breadth, number, start)? {
            return Ok(Some(found));
        }
    }
    Ok(None)
}

// The edges that lead from the start to the last one, with that, the last first.
fn edges_back(
    alloc: Global,
    graph: &Graph,
    breadth: &Breadth,
    start: usize,
    last: usize,
) -> Result<Vec<usize>, AllocError> {
    let mut edges = Vec::new(alloc);
    let mut index = last;
    for _ in 0..MOST_NODES {
        edges.push(index)?;
        let Some(edge) = graph.edges.get(index) else {
            return Ok(edges);
        };
        if edge.from == start {
            return Ok(edges);
        }
        match breadth.came.get(edge.from).copied().flatten() {
            Some(before) => index = before,
            None => return Ok(edges),
        }
    }
    Ok(edges)
}

/// The edges of a shortest cycle through the node, in order from it on.
pub fn cycle_through(
    alloc: Global,
    graph: &Graph,
    start: usize,
) -> Result<Option<Vec<usize>>, AllocError> {
    let mut breadth = Breadth {
        queue: Vec::new(alloc),
        came: vec![in alloc; None; graph.nodes.len()]?,
    };
    breadth.queue.push(start)?;
    let Some(last) = last_edge(graph, &mut breadth, start)? else {
        return Ok(None);
    };
    let mut edges = edges_back(alloc, graph, &breadth, start, last)?;
    edges.reverse();
    Ok(Some(edges))
}
