//! A walk of the graph in depth, until an edge leads back to a node on the walk's path.

use crate::graph::Graph;
use std::alloc::{AllocError, Global};

// What the walk knows of a node.
#[derive(Clone, Copy)]
enum Seen {
    // It was not met yet.
    Not,
    // It is on the path.
    OnPath,
    // All that it leads to was gone through.
    Done,
}

// A node on the path, and the next edge to be tried from it.
#[derive(Clone, Copy)]
struct Stop {
    node: usize,
    edge: usize,
}

// What to do next.
#[derive(Clone, Copy)]
enum Turn {
    // No edge is left.
    Back,
    // The next edge leads to a node that was not met yet.
    On(usize),
    // The next edge leads to a node that is done.
    Past,
    // The next edge leads to a node on the path.
    Round(usize),
}

// What the next edge of the node says.
fn turn_at(graph: &Graph, seen: &[Seen], stop: Stop) -> Turn {
    let Some(node) = graph.nodes.get(stop.node) else {
        return Turn::Back;
    };
    if stop.edge >= node.end {
        return Turn::Back;
    }
    let Some(edge) = graph.edges.get(stop.edge) else {
        return Turn::Back;
    };
    match seen.get(edge.to) {
        Some(Seen::Not) => Turn::On(edge.to),
        Some(Seen::OnPath) => Turn::Round(edge.to),
        _ => Turn::Past,
    }
}

// What is known of the node with the number becomes that.
fn note(seen: &mut [Seen], number: usize, what: Seen) {
    if let Some(place) = seen.get_mut(number) {
        *place = what;
    }
}

// The number of the first edge from the node.
fn first_edge(graph: &Graph, number: usize) -> usize {
    match graph.nodes.get(number) {
        Some(node) => node.first,
        None => 0,
    }
}

// One more step of the walk: a node to which an edge leads back, if that was found.
fn walk_on(
    graph: &Graph,
    seen: &mut [Seen],
    path: &mut Vec<Stop>,
    stop: Stop,
) -> Result<Option<usize>, AllocError> {
    let next = Stop {
        node: stop.node,
        edge: stop.edge.saturating_add(1),
    };
    match turn_at(graph, seen, stop) {
        Turn::Back => note(seen, stop.node, Seen::Done),
        Turn::Past => path.push(next)?,
        Turn::On(to) => {
            note(seen, to, Seen::OnPath);
            path.push(next)?;
            path.push(Stop {
                node: to,
                edge: first_edge(graph, to),
            })?;
        }
        Turn::Round(to) => return Ok(Some(to)),
    }
    Ok(None)
}

// Walks from the node with the number until an edge leads back to a node on the path, or all is gone through.
fn walk_from(
    alloc: Global,
    graph: &Graph,
    start: usize,
    seen: &mut [Seen],
) -> Result<Option<usize>, AllocError> {
    let mut path = Vec::new(alloc);
    note(seen, start, Seen::OnPath);
    path.push(Stop {
        node: start,
        edge: first_edge(graph, start),
    })?;
    let most = graph.nodes.len().saturating_add(graph.edges.len());
    for _ in 0..most {
        let Some(stop) = path.pop() else {
            return Ok(None);
        };
        if let Some(found) = walk_on(graph, seen, &mut path, stop)? {
            return Ok(Some(found));
        }
    }
    Ok(None)
}

/// A node that lies on a cycle of the graph, if there is one.
pub fn node_on_cycle(alloc: Global, graph: &Graph) -> Result<Option<usize>, AllocError> {
    let count = graph.nodes.len();
    let mut seen = vec![in alloc; Seen::Not; count]?;
    for start in 0..count {
        if let Some(Seen::Not) = seen.get(start) {
            if let Some(found) = walk_from(alloc, graph, start, &mut seen)? {
                return Ok(Some(found));
            }
        }
    }
    Ok(None)
}
