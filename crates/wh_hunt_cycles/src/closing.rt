//! Loops that close at a new node: it is an instance of a node on the way to it.

use crate::certificate::certificate_along;
use crate::graph::{Graph, MOST_NODES, Node};
use std::alloc::{AllocError, Global};
use wh_cert::NoCertificate;
use wh_hunt_terms::{Work, instance_of};
use wh_system::System;

// The numbers in the opposite order.
fn reversed(alloc: Global, numbers: &[usize]) -> Result<Vec<usize>, AllocError> {
    let mut others = Vec::new(alloc);
    for number in numbers.iter().rev() {
        others.push(*number)?;
    }
    Ok(others)
}

// Whether the one call is an instance of the other.
fn is_instance(
    alloc: Global,
    system: &System,
    node: &Node,
    before: &Node,
) -> Result<bool, AllocError> {
    if node.symbol != before.symbol {
        return Ok(false);
    }
    Ok(instance_of(alloc, system, &before.term, &node.term)?.is_some())
}

// The node that the edge with the number leads from.
fn node_before(graph: &Graph, edge: usize) -> Option<&Node> {
    let edge = graph.edges.get(edge)?;
    graph.nodes.get(edge.from)
}

// The certificate of the loop along the edges, the last of which comes first.
fn loop_along(
    alloc: Global,
    system: &System,
    graph: &Graph,
    edges: &[usize],
    work: &mut Work,
) -> Result<Option<Box<NoCertificate>>, AllocError> {
    let way = reversed(alloc, edges)?;
    certificate_along(alloc, system, graph, &way, work)
}

/// The certificate of a loop from a node on the way to the node with the number, of which this is an instance.
pub fn loop_behind(
    alloc: Global,
    system: &System,
    graph: &Graph,
    number: usize,
    work: &mut Work,
) -> Result<Option<Box<NoCertificate>>, AllocError> {
    let Some(node) = graph.nodes.get(number) else {
        return Ok(None);
    };
    let mut edges = Vec::new(alloc);
    let mut came = node.came;
    for _ in 0..MOST_NODES {
        let Some(index) = came else {
            return Ok(None);
        };
        let Some(before) = node_before(graph, index) else {
            return Ok(None);
        };
        if !work.spend(1) {
            return Ok(None);
        }
        edges.push(index)?;
        if is_instance(alloc, system, node, before)? {
            if let Some(found) = loop_along(alloc, system, graph, &edges, work)? {
                return Ok(Some(found));
            }
        }
        came = before.came;
    }
    Ok(None)
}
