//! The search for loops in the graph of calls. `hunt_cycles` is the main function.

use crate::breadth::cycle_through;
use crate::certificate::certificate_along;
use crate::closing::loop_behind;
use crate::depth::node_on_cycle;
use crate::expanding::expand;
use crate::graph::{Graph, MOST_NODES};
use std::alloc::{AllocError, Global};
use wh_cert::NoCertificate;
use wh_hunt_calls::{Plan, plan_of, starts_of};
use wh_hunt_terms::Work;
use wh_system::System;

// A cycle is looked for first when there are so many nodes, and then whenever there are three times as many.
const FIRST_LOOK: usize = 100;

// The certificate of a shortest cycle through a node that lies on one.
fn cycle_in(
    alloc: Global,
    system: &System,
    graph: &Graph,
    work: &mut Work,
) -> Result<Option<Box<NoCertificate>>, AllocError> {
    let Some(node) = node_on_cycle(alloc, graph)? else {
        return Ok(None);
    };
    match cycle_through(alloc, graph, node)? {
        Some(edges) => certificate_along(alloc, system, graph, &edges, work),
        None => Ok(None),
    }
}

// No more nodes than that are visited in a row.
const LONGEST_CHAIN: u32 = 400;

// Adds the edges from the node with the number, and tests each new node: the certificate of a loop, if one closes.
fn visit(
    alloc: Global,
    plan: &Plan<'_>,
    graph: &mut Graph,
    number: usize,
    work: &mut Work,
) -> Result<Option<Box<NoCertificate>>, AllocError> {
    let known = graph.nodes.len();
    expand(alloc, plan, graph, number, work)?;
    for new in known..graph.nodes.len() {
        if let Some(found) = loop_behind(alloc, plan.system, graph, new, work)? {
            return Ok(Some(found));
        }
    }
    Ok(None)
}

// Visits the node with the number, and as long as there is one new node alone, that: the certificate of a loop, if one
// closes. So a long loop without a choice is gone through at once.
fn visit_chain(
    alloc: Global,
    plan: &Plan<'_>,
    graph: &mut Graph,
    number: usize,
    work: &mut Work,
) -> Result<Option<Box<NoCertificate>>, AllocError> {
    let mut at = number;
    for _ in 0..LONGEST_CHAIN {
        if graph.is_done(at) {
            return Ok(None);
        }
        let known = graph.nodes.len();
        if let Some(found) = visit(alloc, plan, graph, at, work)? {
            return Ok(Some(found));
        }
        if graph.nodes.len() != known.saturating_add(1) {
            return Ok(None);
        }
        at = known;
    }
    Ok(None)
}

// Makes the graph until a loop is found, nothing is left, or the work is spent.
fn search(
    alloc: Global,
    plan: &Plan<'_>,
    graph: &mut Graph,
    work: &mut Work,
) -> Result<Option<Box<NoCertificate>>, AllocError> {
    let mut next_look = FIRST_LOOK;
    for number in 0..MOST_NODES {
        if number >= graph.nodes.len() || work.left() == 0 {
            break;
        }
        if let Some(found) = visit_chain(alloc, plan, graph, number, work)? {
            return Ok(Some(found));
        }
        if graph.nodes.len() >= next_look {
            next_look = next_look.saturating_mul(3);
            if let Some(found) = cycle_in(alloc, plan.system, graph, work)? {
                return Ok(Some(found));
            }
        }
    }
    cycle_in(alloc, plan.system, graph, work)
}

// The graph whose nodes are the left sides of the rules.
fn first_graph(alloc: Global, system: &System) -> Result<Graph, AllocError> {
    let mut graph = Graph::new(alloc)?;
    for term in starts_of(alloc, system)? {
        if graph.number_of(&term).is_none() {
            let _ = graph.add_node(term, None, true)?;
        }
    }
    Ok(graph)
}

/// Looks for a loop in the graph of calls, until one is found, nothing is left to look at, or the work is spent.
///
/// A node of the graph is a call, a symbol that has rules with as many arguments as these need or more, up to the names
/// of its free variables. From a call an edge leads to each call in what a step at its root leads to, and to what a
/// step below its root makes of it. So each path is a reduction. A call that is an instance of one on the way to it
/// closes a loop, and so does a cycle of edges. There are at most 3,000 nodes, and calls of more than 80 symbols,
/// variables and applications are left out, or of more than 400 where no call on the way has a choice.
///
/// Nothing is claimed of the certificate: it is to be checked before it is believed.
pub fn hunt_cycles(
    alloc: Global,
    system: &System,
    work: &mut Work,
) -> Result<Option<NoCertificate>, AllocError> {
    let plan = plan_of(alloc, system)?;
    let mut graph = first_graph(alloc, system)?;
    match search(alloc, &plan, &mut graph, work)? {
        Some(found) => Ok(Some(Box::into_inner(found))),
        None => Ok(None),
    }
}
