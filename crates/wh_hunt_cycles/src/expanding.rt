//! The edges from a node: steps by matching alone, and the calls in what they lead to.

use crate::graph::{Edge, Graph, MOST_EDGES};
use std::alloc::{AllocError, Global};
use wh_hunt_calls::{FoundCall, Place, Plan, Reduct, calls_in, places_of, reduct_of};
use wh_hunt_terms::{Way, Work, canonical, joined, room_behind};
use wh_terms::Term;

// A call has at most this size.
const MOST_SIZE: u32 = 80;

// A call has at most this size where each call on the way to it has one edge alone.
const MOST_SIZE_IN_CHAIN: u32 = 400;

// What a step costs beside the nodes of the terms.
const STEP_COST: u64 = 20;

// The greatest size that is measured.
const MOST_MEASURED: u32 = 4096;

// A step from a call, and a call in its result.
#[derive(Drop)]
struct Next {
    rule: u32,
    at: Way,
    call: Way,
    // the call with canonical names
    term: Term,
}

// The size of the term as far as it is measured.
fn measured(term: &Term) -> u64 {
    let rest = room_behind(term, MOST_MEASURED).unwrap_or(0);
    u64::from(MOST_MEASURED.saturating_sub(rest))
}

// The call in the result of the step joins.
fn add_call(
    alloc: Global,
    rule: u32,
    at: &[bool],
    call: FoundCall,
    nexts: &mut Vec<Next>,
) -> Result<(), AllocError> {
    let FoundCall { way, term } = call;
    nexts.push(Next {
        rule,
        at: joined(alloc, at, &[])?,
        call: way,
        term,
    })?;
    Ok(())
}

// The calls in the result of a step at the root join.
fn add_calls(
    alloc: Global,
    plan: &Plan<'_>,
    before: &Term,
    rule: u32,
    at: &[bool],
    reduct: &Reduct,
    nexts: &mut Vec<Next>,
) -> Result<(), AllocError> {
    for call in calls_in(alloc, plan.system, before, &reduct.term, MOST_SIZE_IN_CHAIN)? {
        add_call(alloc, rule, at, call, nexts)?;
    }
    Ok(())
}

// The result of a step below the root joins.
fn add_whole(
    alloc: Global,
    rule: u32,
    at: &[bool],
    reduct: &Reduct,
    nexts: &mut Vec<Next>,
) -> Result<(), AllocError> {
    nexts.push(Next {
        rule,
        at: joined(alloc, at, &[])?,
        call: Vec::new(alloc),
        term: canonical(alloc, &reduct.term, &[])?,
    })?;
    Ok(())
}

// What the rule leads to at the place joins.
fn add_step(
    alloc: Global,
    plan: &Plan<'_>,
    before: &Term,
    place: &Place,
    rule: u32,
    work: &mut Work,
    nexts: &mut Vec<Next>,
) -> Result<(), AllocError> {
    if !work.spend(STEP_COST) {
        return Ok(());
    }
    let Some(reduct) = reduct_of(alloc, plan.system, before, rule, &place.way)? else {
        return Ok(());
    };
    if !work.spend(
        measured(before)
            .saturating_add(measured(&reduct.term))
            .saturating_mul(4),
    ) {
        return Ok(());
    }
    if place.is_whole {
        add_calls(alloc, plan, before, rule, &place.way, &reduct, nexts)
    } else {
        add_whole(alloc, rule, &place.way, &reduct, nexts)
    }
}

// The steps from the call.
fn nexts_of(
    alloc: Global,
    plan: &Plan<'_>,
    before: &Term,
    work: &mut Work,
) -> Result<Vec<Next>, AllocError> {
    let mut nexts = Vec::new(alloc);
    for place in &places_of(alloc, plan.system, before)? {
        for rule in plan.rules_of(place.symbol) {
            add_step(alloc, plan, before, place, *rule, work, &mut nexts)?;
        }
    }
    Ok(nexts)
}

// The step joins as an edge from the node, and what it leads to as a node, if it is new and small.
fn join(graph: &mut Graph, from: usize, next: Next, is_chain: bool) -> Result<(), AllocError> {
    let Next {
        rule,
        at,
        call,
        term,
    } = next;
    let edge = graph.edges.len();
    let most = if is_chain {
        MOST_SIZE_IN_CHAIN
    } else {
        MOST_SIZE
    };
    if edge >= MOST_EDGES || room_behind(&term, most).is_none() {
        return Ok(());
    }
    let to = match graph.number_of(&term) {
        Some(number) => Some(number),
        None => graph.add_node(term, Some(edge), is_chain)?,
    };
    if let Some(to) = to {
        graph.edges.push(Edge {
            from,
            to,
            rule,
            at,
            call,
        })?;
    }
    Ok(())
}

/// Adds the edges from the node with the number, and the nodes that they lead to.
pub fn expand(
    alloc: Global,
    plan: &Plan<'_>,
    graph: &mut Graph,
    number: usize,
    work: &mut Work,
) -> Result<(), AllocError> {
    let Some(node) = graph.nodes.get(number) else {
        return Ok(());
    };
    let nexts = nexts_of(alloc, plan, &node.term, work)?;
    let is_chain = node.is_chain && nexts.len() <= 1;
    let first = graph.edges.len();
    for next in nexts {
        join(graph, number, next, is_chain)?;
    }
    let end = graph.edges.len();
    if let Some(node) = graph.nodes.get_mut(number) {
        node.first = first;
        node.end = end;
        node.is_done = true;
    }
    Ok(())
}
