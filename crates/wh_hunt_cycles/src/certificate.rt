//! The certificate of a way through the graph that comes to an instance of its first call.

use crate::graph::{Edge, Graph};
use std::alloc::{AllocError, Global};
use wh_cert::{NoCertificate, Put, Puts, Steps};
use wh_hunt_calls::reduct_of;
use wh_hunt_terms::{
    Met, Way, Work, instance_of, joined, last_of, opened_part, path_of, raw_kind_of, raw_of,
    step_of,
};
use wh_system::System;
use wh_terms::Term;
use wh_text::RawTerm;

// What trying to make a certificate costs, for each step.
const STEP_COST: u64 = 100;

// The steps along a way, and where the last call stands in the last term.
#[derive(Drop)]
struct Trace {
    steps: Steps,
    at: Way,
}

// A step in the part at the end of the way joins.
fn add_step(
    alloc: Global,
    rule: Option<u32>,
    at: &[bool],
    inside: &[bool],
    steps: &mut Steps,
) -> Result<(), AllocError> {
    let way = joined(alloc, at, inside)?;
    steps.push(step_of(alloc, rule, &way)?)
}

// Beta steps in the part at the end of the way join.
fn add_betas(
    alloc: Global,
    at: &[bool],
    betas: &[Way],
    steps: &mut Steps,
) -> Result<(), AllocError> {
    for beta in betas {
        add_step(alloc, None, at, beta, steps)?;
    }
    Ok(())
}

// The steps of the edge join, and the way goes on to its call.
fn add_steps(
    alloc: Global,
    edge: &Edge,
    betas: &[Way],
    trace: &mut Trace,
) -> Result<(), AllocError> {
    add_step(
        alloc,
        Some(edge.rule),
        &trace.at,
        &edge.at,
        &mut trace.steps,
    )?;
    add_betas(alloc, &trace.at, betas, &mut trace.steps)?;
    for turn in &edge.call {
        trace.at.push(*turn)?;
    }
    Ok(())
}

// The steps of the edge join: whether they are there.
fn add_edge(
    alloc: Global,
    system: &System,
    graph: &Graph,
    index: usize,
    trace: &mut Trace,
) -> Result<bool, AllocError> {
    let Some(edge) = graph.edges.get(index) else {
        return Ok(false);
    };
    let Some(node) = graph.nodes.get(edge.from) else {
        return Ok(false);
    };
    match reduct_of(alloc, system, &node.term, edge.rule, &edge.at)? {
        Some(reduct) => {
            add_steps(alloc, edge, &reduct.betas, trace)?;
            Ok(true)
        }
        None => Ok(false),
    }
}

// The steps along the edges.
fn trace_of(
    alloc: Global,
    system: &System,
    graph: &Graph,
    edges: &[usize],
) -> Result<Option<Trace>, AllocError> {
    let mut trace = Trace {
        steps: Steps::new(alloc),
        at: Vec::new(alloc),
    };
    for index in edges {
        if !add_edge(alloc, system, graph, *index, &mut trace)? {
            return Ok(None);
        }
    }
    Ok(Some(trace))
}

// One more than the greatest number of a free variable in the term.
fn first_unused(term: &Term) -> u32 {
    match term {
        Term::Free(number, _) => number.saturating_add(1),
        Term::Lam(_, body) => first_unused(body),
        Term::App(function, argument) => first_unused(function).max(first_unused(argument)),
        Term::Bound(_) | Term::Fun(_) | Term::Meta(..) => 0,
    }
}

// The line that says what is put for a variable.
fn put_of(alloc: Global, system: &System, met: &Met<'_>) -> Result<Option<Put>, AllocError> {
    let Some(kind) = raw_kind_of(alloc, system, met.kind)? else {
        return Ok(None);
    };
    let Some(term) = raw_of(alloc, system, met.value)? else {
        return Ok(None);
    };
    Ok(Some(Put {
        number: met.number,
        kind,
        term,
    }))
}

// The lines that say what is put for variables.
fn puts_of(alloc: Global, system: &System, found: &[Met<'_>]) -> Result<Option<Puts>, AllocError> {
    let mut puts = Puts::new(alloc);
    for met in found {
        let Some(put) = put_of(alloc, system, met)? else {
            return Ok(None);
        };
        puts.push(put)?;
    }
    Ok(Some(puts))
}

// The part of the term at the end of the way.
fn part_of(
    alloc: Global,
    term: &Term,
    way: &[bool],
    first: u32,
) -> Result<Option<Term>, AllocError> {
    let path = path_of(alloc, way)?;
    opened_part(alloc, term, &path, first)
}

// What stands at the trace's place in the last term.
fn part_at_end(
    alloc: Global,
    system: &System,
    start: &Term,
    trace: &Trace,
) -> Result<Option<Term>, AllocError> {
    match last_of(alloc, system, start, trace.steps.as_slice())? {
        Some(last) => part_of(alloc, &last, &trace.at, first_unused(start)),
        None => Ok(None),
    }
}

// What is to be put for the variables of the start to get the part.
fn puts_for(
    alloc: Global,
    system: &System,
    start: &Term,
    part: &Term,
) -> Result<Option<Puts>, AllocError> {
    match instance_of(alloc, system, start, part)? {
        Some(found) => puts_of(alloc, system, &found),
        None => Ok(None),
    }
}

// What is to be put for the variables of the start to get what stands at the trace's place in the last term.
fn puts_at_end(
    alloc: Global,
    system: &System,
    start: &Term,
    trace: &Trace,
) -> Result<Option<Puts>, AllocError> {
    match part_at_end(alloc, system, start, trace)? {
        Some(part) => puts_for(alloc, system, start, &part),
        None => Ok(None),
    }
}

// The certificate with these parts.
fn assembled(
    alloc: Global,
    term: RawTerm,
    trace: Trace,
    puts: Puts,
) -> Result<Box<NoCertificate>, AllocError> {
    let at = path_of(alloc, &trace.at)?;
    let certificate = NoCertificate {
        term,
        steps: trace.steps,
        at,
        puts,
    };
    Ok(Box::new(alloc, certificate)?)
}

// The certificate with these puts.
fn certificate_with(
    alloc: Global,
    system: &System,
    start: &Term,
    trace: Trace,
    puts: Puts,
) -> Result<Option<Box<NoCertificate>>, AllocError> {
    match raw_of(alloc, system, start)? {
        Some(term) => Ok(Some(assembled(alloc, term, trace, puts)?)),
        None => Ok(None),
    }
}

// The certificate of the loop from the start along the trace.
fn certificate_of(
    alloc: Global,
    system: &System,
    start: &Term,
    trace: Trace,
) -> Result<Option<Box<NoCertificate>>, AllocError> {
    match puts_at_end(alloc, system, start, &trace)? {
        Some(puts) => certificate_with(alloc, system, start, trace, puts),
        None => Ok(None),
    }
}

// The call that the first of the edges leads from.
fn start_of<'a>(graph: &'a Graph, edges: &[usize]) -> Option<&'a Term> {
    let edge = graph.edges.get(*edges.first()?)?;
    let node = graph.nodes.get(edge.from)?;
    Some(&node.term)
}

/// The certificate of the loop along the edges, which follow each other; `None` where their last call is no instance of
/// the first one, a term on the way is too large, or the work is spent.
pub fn certificate_along(
    alloc: Global,
    system: &System,
    graph: &Graph,
    edges: &[usize],
    work: &mut Work,
) -> Result<Option<Box<NoCertificate>>, AllocError> {
    if !work.spend((edges.len() as u64).saturating_mul(STEP_COST)) {
        return Ok(None);
    }
    let Some(start) = start_of(graph, edges) else {
        return Ok(None);
    };
    match trace_of(alloc, system, graph, edges)? {
        Some(trace) => certificate_of(alloc, system, start, trace),
        None => Ok(None),
    }
}
