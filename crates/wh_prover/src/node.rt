//! One node of a proof: how the chains of a set end, or why the search ends on it.

ghost use Rattle.std.specs.Prelude.{◌≡◌, ◌↔◌, ◌<◌, ◌≤◌, All, IfOk, IsTrue, MatchOption, OnOk, length};
ghost use Rattle.wh_types.specs.Limits.{most_pairs};
ghost use Rattle.wh_pairs.specs.SystemPairs.{HasPairs};
ghost use Rattle.wh_pairs.specs.Views.{pairs_data};
ghost use Rattle.wh_system.specs.SystemView.{system_data};
ghost use Rattle.wh_cert.specs.Said.{said_node};
ghost use Rattle.wh_graph.specs.Graphs.{IsGraphOf, edge_of, size_of};
ghost use Rattle.wh_intern_pairs.specs.Numberings.{IsNumberingSoFar};
ghost use Rattle.wh_interpreting.specs.Interpreted.{HasNone};
ghost use Rattle.wh_prover.specs.Arriving.{Arrives, Ended, HasNoProjection, IsAloneUnder};
ghost use Rattle.wh_prover.specs.Walk.{AddsNode, IsEnd, dropped_by};

use crate::answer::{Cause, Finder};
use crate::lines::node_of;
use std::alloc::{AllocError, Global};
use wh_cert::{Node, Nodes};
use wh_find_order::find_order;
use wh_find_subterm::find_projection_by;
use wh_graph::Graph;
use wh_intern_pairs::{Numbered, number_if_shared};
use wh_interpreting::interpretation_of;
use wh_pairs::{PairList, PairSet, kept};
use wh_proof::open_blocks;
use wh_sat::Search;
use wh_system::System;

/// The setting of a search: a system with its pairs, and how many clauses each solver may use.
#[derive(Clone, Copy)]
pub struct Setting<'a> {
    /// The system.
    pub system: &'a System,
    /// All its pairs.
    pub pairs: &'a PairList,
    /// How many clauses each solver may use.
    pub tries: u64,
}

/// Gives the set a node, and puts the sets that this node leaves on top of the stack, the first of them on top; or says
/// why the search ends on the set. The graph comes first: a set without pairs, with several components, or with one
/// pair that may not follow itself. Then come the finders.
///
/// `numbered` has the sides of all pairs by numbers, once there was a set for which they pay.
pub fn settle<'a>(
    alloc: Global,
    setting: &Setting<'a>,
    graph: &Graph,
    numbered: &mut Option<Numbered>,
    set: PairSet,
    stack: &mut Vec<PairSet>,
    nodes: &mut Nodes,
) -> Result<Option<Cause>, AllocError>
    requires few { length setting.now.pairs.now ≤ most_pairs }
    requires pairs { HasPairs (system_data setting.now.system.now) (pairs_data setting.now.pairs.now) }
    requires graph { IsGraphOf (system_data setting.now.system.now).rules (pairs_data setting.now.pairs.now) graph.now }
    requires numbered { IsNumberingSoFar numbered.old (pairs_data setting.now.pairs.now) }
    requires arrives { Arrives (system_data setting.now.system.now) (pairs_data setting.now.pairs.now) set }
    ensures numbered { OnOk result (IsNumberingSoFar numbered.new (pairs_data setting.now.pairs.now)) }
    ensures node { IfOk result (λ end. MatchOption end (AddsNode setting.now.system.now setting.now.pairs.now set
        stack.old.items stack.new.items nodes.old nodes.new)
        (IsEnd (system_data setting.now.system.now) (pairs_data setting.now.pairs.now) setting.now.tries)) }
{
    if set.as_slice().is_empty() {
        nodes.push(Node::Done)?;
        return Ok(None);
    }
    let blocks = graph.components(alloc, &set)?;
    if blocks.as_slice().len() > 1 {
        open_blocks(alloc, blocks.as_slice(), stack)?;
        nodes.push(Node::Blocks(blocks))?;
        return Ok(None);
    }
    if is_alone(graph, set.as_slice()) {
        nodes.push(Node::Alone)?;
        return Ok(None);
    }
    lower(alloc, setting, numbered, set, stack, nodes)
}

// Whether the set has one pair, which may not follow itself.
fn is_alone(graph: &Graph, set: &[u32]) -> bool
    requires { All (λ n. n < size_of graph.now) set.now }
    ensures { IsTrue result ↔ IsAloneUnder (edge_of graph.now) set.now }
{
    if set.len() != 1 {
        return false;
    }
    let pair = set[0];
    !graph.has_edge(pair, pair)
}

// A node by what a finder gives for a set of which the graph settles nothing.
fn lower<'a>(
    alloc: Global,
    setting: &Setting<'a>,
    numbered: &mut Option<Numbered>,
    set: PairSet,
    stack: &mut Vec<PairSet>,
    nodes: &mut Nodes,
) -> Result<Option<Cause>, AllocError>
    requires few { length setting.now.pairs.now ≤ most_pairs }
    requires pairs { HasPairs (system_data setting.now.system.now) (pairs_data setting.now.pairs.now) }
    requires numbered { IsNumberingSoFar numbered.old (pairs_data setting.now.pairs.now) }
    requires ended { Ended (system_data setting.now.system.now) (pairs_data setting.now.pairs.now) set }
    ensures numbered { OnOk result (IsNumberingSoFar numbered.new (pairs_data setting.now.pairs.now)) }
    ensures node { IfOk result (λ end. MatchOption end (AddsNode setting.now.system.now setting.now.pairs.now set
        stack.old.items stack.new.items nodes.old nodes.new)
        (IsEnd (system_data setting.now.system.now) (pairs_data setting.now.pairs.now) setting.now.tries)) }
{
    setting.system.is_well_made();
    number_if_shared(alloc, setting.pairs, &set, numbered)?;
    match find_projection_by(
        alloc,
        setting.system,
        setting.pairs,
        numbered.as_ref(),
        &set,
        setting.tries,
    )? {
        Search::Found(found) => {
            stack.push(kept(alloc, &set, found.drop.as_slice())?)?;
            nodes.push(node_of(alloc, setting.system, &found)?)?;
            Ok(None)
        }
        Search::Nothing => interpret(alloc, setting, set, stack, nodes),
        Search::Spent(list) => Ok(Some(Cause::Spent {
            finder: Finder::Subterm,
            set,
            list,
        })),
    }
}

// A node by interpretations, where no projection lets a pair go.
fn interpret<'a>(
    alloc: Global,
    setting: &Setting<'a>,
    set: PairSet,
    stack: &mut Vec<PairSet>,
    nodes: &mut Nodes,
) -> Result<Option<Cause>, AllocError>
    requires few { length setting.now.pairs.now ≤ most_pairs }
    requires pairs { HasPairs (system_data setting.now.system.now) (pairs_data setting.now.pairs.now) }
    requires ended { Ended (system_data setting.now.system.now) (pairs_data setting.now.pairs.now) set }
    requires none { HasNoProjection (system_data setting.now.system.now).rules (pairs_data setting.now.pairs.now) set }
    requires some { 0 < setting.now.tries }
    ensures { IfOk result (λ end. MatchOption end (AddsNode setting.now.system.now setting.now.pairs.now set
        stack.old.items stack.new.items nodes.old nodes.new)
        (IsEnd (system_data setting.now.system.now) (pairs_data setting.now.pairs.now) setting.now.tries)) }
{
    match interpretation_of(alloc, setting.system, setting.pairs, &set, setting.tries)? {
        Search::Found(node) => {
            stack.push(kept(alloc, &set, dropped_by(&node))?)?;
            nodes.push(node)?;
            Ok(None)
        }
        Search::Nothing => order(alloc, setting, set, stack, nodes),
        Search::Spent(list) => Ok(Some(Cause::Spent {
            finder: Finder::Poly,
            set,
            list,
        })),
    }
}

// A node of a path order, where no projection and no interpretation that covers all rules lets a pair go.
fn order<'a>(
    alloc: Global,
    setting: &Setting<'a>,
    set: PairSet,
    stack: &mut Vec<PairSet>,
    nodes: &mut Nodes,
) -> Result<Option<Cause>, AllocError>
    requires few { length setting.now.pairs.now ≤ most_pairs }
    requires pairs { HasPairs (system_data setting.now.system.now) (pairs_data setting.now.pairs.now) }
    requires ended { Ended (system_data setting.now.system.now) (pairs_data setting.now.pairs.now) set }
    requires none { HasNoProjection (system_data setting.now.system.now).rules (pairs_data setting.now.pairs.now) set }
    requires none_either { HasNone (system_data setting.now.system.now) (pairs_data setting.now.pairs.now) set setting.now.tries }
    requires some { 0 < setting.now.tries }
    ensures { IfOk result (λ end. MatchOption end (AddsNode setting.now.system.now setting.now.pairs.now set
        stack.old.items stack.new.items nodes.old nodes.new)
        (IsEnd (system_data setting.now.system.now) (pairs_data setting.now.pairs.now) setting.now.tries)) }
{
    match find_order(alloc, setting.system, setting.pairs, &set, setting.tries)? {
        Search::Found(found) => {
            stack.push(kept(alloc, &set, found.drop.as_slice())?)?;
            nodes.push(Node::Order(Box::new(alloc, found)?))?;
            Ok(None)
        }
        Search::Nothing => Ok(Some(Cause::Stuck(set))),
        Search::Spent(list) => Ok(Some(Cause::Spent {
            finder: Finder::Order,
            set,
            list,
        })),
    }
}

// The pairs that a node drops.
fn dropped_by(node: &Node) -> &[u32]
    ensures { result.now ≡ dropped_by (said_node node.now) }
{
    match node {
        Node::Subterm { drop, .. } => drop.as_slice(),
        Node::Poly(poly) => poly.drop.as_slice(),
        Node::Order(order) => order.drop.as_slice(),
        Node::Done | Node::Alone | Node::Blocks(_) => &[],
    }
}
