//! The tree of nodes of a proof: what each node does with its set of pairs.

ghost use Rattle.wh_system.specs.SystemView.{system_data};
ghost use Rattle.wh_pairs.specs.SystemPairs.{HasPairs};
ghost use Rattle.wh_pairs.specs.Views.{pairs_data};

use crate::ordered::put_order;
use crate::values::put_interpretation;
use std::alloc::{AllocError, Global};
use wh_cert::{Node, YesCertificate};
use wh_pairs::{PairSet, kept, numbers_below, set_of};
use wh_tell::Piece::Count;
use wh_tell::{Text, put_numbers, put_pairs, tell, tell_line};
use wh_tell_parts::{Projected, put_projection};
use wh_top_judging::Problem;
use wh_types::counted;

/// A set of pairs that a node is to deal with, and how deep that node stands in the tree.
#[derive(Drop)]
struct Level {
    set: PairSet,
    depth: u32,
}

/// Appends what each node does, each before the nodes that it leads to.
pub fn put_tree(
    alloc: Global,
    text: &mut Text,
    problem: &Problem,
    certificate: &YesCertificate,
) -> Result<(), AllocError>
    requires { HasPairs (system_data problem.now.system) (pairs_data problem.now.pairs) }
{
    let mut stack = Vec::new(alloc);
    let count = counted(problem.pairs.as_slice().len())?;
    stack.push(Level {
        set: numbers_below(alloc, count)?,
        depth: 0,
    })?;
    for (number, node) in certificate.nodes.as_slice().iter().enumerate() {
        if let Some(level) = stack.pop() {
            put_node(alloc, text, problem, number, node, &level)?;
            open_node(alloc, node, &level, &mut stack)?;
        }
    }
    Ok(())
}

// Appends the head of a node and what it does.
fn put_node(
    alloc: Global,
    text: &mut Text,
    problem: &Problem,
    number: usize,
    node: &Node,
    level: &Level,
) -> Result<(), AllocError>
    requires { HasPairs (system_data problem.now.system) (pairs_data problem.now.pairs) }
{
    put_head(text, number, level);
    let depth = level.depth.saturating_add(1);
    match node {
        Node::Done => tell_line(text, depth, "No pair is left.", &[]),
        Node::Alone => put_alone(text, problem, &level.set, depth),
        Node::Blocks(blocks) => put_blocks(text, blocks.as_slice().len(), depth),
        Node::Subterm { args, drop } => put_projection(
            text,
            &problem.system,
            problem.pairs.as_slice(),
            level.set.as_slice(),
            Projected {
                args: args.as_slice(),
                drop: drop.as_slice(),
            },
            depth,
        ),
        Node::Poly(node) => put_interpretation(alloc, text, problem, &level.set, node, depth)?,
        Node::Order(node) => put_order(alloc, text, problem, &level.set, node, depth)?,
    }
    Ok(())
}

// Appends the only pair of a node, and why it is used once.
fn put_alone(text: &mut Text, problem: &Problem, set: &PairSet, depth: u32) {
    let pairs = problem.pairs.as_slice();
    put_pairs(text, &problem.system, pairs, set.as_slice(), depth);
    let words = "It may not follow itself: what it calls is never what it starts from.";
    tell_line(text, depth, words, &[]);
}

// Appends the number of the node and its pairs.
fn put_head(text: &mut Text, number: usize, level: &Level) {
    text.indent(level.depth);
    tell(text, "Node @", &[Count(number)]);
    if level.set.as_slice().is_empty() {
        text.say(", no pairs\n");
        return;
    }
    text.say(", pairs");
    put_numbers(text, level.set.as_slice());
    text.say("\n");
}

// Appends what blocks are for.
fn put_blocks(text: &mut Text, count: usize, depth: u32) {
    text.indent(depth);
    tell(
        text,
        "These fall into @ blocks, and no pair of an earlier block may follow",
        &[Count(count)],
    );
    text.say(" one of a later block. So a chain stays in one block in the end.\n");
}

// Puts what a node leaves on top of the stack, the first of it on top.
fn open_node(
    alloc: Global,
    node: &Node,
    level: &Level,
    stack: &mut Vec<Level>,
) -> Result<(), AllocError> {
    let depth = level.depth.saturating_add(1);
    match node {
        Node::Done | Node::Alone => Ok(()),
        Node::Blocks(blocks) => {
            for block in blocks.as_slice().iter().rev() {
                let set = set_of(alloc, block.as_slice())?;
                stack.push(Level { set, depth })?;
            }
            Ok(())
        }
        Node::Subterm { drop, .. } => open_rest(alloc, drop.as_slice(), level, stack),
        Node::Poly(node) => open_rest(alloc, node.drop.as_slice(), level, stack),
        Node::Order(node) => open_rest(alloc, node.drop.as_slice(), level, stack),
    }
}

// Puts the set of the pairs behind a drop list on top of the stack.
fn open_rest(
    alloc: Global,
    drop: &[u32],
    level: &Level,
    stack: &mut Vec<Level>,
) -> Result<(), AllocError> {
    let set = kept(alloc, &level.set, drop)?;
    stack.push(Level {
        set,
        depth: level.depth.saturating_add(1),
    })?;
    Ok(())
}
