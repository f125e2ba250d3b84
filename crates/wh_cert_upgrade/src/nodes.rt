//! Copies of the nodes of a YES certificate.

ghost use Rattle.std.specs.Prelude.{◌≡◌, map, IfOk};
ghost use Rattle.wh_cert.specs.Said.{said_interp, said_poly, said_order, said_node};
ghost use Rattle.wh_cert_upgrade.specs.Upgraded.{relisted};

use crate::lists::{copy_blocks, copy_name, copy_numbers};
use crate::terms::copy_inferences;
use std::alloc::{AllocError, Global};
use wh_cert::{
    Arg, Args, Filter, Interp, Interps, NamedFilter, NamedFilters, Node, Nodes, OrderNode, PolyNode,
};
use wh_hopoly::{Covers, Move, Moves};
use wh_poly::copy as copy_polynomial;
use wh_types::Numbers;

/// Copies the nodes, in their order.
#[tactic(auto, using(crate::proofs::Copies::nodes_join, crate::proofs::Copies::nodes_end))]
pub fn copy_nodes(alloc: Global, nodes: &[Node]) -> Result<Nodes, AllocError>
    ensures { IfOk result (λ copies. map said_node copies ≡ map said_node nodes.now) }
{
    let mut copies = Nodes::new(alloc);
    for node in nodes {
        copies.push(copy_node(alloc, node)?)?;
    }
    Ok(copies)
}

/// Copies a node.
pub fn copy_node(alloc: Global, node: &Node) -> Result<Node, AllocError>
    ensures { IfOk result (λ copy. said_node copy ≡ said_node node.now) }
{
    match node {
        Node::Done => Ok(Node::Done),
        Node::Alone => Ok(Node::Alone),
        Node::Blocks(parts) => Ok(Node::Blocks(copy_blocks(alloc, parts.as_slice())?)),
        Node::Subterm { args, drop } => {
            let args = copy_args(alloc, args.as_slice())?;
            let drop = copy_numbers(alloc, drop.as_slice())?;
            Ok(Node::Subterm { args, drop })
        }
        Node::Poly(node) => {
            let usable = copy_usable(alloc, &node.usable)?;
            let copy = copy_poly(alloc, node, usable)?;
            Ok(Node::Poly(Box::new(alloc, copy)?))
        }
        Node::Order(node) => Ok(Node::Order(Box::new(alloc, copy_order(alloc, node)?)?)),
    }
}

/// Copies a node of interpretations, with `usable` as the rules that are to be covered.
pub fn copy_poly(
    alloc: Global,
    node: &PolyNode,
    usable: Option<Numbers>,
) -> Result<PolyNode, AllocError>
    ensures { IfOk result (λ copy. said_poly copy ≡ relisted usable (said_poly node.now)) }
{
    let funs = copy_interps(alloc, node.funs.as_slice())?;
    let marks = copy_interps(alloc, node.marks.as_slice())?;
    let rules = copy_covers(alloc, node.rules.as_slice())?;
    let pairs = copy_covers(alloc, node.pairs.as_slice())?;
    let drop = copy_numbers(alloc, node.drop.as_slice())?;
    Ok(PolyNode {
        usable,
        funs,
        marks,
        rules,
        pairs,
        drop,
    })
}

/// Copies the list of rules, where there is one.
fn copy_usable(alloc: Global, usable: &Option<Numbers>) -> Result<Option<Numbers>, AllocError>
    ensures { IfOk result (λ copy. copy ≡ usable.now) }
{
    match usable {
        Some(numbers) => Ok(Some(copy_numbers(alloc, numbers.as_slice())?)),
        None => Ok(None),
    }
}

/// Copies a node of a path order.
fn copy_order(alloc: Global, node: &OrderNode) -> Result<OrderNode, AllocError>
    ensures { IfOk result (λ copy. said_order copy ≡ said_order node.now) }
{
    let funs = copy_filters(alloc, node.funs.as_slice())?;
    let marks = copy_filters(alloc, node.marks.as_slice())?;
    let rules = copy_inferences(alloc, &node.rules)?;
    let pairs = copy_inferences(alloc, &node.pairs)?;
    let drop = copy_numbers(alloc, node.drop.as_slice())?;
    Ok(OrderNode {
        funs,
        marks,
        rules,
        pairs,
        drop,
    })
}

/// Copies which argument is chosen of each symbol.
fn copy_args(alloc: Global, args: &[Arg]) -> Result<Args, AllocError>
    ensures { IfOk result (λ copies. copies ≡ args.now) }
{
    let mut copies = Args::new(alloc);
    for arg in args {
        copies.push(Arg {
            name: copy_name(alloc, &arg.name)?,
            place: arg.place,
        })?;
    }
    Ok(copies)
}

/// Equal interpretations in the same order.
#[tactic(auto, using(crate::proofs::Copies::interps_join, crate::proofs::Copies::interps_end))]
fn copy_interps(alloc: Global, items: &[Interp]) -> Result<Interps, AllocError>
    ensures { IfOk result (λ copies. map said_interp copies ≡ map said_interp items.now) }
{
    let mut copies = Interps::new(alloc);
    for item in items {
        copies.push(copy_interp(alloc, item)?)?;
    }
    Ok(copies)
}

/// An equal interpretation.
fn copy_interp(alloc: Global, item: &Interp) -> Result<Interp, AllocError>
    ensures { IfOk result (λ copy. said_interp copy ≡ said_interp item.now) }
{
    Ok(Interp {
        name: copy_name(alloc, &item.name)?,
        poly: copy_polynomial(alloc, &item.poly)?,
    })
}

/// Copies the lists of moves.
fn copy_covers(alloc: Global, items: &[Moves]) -> Result<Covers, AllocError>
    ensures { IfOk result (λ copies. copies ≡ items.now) }
{
    let mut copies = Covers::new(alloc);
    for item in items {
        copies.push(copy_moves(alloc, item.as_slice())?)?;
    }
    Ok(copies)
}

/// Copies the moves of one line.
fn copy_moves(alloc: Global, items: &[Move]) -> Result<Moves, AllocError>
    ensures { IfOk result (λ copies. copies ≡ items.now) }
{
    let mut copies = Moves::new(alloc);
    for item in items {
        copies.push(Move {
            from: item.from,
            to: item.to,
            amount: item.amount,
        })?;
    }
    Ok(copies)
}

/// Copies the symbols with their filters.
fn copy_filters(alloc: Global, items: &[NamedFilter]) -> Result<NamedFilters, AllocError>
    ensures { IfOk result (λ copies. copies ≡ items.now) }
{
    let mut copies = NamedFilters::new(alloc);
    for item in items {
        copies.push(NamedFilter {
            name: copy_name(alloc, &item.name)?,
            filter: copy_filter(alloc, &item.filter)?,
        })?;
    }
    Ok(copies)
}

/// Copies a filter.
fn copy_filter(alloc: Global, filter: &Filter) -> Result<Filter, AllocError>
    ensures { IfOk result (λ copy. copy ≡ filter.now) }
{
    match filter {
        Filter::Keep { prec, places } => {
            let places = copy_numbers(alloc, places.as_slice())?;
            Ok(Filter::Keep {
                prec: *prec,
                places,
            })
        }
        Filter::Pick { place } => Ok(Filter::Pick { place: *place }),
    }
}
