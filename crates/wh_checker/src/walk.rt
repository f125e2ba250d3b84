//! The walk through the nodes of a YES certificate, with a stack of the sets that are still to be proved.

ghost use Rattle.std.specs.Prelude.{◌≡◌, ◌∷◌, ◌<◌, ◌^◌, ◌+◌, [], ℕ, All, List, OnOk, length, map, reverse};
ghost use Rattle.wh_types.specs.Outcome.{IfBecause, MatchOr};
ghost use Rattle.wh_pairs.specs.SystemPairs.{HasPairs};
ghost use Rattle.wh_pairs.specs.Views.{pairs_data};
ghost use Rattle.wh_system.specs.SystemView.{system_data};
ghost use Rattle.wh_cert.specs.Said.{said_node};
ghost use Rattle.wh_cert.specs.Written as w;
ghost use Rattle.wh_cert.specs.Written.{Preorder};
ghost use Rattle.wh_polycheck.specs.Covering.{HaveTypedSides};
ghost use Rattle.wh_intern_pairs.specs.Numberings.{IsNumberingSoFar};
ghost use Rattle.wh_checker.specs.Walk.{HasCome, IsFaultInNodes};
ghost use Rattle.wh_proof.specs.GoesOn.{AreProvedBy};

use crate::node::check_node;
use crate::rejected::CheckFault;
use std::alloc::Global;
use wh_cert::Node;
use wh_intern_pairs::Numbered;
use wh_pairs::{PairList, PairSet};
use wh_system::System;
use wh_types::Or;

/// Whether the node of that number proves the set on top of the stack, of those that are still to be proved. What it
/// leaves to be proved comes on top in its place. The sides of the pairs are numbered for the first node that asks for
/// them.
pub fn check_next(
    alloc: Global,
    system: &System,
    pairs: &PairList,
    index: u32,
    node: &Node,
    numbered: &mut Option<Numbered>,
    stack: &mut Vec<PairSet>,
) -> Result<(), Or<CheckFault>>
    requires pairs { HasPairs (system_data system.now) (pairs_data pairs.now) }
    requires numbered { IsNumberingSoFar numbered.old (pairs_data pairs.now) }
    requires typed { HaveTypedSides (system_data system.now).symbols (system_data system.now).rules (pairs_data pairs.now) }
    requires come { (set : List ℕ) × (lines : List w.Node) × (left : List w.Node)
        × HasCome (system_data system.now) (pairs_data pairs.now) set lines index (reverse stack.old.items) (said_node node.now ∷ left) }
    ensures numbered { OnOk result (IsNumberingSoFar numbered.new (pairs_data pairs.now)) }
    ensures on { OnOk result ((set : List ℕ) (lines left : List w.Node)
        → HasCome (system_data system.now) (pairs_data pairs.now) set lines index (reverse stack.old.items) (said_node node.now ∷ left)
        → HasCome (system_data system.now) (pairs_data pairs.now) set lines (index + 1) (reverse stack.new.items) left) }
    ensures fault { IfBecause result (λ r. (set : List ℕ) (lines left : List w.Node)
        → HasCome (system_data system.now) (pairs_data pairs.now) set lines index (reverse stack.old.items) (said_node node.now ∷ left)
        → IsFaultInNodes (system_data system.now) (pairs_data pairs.now) set lines r) }
{
    let Some(set) = stack.pop() else {
        unreachable!()
    };
    match check_node(alloc, system, pairs, &set, node, numbered, stack) {
        Ok(()) => Ok(()),
        Err(Or::Because(fault)) => Err(Or::Because(fault.at_node(index))),
        Err(Or::NoMemory) => Err(Or::NoMemory),
    }
}

/// Whether the nodes, in preorder, prove the set. The sets that are still to be proved are kept on a stack, the next on
/// top.
pub fn check_nodes(
    alloc: Global,
    system: &System,
    pairs: &PairList,
    whole: PairSet,
    nodes: &[Node],
) -> Result<(), Or<CheckFault>>
    requires pairs { HasPairs (system_data system.now) (pairs_data pairs.now) }
    requires typed { HaveTypedSides (system_data system.now).symbols (system_data system.now).rules (pairs_data pairs.now) }
    requires set { All (λ n. n < length pairs.now) whole }
    requires preorder { Preorder 1 (map said_node nodes.now) }
    requires few { length nodes.now < 2 ^ 32 }
    ensures proved { OnOk result (AreProvedBy (system_data system.now) (pairs_data pairs.now) (whole ∷ []) (map said_node nodes.now)) }
    ensures fault { IfBecause result (IsFaultInNodes (system_data system.now) (pairs_data pairs.now) whole (map said_node nodes.now)) }
{
    let mut stack = Vec::new(alloc);
    stack.push(whole)?;
    let mut numbered = None;
    for (index, node) in nodes.iter().enumerate() {
        check_next(
            alloc,
            system,
            pairs,
            index as u32,
            node,
            &mut numbered,
            &mut stack,
        )?;
    }
    Ok(())
}
