//! The walk of the search over sets of pairs, from the set of all pairs on. `walk` is the main function.

ghost use Rattle.std.specs.Prelude.{◌≡◌, ◌≤◌, [], IfOk, MatchOption, length, map};
ghost use Rattle.wh_types.specs.Limits.{most_pairs};
ghost use Rattle.wh_pairs.specs.SystemPairs.{HasPairs};
ghost use Rattle.wh_pairs.specs.Views.{pairs_data};
ghost use Rattle.wh_system.specs.SystemView.{system_data};
ghost use Rattle.wh_cert.specs.Said.{said_node};
ghost use Rattle.wh_graph.specs.Graphs.{IsGraphOf};
ghost use Rattle.wh_pairs.specs.Sets.{IsWhole};
ghost use Rattle.wh_prover.specs.Walk.{IsEnd, IsTree};

use crate::answer::Cause;
use crate::node::{Setting, settle};
use std::alloc::{AllocError, Global};
use wh_cert::Nodes;
use wh_graph::Graph;
use wh_pairs::PairSet;

/// Puts the nodes of a proof for the set of all pairs into the list, each before its children; or says on which set the
/// walk ends, and why. The sets that are still to be settled are kept on a stack, the next on top.
pub fn walk<'a>(
    alloc: Global,
    setting: &Setting<'a>,
    graph: &Graph,
    whole: PairSet,
    nodes: &mut Nodes,
) -> Result<Option<Cause>, AllocError>
    requires few { length setting.now.pairs.now ≤ most_pairs }
    requires pairs { HasPairs (system_data setting.now.system.now) (pairs_data setting.now.pairs.now) }
    requires graph { IsGraphOf (system_data setting.now.system.now).rules (pairs_data setting.now.pairs.now) graph.now }
    requires whole { IsWhole (pairs_data setting.now.pairs.now) whole }
    requires none { nodes.old ≡ [] }
    ensures { IfOk result (λ end. MatchOption end (IsTree (system_data setting.now.system.now) (pairs_data setting.now.pairs.now) whole
        (map said_node nodes.new)) (IsEnd (system_data setting.now.system.now) (pairs_data setting.now.pairs.now) setting.now.tries)) }
{
    let mut numbered = None;
    let mut stack = Vec::new(alloc);
    stack.push(whole)?;
    while let Some(set) = stack.pop() {
        if let Some(cause) = settle(alloc, setting, graph, &mut numbered, set, &mut stack, nodes)? {
            return Ok(Some(cause));
        }
    }
    Ok(None)
}
