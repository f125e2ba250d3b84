//! One node of a YES certificate: its conditions, and the sets that it leaves.

ghost use Rattle.std.specs.Prelude.{◌≡◌, ◌≢◌, [], ◌∷◌, ◌++◌, ◌<◌, All, List, MatchResult, OnOk, length, map, reverse};
ghost use Rattle.wh_types.specs.Outcome.{IfBecause, MatchOr};
ghost use Rattle.wh_pairs.specs.SystemPairs.{HasPairs};
ghost use Rattle.wh_pairs.specs.Views.{pairs_data};
ghost use Rattle.wh_system.specs.SystemView.{system_data};
ghost use Rattle.wh_cert.specs.Said.{said_arg, said_filter, said_interp, said_node, said_order, said_poly};
ghost use Rattle.wh_cert.specs.Written as w;
ghost use Rattle.wh_polycheck.specs.ReadingsView.{readings_data};
ghost use Rattle.wh_reduction_pairs.specs.TaskData.{CoversAll};
ghost use Rattle.wh_reduction_pairs.specs.TaskView.{task_data};
ghost use Rattle.wh_polycheck.specs.Covering.{HaveTypedSides, IsTypedTask};
ghost use Rattle.wh_polycheck.specs.Small.{with_limits};
ghost use Rattle.wh_intern_pairs.specs.Numberings.{IsNumberingSoFar};
ghost use Rattle.wh_order_node.specs.FilteringView.{filtering_data};
ghost use Rattle.wh_checker.specs.Faults.{IsNodeFault, IsSubtermFault, SayCovering, SayOrdering};
ghost use Rattle.wh_checker.specs.Walk.{IsReduced, IsSingle};
ghost use Rattle.wh_proof.specs.GoesOn.{GoesOn};
ghost use Rattle.wh_proof.specs.Looked.{CoversRules, covered_rules};
ghost use Rattle.wh_checker.specs.declared.rejected.NodeFault.TheVariants.{NotEmpty};

use crate::rejected::NodeFault;
use std::alloc::{AllocError, Global};
use wh_cert::{Arg, Node, OrderNode, PolyNode};
use wh_graph::{check_blocks, may_follow};
use wh_intern_pairs::{Numbered, check_numbered};
use wh_order_check::{Inferred, check_ordering};
use wh_order_node::Filters;
use wh_pairs::{Pair, PairList, PairSet, kept};
use wh_poly_covering::{Evidence, check_covering};
use wh_polycheck::Readings;
use wh_proof::{
    choices_of, filters_of_lines, marks_of_set, open_blocks, rules_to_cover, symbols_of,
};
use wh_reduction_pairs::{Task, all_rules};
use wh_subterm::SubtermFault;
use wh_system::System;
use wh_types::Or;

/// Whether the conditions of the node hold of the set, and no value exceeds a limit. Then what it leaves to be proved
/// comes on top of the stack, the first of it on top. The first node `subterm` numbers the sides of the pairs, for all
/// that come after it.
pub fn check_node(
    alloc: Global,
    system: &System,
    pairs: &PairList,
    set: &PairSet,
    node: &Node,
    numbered: &mut Option<Numbered>,
    stack: &mut Vec<PairSet>,
) -> Result<(), Or<NodeFault>>
    requires pairs { HasPairs (system_data system.now) (pairs_data pairs.now) }
    requires typed { HaveTypedSides (system_data system.now).symbols (system_data system.now).rules (pairs_data pairs.now) }
    requires set { All (λ n. n < length pairs.now) set.now }
    requires numbered { IsNumberingSoFar numbered.old (pairs_data pairs.now) }
    ensures numbered { OnOk result (IsNumberingSoFar numbered.new (pairs_data pairs.now)) }
    ensures proved { OnOk result (GoesOn (system_data system.now) (pairs_data pairs.now) set.now (said_node node.now)
        (reverse stack.old.items) (reverse stack.new.items)) }
    ensures fault { IfBecause result (IsNodeFault with_limits (system_data system.now) (pairs_data pairs.now) set.now
        (said_node node.now)) }
{
    match node {
        Node::Done => check_done(set),
        Node::Alone => check_alone(system, pairs.as_slice(), set.as_slice()),
        Node::Blocks(parts) => {
            if let Err(fault) = check_blocks(system, pairs, set, parts.as_slice()) {
                return Err(Or::Because(NodeFault::Blocks(fault)));
            }
            open_blocks(alloc, parts.as_slice(), stack)?;
            Ok(())
        }
        Node::Subterm { args, drop } => {
            match reduced(
                alloc,
                system,
                pairs,
                set,
                args.as_slice(),
                drop.as_slice(),
                numbered,
            ) {
                Ok(rest) => stack.push(rest)?,
                Err(Or::Because(fault)) => return Err(Or::Because(NodeFault::Subterm(fault))),
                Err(Or::NoMemory) => return Err(Or::NoMemory),
            }
            Ok(())
        }
        Node::Poly(node) => {
            stack.push(covered(alloc, system, pairs, set, node)?)?;
            Ok(())
        }
        Node::Order(node) => {
            stack.push(oriented(alloc, system, pairs, set, node)?)?;
            Ok(())
        }
    }
}

// Whether the set is empty.
fn check_done(set: &PairSet) -> Result<(), Or<NodeFault>>
    ensures { MatchOr result (λ _. set.now ≡ []) (λ f. (f ≡ NotEmpty) × (set.now ≢ [])) }
{
    if set.as_slice().is_empty() {
        Ok(())
    } else {
        Err(Or::Because(NodeFault::NotEmpty))
    }
}

// Whether the set has one pair, which may not follow itself.
fn check_alone(system: &System, pairs: &[Pair], set: &[u32]) -> Result<(), Or<NodeFault>>
    requires { All (λ n. n < length pairs.now) set.now }
    ensures { MatchOr result (λ _. IsSingle (system_data system.now).rules (pairs_data pairs.now) set.now)
        (IsNodeFault with_limits (system_data system.now) (pairs_data pairs.now) set.now w.alone) }
{
    if set.len() != 1 {
        return Err(Or::Because(NodeFault::NotOne));
    }
    let pair = &pairs[set[0] as usize];
    if may_follow(system, pair, pair) {
        return Err(Or::Because(NodeFault::Loops { pair: set[0] }));
    }
    Ok(())
}

// What a node `subterm` leaves of the set, if its conditions hold.
fn reduced(
    alloc: Global,
    system: &System,
    pairs: &PairList,
    set: &PairSet,
    args: &[Arg],
    drop: &[u32],
    numbered: &mut Option<Numbered>,
) -> Result<PairSet, Or<SubtermFault>>
    requires pairs { HasPairs (system_data system.now) (pairs_data pairs.now) }
    requires set { All (λ n. n < length pairs.now) set.now }
    requires numbered { IsNumberingSoFar numbered.old (pairs_data pairs.now) }
    ensures reduced { MatchOr result
        (IsReduced (system_data system.now) (pairs_data pairs.now) set.now (map said_arg args.now) drop.now)
        (IsSubtermFault (system_data system.now) (pairs_data pairs.now) set.now (map said_arg args.now) drop.now) }
    ensures numbered { OnOk result (IsNumberingSoFar numbered.new (pairs_data pairs.now)) }
{
    system.is_well_made();
    let Some(choices) = choices_of(alloc, system, args)? else {
        return Err(Or::Because(SubtermFault::BadArgs));
    };
    Numbered::once(alloc, pairs, numbered)?;
    let Some(made) = numbered else { unreachable!() };
    let sides = made.sides.as_slice();
    if let Err(fault) = check_numbered(system, &made.table, sides, set, &choices, drop) {
        return Err(Or::Because(fault));
    }
    Ok(kept(alloc, set, drop)?)
}

// What a node of interpretations leaves of the set, if its conditions hold.
fn covered(
    alloc: Global,
    system: &System,
    pairs: &PairList,
    set: &PairSet,
    node: &PolyNode,
) -> Result<PairSet, Or<NodeFault>>
    requires typed { HaveTypedSides (system_data system.now).symbols (system_data system.now).rules (pairs_data pairs.now) }
    requires set { All (λ n. n < length pairs.now) set.now }
    ensures { MatchOr result (λ rest. GoesOn (system_data system.now) (pairs_data pairs.now) set.now (said_poly node.now) [] (rest ∷ []))
        (IsNodeFault with_limits (system_data system.now) (pairs_data pairs.now) set.now (said_poly node.now)) }
{
    let Some(rules) = rules_to_cover(alloc, system, &node.usable)? else {
        return Err(Or::Because(NodeFault::BadUsable));
    };
    let Some(symbols) = symbols_of(alloc, system, node.funs.as_slice())? else {
        return Err(Or::Because(NodeFault::BadSymbols));
    };
    let Some(marks) = marks_of_set(alloc, system, pairs, set, node.marks.as_slice())? else {
        return Err(Or::Because(NodeFault::BadSymbols));
    };
    let task = Task {
        system,
        pairs: pairs.as_slice(),
        set: set.as_slice(),
        covered: &rules,
    };
    let readings = Readings {
        symbols: &symbols,
        marks: &marks,
    };
    covered_by(alloc, &task, set, node, &readings)
}

// Whether the conditions of a node of interpretations hold under the readings that its lines say. The task is the set
// with the rules that the node is to cover.
fn covered_by<'a, 'b>(
    alloc: Global,
    task: &Task<'a>,
    set: &PairSet,
    node: &PolyNode,
    readings: &Readings<'b>,
) -> Result<PairSet, Or<NodeFault>>
    requires typed { IsTypedTask (task_data task.now) }
    requires set { task.now.set.now ≡ set.now }
    requires covered { task.now.covered.now ≡ covered_rules node.now.usable (length (system_data task.now.system.now).rules) }
    requires rules { CoversRules (system_data task.now.system.now) node.now.usable }
    requires says { SayCovering (system_data task.now.system.now) (pairs_data task.now.pairs.now) set.now (map said_interp node.now.funs)
        (map said_interp node.now.marks) (readings_data readings.now) }
    ensures { MatchOr result (λ rest. GoesOn (system_data task.now.system.now) (pairs_data task.now.pairs.now) set.now (said_poly node.now)
        [] (rest ∷ [])) (IsNodeFault with_limits (system_data task.now.system.now) (pairs_data task.now.pairs.now) set.now
        (said_poly node.now)) }
{
    let evidence = Evidence {
        rules: node.rules.as_slice(),
        pairs: node.pairs.as_slice(),
        drop: node.drop.as_slice(),
    };
    match check_covering(alloc, task, readings, &evidence) {
        Ok(()) => Ok(kept(alloc, set, node.drop.as_slice())?),
        Err(Or::Because(fault)) => Err(Or::Because(NodeFault::Poly(fault))),
        Err(Or::NoMemory) => Err(Or::NoMemory),
    }
}

// What a node of a path order leaves of the set, if its conditions hold.
fn oriented(
    alloc: Global,
    system: &System,
    pairs: &PairList,
    set: &PairSet,
    node: &OrderNode,
) -> Result<PairSet, Or<NodeFault>>
    requires typed { HaveTypedSides (system_data system.now).symbols (system_data system.now).rules (pairs_data pairs.now) }
    requires set { All (λ n. n < length pairs.now) set.now }
    ensures { MatchOr result (λ rest. GoesOn (system_data system.now) (pairs_data pairs.now) set.now (said_order node.now) [] (rest ∷ []))
        (IsNodeFault with_limits (system_data system.now) (pairs_data pairs.now) set.now (said_order node.now)) }
{
    let funs = node.funs.as_slice();
    let marks = node.marks.as_slice();
    let Some(filters) = filters_of_lines(alloc, system, pairs, set, funs, marks)? else {
        return Err(Or::Because(NodeFault::BadSymbols));
    };
    let rules = all_rules(alloc, system)?;
    let task = Task {
        system,
        pairs: pairs.as_slice(),
        set: set.as_slice(),
        covered: &rules,
    };
    oriented_by(alloc, &task, set, node, &filters)
}

// Whether the conditions of a node of a path order hold under the filters that its lines say. The task is the set with
// all rules to be covered.
fn oriented_by<'a>(
    alloc: Global,
    task: &Task<'a>,
    set: &PairSet,
    node: &OrderNode,
    filters: &Filters,
) -> Result<PairSet, Or<NodeFault>>
    requires typed { IsTypedTask (task_data task.now) }
    requires set { task.now.set.now ≡ set.now }
    requires whole { CoversAll (task_data task.now) }
    requires says { SayOrdering (system_data task.now.system.now) (pairs_data task.now.pairs.now) set.now (map said_filter node.now.funs)
        (map said_filter node.now.marks) (filtering_data filters.now) }
    ensures { MatchOr result (λ rest. GoesOn (system_data task.now.system.now) (pairs_data task.now.pairs.now) set.now
        (said_order node.now) [] (rest ∷ [])) (IsNodeFault with_limits (system_data task.now.system.now) (pairs_data task.now.pairs.now)
        set.now (said_order node.now)) }
{
    task.system.is_well_made();
    let inferred = Inferred {
        rules: node.rules.as_slice(),
        pairs: node.pairs.as_slice(),
        drop: node.drop.as_slice(),
    };
    match check_ordering(alloc, task, filters, &inferred) {
        Ok(()) => Ok(kept(alloc, set, inferred.drop)?),
        Err(Or::Because(fault)) => Err(Or::Because(NodeFault::Order(fault))),
        Err(Or::NoMemory) => Err(Or::NoMemory),
    }
}
