//! The test that the inferences of all rules and pairs are good.

ghost use Rattle.std.specs.Prelude.{◌≡◌, ◌<◌, ℕ, All, Contains, IfOk, List, None, OnOk, Some, length, map, slice_get, true};
ghost use Rattle.wh_types.specs.Outcome.{IfBecause, MatchOr};
ghost use Rattle.wh_terms.specs.Rules.{RewriteRule};
ghost use Rattle.wh_terms.specs.Typing.{Declared, Symbols};
ghost use Rattle.wh_system.specs.CanonicalView.{side_of};
ghost use Rattle.wh_system.specs.SystemView.{system_data};
ghost use Rattle.wh_pairs.specs.PairData.{PairData, pair_data};
ghost use Rattle.wh_reduction_pairs.specs.ReductionPair.{IsRightPair, IsRightRule};
ghost use Rattle.wh_reduction_pairs.specs.TaskData.{IsTask};
ghost use Rattle.wh_reduction_pairs.specs.TaskView.{task_data};
ghost use Rattle.wh_order_inference.specs.Said.{inference};
ghost use Rattle.wh_order_extended.specs.ExtendedSides.{extended_side};
ghost use Rattle.wh_order.specs.TreeSides.{AreFilters, AreSides, HasTypedCalls, IsTreeOfCall, IsTreeOfSide, extended_pair_side, tree_verdict};
ghost use Rattle.wh_order_node.specs.FilteringView.{filtering_data};
ghost use Rattle.wh_order_node.specs.Ordering.{HasNarrowCalls, HasNarrowSides, IsGoodPair, IsGoodRule, IsNarrow};
ghost use Rattle.wh_order_check.specs.OrderingFaults.{bad_lines, good_lines, narrow_lines};
ghost use Rattle.wh_order_check.specs.Found.{IsBadPairOf, IsBadRuleOf};

use crate::fault::OrderingFault;
use std::alloc::{AllocError, Global};
use wh_order::{check_inference, filtered_pair, filtered_rule};
use wh_order_inference::Inference;
use wh_order_node::Filters;
use wh_order_trees::Tree;
use wh_pairs::Pair;
use wh_reduction_pairs::Task;
use wh_system::System;
use wh_types::Or;

/// Whether the inference of each rule that is to be covered is good; `Err` names the first bad one. No side is too
/// wide.
pub fn check_rules_good<'a>(
    alloc: Global,
    task: &Task<'a>,
    filters: &Filters,
    lines: &[Inference],
) -> Result<(), Or<OrderingFault>>
    requires rules { All (λ n. n < length (task_data task.now).rules) (task_data task.now).covered }
    requires filters { AreFilters (task_data task.now).symbols (task_data task.now).rules (filtering_data filters.now) }
    requires count { length lines.now ≡ length (task_data task.now).covered }
    requires narrow { (k : ℕ) → IsRightRule (narrow_lines (task_data task.now).symbols) (task_data task.now) (map inference lines.now) k }
    ensures ok { let T = task_data task.now in OnOk result ((k : ℕ)
        → IsRightRule (good_lines T.symbols T.rules (filtering_data filters.now)) T (map inference lines.now) k) }
    ensures fault { IfBecause result (IsBadRuleOf (task_data task.now) (filtering_data filters.now) (map inference lines.now)) }
{
    for (i, line) in lines.iter().enumerate() {
        let rule = task.covered[i];
        match check_rule(alloc, task.system, filters, rule, line) {
            Ok(()) => {}
            Err(Or::NoMemory) => return Err(Or::NoMemory),
            Err(Or::Because(entry)) => {
                return Err(Or::Because(OrderingFault::BadRule { rule, entry }));
            }
        }
    }
    Ok(())
}

// Whether the inference is good for the rule, or the number of the first bad one in it.
fn check_rule(
    alloc: Global,
    system: &System,
    filters: &Filters,
    rule: u32,
    line: &Inference,
) -> Result<(), Or<u32>>
    requires filters { AreFilters (system_data system.now).symbols (system_data system.now).rules (filtering_data filters.now) }
    requires rule { rule < length (system_data system.now).rules }
    requires narrow { (r : RewriteRule) → slice_get (system_data system.now).rules rule ≡ Some r
        → HasNarrowSides (system_data system.now).symbols r }
    ensures { let d = system_data system.now in let D = filtering_data filters.now in (r : RewriteRule) → slice_get d.rules rule ≡ Some r
        → MatchOr result (λ _. IsGoodRule d.symbols d.rules D r (inference line.now))
        ((bad_lines d.symbols d.rules D).rule r (inference line.now)) }
{
    let left = rule_side(alloc, system, filters, rule, false)?;
    let right = rule_side(alloc, system, filters, rule, true)?;
    first_bad(alloc, filters, &left, &right, line)
}

// Whether the inference is good for the two trees, or the number of the first bad one in it.
fn first_bad(
    alloc: Global,
    filters: &Filters,
    left: &Tree,
    right: &Tree,
    line: &Inference,
) -> Result<(), Or<u32>>
    ensures { (S : Symbols) (rules : List RewriteRule) (M : List Declared)
        → AreSides S rules (filtering_data filters.now) M left.now right.now
        → MatchOr result
        (λ _. tree_verdict S rules (filtering_data filters.now) M left.now right.now line.now ≡ None)
        (λ e. tree_verdict S rules (filtering_data filters.now) M left.now right.now line.now ≡ Some e) }
{
    match check_inference(alloc, filters, left, right, line) {
        Ok(()) => Ok(()),
        Err(Or::NoMemory) => Err(Or::NoMemory),
        Err(Or::Because(bad)) => Err(Or::Because(bad.at)),
    }
}

// A side of the rule, which is not too wide.
fn rule_side(
    alloc: Global,
    system: &System,
    filters: &Filters,
    rule: u32,
    right: bool,
) -> Result<Tree, AllocError>
    requires filters { AreFilters (system_data system.now).symbols (system_data system.now).rules (filtering_data filters.now) }
    requires rule { rule < length (system_data system.now).rules }
    requires narrow { (r : RewriteRule) → slice_get (system_data system.now).rules rule ≡ Some r
        → IsNarrow (extended_side (system_data system.now).symbols r (side_of right r)) }
    ensures { (r : RewriteRule) → slice_get (system_data system.now).rules rule ≡ Some r → IfOk result
        (IsTreeOfSide (system_data system.now).symbols (system_data system.now).rules (filtering_data filters.now) r right) }
{
    match filtered_rule(alloc, system, filters, rule, right) {
        Ok(side) => Ok(side),
        Err(Or::NoMemory) => Err(AllocError),
        Err(Or::Because(_)) => unreachable!(),
    }
}

/// Whether the inference of each pair of the set is good; `Err` names the first bad one. No side is too wide.
pub fn check_pairs_good<'a>(
    alloc: Global,
    task: &Task<'a>,
    filters: &Filters,
    lines: &[Inference],
    drop: &[u32],
) -> Result<(), Or<OrderingFault>>
    requires task { IsTask (task_data task.now) }
    requires filters { AreFilters (task_data task.now).symbols (task_data task.now).rules (filtering_data filters.now) }
    requires typed { (p : PairData) → Contains (task_data task.now).pairs p
        → HasTypedCalls (task_data task.now).symbols (task_data task.now).rules p }
    requires count { length lines.now ≡ length (task_data task.now).set }
    requires narrow { (k : ℕ) → IsRightPair (narrow_lines (task_data task.now).symbols) (task_data task.now) (map inference lines.now)
        drop.now k }
    ensures ok { let T = task_data task.now in OnOk result ((k : ℕ)
        → IsRightPair (good_lines T.symbols T.rules (filtering_data filters.now)) T (map inference lines.now) drop.now k) }
    ensures fault { IfBecause result (IsBadPairOf (task_data task.now) (filtering_data filters.now) (map inference lines.now) drop.now) }
{
    for (i, line) in lines.iter().enumerate() {
        let number = task.set[i];
        let pair = &task.pairs[number as usize];
        match check_pair(alloc, task.system, filters, pair, line) {
            Ok(()) => {}
            Err(Or::NoMemory) => return Err(Or::NoMemory),
            Err(Or::Because(entry)) => {
                return Err(Or::Because(OrderingFault::BadPair {
                    pair: number,
                    entry,
                }));
            }
        }
    }
    Ok(())
}

// Whether the inference is good for the pair, or the number of the first bad one in it.
fn check_pair(
    alloc: Global,
    system: &System,
    filters: &Filters,
    pair: &Pair,
    line: &Inference,
) -> Result<(), Or<u32>>
    requires filters { AreFilters (system_data system.now).symbols (system_data system.now).rules (filtering_data filters.now) }
    requires typed { HasTypedCalls (system_data system.now).symbols (system_data system.now).rules (pair_data pair.now) }
    requires narrow { HasNarrowCalls (system_data system.now).symbols (pair_data pair.now) }
    ensures { let d = system_data system.now in let D = filtering_data filters.now in MatchOr result
        (λ _. IsGoodPair d.symbols d.rules D (pair_data pair.now) (inference line.now))
        ((bad_lines d.symbols d.rules D).pair (pair_data pair.now) true (inference line.now)) }
{
    let left = pair_side(alloc, system, filters, pair, false)?;
    let right = pair_side(alloc, system, filters, pair, true)?;
    first_bad(alloc, filters, &left, &right, line)
}

// A side of the pair, which is not too wide.
fn pair_side(
    alloc: Global,
    system: &System,
    filters: &Filters,
    pair: &Pair,
    right: bool,
) -> Result<Tree, AllocError>
    requires filters { AreFilters (system_data system.now).symbols (system_data system.now).rules (filtering_data filters.now) }
    requires typed { HasTypedCalls (system_data system.now).symbols (system_data system.now).rules (pair_data pair.now) }
    requires narrow { IsNarrow (extended_pair_side (system_data system.now).symbols (pair_data pair.now) right) }
    ensures { IfOk result (IsTreeOfCall (system_data system.now).symbols (system_data system.now).rules (filtering_data filters.now)
        (pair_data pair.now) right) }
{
    match filtered_pair(alloc, system, filters, pair, right) {
        Ok(side) => Ok(side),
        Err(Or::NoMemory) => Err(AllocError),
        Err(Or::Because(_)) => unreachable!(),
    }
}
