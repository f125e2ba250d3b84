//! Whether all sides are within the limit, once they have all their arguments.

ghost use Rattle.std.specs.Prelude.{◌≡◌, ◌↔◌, ◌<◌, ℕ, All, Contains, IfOk, IsTrue, OnOk, Some, length, map, slice_get};
ghost use Rattle.wh_types.specs.Outcome.{IfBecause};
ghost use Rattle.wh_terms.specs.Rules.{RewriteRule};
ghost use Rattle.wh_system.specs.CanonicalView.{side_of};
ghost use Rattle.wh_system.specs.SystemView.{system_data};
ghost use Rattle.wh_pairs.specs.PairData.{PairData, pair_data};
ghost use Rattle.wh_reduction_pairs.specs.ReductionPair.{IsRightPair, IsRightRule};
ghost use Rattle.wh_reduction_pairs.specs.TaskData.{IsTask};
ghost use Rattle.wh_reduction_pairs.specs.TaskView.{task_data};
ghost use Rattle.wh_order_inference.specs.Said.{inference};
ghost use Rattle.wh_order.specs.TreeSides.{AreFilters, HasTypedCalls, extended_pair_side};
ghost use Rattle.wh_order_extended.specs.ExtendedSides.{extended_side};
ghost use Rattle.wh_order_node.specs.FilteringView.{filtering_data};
ghost use Rattle.wh_order_node.specs.Ordering.{HasNarrowCalls, HasNarrowSides, IsNarrow};
ghost use Rattle.wh_order_check.specs.OrderingFaults.{narrow_lines};
ghost use Rattle.wh_order_check.specs.Found.{IsWidePairOf, IsWideRuleOf};

use crate::fault::OrderingFault;
use std::alloc::{AllocError, Global};
use wh_order::{filtered_pair, filtered_rule};
use wh_order_inference::Inference;
use wh_order_node::Filters;
use wh_pairs::Pair;
use wh_reduction_pairs::Task;
use wh_system::System;
use wh_types::Or;

/// Whether the sides of each rule that is to be covered are within the limit; `Err` names the first rule with one that
/// is not.
pub fn check_rules_narrow<'a>(
    alloc: Global,
    task: &Task<'a>,
    filters: &Filters,
    lines: &[Inference],
) -> Result<(), Or<OrderingFault>>
    requires rules { All (λ n. n < length (task_data task.now).rules) (task_data task.now).covered }
    requires filters { AreFilters (task_data task.now).symbols (task_data task.now).rules (filtering_data filters.now) }
    requires count { length lines.now ≡ length (task_data task.now).covered }
    ensures ok { OnOk result ((k : ℕ) → IsRightRule (narrow_lines (task_data task.now).symbols) (task_data task.now)
        (map inference lines.now) k) }
    ensures fault { IfBecause result (IsWideRuleOf (task_data task.now) (map inference lines.now)) }
{
    for i in 0..lines.len() {
        let rule = task.covered[i];
        if !is_narrow_rule(alloc, task.system, filters, rule)? {
            return Err(Or::Because(OrderingFault::WideRule { rule }));
        }
    }
    Ok(())
}

// Whether both sides of the rule are within the limit.
fn is_narrow_rule(
    alloc: Global,
    system: &System,
    filters: &Filters,
    rule: u32,
) -> Result<bool, AllocError>
    requires filters { AreFilters (system_data system.now).symbols (system_data system.now).rules (filtering_data filters.now) }
    requires rule { rule < length (system_data system.now).rules }
    ensures { (r : RewriteRule) → slice_get (system_data system.now).rules rule ≡ Some r
        → IfOk result (λ narrow. IsTrue narrow ↔ HasNarrowSides (system_data system.now).symbols r) }
{
    Ok(
        is_narrow_side(alloc, system, filters, rule, false)?
            && is_narrow_side(alloc, system, filters, rule, true)?,
    )
}

// Whether this side of the rule is within the limit.
fn is_narrow_side(
    alloc: Global,
    system: &System,
    filters: &Filters,
    rule: u32,
    right: bool,
) -> Result<bool, AllocError>
    requires filters { AreFilters (system_data system.now).symbols (system_data system.now).rules (filtering_data filters.now) }
    requires rule { rule < length (system_data system.now).rules }
    ensures { (r : RewriteRule) → slice_get (system_data system.now).rules rule ≡ Some r → IfOk result
        (λ narrow. IsTrue narrow ↔ IsNarrow (extended_side (system_data system.now).symbols r (side_of right r))) }
{
    match filtered_rule(alloc, system, filters, rule, right) {
        Ok(_) => Ok(true),
        Err(Or::NoMemory) => Err(AllocError),
        Err(Or::Because(_)) => Ok(false),
    }
}

/// Whether the sides of each pair of the set are within the limit; `Err` names the first pair with one that is not.
pub fn check_pairs_narrow<'a>(
    alloc: Global,
    task: &Task<'a>,
    filters: &Filters,
    lines: &[Inference],
    drop: &[u32],
) -> Result<(), Or<OrderingFault>>
    requires task { IsTask (task_data task.now) }
    requires filters { AreFilters (task_data task.now).symbols (task_data task.now).rules (filtering_data filters.now) }
    requires typed { (p : PairData) → Contains (task_data task.now).pairs p
        → HasTypedCalls (task_data task.now).symbols (task_data task.now).rules p }
    requires count { length lines.now ≡ length (task_data task.now).set }
    ensures ok { OnOk result ((k : ℕ) → IsRightPair (narrow_lines (task_data task.now).symbols) (task_data task.now)
        (map inference lines.now) drop.now k) }
    ensures fault { IfBecause result (IsWidePairOf (task_data task.now) (map inference lines.now) drop.now) }
{
    for i in 0..lines.len() {
        let number = task.set[i];
        let pair = &task.pairs[number as usize];
        if !is_narrow_pair(alloc, task.system, filters, pair)? {
            return Err(Or::Because(OrderingFault::WidePair { pair: number }));
        }
    }
    Ok(())
}

// Whether both sides of the pair are within the limit.
fn is_narrow_pair(
    alloc: Global,
    system: &System,
    filters: &Filters,
    pair: &Pair,
) -> Result<bool, AllocError>
    requires filters { AreFilters (system_data system.now).symbols (system_data system.now).rules (filtering_data filters.now) }
    requires typed { HasTypedCalls (system_data system.now).symbols (system_data system.now).rules (pair_data pair.now) }
    ensures { IfOk result (λ narrow. IsTrue narrow ↔ HasNarrowCalls (system_data system.now).symbols (pair_data pair.now)) }
{
    Ok(
        is_narrow_call(alloc, system, filters, pair, false)?
            && is_narrow_call(alloc, system, filters, pair, true)?,
    )
}

// Whether this side of the pair is within the limit.
fn is_narrow_call(
    alloc: Global,
    system: &System,
    filters: &Filters,
    pair: &Pair,
    right: bool,
) -> Result<bool, AllocError>
    requires filters { AreFilters (system_data system.now).symbols (system_data system.now).rules (filtering_data filters.now) }
    requires typed { HasTypedCalls (system_data system.now).symbols (system_data system.now).rules (pair_data pair.now) }
    ensures { IfOk result (λ narrow. IsTrue narrow ↔ IsNarrow
        (extended_pair_side (system_data system.now).symbols (pair_data pair.now) right)) }
{
    match filtered_pair(alloc, system, filters, pair, right) {
        Ok(_) => Ok(true),
        Err(Or::NoMemory) => Err(AllocError),
        Err(Or::Because(_)) => Ok(false),
    }
}
