//! The conditions of a node of a path order, in the order in which they are tested.

ghost use Rattle.std.specs.Prelude.{◌≡◌, ℕ, Contains, OnOk, length};
ghost use Rattle.wh_types.specs.Outcome.{IfBecause, MatchOr};
ghost use Rattle.wh_pairs.specs.PairData.{IsIncreasing, PairData};
ghost use Rattle.wh_reduction_pairs.specs.TaskData.{IsTask};
ghost use Rattle.wh_reduction_pairs.specs.TaskView.{task_data};
ghost use Rattle.wh_polycheck.specs.Covering.{IsTypedTask};
ghost use Rattle.wh_order.specs.TreeSides.{AreFilters, HasTypedCalls};
ghost use Rattle.wh_order_node.specs.FilteringView.{filtering_data};
ghost use Rattle.wh_order_node.specs.Filterings.{AreFiltersFor};
ghost use Rattle.wh_order_node.specs.Ordering.{IsOrdering};
ghost use Rattle.wh_order_check.specs.InferenceView.{inferred_data};
ghost use Rattle.wh_order_check.specs.OrderingFaults.{AreGoodPairs, AreGoodRules, AreNarrowPairs, AreNarrowRules, IsFirstOrderingFault, IsPrepared};

use crate::fault::OrderingFault;
use crate::good::{check_pairs_good, check_rules_good};
use crate::inferred::Inferred;
use crate::narrow::{check_pairs_narrow, check_rules_narrow};
use crate::proper::{first_improper, first_improper_mark};
use crate::strict::check_pairs_strict;
use std::alloc::Global;
use wh_order_node::Filters;
use wh_pairs::{is_bad_drop, sorted};
use wh_reduction_pairs::Task;
use wh_types::Or;

/// Whether argument filters and inferences let the dropped pairs go from the set (the reduction pair processor of Kop
/// 2012 with argument filters and a path order, in the form of this project).
///
/// The filters are those of the system's symbols and of the marked symbols of the set, each of which must be proper.
/// There must be an inference for each rule that is to be covered and for each pair of the set, and the list of dropped
/// pairs must have some pairs of the set, each once. Each side, with all its arguments, must have at most 65,536 nodes.
/// Then each inference must show that the filtered left side of its rule or pair is at least the right one, and that of
/// a dropped pair must not be that of equal trees.
///
/// `Err` names the first condition that fails, in this order: each of them for all rules and then for all pairs of the
/// set, before the next one is looked at.
pub fn check_ordering<'a, 'b>(
    alloc: Global,
    task: &Task<'a>,
    filters: &Filters,
    inferred: &Inferred<'b>,
) -> Result<(), Or<OrderingFault>>
    requires task { IsTypedTask (task_data task.now) }
    requires filters { AreFiltersFor (task_data task.now) (filtering_data filters.now) }
    ensures ordering { OnOk result (IsOrdering (task_data task.now) (filtering_data filters.now) (inferred_data inferred.now)) }
    ensures fault { IfBecause result (IsFirstOrderingFault (task_data task.now) (filtering_data filters.now) (inferred_data inferred.now)) }
{
    check_prepared(alloc, task, filters, inferred)?;
    check_narrow(alloc, task, filters, inferred)?;
    check_good(alloc, task, filters, inferred)?;
    let dropped = sorted(alloc, inferred.drop)?;
    check_pairs_strict(task, inferred.pairs, dropped.as_slice())
}

// All that is tested before the first line.
fn check_prepared<'a, 'b>(
    alloc: Global,
    task: &Task<'a>,
    filters: &Filters,
    inferred: &Inferred<'b>,
) -> Result<(), Or<OrderingFault>>
    requires increasing { IsIncreasing task.now.set.now }
    requires counted { length filters.now.funs ≡ length (task_data task.now).symbols.funs }
    ensures { MatchOr result (λ _. IsPrepared (task_data task.now) (filtering_data filters.now) (inferred_data inferred.now))
        (IsFirstOrderingFault (task_data task.now) (filtering_data filters.now) (inferred_data inferred.now)) }
{
    if let Some(symbol) = first_improper(task.system, filters) {
        return Err(Or::Because(OrderingFault::BadFilter {
            symbol,
            marked: false,
        }));
    }
    if let Some(symbol) = first_improper_mark(alloc, task.system, filters)? {
        return Err(Or::Because(OrderingFault::BadFilter {
            symbol,
            marked: true,
        }));
    }
    if inferred.rules.len() != task.covered.len() || inferred.pairs.len() != task.set.len() {
        return Err(Or::Because(OrderingFault::BadLines));
    }
    if is_bad_drop(task.set, inferred.drop) {
        return Err(Or::Because(OrderingFault::BadDrop));
    }
    Ok(())
}

// Whether no side is too wide.
fn check_narrow<'a, 'b>(
    alloc: Global,
    task: &Task<'a>,
    filters: &Filters,
    inferred: &Inferred<'b>,
) -> Result<(), Or<OrderingFault>>
    requires task { IsTask (task_data task.now) }
    requires filters { AreFilters (task_data task.now).symbols (task_data task.now).rules (filtering_data filters.now) }
    requires typed { (p : PairData) → Contains (task_data task.now).pairs p
        → HasTypedCalls (task_data task.now).symbols (task_data task.now).rules p }
    requires prepared { IsPrepared (task_data task.now) (filtering_data filters.now) (inferred_data inferred.now) }
    ensures rules { OnOk result (AreNarrowRules (task_data task.now) (filtering_data filters.now) (inferred_data inferred.now)) }
    ensures pairs { OnOk result (AreNarrowPairs (task_data task.now) (filtering_data filters.now) (inferred_data inferred.now)) }
    ensures fault { IfBecause result (IsFirstOrderingFault (task_data task.now) (filtering_data filters.now) (inferred_data inferred.now)) }
{
    check_rules_narrow(alloc, task, filters, inferred.rules)?;
    check_pairs_narrow(alloc, task, filters, inferred.pairs, inferred.drop)
}

// Whether all inferences are good.
fn check_good<'a, 'b>(
    alloc: Global,
    task: &Task<'a>,
    filters: &Filters,
    inferred: &Inferred<'b>,
) -> Result<(), Or<OrderingFault>>
    requires task { IsTask (task_data task.now) }
    requires filters { AreFilters (task_data task.now).symbols (task_data task.now).rules (filtering_data filters.now) }
    requires typed { (p : PairData) → Contains (task_data task.now).pairs p
        → HasTypedCalls (task_data task.now).symbols (task_data task.now).rules p }
    requires prepared { IsPrepared (task_data task.now) (filtering_data filters.now) (inferred_data inferred.now) }
    requires narrow_rules { AreNarrowRules (task_data task.now) (filtering_data filters.now) (inferred_data inferred.now) }
    requires narrow_pairs { AreNarrowPairs (task_data task.now) (filtering_data filters.now) (inferred_data inferred.now) }
    ensures rules { OnOk result (AreGoodRules (task_data task.now) (filtering_data filters.now) (inferred_data inferred.now)) }
    ensures pairs { OnOk result (AreGoodPairs (task_data task.now) (filtering_data filters.now) (inferred_data inferred.now)) }
    ensures fault { IfBecause result (IsFirstOrderingFault (task_data task.now) (filtering_data filters.now) (inferred_data inferred.now)) }
{
    check_rules_good(alloc, task, filters, inferred.rules)?;
    check_pairs_good(alloc, task, filters, inferred.pairs, inferred.drop)
}
