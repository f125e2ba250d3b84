//! Finding lines for all rules, and for all pairs of a set, under a given order, or the first that has none.

ghost use Rattle.std.specs.Prelude.{◌↔◌, ◌<◌, Contains, IfOk, IsTrue, length, map};
ghost use Rattle.wh_types.specs.Outcome.{MatchOr};
ghost use Rattle.wh_pairs.specs.PairData.{PairData};
ghost use Rattle.wh_reduction_pairs.specs.TaskData.{IsTask};
ghost use Rattle.wh_reduction_pairs.specs.TaskView.{task_data};
ghost use Rattle.wh_order_inference.specs.Said.{inference};
ghost use Rattle.wh_order_node.specs.FilteringView.{filtering_data};
ghost use Rattle.wh_order.specs.TreeSides.{AreFilters, HasTypedCalls};
ghost use Rattle.wh_order_lines.specs.OrderWalks.{AreLinesOfPairs, AreRuleLines, IsFailingPair, IsFailingRule};

use crate::lines::{any_pair_line, pair_line, rule_line};
use std::alloc::{AllocError, Global};
use wh_order_inference::Inferences;
use wh_order_node::Filters;
use wh_reduction_pairs::Task;
use wh_types::{Numbers, Or};

/// The inferences of the pairs of a set, and the numbers of those whose left side is greater.
#[derive(Drop)]
pub struct PairLines {
    /// The inference of each pair, in order.
    pub lines: Inferences,
    /// The numbers of the pairs whose inference is not that of equal trees.
    pub drop: Numbers,
}

/// An inference for each rule that is to be covered; the cause is the place of the first one that has none.
pub fn rule_lines<'a>(
    alloc: Global,
    task: &Task<'a>,
    filters: &Filters,
) -> Result<Inferences, Or<usize>>
    requires task { IsTask (task_data task.now) }
    requires filters { AreFilters (task_data task.now).symbols (task_data task.now).rules (filtering_data filters.now) }
    ensures { MatchOr result (λ lines. AreRuleLines (task_data task.now) (filtering_data filters.now) (map inference lines))
        (IsFailingRule (task_data task.now) (filtering_data filters.now)) }
{
    let mut lines = Inferences::new(alloc);
    for (i, rule) in task.covered.iter().enumerate() {
        let Some(line) = rule_line(alloc, task.system, filters, *rule)? else {
            return Err(Or::Because(i));
        };
        lines.push(line)?;
    }
    Ok(lines)
}

/// An inference for each pair of the set; the cause is the place in the set of the first pair that has none.
pub fn pair_lines<'a>(
    alloc: Global,
    task: &Task<'a>,
    filters: &Filters,
) -> Result<PairLines, Or<usize>>
    requires task { IsTask (task_data task.now) }
    requires filters { AreFilters (task_data task.now).symbols (task_data task.now).rules (filtering_data filters.now) }
    requires typed { (p : PairData) → Contains (task_data task.now).pairs p
        → HasTypedCalls (task_data task.now).symbols (task_data task.now).rules p }
    ensures { MatchOr result (AreLinesOfPairs (task_data task.now) (filtering_data filters.now))
        (IsFailingPair (task_data task.now) (filtering_data filters.now)) }
{
    let mut lines = Inferences::new(alloc);
    let mut drop = Numbers::new(alloc);
    for (i, number) in task.set.iter().enumerate() {
        let pair = &task.pairs[*number as usize];
        let Some(line) = pair_line(alloc, task.system, filters, pair)? else {
            return Err(Or::Because(i));
        };
        lines.push(line.inference)?;
        if line.strict {
            drop.push(*number)?;
        }
    }
    Ok(PairLines { lines, drop })
}

/// Whether there is no inference for the rule with this place among those that are to be covered.
pub fn lacks_rule_line<'a>(
    alloc: Global,
    task: &Task<'a>,
    filters: &Filters,
    place: usize,
) -> Result<bool, AllocError>
    requires task { IsTask (task_data task.now) }
    requires filters { AreFilters (task_data task.now).symbols (task_data task.now).rules (filtering_data filters.now) }
    requires place { place < length (task_data task.now).covered }
    ensures { IfOk result (λ lacks. IsTrue lacks ↔ IsFailingRule (task_data task.now) (filtering_data filters.now) place) }
{
    let line = rule_line(alloc, task.system, filters, task.covered[place])?;
    Ok(line.is_none())
}

/// Whether there is no inference for the pair with this place in the set.
pub fn lacks_pair_line<'a>(
    alloc: Global,
    task: &Task<'a>,
    filters: &Filters,
    place: usize,
) -> Result<bool, AllocError>
    requires task { IsTask (task_data task.now) }
    requires filters { AreFilters (task_data task.now).symbols (task_data task.now).rules (filtering_data filters.now) }
    requires typed { (p : PairData) → Contains (task_data task.now).pairs p
        → HasTypedCalls (task_data task.now).symbols (task_data task.now).rules p }
    requires place { place < length (task_data task.now).set }
    ensures { IfOk result (λ lacks. IsTrue lacks ↔ IsFailingPair (task_data task.now) (filtering_data filters.now) place) }
{
    let number = task.set[place];
    let pair = &task.pairs[number as usize];
    let line = any_pair_line(alloc, task.system, filters, pair)?;
    Ok(line.is_none())
}
