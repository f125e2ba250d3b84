//! The node of an order under which all conditions hold, or a condition that fails.

ghost use Rattle.std.specs.Prelude.{ℕ, ◌+◌, ◌≡◌, ◌≢◌, ◌<◌, ◌≤◌, [], Contains, IfOk, Some, length, map, slice_get};
ghost use Rattle.wh_types.specs.Limits.{most_pairs};
ghost use Rattle.wh_reduction_pairs.specs.TaskView.{task_data};
ghost use Rattle.wh_order_inference.specs.Said.{inference};
ghost use Rattle.wh_order_node.specs.FilteringView.{filtering_data};
ghost use Rattle.wh_poly_guesses.specs.Tasks.{IsTaskOf};
ghost use Rattle.wh_order_lines.specs.OrderWalks.{AreLinesOfPairs, AreRuleLines};
ghost use Rattle.wh_find_order.specs.Trials.{IsTried, Weighs};

use std::alloc::{AllocError, Global};
use wh_cert::OrderNode;
use wh_order_inference::Inferences;
use wh_order_lines::{PairLines, pair_line_fits, pair_lines, rule_line_fits, rule_lines};
use wh_order_node::Filters;
use wh_proof::{lines_of_filters, lines_of_mark_filters};
use wh_reduction_pairs::Task;
use wh_types::Or;

/// The outcome of an order.
#[derive(Drop)]
pub enum Weighing {
    /// All conditions hold: the node of the order.
    Found(OrderNode),
    /// The number of a condition on lines that fails.
    Failing(usize),
}

/// The node of the order, if under it there are lines for every rule and every pair of the set, and some pair's line is
/// not that of equal trees; else a condition that fails, of the pairs first. All pairs that the order lets go are
/// dropped.
pub fn node_of_order<'a>(
    alloc: Global,
    task: &Task<'a>,
    filters: &Filters,
) -> Result<Weighing, AllocError>
    requires few { length task.now.pairs.now ≤ most_pairs }
    requires task { IsTaskOf task.now }
    requires filters { IsTried (task_data task.now) (filtering_data filters.now) }
    ensures { IfOk result (Weighs task.now (filtering_data filters.now)) }
{
    let found = match pair_lines(alloc, task, filters) {
        Ok(found) => found,
        Err(Or::Because(place)) => return Ok(Weighing::Failing(number_of_pair(task, place))),
        Err(Or::NoMemory) => return Err(AllocError),
    };
    if found.drop.as_slice().is_empty() {
        return Ok(Weighing::Failing(number_of_pair(task, task.set.len())));
    }
    let rules = match rule_lines(alloc, task, filters) {
        Ok(lines) => lines,
        Err(Or::Because(place)) => return Ok(Weighing::Failing(place)),
        Err(Or::NoMemory) => return Err(AllocError),
    };
    node_with(alloc, task, filters, rules, found)
}

/// The number of the condition of the pair with this place in the set. The place behind all pairs stands for the last
/// condition, that some pair shrinks.
pub fn number_of_pair<'a>(task: &Task<'a>, place: usize) -> usize
    requires { place ≤ length task.now.set.now }
    ensures { result ≡ length (task_data task.now).covered + place }
{
    task.covered.len() + place
}

// The node with these lines.
fn node_with<'a>(
    alloc: Global,
    task: &Task<'a>,
    filters: &Filters,
    rules: Inferences,
    found: PairLines,
) -> Result<Weighing, AllocError>
    requires few { length task.now.pairs.now ≤ most_pairs }
    requires task { IsTaskOf task.now }
    requires filters { IsTried (task_data task.now) (filtering_data filters.now) }
    requires rules { AreRuleLines (task_data task.now) (filtering_data filters.now) (map inference rules) }
    requires pairs { AreLinesOfPairs (task_data task.now) (filtering_data filters.now) found }
    requires some { found.drop ≢ [] }
    ensures { IfOk result (Weighs task.now (filtering_data filters.now)) }
{
    task.system.is_well_made();
    rule_line_fits();
    pair_line_fits();
    let names = task.system.fun_names();
    let funs = lines_of_filters(alloc, names, filters.funs.as_slice())?;
    let marks = lines_of_mark_filters(alloc, names, filters.marks.as_slice())?;
    let PairLines { lines, drop } = found;
    Ok(Weighing::Found(OrderNode {
        funs,
        marks,
        rules,
        pairs: lines,
        drop,
    }))
}
