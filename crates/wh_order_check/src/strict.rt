//! The test that each dropped pair shrinks: its inference is not that of equal trees.

ghost use Rattle.std.specs.Prelude.{◌≡◌, ◌↔◌, ℕ, IsTrue, OnOk, length, map};
ghost use Rattle.std.specs.List.Sorted.{IsNonDecreasing};
ghost use Rattle.wh_types.specs.Outcome.{IfBecause};
ghost use Rattle.wh_reduction_pairs.specs.ReductionPair.{IsRightPair};
ghost use Rattle.wh_reduction_pairs.specs.TaskData.{IsTask};
ghost use Rattle.wh_reduction_pairs.specs.TaskView.{task_data};
ghost use Rattle.wh_order_inference.specs.Said.{inference};
ghost use Rattle.wh_order_node.specs.Ordering.{IsStrictWhere};
ghost use Rattle.wh_order_check.specs.OrderingFaults.{strict_lines};
ghost use Rattle.wh_order_check.specs.Found.{IsWeakPairOf};

use crate::fault::OrderingFault;
use wh_order_inference::{Inference, Letter};
use wh_pairs::is_dropped;
use wh_reduction_pairs::Task;
use wh_types::Or;

/// Whether no line of a pair whose number is one of `drop`, in which no number falls, is that of equal trees; `Err`
/// names the first pair with such a line.
pub fn check_pairs_strict<'a>(
    task: &Task<'a>,
    lines: &[Inference],
    drop: &[u32],
) -> Result<(), Or<OrderingFault>>
    requires task { IsTask (task_data task.now) }
    requires count { length lines.now ≡ length (task_data task.now).set }
    requires sorted { IsNonDecreasing drop.now }
    ensures ok { OnOk result ((k : ℕ) → IsRightPair strict_lines (task_data task.now) (map inference lines.now) drop.now k) }
    ensures fault { IfBecause result (IsWeakPairOf (task_data task.now) (map inference lines.now) drop.now) }
{
    for (i, line) in lines.iter().enumerate() {
        let number = task.set[i];
        let dropped = is_dropped(drop, number);
        if !is_strict_where(dropped, line) {
            return Err(Or::Because(OrderingFault::NotStrict { pair: number }));
        }
    }
    Ok(())
}

// Whether the inference, where that is asked, is not that of equal trees.
fn is_strict_where(asked: bool, line: &Inference) -> bool
    ensures { IsTrue result ↔ IsStrictWhere asked (inference line.now) }
{
    match line.letter {
        Letter::Same => !asked,
        _ => true,
    }
}
