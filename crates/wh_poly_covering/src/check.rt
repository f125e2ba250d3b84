//! The conditions of a node of interpretations, in the order in which they are tested.

ghost use Rattle.std.specs.Prelude.{ℕ, ◌≡◌, ◌<◌, ◌≤◌, ◌^◌, OnOk, Some, Contains, length, slice_get};
ghost use Rattle.wh_types.specs.Outcome.{IfBecause, MatchOr};
ghost use Rattle.wh_pairs.specs.PairData.{IsIncreasing, PairData};
ghost use Rattle.wh_reduction_pairs.specs.TaskData.{IsTask};
ghost use Rattle.wh_reduction_pairs.specs.TaskView.{task_data};
ghost use Rattle.wh_reduction_pairs.specs.ReductionPair.{IsRightPair, IsRightRule};
ghost use Rattle.wh_polycheck.specs.Covering.{IsCovering, IsTypedTask};
ghost use Rattle.wh_polycheck.specs.Marks.{HasMarkedSides};
ghost use Rattle.wh_polycheck.specs.Readings.{AreProper, AreReadingsFor};
ghost use Rattle.wh_polycheck.specs.ReadingsView.{readings_data};
ghost use Rattle.wh_polycheck.specs.Small.{IsSmall, with_limits};
ghost use Rattle.wh_poly_covering.specs.CoveringFaults.{IsFirstCoveringFault, IsReady, right_lines};
ghost use Rattle.wh_poly_covering.specs.EvidenceView.{evidence_data};
ghost use Rattle.wh_usable.specs.Closed.{IsClosed};

use crate::evidence::Evidence;
use crate::fault::CoveringFault;
use crate::normality::{first_not_normal, first_not_normal_mark};
use crate::pairs::check_pairs;
use crate::rules::check_rules;
use std::alloc::Global;
use wh_pairs::{is_bad_drop, sorted};
use wh_polycheck::{Readings, interpretations_in_order_interpret};
use wh_reduction_pairs::Task;
use wh_types::Or;
use wh_usable::check_closed;

/// Whether readings and moves let the dropped pairs go from the set (the reduction pair processor of Kop 2012 with the
/// polynomials of Fuhs and Kop 2012, in the form of this project).
///
/// The readings are of the system's symbols and of the marked symbols of the set, each by a polynomial that must be
/// normal in the scope of its arguments. There must be a line of moves for each rule that is to be covered and for each
/// pair of the set, and the list of dropped pairs must have some pairs of the set, each once. The rules that are to be
/// covered must be closed for the set. Then each line must show that the left side of its rule or pair is at least the
/// right one, and that it is greater where the pair is dropped.
///
/// `Err` names the first condition that fails, in this order: of the symbols, the marks, the rules and the pairs of the
/// set the first one, and of a line first that a value in the evaluation of a side exceeds a limit. Each side is
/// evaluated once. Where a line has more moves than 32 bits count, the answer is want of memory.
pub fn check_covering<'a, 'b, 'c>(
    alloc: Global,
    task: &Task<'a>,
    readings: &Readings<'b>,
    evidence: &Evidence<'c>,
) -> Result<(), Or<CoveringFault>>
    requires task { IsTypedTask (task_data task.now) }
    requires increasing { IsIncreasing (task_data task.now).covered }
    requires readings { AreReadingsFor (task_data task.now) (readings_data readings.now) }
    ensures covering { OnOk result (IsCovering (task_data task.now) (readings_data readings.now) (evidence_data evidence.now)) }
    ensures closed { OnOk result (IsClosed (task_data task.now)) }
    ensures small { OnOk result (IsSmall (task_data task.now) (readings_data readings.now)) }
    ensures fault { IfBecause result (IsFirstCoveringFault with_limits (task_data task.now) (readings_data readings.now)
        (evidence_data evidence.now)) }
{
    task.system.is_well_made();
    interpretations_in_order_interpret();
    check_ready(alloc, task, readings, evidence)?;
    check_lines(alloc, task, readings, evidence)
}

// All that is tested before the first line.
fn check_ready<'a, 'b, 'c>(
    alloc: Global,
    task: &Task<'a>,
    readings: &Readings<'b>,
    evidence: &Evidence<'c>,
) -> Result<(), Or<CoveringFault>>
    requires few { length readings.now.symbols.now ≤ 2 ^ 32 }
    requires task { IsTask (task_data task.now) }
    requires increasing { IsIncreasing (task_data task.now).covered }
    ensures { MatchOr result (λ _. IsReady (task_data task.now) (readings_data readings.now) (evidence_data evidence.now))
        (IsFirstCoveringFault with_limits (task_data task.now) (readings_data readings.now) (evidence_data evidence.now)) }
{
    if let Some(symbol) = first_not_normal(alloc, readings.symbols)? {
        return Err(Or::Because(CoveringFault::BadPolynomial {
            symbol,
            marked: false,
        }));
    }
    if let Some(symbol) = first_not_normal_mark(alloc, task.system, readings.marks)? {
        return Err(Or::Because(CoveringFault::BadPolynomial {
            symbol,
            marked: true,
        }));
    }
    if evidence.rules.len() != task.covered.len() || evidence.pairs.len() != task.set.len() {
        return Err(Or::Because(CoveringFault::BadLines));
    }
    if is_bad_drop(task.set, evidence.drop) {
        return Err(Or::Because(CoveringFault::BadDrop));
    }
    if let Err(fault) = check_closed(task) {
        return Err(Or::Because(CoveringFault::NotClosed(fault)));
    }
    Ok(())
}

// The lines of the rules, and then those of the pairs of the set.
fn check_lines<'a, 'b, 'c>(
    alloc: Global,
    task: &Task<'a>,
    readings: &Readings<'b>,
    evidence: &Evidence<'c>,
) -> Result<(), Or<CoveringFault>>
    requires task { IsTask (task_data task.now) }
    requires proper { AreProper (task_data task.now).symbols (task_data task.now).rules (readings_data readings.now) }
    requires ready { IsReady (task_data task.now) (readings_data readings.now) (evidence_data evidence.now) }
    requires sides { (n : ℕ) (p : PairData) → Contains (task_data task.now).set n → slice_get (task_data task.now).pairs n ≡ Some p
        → HasMarkedSides (task_data task.now).symbols (task_data task.now).rules (readings_data readings.now).marks p }
    ensures rules { let T = task_data task.now in let R = readings_data readings.now in OnOk result ((k : ℕ)
        → IsRightRule (right_lines with_limits T.symbols T.rules R) T (evidence_data evidence.now).of_rules k) }
    ensures pairs { let T = task_data task.now in let R = readings_data readings.now in OnOk result ((k : ℕ)
        → IsRightPair (right_lines with_limits T.symbols T.rules R) T (evidence_data evidence.now).of_pairs
        (evidence_data evidence.now).drop k) }
    ensures fault { IfBecause result (IsFirstCoveringFault with_limits (task_data task.now) (readings_data readings.now)
        (evidence_data evidence.now)) }
{
    check_rules(alloc, task, readings, evidence.rules)?;
    let dropped = sorted(alloc, evidence.drop)?;
    check_pairs(alloc, task, readings, evidence.pairs, dropped.as_slice())
}
