//! The lines of the rules that are to be covered, checked in order.

ghost use Rattle.std.specs.Prelude.{ℕ, ◌≡◌, ◌<◌, All, OnOk, length, map};
ghost use Rattle.wh_types.specs.Outcome.{IfBecause};
ghost use Rattle.wh_reduction_pairs.specs.TaskView.{task_data};
ghost use Rattle.wh_reduction_pairs.specs.ReductionPair.{IsRightRule};
ghost use Rattle.wh_hopoly.specs.Erase.{transfers};
ghost use Rattle.wh_polycheck.specs.Readings.{AreProper};
ghost use Rattle.wh_polycheck.specs.ReadingsView.{readings_data};
ghost use Rattle.wh_polycheck.specs.Small.{with_limits};
ghost use Rattle.wh_poly_covering.specs.CoveringFaults.{right_lines};
ghost use Rattle.wh_poly_covering.specs.Lines.{IsFirstOfRules};

use crate::fault::CoveringFault;
use crate::lines::check_rule;
use std::alloc::Global;
use wh_hopoly::Moves;
use wh_polycheck::Readings;
use wh_reduction_pairs::Task;
use wh_types::Or;

/// Whether each rule that is to be covered is covered by its line; `Err` names the first that is not.
pub fn check_rules<'a, 'b>(
    alloc: Global,
    task: &Task<'a>,
    readings: &Readings<'b>,
    lines: &[Moves],
) -> Result<(), Or<CoveringFault>>
    requires rules { All (λ n. n < length (task_data task.now).rules) (task_data task.now).covered }
    requires proper { AreProper (task_data task.now).symbols (task_data task.now).rules (readings_data readings.now) }
    requires count { length lines.now ≡ length (task_data task.now).covered }
    ensures ok { let T = task_data task.now in let R = readings_data readings.now in OnOk result ((k : ℕ)
        → IsRightRule (right_lines with_limits T.symbols T.rules R) T (map transfers lines.now) k) }
    ensures fault { IfBecause result (IsFirstOfRules (task_data task.now) (readings_data readings.now) (map transfers lines.now)) }
{
    for (i, moves) in lines.iter().enumerate() {
        let rule = task.covered[i];
        match check_rule(alloc, task.system, readings, rule, moves) {
            Ok(()) => {}
            Err(Or::NoMemory) => return Err(Or::NoMemory),
            Err(Or::Because(fault)) => return Err(Or::Because(CoveringFault::Rule { rule, fault })),
        }
    }
    Ok(())
}
