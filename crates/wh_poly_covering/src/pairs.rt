//! The lines of the pairs of the set, checked in order.

ghost use Rattle.std.specs.Prelude.{ℕ, ◌≡◌, Contains, OnOk, Some, length, map, slice_get};
ghost use Rattle.std.specs.List.Sorted.{IsNonDecreasing};
ghost use Rattle.wh_types.specs.Outcome.{IfBecause};
ghost use Rattle.wh_pairs.specs.PairData.{PairData};
ghost use Rattle.wh_reduction_pairs.specs.TaskData.{IsTask};
ghost use Rattle.wh_reduction_pairs.specs.TaskView.{task_data};
ghost use Rattle.wh_reduction_pairs.specs.ReductionPair.{IsRightPair};
ghost use Rattle.wh_hopoly.specs.Erase.{transfers};
ghost use Rattle.wh_polycheck.specs.Marks.{HasMarkedSides};
ghost use Rattle.wh_polycheck.specs.Readings.{AreProper};
ghost use Rattle.wh_polycheck.specs.ReadingsView.{readings_data};
ghost use Rattle.wh_polycheck.specs.Small.{with_limits};
ghost use Rattle.wh_poly_covering.specs.CoveringFaults.{right_lines};
ghost use Rattle.wh_poly_covering.specs.Lines.{IsFirstOfPairs};

use crate::fault::CoveringFault;
use crate::lines::check_pair;
use std::alloc::Global;
use wh_hopoly::Moves;
use wh_pairs::is_dropped;
use wh_polycheck::Readings;
use wh_reduction_pairs::Task;
use wh_types::Or;

/// Whether each pair of the set is covered by its line, and strictly where its number is one of `drop`, in which no
/// number falls; `Err` names the first that is not.
pub fn check_pairs<'a, 'b>(
    alloc: Global,
    task: &Task<'a>,
    readings: &Readings<'b>,
    lines: &[Moves],
    drop: &[u32],
) -> Result<(), Or<CoveringFault>>
    requires task { IsTask (task_data task.now) }
    requires proper { AreProper (task_data task.now).symbols (task_data task.now).rules (readings_data readings.now) }
    requires sides { (n : ℕ) (p : PairData) → Contains (task_data task.now).set n → slice_get (task_data task.now).pairs n ≡ Some p
        → HasMarkedSides (task_data task.now).symbols (task_data task.now).rules (readings_data readings.now).marks p }
    requires count { length lines.now ≡ length (task_data task.now).set }
    requires sorted { IsNonDecreasing drop.now }
    ensures ok { let T = task_data task.now in let R = readings_data readings.now in OnOk result ((k : ℕ)
        → IsRightPair (right_lines with_limits T.symbols T.rules R) T (map transfers lines.now) drop.now k) }
    ensures fault { IfBecause result (IsFirstOfPairs (task_data task.now) (readings_data readings.now) (map transfers lines.now)
        drop.now) }
{
    for (i, moves) in lines.iter().enumerate() {
        let number = task.set[i];
        let strict = is_dropped(drop, number);
        match check_pair(
            alloc,
            task.system,
            readings,
            &task.pairs[number as usize],
            strict,
            moves,
        ) {
            Ok(()) => {}
            Err(Or::NoMemory) => return Err(Or::NoMemory),
            Err(Or::Because(fault)) => {
                return Err(Or::Because(CoveringFault::Pair {
                    pair: number,
                    fault,
                }));
            }
        }
    }
    Ok(())
}
