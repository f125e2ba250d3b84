//! The choice of a coefficient at which ranges are split. No answer rests on it.

ghost use Rattle.std.specs.Prelude.{OnOk};
ghost use Rattle.wh_pairs.specs.Marked.{AreMarked};
ghost use Rattle.wh_reduction_pairs.specs.TaskView.{task_data};
ghost use Rattle.wh_poly_guesses.specs.Tasks.{IsTaskOf};
ghost use Rattle.wh_poly_ranges.specs.Bounds.{AreRanges, IsBound};

use crate::bounds::{Bound, Coefficient, End, Ranges, copy_lists};
use crate::plan::{Plan, Work};
use crate::testing::{Goal, fails_at};
use std::alloc::{AllocError, Global};
use wh_reduction_pairs::Task;

/// A coefficient at which ranges may be split: whether the condition is mended where it alone is at its upper end, and
/// in how many conditions its list is used.
#[derive(Clone, Copy)]
pub struct Candidate {
    at: Coefficient,
    mends: bool,
    weight: usize,
}

/// A condition that fails at the lower ends of the ranges, for which a place to split them is sought.
#[derive(Clone, Copy)]
struct Failure<'a, 'b> {
    task: &'a Task<'b>,
    plan: &'a Plan,
    ranges: &'a Ranges,
    goal: Goal,
}

/// The coefficient at which the ranges are split: one on the left side of a condition that fails at the lower ends,
/// since only more there can help. None where no condition is seen to fail, or no work is left.
pub fn place_to_split<'a>(
    alloc: Global,
    task: &Task<'a>,
    marked: &[u32],
    plan: &Plan,
    work: &mut Work,
    ranges: &Ranges,
    strict: usize,
) -> Result<Option<Coefficient>, AllocError>
    requires task { IsTaskOf task.now }
    requires marked { AreMarked (task_data task.now).pairs (task_data task.now).set marked.now }
    requires ranges { AreRanges task.now ranges.now }
{
    for number in 0..plan.uses.len() {
        if work.is_spent() {
            return Ok(None);
        }
        let goal = Goal { number, strict };
        if fails_at(alloc, task, work, &ranges.low.guess, goal)? {
            let lists = copy_lists(alloc, &ranges.low.lists)?;
            let mut probe = Bound::by(alloc, task, marked, lists)?;
            let failure = Failure {
                task,
                plan,
                ranges,
                goal,
            };
            return place_for(alloc, &failure, work, &mut probe);
        }
    }
    Ok(None)
}

// The best open coefficient on the left side of the condition. The probe has the lower ends.
fn place_for<'a, 'b>(
    alloc: Global,
    failure: &Failure<'a, 'b>,
    work: &mut Work,
    probe: &mut Bound,
) -> Result<Option<Coefficient>, AllocError>
    requires task { IsTaskOf failure.now.task.now }
    requires probe { IsBound failure.now.task.now probe.old }
    ensures probe { OnOk result (IsBound failure.now.task.now probe.new) }
{
    let mut best = None;
    for number in failure.plan.read_at(failure.goal.number, End::Low) {
        best = best_in_list(alloc, failure, work, probe, *number, best)?;
    }
    Ok(best.map(|candidate| candidate.at))
}

// The best so far, and the open coefficients of the list with the number.
fn best_in_list<'a, 'b>(
    alloc: Global,
    failure: &Failure<'a, 'b>,
    work: &mut Work,
    probe: &mut Bound,
    number: usize,
    best: Option<Candidate>,
) -> Result<Option<Candidate>, AllocError>
    requires task { IsTaskOf failure.now.task.now }
    requires probe { IsBound failure.now.task.now probe.old }
    ensures probe { OnOk result (IsBound failure.now.task.now probe.new) }
{
    let Ranges { low, high, .. } = failure.ranges;
    let weight = failure.plan.weight_of(number);
    let mut best = best;
    for place in 0..high.count(number) {
        let at = Coefficient { number, place };
        if low.at(at) < high.at(at) {
            let mends = is_mended(alloc, failure, work, probe, at)?;
            best = Some(better(best, Candidate { at, mends, weight }));
        }
    }
    Ok(best)
}

// Whether the condition is not seen to fail where the coefficient is at its upper end, and all others are at their
// lower ends.
fn is_mended<'a, 'b>(
    alloc: Global,
    failure: &Failure<'a, 'b>,
    work: &mut Work,
    probe: &mut Bound,
    at: Coefficient,
) -> Result<bool, AllocError>
    requires task { IsTaskOf failure.now.task.now }
    requires probe { IsBound failure.now.task.now probe.old }
    ensures probe { OnOk result (IsBound failure.now.task.now probe.new) }
{
    let Failure {
        task,
        ranges,
        goal,
        ..
    } = *failure;
    probe.set(alloc, task, at, ranges.high.at(at))?;
    let fails = fails_at(alloc, task, work, &probe.guess, goal)?;
    probe.set(alloc, task, at, ranges.low.at(at))?;
    Ok(!fails)
}

// The better one of two: one that mends, then one that is used in more conditions, then the first.
fn better(best: Option<Candidate>, other: Candidate) -> Candidate {
    match best {
        Some(best) if is_better(best, other) => best,
        _ => other,
    }
}

// Whether the first is at least as good as the second.
fn is_better(best: Candidate, other: Candidate) -> bool {
    if best.mends == other.mends {
        best.weight >= other.weight
    } else {
        best.mends
    }
}
