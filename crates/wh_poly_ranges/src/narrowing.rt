//! Narrowing ranges: ends that no interpretation in them has are cut off. `narrow_all` is the main function.

ghost use Rattle.std.specs.Bool.{OnTrue};
ghost use Rattle.std.specs.Prelude.{◌<◌, IfOk, OnOk};
ghost use Rattle.wh_poly_guesses.specs.Tasks.{IsTaskOf};
ghost use Rattle.wh_poly_ranges.specs.Bounds.{AreRanges, lists_of};
ghost use Rattle.wh_poly_ranges.specs.Excluded.{coefficient_in};
ghost use Rattle.wh_poly_ranges.specs.Out.{IsOut, KeepsAll};

use crate::bounds::{Coefficient, End, Ranges};
use crate::plan::{Plan, Work};
use crate::testing::{Goal, fails_at, is_out};
use std::alloc::{AllocError, Global};
use wh_poly_space::MAX_COEFFICIENT;
use wh_reduction_pairs::Task;

/// A condition, and the kind of ends that are cut off for it.
#[derive(Clone, Copy)]
pub struct Cutting {
    pub goal: Goal,
    pub end: End,
}

/// Narrows the ranges condition by condition, as long as work waits. Answers whether no interpretation is in them.
pub fn narrow_all<'a>(
    alloc: Global,
    task: &Task<'a>,
    plan: &Plan,
    work: &mut Work,
    ranges: &mut Ranges,
    strict: usize,
) -> Result<bool, AllocError>
    requires task { IsTaskOf task.now }
    requires ranges { AreRanges task.now ranges.old }
    ensures ranges { OnOk result (AreRanges task.now ranges.new) }
    ensures kept { OnOk result (KeepsAll task.now strict ranges.old ranges.new) }
    ensures out { IfOk result (λ told. OnTrue told (IsOut task.now strict ranges.old)) }
{
    'conditions: for _ in 0..plan.limit {
        let Some(number) = work.next() else {
            return Ok(false);
        };
        let goal = Goal { number, strict };
        if is_out(alloc, task, work, ranges, goal)? {
            return Ok(true);
        }
        narrow(alloc, task, plan, work, ranges, goal)?;
    }
    Ok(false)
}

// Narrows the ranges by one condition: more is asked of what stands on its left side alone, less of what stands on its
// right side.
fn narrow<'a>(
    alloc: Global,
    task: &Task<'a>,
    plan: &Plan,
    work: &mut Work,
    ranges: &mut Ranges,
    goal: Goal,
) -> Result<(), AllocError>
    requires task { IsTaskOf task.now }
    requires ranges { AreRanges task.now ranges.old }
    ensures ranges { OnOk result (AreRanges task.now ranges.new) }
    ensures kept { OnOk result (KeepsAll task.now goal.strict ranges.old ranges.new) }
{
    if fails_at(alloc, task, work, &ranges.low.guess, goal)? {
        let end = End::Low;
        cut_side(alloc, task, plan, work, ranges, Cutting { goal, end })?;
    }
    if fails_at(alloc, task, work, &ranges.high.guess, goal)? {
        let end = End::High;
        cut_side(alloc, task, plan, work, ranges, Cutting { goal, end })?;
    }
    Ok(())
}

// Cuts off lower ends of the readings of symbols on the left side, or upper ends of those on the right side.
fn cut_side<'a>(
    alloc: Global,
    task: &Task<'a>,
    plan: &Plan,
    work: &mut Work,
    ranges: &mut Ranges,
    cutting: Cutting,
) -> Result<(), AllocError>
    requires task { IsTaskOf task.now }
    requires ranges { AreRanges task.now ranges.old }
    ensures ranges { OnOk result (AreRanges task.now ranges.new) }
    ensures kept { OnOk result (KeepsAll task.now cutting.goal.strict ranges.old ranges.new) }
{
    for number in plan.read_at(cutting.goal.number, cutting.end) {
        if cut_list(alloc, task, work, ranges, cutting, *number)? {
            work.wake(plan.touched_by(*number, cutting.end))?;
        }
    }
    Ok(())
}

// Cuts off ends of the coefficients of one list. Answers whether any was.
fn cut_list<'a>(
    alloc: Global,
    task: &Task<'a>,
    work: &mut Work,
    ranges: &mut Ranges,
    cutting: Cutting,
    number: usize,
) -> Result<bool, AllocError>
    requires task { IsTaskOf task.now }
    requires ranges { AreRanges task.now ranges.old }
    ensures ranges { OnOk result (AreRanges task.now ranges.new) }
    ensures kept { OnOk result (KeepsAll task.now cutting.goal.strict ranges.old ranges.new) }
{
    let mut any = false;
    for place in 0..ranges.high.count(number) {
        let at = Coefficient { number, place };
        any |= cut_range(alloc, task, work, ranges, cutting, at)?;
    }
    Ok(any)
}

// Cuts off ends of the coefficient, one after the other. Answers whether any was.
fn cut_range<'a>(
    alloc: Global,
    task: &Task<'a>,
    work: &mut Work,
    ranges: &mut Ranges,
    cutting: Cutting,
    at: Coefficient,
) -> Result<bool, AllocError>
    requires task { IsTaskOf task.now }
    requires ranges { AreRanges task.now ranges.old }
    ensures ranges { OnOk result (AreRanges task.now ranges.new) }
    ensures kept { OnOk result (KeepsAll task.now cutting.goal.strict ranges.old ranges.new) }
{
    let mut any = false;
    'ends: for _ in 0..MAX_COEFFICIENT {
        if work.is_spent() || !cut(alloc, task, work, ranges, cutting, at)? {
            break 'ends;
        }
        any = true;
    }
    Ok(any)
}

// Cuts off one end of the coefficient's range, if the condition can't be met there. Answers whether it was.
fn cut<'a>(
    alloc: Global,
    task: &Task<'a>,
    work: &mut Work,
    ranges: &mut Ranges,
    cutting: Cutting,
    at: Coefficient,
) -> Result<bool, AllocError>
    requires task { IsTaskOf task.now }
    requires ranges { AreRanges task.now ranges.old }
    ensures ranges { OnOk result (AreRanges task.now ranges.new) }
    ensures kept { OnOk result (KeepsAll task.now cutting.goal.strict ranges.old ranges.new) }
{
    if ranges.low.at(at) >= ranges.high.at(at) {
        return Ok(false);
    }
    match cutting.end {
        End::Low => raise(alloc, task, work, ranges, cutting.goal, at),
        End::High => lower(alloc, task, work, ranges, cutting.goal, at),
    }
}

// The lower end goes up by one, if the condition can't be met where the coefficient is there. Answers whether it did.
fn raise<'a>(
    alloc: Global,
    task: &Task<'a>,
    work: &mut Work,
    ranges: &mut Ranges,
    goal: Goal,
    at: Coefficient,
) -> Result<bool, AllocError>
    requires task { IsTaskOf task.now }
    requires ranges { AreRanges task.now ranges.old }
    requires open { coefficient_in (lists_of ranges.old.low) at.number at.place < coefficient_in (lists_of ranges.old.high)
        at.number at.place }
    ensures ranges { OnOk result (AreRanges task.now ranges.new) }
    ensures kept { OnOk result (KeepsAll task.now goal.strict ranges.old ranges.new) }
{
    let (least, most) = (ranges.low.at(at), ranges.high.at(at));
    ranges.high.set(alloc, task, at, least)?;
    let out = is_out(alloc, task, work, ranges, goal)?;
    ranges.high.set(alloc, task, at, most)?;
    if out {
        ranges.low.set(alloc, task, at, least + 1)?;
    }
    Ok(out)
}

// The upper end goes down by one, if the condition can't be met where the coefficient is there. Answers whether it did.
fn lower<'a>(
    alloc: Global,
    task: &Task<'a>,
    work: &mut Work,
    ranges: &mut Ranges,
    goal: Goal,
    at: Coefficient,
) -> Result<bool, AllocError>
    requires task { IsTaskOf task.now }
    requires ranges { AreRanges task.now ranges.old }
    requires open { coefficient_in (lists_of ranges.old.low) at.number at.place < coefficient_in (lists_of ranges.old.high)
        at.number at.place }
    ensures ranges { OnOk result (AreRanges task.now ranges.new) }
    ensures kept { OnOk result (KeepsAll task.now goal.strict ranges.old ranges.new) }
{
    let (least, most) = (ranges.low.at(at), ranges.high.at(at));
    ranges.low.set(alloc, task, at, most)?;
    let out = is_out(alloc, task, work, ranges, goal)?;
    ranges.low.set(alloc, task, at, least)?;
    if out {
        ranges.high.set(alloc, task, at, most - 1)?;
    }
    Ok(out)
}
