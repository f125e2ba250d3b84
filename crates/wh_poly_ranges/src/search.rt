//! The search in ranges: they are made narrower, and split where that does not end.

ghost use Rattle.std.specs.Bool.{OnTrue};
ghost use Rattle.std.specs.Prelude.{ℕ, ◌≡◌, ◌<◌, IfOk, length, map, replicate};
ghost use Rattle.wh_pairs.specs.Marked.{AreMarked};
ghost use Rattle.wh_reduction_pairs.specs.TaskView.{task_data};
ghost use Rattle.wh_poly_guesses.specs.Conditions.{HasNoInterpretation};
ghost use Rattle.wh_poly_guesses.specs.Tasks.{IsTaskOf};
ghost use Rattle.wh_poly_ranges.specs.Bounds.{AreRanges, lists_in};
ghost use Rattle.wh_reduction_pairs.specs.declared.task.Task.{Task};
ghost use Rattle.wh_poly_ranges.specs.Out.{AllOut, IsOut, IsSpanOut};

use crate::bounds::{Coefficient, Cut, End, Ranges, Span, all_equal, write};
use crate::choosing::place_to_split;
use crate::narrowing::narrow_all;
use crate::plan::{Plan, Work};
use std::alloc::{AllocError, Global};
use wh_poly_guesses::sizes_of;
use wh_poly_space::MAX_COEFFICIENT;
use wh_reduction_pairs::Task;

/// Whether ranges of coefficients show that no interpretation of the space lets a pair of the set go. The search ends
/// after `limit` looks at conditions, where a look at large sides counts as several, and then shows nothing.
///
/// Each pair in turn is asked to be covered strictly.
pub fn has_none<'a>(
    alloc: Global,
    task: &Task<'a>,
    marked: &[u32],
    limit: u64,
) -> Result<bool, AllocError>
    requires task { IsTaskOf task.now }
    requires marked { AreMarked (task_data task.now).pairs (task_data task.now).set marked.now }
    ensures { IfOk result (λ told. OnTrue told (HasNoInterpretation (task_data task.now))) }
{
    let sizes = sizes_of(alloc, task, marked)?;
    let plan = Plan::new(alloc, task, marked, sizes.len(), limit)?;
    let mut work = Work::new(alloc, plan.uses.len(), limit)?;
    let span = whole(alloc, &sizes)?;
    let mut ranges = Ranges::by(alloc, task, marked, span)?;
    if narrow_all(alloc, task, &plan, &mut work, &mut ranges, task.set.len())? {
        return Ok(true);
    }
    none_is_strict(alloc, task, marked, &plan, &mut work, &ranges)
}

// All coefficients of the space.
fn whole(alloc: Global, sizes: &[usize]) -> Result<Span, AllocError>
    ensures low { IfOk result (λ made. lists_in made.low.items ≡ map (λ size. replicate size 0) sizes.now) }
    ensures high { IfOk result (λ made. lists_in made.high.items ≡ map (λ size. replicate size 3) sizes.now) }
{
    let low = all_equal(alloc, sizes, 0)?;
    let high = all_equal(alloc, sizes, MAX_COEFFICIENT)?;
    Ok(Span {
        low,
        high,
        cut: None,
    })
}

// Whether for none of the pairs of the set there are interpretations in the ranges that cover it strictly, and the
// others too.
fn none_is_strict<'a>(
    alloc: Global,
    task: &Task<'a>,
    marked: &[u32],
    plan: &Plan,
    work: &mut Work,
    ranges: &Ranges,
) -> Result<bool, AllocError>
    requires task { IsTaskOf task.now }
    requires marked { AreMarked (task_data task.now).pairs (task_data task.now).set marked.now }
    ensures { IfOk result (λ told. OnTrue told ((strict : ℕ) → strict < length task.now.set.now → IsOut task.now strict ranges.now)) }
{
    let rules = task.covered.len();
    for strict in 0..task.set.len() {
        work.start(rules.saturating_add(strict))?;
        let span = Span::of(alloc, ranges)?;
        if !is_excluded(alloc, task, marked, plan, work, span, strict)? {
            return Ok(false);
        }
    }
    Ok(true)
}

// Whether no interpretations in the ranges cover the pair with that place in the set strictly, and the others too.
fn is_excluded<'a>(
    alloc: Global,
    task: &Task<'a>,
    marked: &[u32],
    plan: &Plan,
    work: &mut Work,
    first: Span,
    strict: usize,
) -> Result<bool, AllocError>
    requires task { IsTaskOf task.now }
    requires marked { AreMarked (task_data task.now).pairs (task_data task.now).set marked.now }
    ensures { IfOk result (λ told. OnTrue told (IsSpanOut task.now strict first)) }
{
    let mut spans = Vec::new(alloc);
    spans.push(first)?;
    'spans: for _ in 0..plan.limit {
        let Some(span) = spans.pop() else {
            return Ok(true);
        };
        work.go_on(plan, span.cut)?;
        let mut ranges = Ranges::by(alloc, task, marked, span)?;
        if narrow_all(alloc, task, plan, work, &mut ranges, strict)? {
            continue 'spans;
        }
        let Some(at) = place_to_split(alloc, task, marked, plan, work, &ranges, strict)? else {
            return Ok(false);
        };
        if !split(alloc, &mut spans, &ranges, at)? {
            return Ok(false);
        }
    }
    Ok(false)
}

// The two halves of the ranges join: the coefficient is at its lower end, or above it. Answers whether the range is
// open.
fn split(
    alloc: Global,
    spans: &mut Vec<Span>,
    ranges: &Ranges,
    at: Coefficient,
) -> Result<bool, AllocError>
    ensures { IfOk result (λ told. OnTrue told ((t : Task) (strict : ℕ) → AllOut t strict spans.new.items
        → IsOut t strict ranges.now × AllOut t strict spans.old.items)) }
{
    let (least, most) = (ranges.low.at(at), ranges.high.at(at));
    if least >= most {
        return Ok(false);
    }
    let mut above = Span::of(alloc, ranges)?;
    above.cut = Some(Cut {
        number: at.number,
        end: End::Low,
    });
    write(&mut above.low, at, least + 1);
    let mut below = Span::of(alloc, ranges)?;
    below.cut = Some(Cut {
        number: at.number,
        end: End::High,
    });
    write(&mut below.high, at, least);
    spans.push(above)?;
    spans.push(below)?;
    Ok(true)
}
