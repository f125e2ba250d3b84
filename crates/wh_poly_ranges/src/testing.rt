//! The test whether a condition can be met in ranges: the left side at the upper ends against the right side at the
//! lower.

ghost use Rattle.std.specs.Bool.{OnTrue};
ghost use Rattle.std.specs.Prelude.{◌≡◌, ◌<◌, IfOk, Some, length, slice_get};
ghost use Rattle.wh_terms.specs.Rules.{RewriteRule};
ghost use Rattle.wh_reduction_pairs.specs.TaskView.{task_data};
ghost use Rattle.wh_polycheck.specs.ReadingsView.{readings_data};
ghost use Rattle.wh_poly_guesses.specs.Coefficients.{AreOfSpace};
ghost use Rattle.wh_poly_guesses.specs.Tasks.{IsGuessOf, IsTaskOf};
ghost use Rattle.wh_poly_ranges.specs.Bounds.{AreRanges};
ghost use Rattle.wh_poly_ranges.specs.Out.{IsOut, IsPairOut, IsRuleOut};

use crate::bounds::Ranges;
use crate::plan::Work;
use std::alloc::{AllocError, Global};
use wh_poly::Poly;
use wh_poly_growth::is_refuted;
use wh_poly_guesses::{Guess, pair_side, rule_side};
use wh_polycheck::Readings;
use wh_reduction_pairs::Task;

/// A condition: its number, and the place in the set of the pair that is to be covered strictly.
#[derive(Clone, Copy)]
pub struct Goal {
    pub number: usize,
    pub strict: usize,
}

/// The readings at the two ends of ranges.
#[derive(Clone, Copy)]
pub struct Ends<'a> {
    pub low: Readings<'a>,
    pub high: Readings<'a>,
}

// How much work it is where a value exceeds a limit.
const EXCEEDING: u64 = 2_000;

// How many monomials of both sides are as much work as looking at a condition.
const MONOMIALS: usize = 2;

/// Whether numbers show that the condition is not met under the guess.
pub fn fails_at<'a>(
    alloc: Global,
    task: &Task<'a>,
    work: &mut Work,
    guess: &Guess,
    goal: Goal,
) -> Result<bool, AllocError>
    requires task { IsTaskOf task.now }
    requires guess { IsGuessOf task.now guess.now }
{
    let ends = Ends {
        low: guess.readings(),
        high: guess.readings(),
    };
    let rules = task.covered.len();
    if goal.number < rules {
        return is_rule_out(alloc, task, work, &ends, task.covered[goal.number]);
    }
    let place = goal.number - rules;
    if place < task.set.len() {
        return is_pair_out(alloc, task, work, &ends, place, place == goal.strict);
    }
    Ok(false)
}

/// Whether numbers show that no readings with coefficients in the ranges meet the condition: that of a rule that is to
/// be covered, or behind these that of a pair of the set, which is to be covered strictly if `strict` is its place in
/// the set. Of any other number nothing is told.
///
/// The left side is greatest where the coefficients are, and the right one least where they are least.
pub fn is_out<'a>(
    alloc: Global,
    task: &Task<'a>,
    work: &mut Work,
    ranges: &Ranges,
    goal: Goal,
) -> Result<bool, AllocError>
    requires task { IsTaskOf task.now }
    requires ranges { AreRanges task.now ranges.now }
    ensures { IfOk result (λ told. OnTrue told (IsOut task.now goal.strict ranges.now)) }
{
    task.system.is_well_made();
    let ends = Ends {
        low: ranges.low.guess.readings(),
        high: ranges.high.guess.readings(),
    };
    let rules = task.covered.len();
    if goal.number < rules {
        return is_rule_out(alloc, task, work, &ends, task.covered[goal.number]);
    }
    let place = goal.number - rules;
    if place < task.set.len() {
        return is_pair_out(alloc, task, work, &ends, place, place == goal.strict);
    }
    Ok(false)
}

// Whether the left side of the rule is worth too little under the upper readings for its right side under the lower
// ones.
fn is_rule_out<'a, 'b>(
    alloc: Global,
    task: &Task<'a>,
    work: &mut Work,
    ends: &Ends<'b>,
    rule: u32,
) -> Result<bool, AllocError>
    requires low { AreOfSpace (task_data task.now) (readings_data ends.now.low) }
    requires high { AreOfSpace (task_data task.now) (readings_data ends.now.high) }
    requires rule { rule < length (task_data task.now).rules }
    ensures { (r : RewriteRule) → slice_get (task_data task.now).rules rule ≡ Some r
        → IfOk result (λ told. OnTrue told (IsRuleOut (readings_data ends.now.low) (readings_data ends.now.high) r)) }
{
    task.system.is_well_made();
    let Some(left) = rule_side(alloc, task.system, &ends.high, rule, false)? else {
        work.spend(EXCEEDING);
        return Ok(false);
    };
    let Some(right) = rule_side(alloc, task.system, &ends.low, rule, true)? else {
        work.spend(EXCEEDING);
        return Ok(false);
    };
    work.spend(size_of(&left, &right));
    let variables = task.system.rules()[rule as usize].metas.as_slice().len();
    is_refuted(alloc, &left, &right, variables, false)
}

// Whether the pair at this place in the set fails under all coefficients in the ranges.
fn is_pair_out<'a, 'b>(
    alloc: Global,
    task: &Task<'a>,
    work: &mut Work,
    ends: &Ends<'b>,
    place: usize,
    strict: bool,
) -> Result<bool, AllocError>
    requires task { IsTaskOf task.now }
    requires low { AreOfSpace (task_data task.now) (readings_data ends.now.low) }
    requires high { AreOfSpace (task_data task.now) (readings_data ends.now.high) }
    requires place { place < length task.now.set.now }
    ensures { IfOk result (λ told. OnTrue told (IsPairOut (task_data task.now) (readings_data ends.now.low) (readings_data ends.now.high)
        place strict)) }
{
    let pair = &task.pairs[task.set[place] as usize];
    let Some(left) = pair_side(alloc, task.system, &ends.high, pair, false)? else {
        work.spend(EXCEEDING);
        return Ok(false);
    };
    let Some(right) = pair_side(alloc, task.system, &ends.low, pair, true)? else {
        work.spend(EXCEEDING);
        return Ok(false);
    };
    work.spend(size_of(&left, &right));
    is_refuted(alloc, &left, &right, pair.metas.as_slice().len(), strict)
}

// How much work the sides are.
fn size_of(left: &Poly, right: &Poly) -> u64 {
    let monomials = left.as_slice().len().saturating_add(right.as_slice().len());
    (monomials / MONOMIALS) as u64 + 1
}
