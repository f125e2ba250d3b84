//! Single conditions under a guess: how far one is from being met, and whether one surely fails.

ghost use Rattle.std.specs.Bool.{OnTrue};
ghost use Rattle.std.specs.Prelude.{◌≡◌, ◌↔◌, ◌<◌, IfOk, IsTrue, Some, length, slice_get};
ghost use Rattle.wh_terms.specs.Rules.{RewriteRule};
ghost use Rattle.wh_pairs.specs.PairData.{pair_data};
ghost use Rattle.wh_system.specs.SystemView.{system_data};
ghost use Rattle.wh_reduction_pairs.specs.TaskView.{task_data};
ghost use Rattle.wh_poly.specs.Erase.{poly};
ghost use Rattle.wh_polycheck.specs.Covering.{IsTypedTask};
ghost use Rattle.wh_polycheck.specs.Marks.{HasMarkedSides};
ghost use Rattle.wh_polycheck.specs.Readings.{AreProper};
ghost use Rattle.wh_polycheck.specs.ReadingsView.{readings_data};
ghost use Rattle.wh_poly_covering.specs.Lines.{IsSomeSide};
ghost use Rattle.wh_poly_guesses.specs.Coefficients.{AreOfSpace};
ghost use Rattle.wh_poly_guesses.specs.Conditions.{Fails, Meets, some_strictly};
ghost use Rattle.wh_poly_guesses.specs.Lines.{IsStrictPair, IsUncoveredPair, IsUncoveredRule};
ghost use Rattle.wh_poly_guesses.specs.Tasks.{IsGuessOf, IsTaskOf, guess_data};

use crate::guess::Guess;
use crate::lines::{line, pair_line, rule_line};
use crate::sides::{pair_side, rule_side};
use std::alloc::{AllocError, Global};
use wh_hopoly::Move;
use wh_pairs::Pair;
use wh_poly::Poly;
use wh_poly_moves::deficit;
use wh_polycheck::Readings;
use wh_reduction_pairs::Task;
use wh_system::System;

/// How far a condition is from being met, and whether a pair is covered strictly.
#[derive(Clone, Copy)]
pub struct Outcome {
    /// How many units stay without a cover; only a guide.
    pub wanting: u64,
    /// Whether it is a pair that is covered strictly.
    pub strict: bool,
}

/// How much is wanting where a value exceeds a limit.
const EXCEEDING: u64 = 1000;

/// How far the condition with the number is met under the guess. The conditions are those of the rules that are to be
/// covered, and behind them those of the pairs of the set.
pub fn outcome_of<'a>(
    alloc: Global,
    task: &Task<'a>,
    guess: &Guess,
    number: usize,
) -> Result<Outcome, AllocError>
    requires task { IsTaskOf task.now }
    requires guess { IsGuessOf task.now guess.now }
{
    let readings = guess.readings();
    let rules = task.covered.len();
    if number < rules {
        return rule_outcome(alloc, task.system, &readings, task.covered[number]);
    }
    let place = number - rules;
    if place < task.set.len() {
        let pair = &task.pairs[task.set[place] as usize];
        return pair_outcome(alloc, task.system, &readings, pair);
    }
    Ok(Outcome {
        wanting: 0,
        strict: false,
    })
}

// What the condition of the rule is.
fn rule_outcome<'a>(
    alloc: Global,
    system: &System,
    readings: &Readings<'a>,
    rule: u32,
) -> Result<Outcome, AllocError>
    requires proper { AreProper (system_data system.now).symbols (system_data system.now).rules (readings_data readings.now) }
    requires rule { rule < length (system_data system.now).rules }
{
    let Some(left) = rule_side(alloc, system, readings, rule, false)? else {
        return Ok(exceeding());
    };
    let Some(right) = rule_side(alloc, system, readings, rule, true)? else {
        return Ok(exceeding());
    };
    Ok(Outcome {
        wanting: wanting(alloc, &left, &right)?,
        strict: false,
    })
}

// What the condition of the pair is.
fn pair_outcome<'a>(
    alloc: Global,
    system: &System,
    readings: &Readings<'a>,
    pair: &Pair,
) -> Result<Outcome, AllocError>
    requires proper { AreProper (system_data system.now).symbols (system_data system.now).rules (readings_data readings.now) }
    requires sides { HasMarkedSides (system_data system.now).symbols (system_data system.now).rules (readings_data readings.now).marks
        (pair_data pair.now) }
{
    let Some(left) = pair_side(alloc, system, readings, pair, false)? else {
        return Ok(exceeding());
    };
    let Some(right) = pair_side(alloc, system, readings, pair, true)? else {
        return Ok(exceeding());
    };
    let wanting = wanting(alloc, &left, &right)?;
    let strict = wanting == 0 && is_greater(alloc, &left, &right)?;
    Ok(Outcome { wanting, strict })
}

// The outcome where a value exceeds a limit.
fn exceeding() -> Outcome {
    Outcome {
        wanting: EXCEEDING,
        strict: false,
    }
}

// How many units of the right side are not covered.
fn wanting(alloc: Global, left: &Poly, right: &Poly) -> Result<u64, AllocError>
    requires left { IsSomeSide (poly left.now) }
    requires right { IsSomeSide (poly right.now) }
{
    let units = deficit(alloc, left, right)?;
    Ok(u64::try_from(units).unwrap_or(EXCEEDING))
}

// Whether moves show that the left side is greater. Those that are found cover, so what counts is the left constant.
fn is_greater(alloc: Global, left: &Poly, right: &Poly) -> Result<bool, AllocError>
    requires left { IsSomeSide (poly left.now) }
    requires right { IsSomeSide (poly right.now) }
{
    match line(alloc, left, right)? {
        Some(moves) => Ok(leaves_constant(left, moves.as_slice())),
        None => Ok(false),
    }
}

// Whether the moves leave some of the left constant, which stands first.
fn leaves_constant(left: &Poly, moves: &[Move]) -> bool {
    let Some(first) = left.as_slice().first() else {
        return false;
    };
    let mut rest = first.coefficient;
    for item in moves {
        if item.from == 0 {
            rest = rest.saturating_sub(item.amount);
        }
    }
    first.atoms.as_slice().is_empty() && rest > 0
}

/// Says `true` only where the condition with that number fails under the guess: that of a rule that is to be covered,
/// behind these that of a pair of the set, or last that some pair of the set is covered strictly. Of any other number
/// nothing is said.
pub fn fails<'a>(
    alloc: Global,
    task: &Task<'a>,
    guess: &Guess,
    number: usize,
) -> Result<bool, AllocError>
    requires task { IsTaskOf task.now }
    requires guess { IsGuessOf task.now guess.now }
    ensures { IfOk result (λ told. OnTrue told (Fails (task_data task.now) (guess_data guess.now) number)) }
{
    let readings = guess.readings();
    let rules = task.covered.len();
    if number < rules {
        return rule_fails(alloc, task.system, &readings, task.covered[number]);
    }
    let place = number - rules;
    if place < task.set.len() {
        let pair = &task.pairs[task.set[place] as usize];
        return pair_fails(alloc, task.system, &readings, pair);
    }
    if place == task.set.len() {
        return set_fails(alloc, task, &readings);
    }
    Ok(false)
}

// Whether no moves cover the rule.
fn rule_fails<'a>(
    alloc: Global,
    system: &System,
    readings: &Readings<'a>,
    rule: u32,
) -> Result<bool, AllocError>
    requires proper { AreProper (system_data system.now).symbols (system_data system.now).rules (readings_data readings.now) }
    requires rule { rule < length (system_data system.now).rules }
    ensures { (r : RewriteRule) → slice_get (system_data system.now).rules rule ≡ Some r
        → IfOk result (λ told. OnTrue told (IsUncoveredRule (readings_data readings.now) r)) }
{
    Ok(rule_line(alloc, system, readings, rule)?.is_none())
}

// Whether no moves cover the pair.
fn pair_fails<'a>(
    alloc: Global,
    system: &System,
    readings: &Readings<'a>,
    pair: &Pair,
) -> Result<bool, AllocError>
    requires proper { AreProper (system_data system.now).symbols (system_data system.now).rules (readings_data readings.now) }
    requires sides { HasMarkedSides (system_data system.now).symbols (system_data system.now).rules (readings_data readings.now).marks
        (pair_data pair.now) }
    ensures { IfOk result (λ told. OnTrue told (IsUncoveredPair system.now readings.now pair.now)) }
{
    Ok(pair_line(alloc, system, readings, pair)?.is_none())
}

// Whether no pair of the set is covered strictly.
fn set_fails<'a, 'b>(
    alloc: Global,
    task: &Task<'a>,
    readings: &Readings<'b>,
) -> Result<bool, AllocError>
    requires task { IsTypedTask (task_data task.now) }
    requires readings { AreOfSpace (task_data task.now) (readings_data readings.now) }
    ensures { IfOk result (λ told. OnTrue told (Meets (task_data task.now) (readings_data readings.now) some_strictly → ⊥)) }
{
    for number in task.set {
        let pair = &task.pairs[*number as usize];
        if is_strict_pair(alloc, task.system, readings, pair)? {
            return Ok(false);
        }
    }
    Ok(true)
}

// Whether moves cover the pair strictly.
fn is_strict_pair<'a>(
    alloc: Global,
    system: &System,
    readings: &Readings<'a>,
    pair: &Pair,
) -> Result<bool, AllocError>
    requires proper { AreProper (system_data system.now).symbols (system_data system.now).rules (readings_data readings.now) }
    requires sides { HasMarkedSides (system_data system.now).symbols (system_data system.now).rules (readings_data readings.now).marks
        (pair_data pair.now) }
    ensures { IfOk result (λ told. IsTrue told ↔ IsStrictPair system.now readings.now pair.now) }
{
    match pair_line(alloc, system, readings, pair)? {
        Some(line) => Ok(line.strict),
        None => Ok(false),
    }
}
