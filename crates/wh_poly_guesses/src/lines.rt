//! The lines of a guess: moves for each rule that is to be covered, and for each pair of a set.

ghost use Rattle.std.specs.Prelude.{◌≡◌, ◌↔◌, ◌<◌, ◌≤◌, ◌^◌, IfOk, IsTrue, MatchOption, Some, length, map, slice_get};
ghost use Rattle.wh_types.specs.Outcome.{MatchOr};
ghost use Rattle.wh_terms.specs.Rules.{RewriteRule};
ghost use Rattle.wh_pairs.specs.PairData.{pair_data};
ghost use Rattle.wh_system.specs.SystemView.{system_data};
ghost use Rattle.wh_reduction_pairs.specs.TaskView.{task_data};
ghost use Rattle.wh_poly.specs.Erase.{poly};
ghost use Rattle.wh_hopoly.specs.Erase.{transfers};
ghost use Rattle.wh_poly.specs.Polynomials.{Polynomial};
ghost use Rattle.wh_hopoly.specs.Moves.{IsStrictCover};
ghost use Rattle.wh_hopoly.specs.Evaluation.{Run};
ghost use Rattle.wh_polycheck.specs.Covering.{IsTypedTask};
ghost use Rattle.wh_polycheck.specs.Marks.{HasMarkedSides};
ghost use Rattle.wh_polycheck.specs.Readings.{AreProper};
ghost use Rattle.wh_polycheck.specs.ReadingsView.{readings_data};
ghost use Rattle.wh_poly_covering.specs.Lines.{IsSide, IsSomeSide};
ghost use Rattle.wh_poly_guesses.specs.Coefficients.{AreOfSpace};
ghost use Rattle.wh_poly_guesses.specs.Lines.{AreLinesOfPairs, AreRuleLines, IsFailingPair, IsFailingRule, IsLine, IsLineOfPair, IsLineOfRule, IsNotMet, IsPairLine, IsUncoveredPair, IsUncoveredRule};

use crate::sides::{pair_side, rule_side};
use std::alloc::{AllocError, Global};
use wh_hopoly::{Covers, Moves};
use wh_pairs::Pair;
use wh_poly::Poly;
use wh_poly_moves::find_moves;
use wh_polycheck::{Readings, check_strict};
use wh_reduction_pairs::Task;
use wh_system::System;
use wh_types::{Numbers, Or};

/// The moves for a pair, and whether they show that its left side is greater.
#[derive(Drop)]
pub struct PairLine {
    pub moves: Moves,
    pub strict: bool,
}

/// The moves for the pairs of a set, and the numbers of those whose left side is greater.
#[derive(Drop)]
pub struct PairLines {
    pub lines: Covers,
    pub drop: Numbers,
}

/// Moves for each rule that is to be covered; the cause is the place of the first one that has none.
pub fn rule_lines<'a, 'b>(
    alloc: Global,
    task: &Task<'a>,
    readings: &Readings<'b>,
) -> Result<Covers, Or<usize>>
    requires task { IsTypedTask (task_data task.now) }
    requires readings { AreOfSpace (task_data task.now) (readings_data readings.now) }
    ensures { MatchOr result (λ lines. AreRuleLines (task_data task.now) (readings_data readings.now) (map transfers lines))
        (IsFailingRule (task_data task.now) (readings_data readings.now)) }
{
    let mut lines = Covers::new(alloc);
    for (i, rule) in task.covered.iter().enumerate() {
        let Some(moves) = rule_line(alloc, task.system, readings, *rule)? else {
            return Err(Or::Because(i));
        };
        lines.push(moves)?;
    }
    Ok(lines)
}

/// Moves for the rule, if there are any.
pub fn rule_line<'a>(
    alloc: Global,
    system: &System,
    readings: &Readings<'a>,
    rule: u32,
) -> Result<Option<Moves>, AllocError>
    requires proper { AreProper (system_data system.now).symbols (system_data system.now).rules (readings_data readings.now) }
    requires rule { rule < length (system_data system.now).rules }
    ensures { (r : RewriteRule) → slice_get (system_data system.now).rules rule ≡ Some r
        → IfOk result (λ found. MatchOption found (IsUncoveredRule (readings_data readings.now) r)
        (IsLineOfRule (readings_data readings.now) r)) }
{
    let Some(left) = rule_side(alloc, system, readings, rule, false)? else {
        return Ok(None);
    };
    let Some(right) = rule_side(alloc, system, readings, rule, true)? else {
        return Ok(None);
    };
    line(alloc, &left, &right)
}

/// Moves between two sides.
pub fn line(alloc: Global, left: &Poly, right: &Poly) -> Result<Option<Moves>, AllocError>
    requires left { IsSomeSide (poly left.now) }
    requires right { IsSomeSide (poly right.now) }
    ensures { (a b : Run Polynomial) → IsSide a (poly left.now) → IsSide b (poly right.now)
        → IfOk result (λ found. MatchOption found (IsNotMet a b) (λ ms. IsLine a b (transfers ms))) }
{
    find_moves(alloc, left, right)
}

/// Moves for each pair of the set; the cause is the place in the set of the first pair that has none.
pub fn pair_lines<'a, 'b>(
    alloc: Global,
    task: &Task<'a>,
    readings: &Readings<'b>,
) -> Result<PairLines, Or<usize>>
    requires task { IsTypedTask (task_data task.now) }
    requires readings { AreOfSpace (task_data task.now) (readings_data readings.now) }
    ensures { MatchOr result (AreLinesOfPairs (task_data task.now) (readings_data readings.now))
        (IsFailingPair (task_data task.now) (readings_data readings.now)) }
{
    let mut lines = Covers::new(alloc);
    let mut drop = Numbers::new(alloc);
    for (i, number) in task.set.iter().enumerate() {
        let pair = &task.pairs[*number as usize];
        let Some(line) = pair_line(alloc, task.system, readings, pair)? else {
            return Err(Or::Because(i));
        };
        lines.push(line.moves)?;
        if line.strict {
            drop.push(*number)?;
        }
    }
    Ok(PairLines { lines, drop })
}

/// Moves for the pair, if there are any.
pub fn pair_line<'a>(
    alloc: Global,
    system: &System,
    readings: &Readings<'a>,
    pair: &Pair,
) -> Result<Option<PairLine>, AllocError>
    requires proper { AreProper (system_data system.now).symbols (system_data system.now).rules (readings_data readings.now) }
    requires sides { HasMarkedSides (system_data system.now).symbols (system_data system.now).rules (readings_data readings.now).marks
        (pair_data pair.now) }
    ensures { IfOk result (λ found. MatchOption found (IsUncoveredPair system.now readings.now pair.now)
        (IsLineOfPair system.now readings.now pair.now)) }
{
    let Some(left) = pair_side(alloc, system, readings, pair, false)? else {
        return Ok(None);
    };
    let Some(right) = pair_side(alloc, system, readings, pair, true)? else {
        return Ok(None);
    };
    strict_line(alloc, &left, &right)
}

// Moves between two sides, with whether they show that the left one is greater.
fn strict_line(alloc: Global, left: &Poly, right: &Poly) -> Result<Option<PairLine>, AllocError>
    requires left { IsSomeSide (poly left.now) }
    requires right { IsSomeSide (poly right.now) }
    ensures { (a b : Run Polynomial) → IsSide a (poly left.now) → IsSide b (poly right.now)
        → IfOk result (λ found. MatchOption found (IsNotMet a b) (IsPairLine a b)) }
{
    match line(alloc, left, right)? {
        Some(moves) => {
            let strict = is_strict(left, right, &moves);
            Ok(Some(PairLine { moves, strict }))
        }
        None => Ok(None),
    }
}

// Whether the moves show that the left side is greater.
fn is_strict(left: &Poly, right: &Poly, moves: &Moves) -> bool
    requires left { IsSomeSide (poly left.now) }
    requires right { IsSomeSide (poly right.now) }
    requires few { length moves.now ≤ 2 ^ 32 }
    ensures { IsTrue result ↔ IsStrictCover (poly left.now) (poly right.now) (transfers moves.now) }
{
    check_strict(left, right, moves.as_slice()).is_ok()
}
