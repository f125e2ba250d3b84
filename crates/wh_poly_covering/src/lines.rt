//! Single lines: the two sides of a rule or of a pair are evaluated, each once, and then the moves between them are
//! looked at.

ghost use Rattle.std.specs.Prelude.{◌≡◌, ◌<◌, Some, false, true, length, slice_get};
ghost use Rattle.wh_types.specs.Outcome.{MatchOr};
ghost use Rattle.wh_terms.specs.Rules.{RewriteRule};
ghost use Rattle.wh_pairs.specs.PairData.{pair_data};
ghost use Rattle.wh_system.specs.SystemView.{system_data};
ghost use Rattle.wh_poly.specs.Polynomials.{Polynomial};
ghost use Rattle.wh_poly.specs.Erase.{poly};
ghost use Rattle.wh_hopoly.specs.Erase.{transfers};
ghost use Rattle.wh_hopoly.specs.Evaluation.{Run};
ghost use Rattle.wh_polycheck.specs.Marks.{HasMarkedSides};
ghost use Rattle.wh_polycheck.specs.Readings.{AreProper};
ghost use Rattle.wh_polycheck.specs.ReadingsView.{readings_data};
ghost use Rattle.wh_polycheck.specs.Covering.{pair_run, rule_run};
ghost use Rattle.wh_poly_covering.specs.Lines.{IsAnswerOf, IsExcessOf, IsSide, IsSomeSide, limit_of};

use crate::fault::LineFault;
use std::alloc::Global;
use wh_hopoly::{Moves, PolyFault};
use wh_pairs::Pair;
use wh_poly::{Excess, Poly};
use wh_polycheck::{Readings, check_strict, check_weak, side_of_pair, side_of_rule};
use wh_system::System;
use wh_types::Or;

/// Whether the moves show that the left side of the rule is at least the right one.
pub fn check_rule<'a>(
    alloc: Global,
    system: &System,
    readings: &Readings<'a>,
    rule: u32,
    moves: &Moves,
) -> Result<(), Or<LineFault>>
    requires proper { AreProper (system_data system.now).symbols (system_data system.now).rules (readings_data readings.now) }
    requires rule { rule < length (system_data system.now).rules }
    ensures { (r : RewriteRule) → slice_get (system_data system.now).rules rule ≡ Some r
        → IsAnswerOf (rule_run (readings_data readings.now) r false) (rule_run (readings_data readings.now) r true) false
        (transfers moves.now) result }
{
    let left = rule_side(alloc, system, readings, rule, false)?;
    let right = rule_side(alloc, system, readings, rule, true)?;
    check_line(&left, &right, false, moves)
}

// A side of the rule.
fn rule_side<'a>(
    alloc: Global,
    system: &System,
    readings: &Readings<'a>,
    rule: u32,
    right: bool,
) -> Result<Poly, Or<LineFault>>
    requires proper { AreProper (system_data system.now).symbols (system_data system.now).rules (readings_data readings.now) }
    requires rule { rule < length (system_data system.now).rules }
    ensures { (r : RewriteRule) → slice_get (system_data system.now).rules rule ≡ Some r
        → MatchOr result (λ p. IsSide (rule_run (readings_data readings.now) r right) (poly p))
        (IsExcessOf (rule_run (readings_data readings.now) r right)) }
{
    match side_of_rule(alloc, system, readings, rule, right) {
        Ok(side) => Ok(side),
        Err(Or::NoMemory) => Err(Or::NoMemory),
        Err(Or::Because(fault)) => Err(Or::Because(LineFault::Exceeds(limit_of(&fault)))),
    }
}

/// Whether the moves show that the left side of the pair is at least the right one, or, where that is asked, that it is
/// greater.
pub fn check_pair<'a>(
    alloc: Global,
    system: &System,
    readings: &Readings<'a>,
    pair: &Pair,
    strict: bool,
    moves: &Moves,
) -> Result<(), Or<LineFault>>
    requires proper { AreProper (system_data system.now).symbols (system_data system.now).rules (readings_data readings.now) }
    requires sides { HasMarkedSides (system_data system.now).symbols (system_data system.now).rules (readings_data readings.now).marks
        (pair_data pair.now) }
    ensures { let side = pair_run (system_data system.now).symbols (system_data system.now).rules (readings_data readings.now)
        (pair_data pair.now) in IsAnswerOf (side false) (side true) strict (transfers moves.now) result }
{
    let left = pair_side(alloc, system, readings, pair, false)?;
    let right = pair_side(alloc, system, readings, pair, true)?;
    check_line(&left, &right, strict, moves)
}

// A side of the pair.
fn pair_side<'a>(
    alloc: Global,
    system: &System,
    readings: &Readings<'a>,
    pair: &Pair,
    right: bool,
) -> Result<Poly, Or<LineFault>>
    requires proper { AreProper (system_data system.now).symbols (system_data system.now).rules (readings_data readings.now) }
    requires sides { HasMarkedSides (system_data system.now).symbols (system_data system.now).rules (readings_data readings.now).marks
        (pair_data pair.now) }
    ensures { let run = pair_run (system_data system.now).symbols (system_data system.now).rules (readings_data readings.now)
        (pair_data pair.now) right in MatchOr result (λ p. IsSide run (poly p)) (IsExcessOf run) }
{
    match side_of_pair(alloc, system, readings, pair, right) {
        Ok(side) => Ok(side),
        Err(Or::NoMemory) => Err(Or::NoMemory),
        Err(Or::Because(fault)) => Err(Or::Because(LineFault::Exceeds(limit_of(&fault)))),
    }
}

// The limit that the fault names.
fn limit_of(fault: &PolyFault) -> Excess
    ensures { result ≡ limit_of fault.now }
{
    match fault {
        PolyFault::Overflow { .. } => Excess::Overflow,
        PolyFault::TooLarge { .. } => Excess::TooLarge,
    }
}

// Whether the moves show that the first side is at least the second one, or greater. Where there are more moves than 32
// bits count, which is more than memory holds, the answer is want of memory.
fn check_line(left: &Poly, right: &Poly, strict: bool, moves: &Moves) -> Result<(), Or<LineFault>>
    requires left { IsSomeSide (poly left.now) }
    requires right { IsSomeSide (poly right.now) }
    ensures { (a b : Run Polynomial) → IsSide a (poly left.now) → IsSide b (poly right.now)
        → IsAnswerOf a b strict (transfers moves.now) result }
{
    let items = moves.as_slice();
    if items.len() > u32::MAX as usize {
        return Err(Or::NoMemory);
    }
    let checked = if strict {
        check_strict(left, right, items)
    } else {
        check_weak(left, right, items)
    };
    match checked {
        Ok(()) => Ok(()),
        Err(fault) => Err(Or::Because(LineFault::Cover(fault))),
    }
}
