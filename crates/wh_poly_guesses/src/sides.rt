//! The sides of rules and of pairs, evaluated. There is none where a value exceeds a limit.

ghost use Rattle.std.specs.Prelude.{◌≡◌, ◌<◌, IfOk, MatchOption, Some, length, slice_get};
ghost use Rattle.wh_terms.specs.Rules.{RewriteRule};
ghost use Rattle.wh_pairs.specs.PairData.{pair_data};
ghost use Rattle.wh_system.specs.SystemView.{system_data};
ghost use Rattle.wh_poly.specs.Erase.{poly};
ghost use Rattle.wh_polycheck.specs.Covering.{rule_run};
ghost use Rattle.wh_polycheck.specs.Marks.{HasMarkedSides};
ghost use Rattle.wh_polycheck.specs.Readings.{AreProper};
ghost use Rattle.wh_polycheck.specs.ReadingsView.{readings_data};
ghost use Rattle.wh_poly_covering.specs.Lines.{IsSide};
ghost use Rattle.wh_poly_guesses.specs.Lines.{HasNoSide, run_of_pair};

use std::alloc::{AllocError, Global};
use wh_hopoly::PolyFault;
use wh_pairs::Pair;
use wh_poly::Poly;
use wh_polycheck::{Readings, side_of_pair, side_of_rule};
use wh_system::System;
use wh_types::Or;

/// A side of the rule; `None` where a value exceeds a limit.
pub fn rule_side<'a>(
    alloc: Global,
    system: &System,
    readings: &Readings<'a>,
    rule: u32,
    right: bool,
) -> Result<Option<Poly>, AllocError>
    requires proper { AreProper (system_data system.now).symbols (system_data system.now).rules (readings_data readings.now) }
    requires rule { rule < length (system_data system.now).rules }
    ensures { (r : RewriteRule) → slice_get (system_data system.now).rules rule ≡ Some r
        → IfOk result (λ found. MatchOption found (HasNoSide (rule_run (readings_data readings.now) r right))
        (λ p. IsSide (rule_run (readings_data readings.now) r right) (poly p))) }
{
    match side_of_rule(alloc, system, readings, rule, right) {
        Ok(side) => Ok(Some(side)),
        Err(Or::NoMemory) => Err(AllocError),
        Err(Or::Because(_)) => Ok(None),
    }
}

/// A side of the pair; `None` where a value exceeds a limit.
pub fn pair_side<'a>(
    alloc: Global,
    system: &System,
    readings: &Readings<'a>,
    pair: &Pair,
    right: bool,
) -> Result<Option<Poly>, AllocError>
    requires proper { AreProper (system_data system.now).symbols (system_data system.now).rules (readings_data readings.now) }
    requires sides { HasMarkedSides (system_data system.now).symbols (system_data system.now).rules (readings_data readings.now).marks
        (pair_data pair.now) }
    ensures { IfOk result (λ found. MatchOption found (HasNoSide (run_of_pair system.now readings.now pair.now right))
        (λ p. IsSide (run_of_pair system.now readings.now pair.now right) (poly p))) }
{
    match side_of_pair(alloc, system, readings, pair, right) {
        Ok(side) => Ok(Some(side)),
        Err(Or::NoMemory) => Err(AllocError),
        Err(Or::Because(_)) => Ok(None),
    }
}
