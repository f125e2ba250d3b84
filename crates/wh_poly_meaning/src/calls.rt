//! Laws on the values of marked calls: steps and covered pairs do not raise them, and strictly covered pairs lower
//! them.

ghost use Rattle.std.specs.Prelude.{List, ◌≤◌, ◌<◌};
ghost use Rattle.wh_terms.specs.Typing.{Symbols};
ghost use Rattle.wh_terms.specs.Rules.{RewriteRule, AreWellMade};
ghost use Rattle.wh_step.specs.Step.{Step};
ghost use Rattle.wh_pairs.specs.PairData.{PairData};
ghost use Rattle.wh_proof_calls.specs.MarkedCalls.{MarkedCall, IsTypedCall, PairLeads, ArgumentsStep};
ghost use Rattle.wh_polycheck.specs.Sides.{RulesAreCovered};
ghost use Rattle.wh_polycheck.specs.Marks.{HasMarkedSides};
ghost use Rattle.wh_polycheck.specs.Readings.{ReadingsData, AreProper};
ghost use Rattle.wh_poly_meaning.specs.PairCovers.{worth_of, PairIsCovered, PairIsStrictlyCovered};

/// Where every rule is covered, no step in an argument raises what a call is worth.
pub fn steps_do_not_raise_calls()
    ensures { (S : Symbols) (rules : List RewriteRule) (R : ReadingsData) (c d : MarkedCall) → AreWellMade S rules → AreProper S rules R
        → RulesAreCovered R.symbols rules → IsTypedCall S rules c → ArgumentsStep (Step rules) c d
        → worth_of S rules R d ≤ worth_of S rules R c }
{}

/// A pair whose left side covers the right one leads to no call that is worth more.
pub fn covered_pairs_do_not_raise_calls()
    ensures { (S : Symbols) (rules : List RewriteRule) (R : ReadingsData) (p : PairData) (c d : MarkedCall) → AreProper S rules R
        → PairIsCovered S rules R p → PairLeads S p c d → worth_of S rules R d ≤ worth_of S rules R c }
{}

/// A pair whose left side covers the right one strictly leads to a call that is worth less.
pub fn strictly_covered_pairs_lower_calls()
    ensures { (S : Symbols) (rules : List RewriteRule) (R : ReadingsData) (p : PairData) (c d : MarkedCall) → AreProper S rules R
        → HasMarkedSides S rules R.marks p → PairIsStrictlyCovered S rules R p → PairLeads S p c d
        → worth_of S rules R d < worth_of S rules R c }
{}
