//! Values by recursion in three cases are the least bounds, and calls have numbers that steps and pairs do not raise.

ghost use Rattle.std.specs.Prelude.{ℕ, ◌<◌, ◌≤◌, List, true, false};
ghost use Rattle.wh_terms.specs.Tree.{Tm};
ghost use Rattle.wh_terms.specs.Typing.{Symbols, WellTyped};
ghost use Rattle.wh_terms.specs.Rules.{RewriteRule, AreWellMade};
ghost use Rattle.wh_step.specs.Step.{Step};
ghost use Rattle.wh_step.specs.Reduction.{Bounded};
ghost use Rattle.wh_pairs.specs.PairData.{PairData};
ghost use Rattle.wh_pairs.specs.Sets.{InSet};
ghost use Rattle.wh_reduction_pairs.specs.TaskData.{TaskData};
ghost use Rattle.wh_reduction_pairs.specs.ReductionPair.{Evidence};
ghost use Rattle.wh_hopoly.specs.Evaluation.{Interpretation};
ghost use Rattle.wh_hopoly.specs.Moves.{Transfer};
ghost use Rattle.wh_polycheck.specs.Readings.{ReadingsData};
ghost use Rattle.wh_polycheck.specs.Covering.{by_moves, IsCovering, HaveTypedSides};
ghost use Rattle.wh_usable.specs.Closed.{AreClosedRules, AreClosedPairs};
ghost use Rattle.wh_proof_calls.specs.MarkedCalls.{MarkedCall, PairLeads, ArgumentsStep};
ghost use Rattle.wh_usable_calls.specs.Bounds.{Bounds};
ghost use Rattle.wh_law_projection.specs.LongestSequences.{IsBoundedCall};
ghost use Rattle.wh_law_values.specs.Values.{IsValue, IsCallNumber};

/// A value of a term is the least of the numbers that bound it; so a term has at most one value.
pub fn values_are_least_bounds()
    ensures { (S : Symbols) (rules : List RewriteRule) (listed : List ℕ) (symbols : List Interpretation) (t : Tm) (n : ℕ)
        → IsValue S rules listed symbols t n
        → Bounds S rules listed symbols t n × ((m : ℕ) → Bounds S rules listed symbols t m → n ≤ m) }
{}

/// Each well-typed term that is bounded in the number of its steps has a value, whatever rules are listed and however
/// symbols are interpreted.
pub fn bounded_terms_have_values()
    ensures { (S : Symbols) (rules : List RewriteRule) (listed : List ℕ) (symbols : List Interpretation) (t : Tm) → AreWellMade S rules
        → WellTyped S t → Bounded rules t → (n : ℕ) × IsValue S rules listed symbols t n }
{}

/// Each typed call with bounded arguments has a number.
pub fn bounded_calls_have_numbers()
    ensures { (S : Symbols) (rules : List RewriteRule) (listed : List ℕ) (R : ReadingsData) (c : MarkedCall) → AreWellMade S rules
        → IsBoundedCall S rules c → (n : ℕ) × IsCallNumber S rules listed R c n }
{}

/// Where readings and moves cover a task whose listed rules are closed, no step in an argument raises a call's number.
pub fn steps_do_not_raise_numbers()
    ensures { (T : TaskData) (R : ReadingsData) (E : Evidence (List Transfer)) (c d : MarkedCall) (n m : ℕ)
        → AreWellMade T.symbols T.rules → IsCovering T R E → AreClosedRules T → ArgumentsStep (Step T.rules) c d
        → IsCallNumber T.symbols T.rules T.covered R c n → IsCallNumber T.symbols T.rules T.covered R d m → m ≤ n }
{}

/// Nor does a pair of the set that moves cover, where the pairs of the set are closed for the listed rules.
pub fn pairs_do_not_raise_numbers()
    ensures { (T : TaskData) (R : ReadingsData) (E : Evidence (List Transfer)) (p : PairData) (ms : List Transfer) (c d : MarkedCall)
        (n m : ℕ) → AreWellMade T.symbols T.rules → IsCovering T R E → HaveTypedSides T.symbols T.rules T.pairs → AreClosedPairs T
        → InSet T.pairs T.set p → (by_moves T.symbols T.rules R).pair p false ms → IsBoundedCall T.symbols T.rules d
        → PairLeads T.symbols p c d → IsCallNumber T.symbols T.rules T.covered R c n
        → IsCallNumber T.symbols T.rules T.covered R d m → m ≤ n }
{}

/// A pair of the set that moves cover strictly lowers the number.
pub fn strict_pairs_lower_numbers()
    ensures { (T : TaskData) (R : ReadingsData) (E : Evidence (List Transfer)) (p : PairData) (ms : List Transfer) (c d : MarkedCall)
        (n m : ℕ) → AreWellMade T.symbols T.rules → IsCovering T R E → HaveTypedSides T.symbols T.rules T.pairs → AreClosedPairs T
        → InSet T.pairs T.set p → (by_moves T.symbols T.rules R).pair p true ms → IsBoundedCall T.symbols T.rules d
        → PairLeads T.symbols p c d → IsCallNumber T.symbols T.rules T.covered R c n
        → IsCallNumber T.symbols T.rules T.covered R d m → m < n }
{}
