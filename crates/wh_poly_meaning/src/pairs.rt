//! Laws on sets of pairs whose sides are covered: calls by the set end where calls by the kept pairs do.

ghost use Rattle.std.specs.Prelude.{ℕ, ◌≡◌, ◌⊎◌, List, Bool, Contains, Some, slice_get};
ghost use Rattle.wh_terms.specs.Typing.{Symbols};
ghost use Rattle.wh_terms.specs.Rules.{RewriteRule, AreWellMade};
ghost use Rattle.wh_step.specs.Step.{Step};
ghost use Rattle.wh_pairs.specs.PairData.{PairData};
ghost use Rattle.wh_pairs.specs.Sets.{IsSetOf, IsKept, InSet};
ghost use Rattle.wh_system.specs.Systems.{SystemData};
ghost use Rattle.wh_system.specs.WellMade.{IsWellMadeSystem};
ghost use Rattle.wh_pairs.specs.Candidates.{candidates};
ghost use Rattle.wh_pairs.specs.Subsumption.{ArePairs};
ghost use Rattle.wh_proof_calls.specs.MarkedCalls.{CallsEnd};
ghost use Rattle.wh_reduction_pairs.specs.TaskData.{TaskData, CoversAll};
ghost use Rattle.wh_reduction_pairs.specs.ReductionPair.{Evidence};
ghost use Rattle.wh_hopoly.specs.Moves.{Transfer};
ghost use Rattle.wh_polycheck.specs.Sides.{Interprets, RulesAreCovered};
ghost use Rattle.wh_polycheck.specs.Marks.{Mark, HasMark, HasMarkedSides, IsNormOfPairSide};
ghost use Rattle.wh_polycheck.specs.Readings.{ReadingsData, AreProper};
ghost use Rattle.wh_polycheck.specs.Covering.{pair_run, IsCovering, HaveTypedSides};
ghost use Rattle.wh_poly_meaning.specs.PairCovers.{PairIsCovered, PairIsStrictlyCovered};

/// Where readings and moves cover a task, and all rules are to be covered, calls by its set end if calls by the pairs
/// that are not dropped do (Fuhs and Kop 2012, the reduction pair processor).
pub fn coverings_keep_that_calls_end()
    ensures { (T : TaskData) (R : ReadingsData) (E : Evidence (List Transfer)) (rest : List ℕ) → AreWellMade T.symbols T.rules
        → HaveTypedSides T.symbols T.rules T.pairs → CoversAll T → IsCovering T R E → IsSetOf (IsKept T.set E.drop) rest
        → CallsEnd T.symbols T.rules (Step T.rules) (InSet T.pairs rest)
        → CallsEnd T.symbols T.rules (Step T.rules) (InSet T.pairs T.set) }
{}

/// Where all rules and all pairs of a set are covered under some readings, and each of these pairs is kept or strictly
/// covered, calls by the set end if calls by the kept pairs do. The marked symbols have interpretations of their own;
/// the rules are covered by the symbols' alone (Fuhs and Kop 2012).
pub fn covers_keep_that_calls_end()
    ensures { (S : Symbols) (rules : List RewriteRule) (R : ReadingsData) (pairs : List PairData) (set kept : List ℕ)
        → AreWellMade S rules → AreProper S rules R → RulesAreCovered R.symbols rules
        → ((n : ℕ) (p : PairData) → Contains set n → slice_get pairs n ≡ Some p → PairIsCovered S rules R p)
        → ((n : ℕ) (p : PairData) → Contains set n → slice_get pairs n ≡ Some p
        → (Contains kept n ⊎ PairIsStrictlyCovered S rules R p)) → CallsEnd S rules (Step rules) (InSet pairs kept)
        → CallsEnd S rules (Step rules) (InSet pairs set) }
{}

/// The sides of a pair have their polynomials as normal forms.
pub fn marked_sides_have_normal_forms()
    ensures { (S : Symbols) (rules : List RewriteRule) (R : ReadingsData) (p : PairData) (right : Bool) → Interprets S R.symbols
        → HasMarkedSides S rules R.marks p
        → IsNormOfPairSide S rules R.symbols R.marks p right (pair_run S rules R p right).result }
{}

/// Every pair of a well-made system has typed and closed sides: with marks for its two symbols it has all that the
/// evaluation of its sides asks.
pub fn pairs_have_marked_sides()
    ensures { (d : SystemData) (pairs : List PairData) (marks : List Mark) (p : PairData) → IsWellMadeSystem d
        → ArePairs (candidates d.symbols d.rules) pairs → Contains pairs p → HasMark marks p.left_fun → HasMark marks p.right_fun
        → HasMarkedSides d.symbols d.rules marks p }
{}
