//! Pairs whose left sides are at least the right ones in a path order behind filters.

ghost use Rattle.std.specs.Prelude.{ℕ, List};
ghost use Rattle.wh_terms.specs.Rules.{AreWellMade};
ghost use Rattle.wh_step.specs.Step.{Step};
ghost use Rattle.wh_pairs.specs.PairData.{PairData};
ghost use Rattle.wh_pairs.specs.Sets.{IsSetOf, IsKept, InSet};
ghost use Rattle.wh_pairs.specs.Candidates.{candidates};
ghost use Rattle.wh_pairs.specs.Subsumption.{ArePairs};
ghost use Rattle.wh_system.specs.Systems.{SystemData};
ghost use Rattle.wh_system.specs.WellMade.{IsWellMadeSystem};
ghost use Rattle.wh_proof_calls.specs.MarkedCalls.{CallsEnd};
ghost use Rattle.wh_reduction_pairs.specs.TaskData.{TaskData, CoversAll};
ghost use Rattle.wh_reduction_pairs.specs.ReductionPair.{Evidence};
ghost use Rattle.wh_order_inference.specs.Inferences.{Inference};
ghost use Rattle.wh_polycheck.specs.Covering.{HaveTypedSides};
ghost use Rattle.wh_order_node.specs.Filterings.{FilteringData};
ghost use Rattle.wh_order_node.specs.Ordering.{IsOrdering};
ghost use Rattle.wh_order_descent.specs.PatternSides.{HaveKnownSorts, HavePatternSides};

/// Where filters and inferences order a task, and all rules are to be covered, calls by its set end if calls by the
/// pairs that are not dropped do (Kop 2012, the reduction pair processor with argument filters).
pub fn orderings_keep_that_calls_end()
    ensures { (T : TaskData) (D : FilteringData) (E : Evidence Inference) (rest : List ℕ) → AreWellMade T.symbols T.rules
        → HaveKnownSorts T.symbols T.rules → HaveTypedSides T.symbols T.rules T.pairs → HavePatternSides T.symbols T.pairs → CoversAll T
        → IsOrdering T D E → IsSetOf (IsKept T.set E.drop) rest
        → CallsEnd T.symbols T.rules (Step T.rules) (InSet T.pairs rest)
        → CallsEnd T.symbols T.rules (Step T.rules) (InSet T.pairs T.set) }
{}

/// A well-made system has sorts for all that its symbols and its rules' meta-variables are declared with.
pub fn systems_have_known_sorts()
    ensures { (d : SystemData) → IsWellMadeSystem d → HaveKnownSorts d.symbols d.rules }
{}

/// Every pair of a well-made system has patterns on its left side, and meta-variables of known sorts.
pub fn pairs_have_pattern_sides()
    ensures { (d : SystemData) (pairs : List PairData) → IsWellMadeSystem d → ArePairs (candidates d.symbols d.rules) pairs
        → HavePatternSides d.symbols pairs }
{}
