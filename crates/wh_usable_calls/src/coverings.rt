//! The law on sets of pairs that are covered with the rules of a closed list.

ghost use Rattle.std.specs.Prelude.{ℕ, List};
ghost use Rattle.wh_terms.specs.Rules.{AreWellMade};
ghost use Rattle.wh_step.specs.Step.{Step};
ghost use Rattle.wh_pairs.specs.Sets.{IsSetOf, IsKept, InSet};
ghost use Rattle.wh_proof_calls.specs.MarkedCalls.{CallsEnd};
ghost use Rattle.wh_reduction_pairs.specs.TaskData.{TaskData};
ghost use Rattle.wh_reduction_pairs.specs.ReductionPair.{Evidence};
ghost use Rattle.wh_hopoly.specs.Moves.{Transfer};
ghost use Rattle.wh_polycheck.specs.Readings.{ReadingsData};
ghost use Rattle.wh_polycheck.specs.Covering.{IsCovering, HaveTypedSides};
ghost use Rattle.wh_usable.specs.Closed.{IsUsable};

/// Where readings and moves cover a task, and the rules that are to be covered are closed for its set, calls by its set
/// end if calls by the pairs that are not dropped do (Fuhs and Kop 2012, the reduction pair processor; the condition on
/// the rules is ours).
pub fn usable_coverings_keep_that_calls_end()
    ensures { (T : TaskData) (R : ReadingsData) (E : Evidence (List Transfer)) (rest : List ℕ) → AreWellMade T.symbols T.rules
        → HaveTypedSides T.symbols T.rules T.pairs → IsUsable T → IsCovering T R E → IsSetOf (IsKept T.set E.drop) rest
        → CallsEnd T.symbols T.rules (Step T.rules) (InSet T.pairs rest)
        → CallsEnd T.symbols T.rules (Step T.rules) (InSet T.pairs T.set) }
{}
