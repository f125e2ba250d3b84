//! From calls that end to terms that are bounded: the laws that tie dependency pairs to termination.

ghost use Rattle.std.specs.Prelude.{ℕ, ◌≡◌, List, Some, slice_get, Contains};
ghost use Rattle.wh_types.specs.Ty.{Ty};
ghost use Rattle.wh_terms.specs.Tree.{Tm, fun};
ghost use Rattle.wh_terms.specs.Typing.{Symbols, WellTyped};
ghost use Rattle.wh_terms.specs.Rules.{RewriteRule};
ghost use Rattle.wh_step.specs.Step.{Step};
ghost use Rattle.wh_step.specs.Reduction.{Bounded};
ghost use Rattle.wh_step_laws.specs.Ranks.{rank_of};
ghost use Rattle.wh_step_laws.specs.Computable.{Computable};
ghost use Rattle.wh_pairs.specs.PairData.{PairData};
ghost use Rattle.wh_system.specs.Systems.{SystemData};
ghost use Rattle.wh_system.specs.WellMade.{IsWellMadeSystem};
ghost use Rattle.wh_access.specs.Passing.{IsPassing};
ghost use Rattle.wh_pairs.specs.Candidates.{candidates};
ghost use Rattle.wh_pairs.specs.Subsumption.{ArePairs};
ghost use Rattle.wh_pairs.specs.Sets.{InSet};
ghost use Rattle.wh_proof_calls.specs.MarkedCalls.{MarkedCall, CallsEnd};
ghost use Rattle.wh_proof_calls.specs.CallOrders.{by_numbers, by_function, AreMeasured};

/// Where a system is passing under ranks and the calls of its pairs lead to no endless sequence, each
/// symbol is computable (Tait 1967 for computability; Fuhs and Kop 2019 for pairs under passing).
pub fn symbols_are_computable_where_calls_end()
    ensures { (d : SystemData) (ranks : List ℕ) (ps : List PairData) → IsWellMadeSystem d → IsPassing d ranks
        → ArePairs (candidates d.symbols d.rules) ps → CallsEnd d.symbols d.rules (Step d.rules) (Contains ps)
        → (f : ℕ) (a : Ty) → slice_get d.symbols.funs f ≡ Some a → Computable d.symbols (rank_of ranks) (Step d.rules) a (fun f) }
{}

/// Where a system is passing under ranks and the calls of its pairs lead to no endless sequence, each well-typed term
/// is bounded: there is a number that no reduction from it exceeds in length.
pub fn terms_are_bounded_where_calls_end()
    ensures { (d : SystemData) (ranks : List ℕ) (ps : List PairData) → IsWellMadeSystem d → IsPassing d ranks
        → ArePairs (candidates d.symbols d.rules) ps → CallsEnd d.symbols d.rules (Step d.rules) (Contains ps)
        → (t : Tm) → WellTyped d.symbols t → Bounded d.rules t }
{}

/// The law of reduction pairs: where no step makes the measure of a call more, and each pair of a set is kept or makes
/// it less, calls by the set end if calls by the kept pairs do. The lemma behind it takes any orders in place of those
/// of the numbers (Kop 2012, the reduction pair processor).
pub fn measured_calls_end()
    ensures { (S : Symbols) (rules : List RewriteRule) (pairs : List PairData) (set kept : List ℕ) (measure : MarkedCall → ℕ)
        → AreMeasured S rules (Step rules) by_numbers (by_function measure) (InSet pairs set) (InSet pairs kept)
        → CallsEnd S rules (Step rules) (InSet pairs kept) → CallsEnd S rules (Step rules) (InSet pairs set) }
{}
