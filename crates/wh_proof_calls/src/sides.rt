//! The right side of a rule is computable where its calls are, and each of its calls is served by a pair.

ghost use Rattle.std.specs.Prelude.{ℕ, List, [], Contains};
ghost use Rattle.wh_types.specs.Ty.{Ty};
ghost use Rattle.wh_terms.specs.Tree.{Tm};
ghost use Rattle.wh_terms.specs.Typing.{Typed};
ghost use Rattle.wh_terms.specs.Value.{Body, Value};
ghost use Rattle.wh_terms.specs.Rules.{RewriteRule};
ghost use Rattle.wh_step.specs.Step.{Step};
ghost use Rattle.wh_pairs.specs.PairData.{PairData};
ghost use Rattle.wh_system.specs.Systems.{SystemData};
ghost use Rattle.wh_system.specs.WellMade.{IsWellMadeSystem};
ghost use Rattle.wh_step_laws.specs.Computable.{Computable};
ghost use Rattle.wh_pairs.specs.Calls.{Call, calls_of};
ghost use Rattle.wh_pairs.specs.Candidates.{candidates};
ghost use Rattle.wh_pairs.specs.Subsumption.{ArePairs};
ghost use Rattle.wh_proof_calls.specs.MarkedCalls.{MarkedCall};
ghost use Rattle.wh_proof_calls.specs.Sides.{HasComputableBodies, IsComputableUnder, IsLedByCall, IsLedByPair};

/// Let the bodies of the meta-variables of a right side be computable, and the calls in it: then its value is
/// computable (Fuhs and Kop 2019, from rules to the calls in their right sides).
pub fn right_sides_are_computable()
    ensures { (d : SystemData) (rank : ℕ → ℕ) (r : RewriteRule) (g : ℕ → Body) (a : Ty) (v : Tm) → IsWellMadeSystem d
        → Contains d.rules r → Typed d.symbols r.metas [] r.right a → HasComputableBodies d.symbols rank (Step d.rules) r g
        → ((c : Call) → Contains (calls_of d.rules r) c → IsComputableUnder d.symbols rank (Step d.rules) g c) → Value g r.right v
        → Computable d.symbols rank (Step d.rules) a v }
{}

/// Where a rule leads from one marked call to another by a call of its right side, one of the dependency pairs does
/// (Kop 2012; Fuhs and Kop 2019; that it may be one that subsumes the call's own candidate is ours).
pub fn calls_are_served_by_pairs()
    ensures { (d : SystemData) (pairs : List PairData) (r : RewriteRule) (c : Call) (from to : MarkedCall) → IsWellMadeSystem d
        → ArePairs (candidates d.symbols d.rules) pairs → Contains d.rules r → Contains (calls_of d.rules r) c
        → IsLedByCall d.symbols r c from to → IsLedByPair d.symbols pairs from to }
{}
