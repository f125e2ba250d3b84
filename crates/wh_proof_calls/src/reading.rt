//! What the right side of a rule reads in the arguments of the left side is computable where these are.

ghost use Rattle.std.specs.Prelude.{ℕ, ◌≡◌, List, [], Contains, Some, slice_get};
ghost use Rattle.wh_types.specs.Ty.{Ty};
ghost use Rattle.wh_terms.specs.Tree.{Tm, fun, spine};
ghost use Rattle.wh_terms.specs.Sight.{Occurs};
ghost use Rattle.wh_terms.specs.Typing.{Declared, Typed};
ghost use Rattle.wh_terms.specs.Value.{Body, Value};
ghost use Rattle.wh_terms.specs.Rules.{RewriteRule};
ghost use Rattle.wh_step.specs.Step.{Step};
ghost use Rattle.wh_step_laws.specs.Ranks.{rank_of};
ghost use Rattle.wh_step_laws.specs.Computable.{ComputableList};
ghost use Rattle.wh_system.specs.Systems.{SystemData};
ghost use Rattle.wh_system.specs.WellMade.{IsWellMadeSystem};
ghost use Rattle.wh_access.specs.Passing.{IsPassing};
ghost use Rattle.wh_proof_calls.specs.Bodies.{IsComputableBody};

/// Let the rules be passing under the ranks, and a well-typed value of a left side have computable
/// arguments: then each meta-variable of the right side has a computable body (Fuhs and Kop 2019,
/// accessible function passing).
pub fn arguments_give_computable_bodies()
    ensures { (d : SystemData) (ranks : List ℕ) (r : RewriteRule) (g : ℕ → Body) (f : ℕ) (ts : List Tm) (b : Ty) (cs : List Ty) (z : ℕ)
        (q : Declared) → IsWellMadeSystem d → IsPassing d ranks → Contains d.rules r → Value g r.left (spine (fun f) ts)
        → Typed d.symbols [] [] (spine (fun f) ts) b → ComputableList d.symbols (rank_of ranks) (Step d.rules) cs ts → Occurs z r.right
        → slice_get r.metas z ≡ Some q → IsComputableBody d.symbols (rank_of ranks) (Step d.rules) q (g z) }
{}
