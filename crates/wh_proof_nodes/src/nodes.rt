//! Laws of the nodes of a termination proof: where the nodes prove the set of all pairs, every well-typed term is
//! bounded.

ghost use Rattle.std.specs.Prelude.{ℕ, ◌≡◌, ◌<◌, List, [], ◌∷◌, length, Contains};
ghost use Rattle.wh_terms.specs.Tree.{Tm, tms_of};
ghost use Rattle.wh_terms.specs.Typing.{Symbols, WellTyped};
ghost use Rattle.wh_terms.specs.Value.{Body, Values};
ghost use Rattle.wh_terms.specs.Rules.{RewriteRule, AreWellMade};
ghost use Rattle.wh_step.specs.Step.{Step};
ghost use Rattle.wh_step.specs.Reduction.{Bounded};
ghost use Rattle.wh_step_laws.specs.Ends.{StepsIn};
ghost use Rattle.wh_pairs.specs.PairData.{PairData};
ghost use Rattle.wh_system.specs.Systems.{SystemData};
ghost use Rattle.wh_system.specs.WellMade.{IsWellMadeSystem};
ghost use Rattle.wh_access.specs.Passing.{IsPassing};
ghost use Rattle.wh_pairs.specs.Candidates.{candidates};
ghost use Rattle.wh_pairs.specs.Subsumption.{ArePairs};
ghost use Rattle.wh_graph.specs.May.{May};
ghost use Rattle.wh_proof_calls.specs.MarkedCalls.{CallsEnd};
ghost use Rattle.wh_polycheck.specs.Covering.{HaveTypedSides};
ghost use Rattle.wh_order_descent.specs.PatternSides.{HaveKnownSorts, HavePatternSides};
ghost use Rattle.wh_proof_nodes.specs.Many.{Many};
ghost use Rattle.wh_proof.specs.Nodes.{Node};
ghost use Rattle.wh_proof.specs.Proves.{Proves};
ghost use Rattle.wh_pairs.specs.Sets.{InSet};

/// Where a pair follows another one in a chain, the graph says that it may follow it. The pair follows where the
/// arguments of a value of the one's right side step, one at a time and however often, to those of a value of the
/// other's left side, which has the same symbol (Kop 2012; Fuhs and Kop 2019, approximations of the dependency graph).
pub fn may_is_sound()
    ensures { (S : Symbols) (rules : List RewriteRule) (a b : PairData) (g h : ℕ → Body) (us vs : List Tm) → AreWellMade S rules
        → a.right_fun ≡ b.left_fun → Values g (tms_of a.right) (tms_of us) → Values h (tms_of b.left) (tms_of vs)
        → Many (StepsIn (Step rules)) us vs → May rules a b }
{}

/// Where the nodes prove the sets, the sides of all pairs are typed and closed, the left ones patterns, and all
/// declared sorts known, a call whose arguments end leads to no endless sequence of calls by the pairs of any one of
/// the sets (Kop 2012 for the dependency graph, the subterm criterion and path orders, Fuhs and Kop 2012 for
/// interpretations; Fuhs and Kop 2019 for calls whose arguments end, the minimal chains).
pub fn nodes_keep_that_calls_end()
    ensures { (S : Symbols) (rules : List RewriteRule) (pairs : List PairData) (sets : List (List ℕ)) (nodes : List Node) (set : List ℕ)
        → AreWellMade S rules → HaveKnownSorts S rules → HaveTypedSides S rules pairs → HavePatternSides S pairs
        → Proves S rules pairs sets nodes → Contains sets set
        → CallsEnd S rules (Step rules) (InSet pairs set) }
{}

/// Where a system is passing under ranks, and the nodes prove the set of all its pairs, each well-typed term is
/// bounded: there is a number that no reduction from it exceeds in length (Kop 2012; Fuhs and Kop 2019).
pub fn proved_systems_are_bounded()
    ensures { (d : SystemData) (ranks : List ℕ) (ps : List PairData) (all : List ℕ) (nodes : List Node) → IsWellMadeSystem d
        → IsPassing d ranks → ArePairs (candidates d.symbols d.rules) ps → ((n : ℕ) → n < length ps → Contains all n)
        → Proves d.symbols d.rules ps (all ∷ []) nodes → (t : Tm) → WellTyped d.symbols t → Bounded d.rules t }
{}
