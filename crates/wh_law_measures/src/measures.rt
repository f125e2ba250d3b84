//! The measures of calls by the nodes of a termination proof.

ghost use Rattle.std.specs.Prelude.{ℕ, ◌≤◌, ◌≡◌, ◌⊎◌, List, [], ◌∷◌, ◌++◌, length, Some, All, Contains, slice_get, take};
ghost use Rattle.wh_types.specs.Ty.{Ty, arguments};
ghost use Rattle.wh_terms.specs.Typing.{Symbols};
ghost use Rattle.wh_terms.specs.Rules.{RewriteRule, AreWellMade};
ghost use Rattle.wh_step.specs.Step.{Step};
ghost use Rattle.wh_step_laws.specs.RootRelations.{KnowsSorts};
ghost use Rattle.wh_step_laws.specs.Computable.{ComputableList};
ghost use Rattle.wh_step_laws.specs.Ends.{Ends};
ghost use Rattle.wh_system.specs.Needs.{need_of};
ghost use Rattle.wh_system.specs.Systems.{SystemData};
ghost use Rattle.wh_system.specs.WellMade.{IsWellMadeSystem};
ghost use Rattle.wh_pairs.specs.PairData.{PairData};
ghost use Rattle.wh_pairs.specs.Candidates.{candidates};
ghost use Rattle.wh_pairs.specs.Subsumption.{ArePairs};
ghost use Rattle.wh_polycheck.specs.Covering.{HaveTypedSides};
ghost use Rattle.wh_order_descent.specs.PatternSides.{HavePatternSides};
ghost use Rattle.wh_cert.specs.Written as w;
ghost use Rattle.wh_proof.specs.Nodes.{Node};
ghost use Rattle.wh_proof.specs.Proves.{Proves};
ghost use Rattle.wh_proof.specs.Valid.{IsValidYes};
ghost use Rattle.wh_proof_calls.specs.MarkedCalls.{MarkedCall};
ghost use Rattle.wh_law_projection.specs.LongestSequences.{IsBoundedCall};
ghost use Rattle.wh_law_measures.specs.Lexicographic.{LeadsDown};
ghost use Rattle.wh_law_measures.specs.Reaching.{CanReachSome};
ghost use Rattle.wh_law_measures.specs.Measures.{Measure, EachMeasures};
ghost use Rattle.wh_law_measures.specs.NodeMeasures.{IsCounted, AreMeasures, HasMeasure};

/// A call with computable arguments, as many as the rules of its symbol need, is typed and has bounded arguments; so it
/// has measures.
pub fn computable_arguments_are_bounded()
    ensures { (S : Symbols) (rules : List RewriteRule) (rank : ℕ → ℕ) (c : MarkedCall) (kind : Ty) (need : ℕ) → AreWellMade S rules
        → KnowsSorts S → slice_get S.funs c.symbol ≡ Some kind → need_of rules c.symbol ≡ Some need
        → ComputableList S rank (Step rules) (take need (arguments kind)) c.arguments → IsBoundedCall S rules c }
{}

/// Whether a call with bounded arguments can still reach the left side of a pair of a set is decided, by the finite
/// list of what its arguments step to.
pub fn reaching_is_decided()
    ensures { (S : Symbols) (rules : List RewriteRule) (pairs : List PairData) (set : List ℕ) (c : MarkedCall) → AreWellMade S rules
        → HaveTypedSides S rules pairs → HavePatternSides S pairs → IsBoundedCall S rules c
        → (CanReachSome rules pairs set c ⊎ (CanReachSome rules pairs set c → ⊥)) }
{}

/// Where nodes prove some sets, there is a measure for each of the sets: a function from the typed calls with bounded
/// arguments to lists of numbers that no step in an argument raises and that each pair of the set lowers. It is what
/// the kind of the set's node says (Kop 2012 for projections and the dependency graph, Fuhs and Kop 2012 for
/// interpretations; the lists are ours).
pub fn nodes_measure_calls()
    ensures { (S : Symbols) (rules : List RewriteRule) (pairs : List PairData) (sets : List (List ℕ)) (nodes : List Node)
        → AreWellMade S rules → HaveTypedSides S rules pairs → HavePatternSides S pairs → Proves S rules pairs sets nodes
        → All IsCounted nodes
        → (fs : List (Measure S rules)) × AreMeasures S rules pairs sets nodes fs × EachMeasures S rules pairs sets fs }
{}

/// Each node of a valid certificate has such a measure for its set, where from the node on none is of a path order.
pub fn nodes_of_valid_certificates_measure_calls()
    ensures { (d : SystemData) (ps : List PairData) (ranks : List ℕ) (count : ℕ) (lines : List w.Node) (before after : List Node)
        (node : Node) (valid : IsValidYes d ps ranks count lines) → IsWellMadeSystem d → ArePairs (candidates d.symbols d.rules) ps
        → valid.nodes ≡ before ++ (node ∷ after) → All IsCounted (node ∷ after)
        → HasMeasure d.symbols d.rules ps valid.set before node after }
{}

/// The measures by the nodes of a list give no call more numbers than there are nodes.
pub fn measures_have_short_lists()
    ensures { (S : Symbols) (rules : List RewriteRule) (pairs : List PairData) (sets : List (List ℕ)) (nodes : List Node)
        (fs : List (Measure S rules)) (f : Measure S rules) (c : MarkedCall) (good : IsBoundedCall S rules c)
        → AreMeasures S rules pairs sets nodes fs → Contains fs f → length (f c good) ≤ length nodes }
{}

/// From no list of numbers do lists of at most n numbers go down for ever, each less than the one before. So no
/// sequence of calls along which a measure goes down is endless.
pub fn short_lists_end()
    ensures { (n : ℕ) (l : List ℕ) → Ends (LeadsDown n) l }
{}
