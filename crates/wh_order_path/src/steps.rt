//! Steps of a system whose rules are oriented by filters and inferences, and its pairs.

ghost use Rattle.std.specs.Prelude.{ℕ, ◌≢◌, List, [], ◌++◌};
ghost use Rattle.wh_types.specs.Ty.{Ty};
ghost use Rattle.wh_terms.specs.Tree.{Tm, tms_of};
ghost use Rattle.wh_terms.specs.Typing.{Symbols, Declared, Typed, AllTyped};
ghost use Rattle.wh_terms.specs.Rules.{RewriteRule};
ghost use Rattle.wh_terms.specs.Value.{Body, Values};
ghost use Rattle.wh_terms.specs.StepOver.{StepOver};
ghost use Rattle.wh_step.specs.Step.{Step};
ghost use Rattle.wh_step_laws.specs.Ends.{Ends, StepsIn};
ghost use Rattle.wh_step_laws.specs.RootRelations.{KnowsSorts};
ghost use Rattle.wh_order_inference.specs.Filters.{Filter};
ghost use Rattle.wh_order_inference.specs.Inferences.{Inference, letter_of, same_trees};
ghost use Rattle.wh_order_extended.specs.Many.{Many, Plus};
ghost use Rattle.wh_order_extended.specs.Filtered.{FitsMark};
ghost use Rattle.wh_order_path.specs.OrderRoot.{OrderRoot};
ghost use Rattle.wh_order_path.specs.Lines.{AreOriented, PairSides, HasTypedBodies, IsGoodPairLine, filtered_term, filtered_call};

/// A step of a well-typed term is steps of the path order and of beta between its extended and filtered trees.
pub fn steps_are_filtered_steps()
    ensures { (S F : Symbols) (Φ : ℕ → Filter) (prec : ℕ → ℕ) (rules : List RewriteRule) (t u : Tm) (a : Ty) → AreOriented S F Φ prec rules
        → Typed S [] [] t a → Step rules t u → Many (StepOver (OrderRoot F prec)) (filtered_term S Φ t) (filtered_term S Φ u) }
{}

/// A step in an argument of a well-typed call is steps of the path order and of beta between the calls' extended and
/// filtered trees.
pub fn steps_in_calls_are_filtered_steps()
    ensures { (S F : Symbols) (Φ : ℕ → Filter) (prec : ℕ → ℕ) (rules : List RewriteRule) (f : ℕ) (ts us : List Tm) (cs : List Ty)
        → AreOriented S F Φ prec rules → AllTyped S [] [] (tms_of ts) cs → StepsIn (Step rules) ts us
        → Many (StepOver (OrderRoot F prec)) (filtered_call S Φ [] f ts) (filtered_call S Φ [] f us) }
{}

/// The extended and filtered tree of a call with well-typed arguments ends.
pub fn filtered_calls_end()
    ensures { (S F : Symbols) (Φ : ℕ → Filter) (prec : ℕ → ℕ) (rules : List RewriteRule) (f : ℕ) (ts : List Tm) (cs : List Ty)
        → AreOriented S F Φ prec rules → KnowsSorts F → FitsMark S F Φ f cs → AllTyped S [] [] (tms_of ts) cs
        → Ends (StepOver (OrderRoot F prec)) (filtered_call S Φ [] f ts) }
{}

/// Where the inference of a pair is good, zero or more steps lead from an instance of its left side to that of its
/// right side, behind filters; one or more where the inference is not that of equal trees.
pub fn good_pairs_are_filtered_steps()
    ensures { (S F : Symbols) (Φ : ℕ → Filter) (prec : ℕ → ℕ) (rules : List RewriteRule) (M : List Declared) (f g : ℕ) (cs ds : List Ty)
        (ls rs ts us : List Tm) (i : Inference) (b : ℕ → Body) → AreOriented S F Φ prec rules → FitsMark S F Φ f cs
        → FitsMark S F Φ g ds → PairSides S M cs ds ls rs → IsGoodPairLine S F Φ prec M f ls g rs i
        → HasTypedBodies S M b (tms_of (ls ++ rs)) → Values b (tms_of ls) (tms_of ts) → Values b (tms_of rs) (tms_of us)
        → Many (StepOver (OrderRoot F prec)) (filtered_call S Φ [] f ts) (filtered_call S Φ [] g us)
        × (letter_of i ≢ same_trees
        → Plus (StepOver (OrderRoot F prec)) (filtered_call S Φ [] f ts) (filtered_call S Φ [] g us)) }
{}
