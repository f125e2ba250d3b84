//! Laws on the values of terms: beta keeps them, covered steps do not raise them, and sides mean their polynomials.

ghost use Rattle.std.specs.Prelude.{ℕ, List, [], ◌∷◌, ◌≡◌};
ghost use Rattle.wh_types.specs.Ty.{Ty};
ghost use Rattle.wh_terms.specs.Tree.{Tm, lam, app};
ghost use Rattle.wh_terms.specs.Substitution.{opened};
ghost use Rattle.wh_terms.specs.Sight.{NoFree};
ghost use Rattle.wh_terms.specs.Typing.{Symbols, Declared, Typed};
ghost use Rattle.wh_terms.specs.Rules.{RewriteRule, AreWellMade};
ghost use Rattle.wh_terms.specs.StepOver.{StepOver};
ghost use Rattle.wh_step_laws.specs.RootRelations.{RuleRoot};
ghost use Rattle.wh_hopoly.specs.Evaluation.{Interpretation, NormalInterpretations};
ghost use Rattle.wh_poly_meaning.specs.Functionals.{Mono, Le};
ghost use Rattle.wh_poly_meaning.specs.Valuations.{Valuation, MonoValuation, LeValuation};
ghost use Rattle.wh_poly_meaning.specs.Meaning.{reading};
ghost use Rattle.wh_poly_meaning.specs.TermValues.{Meanings, MonoMeanings, value_in, of_interpretations, term_value};
ghost use Rattle.wh_polycheck.specs.Sides.{types_of_metas, side_polynomial, Interprets, RulesAreCovered, IsNormOfSide};

/// A beta step keeps the value.
pub fn beta_keeps_values()
    ensures { (S : Symbols) (m : Meanings) (scope : List Ty) (t u : Tm) (a b : Ty) (v : Valuation) → Typed S [] (a ∷ scope) t b
        → Typed S [] scope u a → value_in S [] m scope (opened u t) v b ≡ value_in S [] m scope (app (lam a t) u) v b }
{}

/// Values are monotone, and grow with the values of loose variables.
pub fn values_are_monotone()
    ensures mono { (S : Symbols) (m : Meanings) (scope : List Ty) (t : Tm) (v : Valuation) (a : Ty) → MonoMeanings m → MonoValuation v
        → Mono a (value_in S [] m scope t v a) }
    ensures grow { (S : Symbols) (m : Meanings) (scope : List Ty) (t : Tm) (v w : Valuation) (a : Ty) → MonoMeanings m → MonoValuation v
        → MonoValuation w → LeValuation v w → Le a (value_in S [] m scope t v a) (value_in S [] m scope t w a) }
{}

/// The value of a side is what its polynomial means, where the variables of the scope mean what the meta-variables do.
pub fn sides_mean_their_polynomials()
    ensures { (S : Symbols) (M : List Declared) (symbols : List Interpretation) (m : Meanings) (t : Tm) (a : Ty) (v : Valuation)
        → Interprets S symbols → NormalInterpretations symbols → ((f : ℕ) (b : Ty) → m.of_symbols f b ≡ of_interpretations symbols f b)
        → Typed S M [] t a → NoFree t → value_in S M m [] t v a ≡ reading a (types_of_metas M) m.of_metas (side_polynomial symbols M t) }
{}

/// Where every rule is covered, no step raises the value of a well-typed term, at any place, under binders too.
pub fn covered_steps_do_not_raise_values()
    ensures { (S : Symbols) (rules : List RewriteRule) (symbols : List Interpretation) (scope : List Ty) (t u : Tm) (a : Ty)
        (free v : Valuation) → AreWellMade S rules → Interprets S symbols → NormalInterpretations symbols → RulesAreCovered symbols rules
        → Typed S [] scope t a → StepOver (RuleRoot rules) t u → MonoValuation free → MonoValuation v
        → Le a (term_value S symbols free scope u v a) (term_value S symbols free scope t v a) }
{}

/// A well-typed side has its polynomial as its normal form.
pub fn sides_have_normal_forms()
    ensures { (S : Symbols) (M : List Declared) (symbols : List Interpretation) (t : Tm) (a : Ty) → Interprets S symbols
        → Typed S M [] t a → NoFree t → IsNormOfSide symbols M t (side_polynomial symbols M t) }
{}
