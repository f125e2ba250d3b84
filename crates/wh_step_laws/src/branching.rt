//! Matching is decided, and a term has finitely many reducts; both for terms of any size.

ghost use Rattle.std.specs.Prelude.{ℕ, ◌≡◌, ◌⊎◌, List};
ghost use Rattle.wh_terms.specs.Tree.{Tm};
ghost use Rattle.wh_terms.specs.Sight.{LooseBelow, IsTerm, Occurs};
ghost use Rattle.wh_terms.specs.Typing.{Symbols};
ghost use Rattle.wh_terms.specs.Pattern.{IsPattern};
ghost use Rattle.wh_terms.specs.Value.{Body, Value};
ghost use Rattle.wh_terms.specs.Rules.{RewriteRule, IsWellMade, AreWellMade};
ghost use Rattle.wh_step.specs.Step.{Step};
ghost use Rattle.wh_step_laws.specs.Branching.{ListsAll};

/// Two meta-substitutions that give a pattern one value agree on the meta-variables that occur in it.
pub fn matches_agree()
    ensures { (g h : ℕ → Body) (p t : Tm) → IsPattern p → Value g p t → Value h p t → (z : ℕ) → Occurs z p → g z ≡ h z }
{}

/// A meta-substitution gives a rule's left side the term as its value, or none does.
pub fn matching_is_decided()
    ensures { (S : Symbols) (r : RewriteRule) (t : Tm) → IsWellMade S r
        → (((g : ℕ → Body) × Value g r.left t) ⊎ ((g : ℕ → Body) → Value g r.left t → ⊥)) }
{}

/// There is a list of exactly the reducts of a term.
pub fn reducts_are_finite()
    ensures { (S : Symbols) (rules : List RewriteRule) (t : Tm) → AreWellMade S rules → LooseBelow 0 t → IsTerm t
        → (l : List Tm) × ListsAll (Step rules) t l }
{}
