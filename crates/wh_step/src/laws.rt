//! Laws of steps and reductions, each the contract of a function that does nothing.

ghost use Rattle.std.specs.Prelude.{◌≡◌, ◌<◌, ◌≤◌, ◌↔◌, ℕ, Contains, List, [], length, Option};
ghost use Rattle.wh_types.specs.Ty.{Ty};
ghost use Rattle.wh_terms.specs.Tree.{Tm, bound, lam};
ghost use Rattle.wh_terms.specs.Substitution.{act, opened};
ghost use Rattle.wh_terms.specs.Sight.{LooseBelow, IsTerm};
ghost use Rattle.wh_terms.specs.Typing.{Symbols, Typed};
ghost use Rattle.wh_terms.specs.Rules.{RewriteRule, AreWellMade};
ghost use Rattle.wh_step.specs.Step.{Step};
ghost use Rattle.wh_terms.specs.declared.path.Step as taken;
ghost use Rattle.wh_step.specs.Replay.{StepAt, Replays};
ghost use Rattle.wh_step.specs.Reduction.{Reduction, last_of, Bounded, Unbounded};
ghost use Rattle.wh_step.specs.Reducts.{AreReducts};

/// A step keeps the type of a well-typed term.
pub fn steps_keep_types()
    ensures { (S : Symbols) (rules : List RewriteRule) (t u : Tm) (a : Ty) → AreWellMade S rules → Typed S [] [] t a → Step rules t u
        → Typed S [] [] u a }
{}

/// A step brings no loose variable.
pub fn steps_bring_nothing_loose()
    ensures { (S : Symbols) (rules : List RewriteRule) (t u : Tm) → AreWellMade S rules → LooseBelow 0 t → Step rules t u → LooseBelow 0 u }
{}

/// A step brings no meta-variable.
pub fn steps_keep_terms()
    ensures { (S : Symbols) (rules : List RewriteRule) (t u : Tm) → AreWellMade S rules → IsTerm t → Step rules t u → IsTerm u }
{}

/// Steps are kept by substitution of terms without loose variables for free variables.
pub fn steps_under_substitution()
    ensures { (S : Symbols) (rules : List RewriteRule) (t u : Tm) (φ : ℕ → Ty → Tm) → AreWellMade S rules → LooseBelow 0 t → IsTerm t
        → ((x : ℕ) (a : Ty) → LooseBelow 0 (φ x a)) → ((x : ℕ) (a : Ty) → IsTerm (φ x a)) → Step rules t u
        → Step rules (act bound φ t) (act bound φ u) }
{}

/// An abstraction steps in its body alone, and then the body steps whatever term opens it. (The definition of a step
/// says the converse: a step of bodies that a fresh variable opens is a step of the abstractions.)
pub fn steps_of_abstractions()
    ensures { (S : Symbols) (rules : List RewriteRule) (a : Ty) (t v : Tm) → AreWellMade S rules → LooseBelow 0 (lam a t)
        → IsTerm (lam a t) → Step rules (lam a t) v → (t' : Tm) × (v ≡ lam a t')
        × ((u : Tm) → LooseBelow 0 u → IsTerm u → Step rules (opened u t) (opened u t')) }
{}

/// A reduction of at least one step that comes back to its beginning goes on for ever.
pub fn loops_are_unbounded()
    ensures { (rules : List RewriteRule) (t : Tm) (l : List Tm) → Reduction rules t l → 0 < length l → last_of t l ≡ t → Unbounded rules t }
{}

/// What reduces to an unbounded term is unbounded.
pub fn unbounded_before()
    ensures { (rules : List RewriteRule) (t : Tm) (l : List Tm) → Reduction rules t l → Unbounded rules (last_of t l) → Unbounded rules t }
{}

/// A term is bounded if one number bounds the reductions from all of its reducts.
pub fn bounded_by_reducts()
    ensures { (rules : List RewriteRule) (t : Tm) (n : ℕ)
        → ((u : Tm) → Step rules t u → (l : List Tm) → Reduction rules u l → length l ≤ n) → Bounded rules t }
{}

/// The reducts of a bounded term are bounded.
pub fn reducts_of_bounded()
    ensures { (rules : List RewriteRule) (t u : Tm) → Bounded rules t → Step rules t u → Bounded rules u }
{}

/// A step at a place is a step.
pub fn steps_at_places()
    ensures { (rules : List RewriteRule) (k : Option ℕ) (path : List ℕ) (t u : Tm) → StepAt rules k path t u → Step rules t u }
{}

/// Each step is one at some place.
pub fn places_of_steps()
    ensures { (rules : List RewriteRule) (t u : Tm) → Step rules t u → (k : Option ℕ) × (path : List ℕ) × StepAt rules k path t u }
{}

/// Steps that follow each other are a reduction of as many steps.
pub fn replays_are_reductions()
    ensures { (rules : List RewriteRule) (steps : List taken.Step) (t u : Tm) → Replays rules steps t u
        → (l : List Tm) × Reduction rules t l × (length l ≡ length steps) × (last_of t l ≡ u) }
{}

/// A step at a place, by one rule or by beta, has one result.
pub fn one_result()
    ensures { (S : Symbols) (rules : List RewriteRule) (k : Option ℕ) (path : List ℕ) (t u v : Tm) → AreWellMade S rules
        → StepAt rules k path t u → StepAt rules k path t v → u ≡ v }
{}

/// A term is in the list of the reducts of another exactly where that steps to it.
pub fn reducts_are_steps()
    ensures { (S : Symbols) (rules : List RewriteRule) (t u : Tm) (us : List Tm) → AreWellMade S rules → AreReducts rules t us
        → Contains us u ↔ Step rules t u }
{}
