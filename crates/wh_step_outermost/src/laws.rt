//! Laws of leftmost-outermost steps, each the contract of a function that does nothing.

ghost use Rattle.std.specs.Prelude.{◌≡◌, ◌↔◌, ℕ, List, length, Some, slice_get};
ghost use Rattle.wh_terms.specs.Tree.{Tm};
ghost use Rattle.wh_terms.specs.Typing.{Symbols};
ghost use Rattle.wh_terms.specs.Rules.{RewriteRule, AreWellMade};
ghost use Rattle.wh_step.specs.Reducts.{AreReducts};
ghost use Rattle.wh_step.specs.Reduction.{Reduction, last_of};
ghost use Rattle.wh_step_outermost.specs.Leftmost.{Leftmost, LeadsTo};
ghost use Rattle.wh_step_outermost.specs.Reducing.{Reduces};
ghost use Rattle.wh_step_outermost.specs.declared.reducing.End.{End};

/// The leftmost-outermost step leads to the first of the reducts.
pub fn first_reduct_is_leftmost()
    ensures { (S : Symbols) (rules : List RewriteRule) (t u : Tm) (us : List Tm) → AreWellMade S rules → AreReducts rules t us
        → Leftmost rules t u ↔ (slice_get us 0 ≡ Some u) }
{}

/// Leftmost-outermost steps are a reduction of as many steps.
pub fn leftmost_steps_are_reductions()
    ensures { (rules : List RewriteRule) (t u : Tm) (n : ℕ) → LeadsTo rules t n u
        → (l : List Tm) × Reduction rules t l × (length l ≡ n) × (last_of t l ≡ u) }
{}

/// A term reduced by at most a number of leftmost-outermost steps ends in one way: after one number of steps, with one
/// term, for one reason.
pub fn one_end_of_reduction()
    ensures { (S : Symbols) (rules : List RewriteRule) (t u v : Tm) (asked m n : ℕ) (d e : End) → AreWellMade S rules
        → Reduces rules t asked m u d → Reduces rules t asked n v e → (m ≡ n) × (u ≡ v) × (d ≡ e) }
{}
