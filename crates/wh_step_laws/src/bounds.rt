//! Laws on bounded terms: what a bound on the reductions from a term says of its reducts and of its parts.

ghost use Rattle.std.specs.Prelude.{List, ◌↔◌, All};
ghost use Rattle.wh_terms.specs.Tree.{Tm};
ghost use Rattle.wh_terms.specs.Sight.{LooseBelow, IsTerm};
ghost use Rattle.wh_terms.specs.Typing.{Symbols};
ghost use Rattle.wh_terms.specs.Rules.{RewriteRule, AreWellMade};
ghost use Rattle.wh_step.specs.Step.{Step};
ghost use Rattle.wh_step.specs.Reduction.{Bounded};
ghost use Rattle.wh_step_laws.specs.Ends.{Ends, Longest, StepsIn};
ghost use Rattle.wh_step_laws.specs.DirectSubterms.{HasPart, StepOrPart};

/// A term is accessible by steps exactly where it is bounded.
pub fn accessible_where_bounded()
    ensures { (S : Symbols) (rules : List RewriteRule) (t : Tm) → AreWellMade S rules → LooseBelow 0 t → IsTerm t
        → (Ends (Step rules) t ↔ Bounded rules t) }
{}

/// A term is bounded exactly where all its reducts are.
pub fn bounded_where_reducts_are()
    ensures { (S : Symbols) (rules : List RewriteRule) (t : Tm) → AreWellMade S rules → LooseBelow 0 t → IsTerm t
        → (Bounded rules t ↔ ((u : Tm) → Step rules t u → Bounded rules u)) }
{}

/// The direct subterms of a bounded term are bounded.
pub fn parts_of_bounded_terms()
    ensures { (S : Symbols) (rules : List RewriteRule) (t u : Tm) → AreWellMade S rules → LooseBelow 0 t → IsTerm t → Bounded rules t
        → HasPart t u → Bounded rules u }
{}

/// A bounded term has a longest sequence of steps and direct subterms.
pub fn longest_of_bounded_terms()
    ensures { (S : Symbols) (rules : List RewriteRule) (t : Tm) → AreWellMade S rules → LooseBelow 0 t → IsTerm t → Bounded rules t
        → Longest (StepOrPart (Step rules)) t }
{}

/// A list of bounded terms is accessible, where one member steps at a time.
pub fn lists_of_bounded_terms_end()
    ensures { (rules : List RewriteRule) (ts : List Tm) → All (Bounded rules) ts → Ends (StepsIn (Step rules)) ts }
{}
