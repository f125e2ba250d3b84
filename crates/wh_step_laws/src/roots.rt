//! The rules of a system as a relation at the root, and how heads with arguments step.

ghost use Rattle.std.specs.Prelude.{ℕ, List, ◌↔◌, ◌⊎◌};
ghost use Rattle.wh_types.specs.Ty.{Ty};
ghost use Rattle.wh_terms.specs.Tree.{Tm, free, fun, lam, spine};
ghost use Rattle.wh_terms.specs.Sight.{LooseBelow, IsTerm};
ghost use Rattle.wh_terms.specs.Typing.{Symbols};
ghost use Rattle.wh_terms.specs.Rules.{RewriteRule, AreWellMade};
ghost use Rattle.wh_terms.specs.StepOver.{StepOver};
ghost use Rattle.wh_step.specs.Step.{Step};
ghost use Rattle.wh_step_laws.specs.RootRelations.{IsRoot, RuleRoot};
ghost use Rattle.wh_step_laws.specs.Spines.{HeadStep, ArgumentStep, FrontStep, OpeningStep};

/// The rules of a system are a relation at the root: they keep types, substitution keeps them, and each symbol has its
/// number of arguments on the left.
pub fn rules_are_roots()
    ensures { (S : Symbols) (rules : List RewriteRule) → AreWellMade S rules → IsRoot S (RuleRoot rules) }
{}

/// The steps of a system are the steps over its rules, on terms without loose variables.
pub fn steps_are_over_rules()
    ensures { (S : Symbols) (rules : List RewriteRule) (t u : Tm) → AreWellMade S rules → LooseBelow 0 t → IsTerm t
        → (Step rules t u ↔ StepOver (RuleRoot rules) t u) }
{}

/// A symbol with arguments steps in one of the arguments, or by a rule for the symbol with its first arguments.
pub fn steps_of_symbols_with_arguments()
    ensures { (S : Symbols) (rules : List RewriteRule) (f : ℕ) (ts : List Tm) (v : Tm) → AreWellMade S rules
        → LooseBelow 0 (spine (fun f) ts) → IsTerm (spine (fun f) ts) → Step rules (spine (fun f) ts) v
        → ArgumentStep (Step rules) (fun f) ts v ⊎ FrontStep (RuleRoot rules) (fun f) ts v }
{}

/// A variable with arguments steps in one of the arguments.
pub fn steps_of_variables_with_arguments()
    ensures { (S : Symbols) (rules : List RewriteRule) (x : ℕ) (a : Ty) (ts : List Tm) (v : Tm) → AreWellMade S rules
        → LooseBelow 0 (spine (free x a) ts) → IsTerm (spine (free x a) ts) → Step rules (spine (free x a) ts) v
        → ArgumentStep (Step rules) (free x a) ts v }
{}

/// An abstraction with arguments steps in its body, in one of the arguments, or to its body opened by the first of
/// them.
pub fn steps_of_abstractions_with_arguments()
    ensures { (S : Symbols) (rules : List RewriteRule) (a : Ty) (t : Tm) (ts : List Tm) (v : Tm) → AreWellMade S rules
        → LooseBelow 0 (spine (lam a t) ts) → IsTerm (spine (lam a t) ts) → Step rules (spine (lam a t) ts) v
        → (HeadStep (Step rules) (lam a t) ts v ⊎ (ArgumentStep (Step rules) (lam a t) ts v ⊎ OpeningStep t ts v)) }
{}
