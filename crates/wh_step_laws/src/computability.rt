//! Laws of computability by ranks and types, for the steps of a system (Tait's method). Termination rests on them.

ghost use Rattle.std.specs.Prelude.{ℕ, ◌≡◌, ◌↔◌, List, [], Some, slice_get};
ghost use Rattle.wh_types.specs.Ty.{Ty, sort, ◌⇒◌, SortsBelow};
ghost use Rattle.wh_terms.specs.Tree.{Tm, free, fun, lam, spine};
ghost use Rattle.wh_terms.specs.Substitution.{opened};
ghost use Rattle.wh_terms.specs.Typing.{Symbols, Typed};
ghost use Rattle.wh_terms.specs.Rules.{RewriteRule, AreWellMade};
ghost use Rattle.wh_step.specs.Step.{Step};
ghost use Rattle.wh_step.specs.Reduction.{Bounded};
ghost use Rattle.wh_step_laws.specs.Ranks.{PlaceHas, IsAccessible};
ghost use Rattle.wh_step_laws.specs.RootRelations.{HeadsNoRule, KnowsSorts};
ghost use Rattle.wh_step_laws.specs.Neutral.{IsNeutral};
ghost use Rattle.wh_step_laws.specs.Computable.{Computable, IsComputableAtSort, IsComputableAtArrow};

/// What computability is at a sort.
pub fn computable_at_sorts()
    ensures { (S : Symbols) (rules : List RewriteRule) (rank : ℕ → ℕ) (s : ℕ) (t : Tm)
        → (Computable S rank (Step rules) (sort s) t ↔ IsComputableAtSort S rank (Step rules) s t) }
{}

/// What computability is at an arrow.
pub fn computable_at_arrows()
    ensures { (S : Symbols) (rules : List RewriteRule) (rank : ℕ → ℕ) (a b : Ty) (t : Tm)
        → (Computable S rank (Step rules) (a ⇒ b) t ↔ IsComputableAtArrow S rank (Step rules) a b t) }
{}

/// Computable terms are well typed.
pub fn computable_terms_are_typed()
    ensures { (S : Symbols) (rules : List RewriteRule) (rank : ℕ → ℕ) (a : Ty) (t : Tm) → Computable S rank (Step rules) a t
        → Typed S [] [] t a }
{}

/// Computable terms are bounded.
pub fn computable_terms_are_bounded()
    ensures { (S : Symbols) (rules : List RewriteRule) (rank : ℕ → ℕ) (a : Ty) (t : Tm) → AreWellMade S rules → KnowsSorts S
        → Computable S rank (Step rules) a t → Bounded rules t }
{}

/// Steps of computable terms lead to computable terms.
pub fn steps_of_computable_terms()
    ensures { (S : Symbols) (rules : List RewriteRule) (rank : ℕ → ℕ) (a : Ty) (t u : Tm) → AreWellMade S rules → KnowsSorts S
        → Computable S rank (Step rules) a t → Step rules t u → Computable S rank (Step rules) a u }
{}

/// Variables are computable.
pub fn variables_are_computable()
    ensures { (S : Symbols) (rules : List RewriteRule) (rank : ℕ → ℕ) (x : ℕ) (a : Ty) → AreWellMade S rules → SortsBelow S.sorts a
        → Computable S rank (Step rules) a (free x a) }
{}

/// A neutral term all of whose reducts are computable is computable.
pub fn neutral_terms_are_computable()
    ensures { (S : Symbols) (rules : List RewriteRule) (rank : ℕ → ℕ) (a : Ty) (t : Tm) → AreWellMade S rules → KnowsSorts S
        → Typed S [] [] t a → IsNeutral t → ((u : Tm) → Step rules t u → Computable S rank (Step rules) a u)
        → Computable S rank (Step rules) a t }
{}

/// An abstraction whose instances are computable is computable.
pub fn abstractions_are_computable()
    ensures { (S : Symbols) (rules : List RewriteRule) (rank : ℕ → ℕ) (a b : Ty) (t : Tm) → AreWellMade S rules → KnowsSorts S
        → Typed S [] [] (lam a t) (a ⇒ b) → ((u : Tm) → Computable S rank (Step rules) a u
        → Computable S rank (Step rules) b (opened u t)) → Computable S rank (Step rules) (a ⇒ b) (lam a t) }
{}

/// A symbol that heads no rule is computable.
pub fn symbols_without_rules_are_computable()
    ensures { (S : Symbols) (rules : List RewriteRule) (rank : ℕ → ℕ) (f : ℕ) (a : Ty) → AreWellMade S rules → KnowsSorts S
        → slice_get S.funs f ≡ Some a → HeadsNoRule rules f → Computable S rank (Step rules) a (fun f) }
{}

/// Arguments at accessible places of computable terms are computable, those of equal rank too.
pub fn accessible_arguments_are_computable()
    ensures { (S : Symbols) (rules : List RewriteRule) (rank : ℕ → ℕ) (s f i : ℕ) (a : Ty) (ts : List Tm) (u : Tm)
        → Computable S rank (Step rules) (sort s) (spine (fun f) ts) → IsAccessible S rank f i → PlaceHas S f i a
        → slice_get ts i ≡ Some u → Computable S rank (Step rules) a u }
{}

/// Where the symbols are computable, each well-typed term is.
pub fn typed_terms_are_computable()
    ensures { (S : Symbols) (rules : List RewriteRule) (rank : ℕ → ℕ) (a : Ty) (t : Tm) → AreWellMade S rules → KnowsSorts S
        → ((f : ℕ) (b : Ty) → slice_get S.funs f ≡ Some b → Computable S rank (Step rules) b (fun f)) → Typed S [] [] t a
        → Computable S rank (Step rules) a t }
{}
