//! The definition by three numbers, what it is at sorts and at arrows, and its laws.

ghost use Rattle.std.specs.Prelude.{ℕ, ◌↔◌, List, []};
ghost use Rattle.wh_types.specs.Ty.{Ty, sort, ◌⇒◌, SortsBelow};
ghost use Rattle.wh_terms.specs.Tree.{Tm, free, app};
ghost use Rattle.wh_terms.specs.Typing.{Symbols, Typed};
ghost use Rattle.wh_terms.specs.Rules.{RewriteRule, AreWellMade};
ghost use Rattle.wh_step.specs.Step.{Step};
ghost use Rattle.wh_step.specs.Reduction.{Bounded};
ghost use Rattle.wh_step_laws.specs.RootRelations.{KnowsSorts};
ghost use Rattle.wh_step_laws.specs.Neutral.{IsNeutral};
ghost use Rattle.wh_step_laws.specs.Computable.{Computable};
ghost use Rattle.wh_law_computability.specs.ByNumbers.{NoLonger, IsWithin, IsWithinLess, IsComputableWithin, IsNumbered};

/// A term is computable by the three numbers exactly where it is computable by the family of finite proofs.
pub fn numbered_terms_are_computable()
    ensures { (S : Symbols) (rules : List RewriteRule) (rank : ℕ → ℕ) (a : Ty) (t : Tm) → AreWellMade S rules → KnowsSorts S
        → (IsNumbered S rank rules a t ↔ Computable S rank (Step rules) a t) }
{}

/// A term of a sort is computable within n exactly where it is computable and no sequence of steps and direct subterms
/// from it is longer than n.
pub fn within_is_computable_and_no_longer()
    ensures { (S : Symbols) (rules : List RewriteRule) (rank : ℕ → ℕ) (n s : ℕ) (t : Tm) → AreWellMade S rules → KnowsSorts S
        → (IsComputableWithin S rank rules n s t ↔ Computable S rank (Step rules) (sort s) t × NoLonger rules n t) }
{}

/// What computable within n is: the term is bounded, no sequence of steps and direct subterms from it is longer than n,
/// and wherever it reduces to a symbol with all its arguments, those at accessible places are computable, and those of
/// a sort are so within n - 1. However many ranks lie above makes no difference.
pub fn computable_within_at_sorts()
    ensures { (S : Symbols) (rules : List RewriteRule) (rank : ℕ → ℕ) (n s : ℕ) (t : Tm) → AreWellMade S rules → KnowsSorts S
        → (IsComputableWithin S rank rules n s t
        ↔ IsWithin S rank rules (IsNumbered S rank rules) (IsWithinLess S rank rules n) n s t) }
{}

/// A term of a sort is computable by the three numbers exactly where it is computable within some number.
pub fn numbered_at_sorts()
    ensures { (S : Symbols) (rules : List RewriteRule) (rank : ℕ → ℕ) (s : ℕ) (t : Tm)
        → (IsNumbered S rank rules (sort s) t ↔ (n : ℕ) × IsComputableWithin S rank rules n s t) }
{}

/// A term of a functional type is computable by the three numbers exactly where it is well typed and its application to
/// every computable term is computable.
pub fn numbered_at_arrows()
    ensures { (S : Symbols) (rules : List RewriteRule) (rank : ℕ → ℕ) (a b : Ty) (t : Tm) → AreWellMade S rules → KnowsSorts S
        → (IsNumbered S rank rules (a ⇒ b) t
        ↔ Typed S [] [] t (a ⇒ b) × ((u : Tm) → IsNumbered S rank rules a u → IsNumbered S rank rules b (app t u))) }
{}

/// Terms that are computable by the three numbers are bounded.
pub fn numbered_terms_are_bounded()
    ensures { (S : Symbols) (rules : List RewriteRule) (rank : ℕ → ℕ) (a : Ty) (t : Tm) → AreWellMade S rules → KnowsSorts S
        → IsNumbered S rank rules a t → Bounded rules t }
{}

/// Steps of such terms lead to such terms.
pub fn steps_of_numbered_terms()
    ensures { (S : Symbols) (rules : List RewriteRule) (rank : ℕ → ℕ) (a : Ty) (t u : Tm) → AreWellMade S rules → KnowsSorts S
        → IsNumbered S rank rules a t → Step rules t u → IsNumbered S rank rules a u }
{}

/// Variables are computable by the three numbers.
pub fn variables_are_numbered()
    ensures { (S : Symbols) (rules : List RewriteRule) (rank : ℕ → ℕ) (x : ℕ) (a : Ty) → AreWellMade S rules → KnowsSorts S
        → SortsBelow S.sorts a → IsNumbered S rank rules a (free x a) }
{}

/// A neutral term all of whose reducts are computable by the three numbers is so too.
pub fn neutral_terms_are_numbered()
    ensures { (S : Symbols) (rules : List RewriteRule) (rank : ℕ → ℕ) (a : Ty) (t : Tm) → AreWellMade S rules → KnowsSorts S
        → Typed S [] [] t a → IsNeutral t → ((u : Tm) → Step rules t u → IsNumbered S rank rules a u)
        → IsNumbered S rank rules a t }
{}

/// A term of a sort that is computable by the family is computable within some number.
pub fn computable_terms_are_within_some_bound()
    ensures { (S : Symbols) (rules : List RewriteRule) (rank : ℕ → ℕ) (s : ℕ) (t : Tm) → AreWellMade S rules → KnowsSorts S
        → Computable S rank (Step rules) (sort s) t → (n : ℕ) × IsComputableWithin S rank rules n s t }
{}
