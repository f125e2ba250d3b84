//! Laws of the definitions, each the contract of a function that does nothing.

ghost use Rattle.std.specs.Prelude.{◌≡◌, ℕ, List};
ghost use Rattle.wh_types.specs.Ty.{Ty, SortsBelow};
ghost use Rattle.wh_terms.specs.Tree.{Tm, bound, free};
ghost use Rattle.wh_terms.specs.Substitution.{act, opened};
ghost use Rattle.wh_terms.specs.Sight.{Fresh};
ghost use Rattle.wh_terms.specs.TypedBodies.{TypedBodies};
ghost use Rattle.wh_terms.specs.Typing.{Symbols, Declared, Typed};
ghost use Rattle.wh_terms.specs.Value.{Body, Value};

/// A term has one type.
pub fn one_type()
    ensures { (S : Symbols) (M : List Declared) (Γ : List Ty) (t : Tm) (a b : Ty) → Typed S M Γ t a → Typed S M Γ t b → a ≡ b }
{}

/// A meta-term has one value under a meta-substitution.
pub fn one_value()
    ensures { (g : ℕ → Body) (m v w : Tm) → Value g m v → Value g m w → v ≡ w }
{}

/// Substitution keeps types, where what is put for each free variable has that variable's type.
pub fn substitution_keeps_types()
    ensures { (S : Symbols) (M : List Declared) (Γ : List Ty) (φ : ℕ → Ty → Tm) (t : Tm) (a : Ty) → Typed S M Γ t a
        → ((x : ℕ) (b : Ty) → SortsBelow S.sorts b → Typed S M Γ (φ x b) b) → Typed S M Γ (act bound φ t) a }
{}

/// The value of a meta-term has its type, where each body has the type that its meta-variable is declared with. Bodies
/// may have meta-variables themselves, which are then those of the value.
pub fn values_keep_types()
    ensures { (S : Symbols) (M N : List Declared) (Γ : List Ty) (g : ℕ → Body) (m v : Tm) (a : Ty) → Typed S M Γ m a
        → TypedBodies S M N Γ g m → Value g m v → Typed S N Γ v a }
{}

/// Opening with a fresh variable can be undone: one body at most, for which the variable is fresh, opens to a tree.
pub fn opening_can_be_undone()
    ensures { (x : ℕ) (a : Ty) (t u : Tm) → Fresh x t → Fresh x u → opened (free x a) t ≡ opened (free x a) u → t ≡ u }
{}
