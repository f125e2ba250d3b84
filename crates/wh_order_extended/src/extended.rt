//! Laws of extended trees: their types, their arguments, and what stays a pattern.

ghost use Rattle.std.specs.Prelude.{ℕ, ◌≡◌, List, [], Some, slice_get};
ghost use Rattle.wh_types.specs.Ty.{Ty, SortsBelow};
ghost use Rattle.wh_terms.specs.Tree.{Tm};
ghost use Rattle.wh_terms.specs.Pattern.{IsPatternUnder};
ghost use Rattle.wh_terms.specs.Typing.{Symbols, Declared, Typed};
ghost use Rattle.wh_step_laws.specs.RootRelations.{KnowsSorts};
ghost use Rattle.wh_order_extended.specs.Kinds.{KnowsMetas};
ghost use Rattle.wh_order_extended.specs.Long.{long};
ghost use Rattle.wh_order_extended.specs.Filtered.{Full};

/// An extended tree has the type of the tree.
pub fn extended_trees_are_typed()
    ensures { (S : Symbols) (M : List Declared) (Γ : List Ty) (t : Tm) (a : Ty) → KnowsSorts S → KnowsMetas S M
        → ((i : ℕ) (b : Ty) → slice_get Γ i ≡ Some b → SortsBelow S.sorts b) → Typed S M Γ t a → Typed S M Γ (long S M Γ t) a }
{}

/// In an extended tree each symbol has all its arguments.
pub fn extended_trees_are_full()
    ensures { (S : Symbols) (M : List Declared) (Γ : List Ty) (t : Tm) (a : Ty) → Typed S M Γ t a → Full S 0 (long S M Γ t) }
{}

/// An extended pattern is a pattern.
pub fn extended_patterns_are_patterns()
    ensures { (S : Symbols) (M : List Declared) (Γ : List Ty) (k : ℕ) (t : Tm) → IsPatternUnder k t → IsPatternUnder k (long S M Γ t) }
{}

/// A tree without loose variables is extended in the same way below any binders.
pub fn extended_closed_trees_are_the_same()
    ensures { (S : Symbols) (M : List Declared) (Γ : List Ty) (t : Tm) (a : Ty) → KnowsSorts S → KnowsMetas S M → Typed S M [] t a
        → long S M Γ t ≡ long S M [] t }
{}
