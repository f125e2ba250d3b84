//! Laws of filtered trees: their types, and the signature that they are trees over.

ghost use Rattle.std.specs.Prelude.{ℕ, ◌≡◌, List, [], map, Some, slice_get};
ghost use Rattle.wh_types.specs.Ty.{Ty, arguments};
ghost use Rattle.wh_terms.specs.Tree.{Tm};
ghost use Rattle.wh_terms.specs.Typing.{Symbols, Declared, Typed};
ghost use Rattle.wh_step_laws.specs.RootRelations.{KnowsSorts};
ghost use Rattle.wh_order_inference.specs.Filters.{Filter};
ghost use Rattle.wh_order_extended.specs.Filtered.{collapse, sift, Full, IsProper, Filters, HasOneSort, filtered_symbols, collapsed};

/// The filtered tree of a full typed tree is typed and full over the signature of filtered trees.
pub fn filtered_trees_are_typed()
    ensures { (S F : Symbols) (Φ : ℕ → Filter) (M : List Declared) (Γ : List Ty) (t : Tm) (a : Ty) → Filters S F Φ → Typed S M Γ t a
        → Full S 0 t → Typed F (collapsed M) (map collapse Γ) (sift Φ t []) (collapse a) × Full F 0 (sift Φ t []) }
{}

/// The signature that proper filters make has one sort, and knows it.
pub fn filtered_symbols_have_one_sort()
    ensures { (Φ : ℕ → Filter) (css : List (List Ty)) → HasOneSort (filtered_symbols Φ css) × KnowsSorts (filtered_symbols Φ css) }
{}

/// The signature that proper filters make is one for the filtered trees over symbols with arguments of the types.
pub fn filtered_symbols_fit()
    ensures { (S : Symbols) (Φ : ℕ → Filter) (css : List (List Ty))
        → ((f : ℕ) (a : Ty) → slice_get S.funs f ≡ Some a → slice_get css f ≡ Some (arguments a) × IsProper (arguments a) (Φ f))
        → Filters S (filtered_symbols Φ css) Φ }
{}
