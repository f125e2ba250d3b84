//! The law of the verdict on a line of inferences: where no inference is bad, the line holds.

ghost use Rattle.std.specs.Prelude.{ℕ, ◌≡◌, List, [], None};
ghost use Rattle.wh_types.specs.Ty.{Ty};
ghost use Rattle.wh_terms.specs.Tree.{Tm};
ghost use Rattle.wh_terms.specs.Sight.{NoFree};
ghost use Rattle.wh_terms.specs.Typing.{Symbols, Declared, Typed};
ghost use Rattle.wh_order_inference.specs.Inferences.{Inference};
ghost use Rattle.wh_order_extended.specs.Filtered.{Full, HasOneSort};
ghost use Rattle.wh_order_path.specs.Order.{AtLeast};
ghost use Rattle.wh_order_path.specs.Verdict.{line_verdict};

/// Where no inference of a line is bad, the left side is at least the right one. Both sides are well typed and without
/// free variables, and each symbol in them has all its arguments.
pub fn good_lines_hold()
    ensures { (F : Symbols) (prec : ℕ → ℕ) (M : List Declared) (s t : Tm) (a b : Ty) (i : Inference) → HasOneSort F → Typed F M [] s a
        → Typed F M [] t b → NoFree s → NoFree t → Full F 0 s → Full F 0 t → line_verdict F prec M s t i ≡ None → AtLeast F prec M s t i }
{}
