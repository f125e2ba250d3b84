//! Laws of sides: which interpretations and marks give every symbol of a side a meaning.

ghost use Rattle.std.specs.Prelude.{ℕ, ◌≡◌, ◌↔◌, List, Contains, map};
ghost use Rattle.wh_terms.specs.Typing.{Symbols};
ghost use Rattle.wh_hopoly.specs.Evaluation.{Interpretation};
ghost use Rattle.wh_polycheck.specs.Marks.{Mark, HasMark};
ghost use Rattle.wh_polycheck.specs.Sides.{Interprets};

/// Interpretations in the order of the symbols, with the types of these, interpret each symbol.
pub fn interpretations_in_order_interpret()
    ensures { (S : Symbols) (symbols : List Interpretation) → map (λ s. s.kind) symbols ≡ S.funs → Interprets S symbols }
{}

/// The symbols that have a mark are those of the marks.
pub fn symbols_of_marks_have_marks()
    ensures { (marks : List Mark) (f : ℕ) → Contains (map (λ m. m.symbol) marks) f ↔ HasMark marks f }
{}
