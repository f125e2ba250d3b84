//! Laws on numbers that bound terms, where only the rules of a list are covered.

ghost use Rattle.std.specs.Prelude.{ℕ, List};
ghost use Rattle.wh_terms.specs.Tree.{Tm};
ghost use Rattle.wh_terms.specs.Typing.{Symbols, WellTyped};
ghost use Rattle.wh_terms.specs.Rules.{RewriteRule, AreWellMade};
ghost use Rattle.wh_step.specs.Step.{Step};
ghost use Rattle.wh_step.specs.Reduction.{Bounded};
ghost use Rattle.wh_reduction_pairs.specs.TaskData.{TaskData};
ghost use Rattle.wh_reduction_pairs.specs.ReductionPair.{Evidence};
ghost use Rattle.wh_hopoly.specs.Evaluation.{Interpretation};
ghost use Rattle.wh_hopoly.specs.Moves.{Transfer};
ghost use Rattle.wh_polycheck.specs.Marks.{with_marks};
ghost use Rattle.wh_polycheck.specs.Readings.{ReadingsData};
ghost use Rattle.wh_polycheck.specs.Covering.{IsCovering};
ghost use Rattle.wh_usable.specs.Closed.{AreClosedRules};
ghost use Rattle.wh_usable_calls.specs.Bounds.{Bounds};

/// Each well-typed term that is bounded in the number of its steps has a number that bounds it, whatever rules are
/// listed and however symbols are interpreted.
pub fn bounded_terms_have_bounds()
    ensures { (S : Symbols) (rules : List RewriteRule) (listed : List ℕ) (symbols : List Interpretation) (t : Tm) → AreWellMade S rules
        → WellTyped S t → Bounded rules t → (n : ℕ) × Bounds S rules listed symbols t n }
{}

/// Where readings and moves cover a task, and the rules that are to be covered are first-order and call only symbols
/// all whose rules are among them, what a term steps to has the term's bounds.
pub fn steps_keep_bounds()
    ensures { (T : TaskData) (R : ReadingsData) (E : Evidence (List Transfer)) (t u : Tm) (n : ℕ) → AreWellMade T.symbols T.rules
        → AreClosedRules T → IsCovering T R E
        → Bounds T.symbols T.rules T.covered (with_marks T.symbols T.rules R.symbols R.marks) t n → Step T.rules t u
        → Bounds T.symbols T.rules T.covered (with_marks T.symbols T.rules R.symbols R.marks) u n }
{}
