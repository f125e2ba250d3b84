//! The conditions of a projection hold, or there is a first thing wrong: the contract of a function that does nothing.

ghost use Rattle.std.specs.Prelude.{ℕ, ◌⊎◌, List};
ghost use Rattle.wh_terms.specs.Rules.{RewriteRule};
ghost use Rattle.wh_pairs.specs.PairData.{PairData};
ghost use Rattle.wh_subterm.specs.Projections.{Chosen};
ghost use Rattle.wh_subterm.specs.SubtermRows.{IsFirstSubtermFault, IsProjection};
ghost use Rattle.wh_subterm.specs.declared.projection.SubtermFault.{SubtermFault};

/// Choices are a projection, or something is wrong first with them or with what is dropped.
pub fn choices_are_a_projection_or_have_a_first_fault()
    ensures { (rules : List RewriteRule) (ps : List PairData) (set : List ℕ) (args : List Chosen) (drop : List ℕ)
        → IsProjection rules ps set args drop ⊎ ((f : SubtermFault) × IsFirstSubtermFault rules ps set args drop f) }
{}
