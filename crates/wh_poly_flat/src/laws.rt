//! The law of flat sets: which interpretations let a pair go, told by the worth of sides.

ghost use Rattle.std.specs.Prelude.{ℕ, ◌↔◌, List, map};
ghost use Rattle.wh_system.specs.Systems.{SystemData};
ghost use Rattle.wh_system.specs.WellMade.{IsWellMadeSystem};
ghost use Rattle.wh_pairs.specs.PairData.{PairData};
ghost use Rattle.wh_polycheck.specs.Covering.{HaveTypedSides};
ghost use Rattle.wh_polycheck.specs.Readings.{AreReadingsFor, ReadingsData};
ghost use Rattle.wh_poly_guesses.specs.Coefficients.{HaveCoefficients};
ghost use Rattle.wh_poly_guesses.specs.Conditions.{LetsGo};
ghost use Rattle.wh_poly_flat.specs.Dominance.{LetsGoBy};
ghost use Rattle.wh_poly_flat.specs.Flat.{IsFlat, task_for};

/// Interpretations of the space let a pair of a flat set go just where by their coefficients the left side of each rule
/// that is to be covered and of each pair is worth at least the right one, and of some pair more.
pub fn flat_sets_are_let_go_by_worth()
    ensures { (d : SystemData) (pairs : List PairData) (set covered : List ℕ) (lists : List (List ℕ)) (R : ReadingsData)
        → IsWellMadeSystem d → HaveTypedSides d.symbols d.rules pairs → IsFlat (task_for d pairs set covered)
        → AreReadingsFor (task_for d pairs set covered) R → HaveCoefficients (task_for d pairs set covered) lists R
        → LetsGo (task_for d pairs set covered) R ↔ LetsGoBy (task_for d pairs set covered) (map (λ m. m.symbol) R.marks) lists }
{}
