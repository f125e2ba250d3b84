//! The law of the text that tells of a reduction, the contract of a function that does nothing.

ghost use Rattle.std.specs.Prelude.{◌≡◌, ℕ, List};
ghost use Rattle.wh_system.specs.Systems.{SystemData};
ghost use Rattle.wh_system.specs.WellMade.{IsWellMadeSystem};
ghost use Rattle.wh_top_reducing.specs.Telling.{TellsReduced};

/// The reduction of the term of a text, by at most a number of steps, is told by one text at most.
pub fn one_text_of_reduction()
    ensures { (d : SystemData) (bytes : List ℕ) (asked : ℕ) (a b : List ℕ) → IsWellMadeSystem d → TellsReduced d bytes asked a
        → TellsReduced d bytes asked b → a ≡ b }
{}
