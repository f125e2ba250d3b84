//! Laws of reading: a text says one system, or is refused for one reason at one offset.

ghost use Rattle.std.specs.Prelude.{◌≡◌, ℕ, List};
ghost use Rattle.wh_system.specs.Systems.{SystemData};
ghost use Rattle.wh_system.specs.WellMade.{IsWellMadeSystem};
ghost use Rattle.wh_read.specs.Reading.{Reads, Refuses};
ghost use Rattle.wh_read.specs.declared.reasons.Refused.{Refused};

/// A text says one system at most.
pub fn one_reading()
    ensures { (bytes : List ℕ) (d e : SystemData) → Reads bytes d → Reads bytes e → d ≡ e }
{}

/// A text that says a system is not refused.
pub fn read_or_refused()
    ensures { (bytes : List ℕ) (d : SystemData) (refused : Refused) → Reads bytes d → Refuses bytes refused → ⊥ }
{}

/// A text is refused for one reason, at one place.
pub fn one_refusal()
    ensures { (bytes : List ℕ) (refused other : Refused) → Refuses bytes refused → Refuses bytes other → refused ≡ other }
{}

/// What a text says is a well-made system.
pub fn systems_read_are_well_made()
    ensures { (bytes : List ℕ) (d : SystemData) → Reads bytes d → IsWellMadeSystem d }
{}
