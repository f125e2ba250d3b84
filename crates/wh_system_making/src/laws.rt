//! Laws of systems, each the contract of a function that does nothing.

ghost use Rattle.std.specs.Prelude.{◌≡◌, None};
ghost use Rattle.wh_system_parts.specs.Parts.{RParts};
ghost use Rattle.wh_system_parts.specs.RuleTests.{refusal};
ghost use Rattle.wh_system.specs.Systems.{SystemData};
ghost use Rattle.wh_system_making.specs.Says.{Says};
ghost use Rattle.wh_system_making.specs.Proper.{AreProper};
ghost use Rattle.wh_system.specs.WellMade.{IsWellMadeSystem};
ghost use Rattle.wh_system_making.specs.CanonicalParts.{canonical};
ghost use Rattle.wh_system_making.specs.Unplaced.{unplaced};
ghost use Rattle.wh_system.specs.Canonical.{raw_of};
ghost use Rattle.wh_system.specs.CanonicalView.{names_of_system};
ghost use Rattle.wh_system_making.specs.Resolve.{Means};
ghost use Rattle.wh_terms.specs.Tree.{Tm};
ghost use Rattle.wh_terms.specs.Typing.{WellTyped};

/// Proper parts without a fault say a well-made system.
pub fn systems_are_well_made()
    ensures { (p : RParts) (s : SystemData) → AreProper p → refusal p ≡ None → Says p s → IsWellMadeSystem s }
{}

/// Parts say one system at most.
pub fn parts_say_one_system()
    ensures { (p : RParts) (s t : SystemData) → Says p s → Says p t → s ≡ t }
{}

/// The canonical parts of a well-made system have no fault, and say that system.
pub fn canonical_parts_say_the_system()
    ensures passed { (d : SystemData) → IsWellMadeSystem d → refusal (canonical d) ≡ None }
    ensures said { (d : SystemData) → IsWellMadeSystem d → Says (canonical d) d }
{}

/// The canonical raw tree of a well-typed term stands for that term.
pub fn canonical_terms_stand_for_themselves()
    ensures { (d : SystemData) (t : Tm) → IsWellMadeSystem d → WellTyped d.symbols t → Means d (raw_of (names_of_system d) t) t }
{}

/// Parts that are the same but for their offsets have no fault together, and say the same system.
pub fn places_do_not_matter()
    ensures passed { (p q : RParts) → unplaced p ≡ unplaced q → refusal p ≡ None → refusal q ≡ None }
    ensures said { (p q : RParts) (d : SystemData) → unplaced p ≡ unplaced q → Says p d → Says q d }
{}

/// Parts that are the canonical ones of a well-made system but for their offsets have no fault, and say that system.
pub fn canonical_parts_are_read_back()
    ensures passed { (p : RParts) (d : SystemData) → IsWellMadeSystem d → unplaced p ≡ canonical d → refusal p ≡ None }
    ensures said { (p : RParts) (d : SystemData) → IsWellMadeSystem d → unplaced p ≡ canonical d → Says p d }
{}
