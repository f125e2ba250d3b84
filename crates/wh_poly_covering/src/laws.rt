//! The conditions of a node of interpretations hold, or there is a first thing wrong: the contract of a function that
//! does nothing.

ghost use Rattle.std.specs.Prelude.{◌⊎◌, List};
ghost use Rattle.wh_reduction_pairs.specs.TaskData.{TaskData};
ghost use Rattle.wh_reduction_pairs.specs.ReductionPair.{Evidence};
ghost use Rattle.wh_hopoly.specs.Moves.{Transfer};
ghost use Rattle.wh_polycheck.specs.Readings.{ReadingsData, AreReadingsFor};
ghost use Rattle.wh_polycheck.specs.Covering.{IsCovering};
ghost use Rattle.wh_polycheck.specs.Small.{IsSmall, with_limits, without_limits};
ghost use Rattle.wh_usable.specs.Closed.{IsClosed};
ghost use Rattle.wh_poly_covering.specs.CoveringFaults.{IsFirstCoveringFault};
ghost use Rattle.wh_poly_covering.specs.declared.fault.CoveringFault.{CoveringFault};

/// Readings of all symbols and of the marked symbols of a set cover it with their moves, by rules that are closed for
/// it, or something is wrong first with them, where numbers may be as large as they like; and with limits they cover it
/// and no value exceeds one, or something is wrong first.
pub fn interpretations_cover_or_have_a_first_fault()
    ensures unlimited { (T : TaskData) (R : ReadingsData) (E : Evidence (List Transfer)) → AreReadingsFor T R
        → (IsCovering T R E × IsClosed T) ⊎ ((f : CoveringFault) × IsFirstCoveringFault without_limits T R E f) }
    ensures limited { (T : TaskData) (R : ReadingsData) (E : Evidence (List Transfer)) → AreReadingsFor T R
        → (IsCovering T R E × IsClosed T × IsSmall T R) ⊎ ((f : CoveringFault) × IsFirstCoveringFault with_limits T R E f) }
{}
