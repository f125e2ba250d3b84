//! Laws of valid certificates, each the contract of a function that does nothing.

ghost use Rattle.std.specs.Prelude.{◌≡◌, ◌⊎◌, ℕ, List};
ghost use Rattle.wh_pairs.specs.PairData.{PairData};
ghost use Rattle.wh_system.specs.Systems.{SystemData};
ghost use Rattle.wh_system.specs.WellMade.{IsWellMadeSystem};
ghost use Rattle.wh_pairs.specs.SystemPairs.{HasPairs};
ghost use Rattle.wh_cert.specs.Limits.{IsCert};
ghost use Rattle.wh_cert.specs.Written.{Cert, Node};
ghost use Rattle.wh_polycheck.specs.Small.{Limits, with_limits, without_limits};
ghost use Rattle.wh_no.specs.Faults.{IsValidNo};
ghost use Rattle.wh_checker.specs.Accepted.{AreBounded};
ghost use Rattle.wh_checker.specs.Faults.{AreAlike, IsFirstFault};
ghost use Rattle.wh_checker.specs.Named.{NamesAreThere};
ghost use Rattle.wh_proof.specs.Valid.{IsSmallCert, IsValidCert, IsValidYes};
ghost use Rattle.wh_checker.specs.declared.rejected.CheckFault.TheVariants.{Rejected as refusal};
ghost use Rattle.wh_checker.specs.declared.rejected.CheckFault.{CheckFault};
ghost use Rattle.wh_checker.specs.declared.rejected.Rejected.{Rejected};

use wh_no::valid_claims_are_unbounded;
use wh_step::bounded_or_unbounded;

/// A certificate has one first fault at most. The one exception: a node's values may exceed both limits.
pub fn one_first_fault()
    ensures { (m : Limits) (d : SystemData) (ps : List PairData) (c : Cert) (f g : CheckFault) → IsWellMadeSystem d
        → IsFirstFault m d ps c f → IsFirstFault m d ps c g → AreAlike f g }
{}

/// A valid certificate has no fault; with limits it has none where no value exceeds one. So the check accepts a
/// certificate exactly where it is valid and small.
pub fn valid_certificates_have_no_fault()
    ensures unlimited { (d : SystemData) (ps : List PairData) (c : Cert) (f : CheckFault) → IsWellMadeSystem d → IsValidCert d ps c
        → IsFirstFault without_limits d ps c f → ⊥ }
    ensures limited { (d : SystemData) (ps : List PairData) (c : Cert) (f : CheckFault) → IsWellMadeSystem d → IsValidCert d ps c
        → IsSmallCert d ps c → IsFirstFault with_limits d ps c f → ⊥ }
{}

/// Where a condition is found false before a value exceeds a limit, it is the first false one.
pub fn rejections_are_first_rows()
    ensures { (d : SystemData) (ps : List PairData) (c : Cert) (r : Rejected) → IsFirstFault with_limits d ps c (refusal r)
        → IsFirstFault without_limits d ps c (refusal r) }
{}

/// The symbols and the meta-variables that a first fault names are there.
pub fn rejections_name_what_is_there()
    ensures { (m : Limits) (d : SystemData) (ps : List PairData) (c : Cert) (r : Rejected) → IsWellMadeSystem d
        → IsFirstFault m d ps c (refusal r) → NamesAreThere d r }
{}

/// A certificate within the limits of the format is valid or has a first fault.
pub fn valid_or_at_fault()
    ensures { (d : SystemData) (ps : List PairData) (c : Cert) → IsWellMadeSystem d → IsCert c → IsValidCert d ps c
        ⊎ ((f : CheckFault) × IsFirstFault without_limits d ps c f) }
{}

/// A certificate within the limits of the format is valid, and no value exceeds a limit, or it has a first fault. So
/// the check has an answer for each certificate.
pub fn accepted_or_at_fault()
    ensures { (d : SystemData) (ps : List PairData) (c : Cert) → IsWellMadeSystem d → IsCert c
        → (IsValidCert d ps c × IsSmallCert d ps c) ⊎ ((f : CheckFault) × IsFirstFault with_limits d ps c f) }
{}

/// Where a certificate of termination is valid, each well-typed term of the system is bounded; also where values exceed
/// limits, so that the check doesn't accept it (Kop 2012; Fuhs and Kop 2019).
pub fn valid_certificates_mean_bounded()
    ensures { (d : SystemData) (ps : List PairData) (ranks : List ℕ) (pairs : ℕ) (lines : List Node) → IsWellMadeSystem d
        → HasPairs d ps → IsValidYes d ps ranks pairs lines → AreBounded d }
{}

/// No system has both a valid certificate of termination and a valid one of a loop.
pub fn no_system_has_both()
    ensures { (d : SystemData) (ps : List PairData) (ranks : List ℕ) (pairs : ℕ) (lines : List Node) (loop : Cert) → IsWellMadeSystem d
        → HasPairs d ps → IsValidYes d ps ranks pairs lines → IsValidNo d loop → ⊥ }
{
    valid_claims_are_unbounded();
    bounded_or_unbounded();
}
