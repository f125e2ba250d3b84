//! Laws of what an upgraded certificate proves: it is valid, and small, exactly where the first one is.

ghost use Rattle.std.specs.Prelude.{◌↔◌, List, length};
ghost use Rattle.wh_system.specs.Systems.{SystemData};
ghost use Rattle.wh_pairs.specs.PairData.{PairData};
ghost use Rattle.wh_cert.specs.Written.{Cert};
ghost use Rattle.wh_cert.specs.Limits.{IsCert};
ghost use Rattle.wh_cert_upgrade.specs.Upgraded.{upgraded};
ghost use Rattle.wh_proof.specs.Valid.{IsValidCert, IsSmallCert};

/// A certificate within the limits of the format is valid exactly where the upgraded one is: to list all rules is to
/// cover what a node without a list covers.
pub fn upgraded_certificates_are_as_valid()
    ensures { (d : SystemData) (ps : List PairData) (c : Cert) → IsCert c
        → (IsValidCert d ps (upgraded (length d.rules) c) ↔ IsValidCert d ps c) }
{}

/// The certificate is small exactly where the upgraded one is.
pub fn upgraded_certificates_are_as_small()
    ensures { (d : SystemData) (ps : List PairData) (c : Cert) → IsCert c
        → (IsSmallCert d ps (upgraded (length d.rules) c) ↔ IsSmallCert d ps c) }
{}
