//! Laws of upgraded certificates: they are within the limits of the format, so they have texts.

ghost use Rattle.std.specs.Prelude.{◌≤◌, ℕ};
ghost use Rattle.wh_types.specs.Limits.{greatest_number};
ghost use Rattle.wh_cert.specs.Written.{Cert};
ghost use Rattle.wh_cert.specs.Text.{text};
ghost use Rattle.wh_cert.specs.Limits.{IsCert};
ghost use Rattle.wh_cert.specs.CertText.{CertText};
ghost use Rattle.wh_cert.specs.PolyCounts.{AllPolysWithin};
ghost use Rattle.wh_cert_upgrade.specs.Upgraded.{upgraded};

/// The upgraded certificate is within the limits where the certificate is, so that it has a text.
pub fn upgraded_has_text()
    ensures { (rules : ℕ) (c : Cert) → rules ≤ greatest_number → IsCert c → CertText (text (upgraded rules c)) (upgraded rules c) }
{}

/// The lists in its polynomials are no longer than those of the certificate.
pub fn upgraded_is_short()
    ensures { (n rules : ℕ) (c : Cert) → AllPolysWithin n c → AllPolysWithin n (upgraded rules c) }
{}
