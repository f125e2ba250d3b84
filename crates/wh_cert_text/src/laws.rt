//! Laws of certificates and their texts: each determines the other, and bytes that are no text have one place of fault.

ghost use Rattle.std.specs.Prelude.{◌≡◌, ◌<◌, ◌^◌, ◌⊎◌, ℕ, List, [], ◌++◌, length};
ghost use Rattle.wh_cert.specs.Written.{Cert};
ghost use Rattle.wh_cert.specs.CertText.{CertText, FaultAt, SyntaxAt};
ghost use Rattle.wh_cert.specs.PolyCounts.{AllPolysWithin};

/// A text is that of one certificate. So reading the text of a certificate gives it back.
pub fn one_certificate()
    ensures { (bytes : List ℕ) (c d : Cert) → CertText bytes c → CertText bytes d → c ≡ d }
{}

/// A certificate has one text. So printing what was read gives the bytes back.
pub fn one_text()
    ensures { (bytes other : List ℕ) (c : Cert) → CertText bytes c → CertText other c → bytes ≡ other }
{}

/// No certificate text is the front of a longer one.
pub fn no_proper_prefix()
    ensures { (bytes more : List ℕ) (c d : Cert) → CertText bytes c → CertText (bytes ++ more) d → more ≡ [] }
{}

/// Bytes have one place where they stop being the front of a certificate text.
pub fn one_place()
    ensures { (bytes : List ℕ) (n m : ℕ) → SyntaxAt bytes n → SyntaxAt bytes m → n ≡ m }
{}

/// Bytes are the text of a certificate, or they are no certificate text and have a place where that is found.
pub fn text_or_fault()
    ensures { (bytes : List ℕ) → length bytes < 2 ^ 32 → ((c : Cert) × CertText bytes c) ⊎ ((at : ℕ) × FaultAt bytes at) }
{}

/// No list inside a polynomial has more entries than the text has bytes. So a text below 2^32 bytes keeps their limit.
pub fn polynomials_short()
    ensures { (bytes : List ℕ) (c : Cert) → CertText bytes c → AllPolysWithin (length bytes) c }
{}
