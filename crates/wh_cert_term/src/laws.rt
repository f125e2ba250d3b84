//! The law of texts of terms: bytes are the text of one term at most.

ghost use Rattle.std.specs.Prelude.{◌≡◌, ℕ, List};
ghost use Rattle.wh_text.specs.RawTree.{RTm};
ghost use Rattle.wh_cert_term.specs.TermText.{IsTermText};

/// Bytes are the text of one term at most.
pub fn one_term()
    ensures { (bytes : List ℕ) (t u : RTm) → IsTermText t bytes → IsTermText u bytes → t ≡ u }
{}
