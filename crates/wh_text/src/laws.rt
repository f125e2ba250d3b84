//! The law of the cutting of texts: the bytes of a text settle its tokens.

ghost use Rattle.std.specs.Prelude.{◌≡◌, ℕ, List};
ghost use Rattle.wh_text.specs.Tokens.{Token, Ending, Cuts};

/// The bytes of a text settle its tokens, and whether and where it has a fault.
pub fn one_cut()
    ensures { (at : ℕ) (bytes : List ℕ) (ts us : List Token) (e f : Ending)
        → Cuts at bytes ts e → Cuts at bytes us f → (ts ≡ us) × (e ≡ f) }
{}
