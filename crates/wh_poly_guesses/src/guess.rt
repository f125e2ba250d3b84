//! Guesses: readings that a search owns and changes.

ghost use Rattle.std.specs.Prelude.{◌≡◌};

use wh_hopoly::Symbol;
use wh_polycheck::{MarkedSymbol, Readings};

/// The interpretations of all symbols, and of the marked symbols of the set, that the search tries.
#[derive(Drop)]
pub struct Guess {
    /// The interpretation of each symbol of the system, by its number.
    pub symbols: Vec<Symbol>,
    /// The interpretation of each marked symbol of the set, in order.
    pub marks: Vec<MarkedSymbol>,
}

impl Guess {
    /// The readings that the guess is.
    pub fn readings(&self) -> Readings<'_>
        ensures symbols { result.symbols.now ≡ self.now.symbols.items }
        ensures marks { result.marks.now ≡ self.now.marks.items }
    {
        Readings {
            symbols: &self.symbols,
            marks: &self.marks,
        }
    }
}
