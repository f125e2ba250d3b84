//! Room for nodes: extended terms are built only while there is room left, since missing arguments can make them large.

ghost use Rattle.std.specs.Prelude.{◌≡◌, ◌+◌, ◌<◌};
ghost use Rattle.wh_types.specs.Outcome.{MatchOr};

use wh_terms::{Term, Terms};
use wh_types::Or;

/// A side has more than 65,536 nodes once it has all its arguments.
#[derive(Clone, Copy)]
pub struct TooWide;

/// A term, and how much room is left beside it.
#[derive(Drop)]
pub struct Built {
    /// The term.
    pub term: Term,
    /// How many further nodes there is room for.
    pub room: u32,
}

/// Terms, and how much room is left beside them.
#[derive(Drop)]
pub struct BuiltTerms {
    /// The terms.
    pub items: Terms,
    /// How many further nodes there is room for.
    pub room: u32,
}

/// The room that is left behind `nodes` nodes; `Err` exactly where there is no room for them.
pub fn without(room: u32, nodes: u32) -> Result<u32, Or<TooWide>>
    ensures { MatchOr result (λ rest. rest + nodes ≡ room) (λ _. room < nodes) }
{
    if nodes <= room {
        Ok(room - nodes)
    } else {
        Err(Or::Because(TooWide))
    }
}
