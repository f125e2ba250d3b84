//! Visits: terms that a search for loops reached, each with the rule that it started from.

use wh_terms::Term;
use wh_types::List;

/// A term that was reached.
#[derive(Drop)]
pub struct Visit {
    /// The number of the rule from whose left side it was reached.
    pub start: u32,
    /// The term.
    pub term: Term,
}

/// A list of terms that were reached.
pub type Visits = List<Visit>;
