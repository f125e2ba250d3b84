//! Lists of clauses with hints: each clause follows from those before it by unit propagation, and the last one is
//! empty. So a list shows that its formula has no model.

use crate::clause::Clause;
use wh_types::{List, Numbers};

/// A clause that follows from those before it, and the clauses that show it. Its literals are taken for false: then
/// each clause of the hints but the last makes one more literal true, and the last is false (Cruz-Filipe, Heule, Hunt,
/// Kaufmann and Schneider-Kamp 2017).
#[derive(Drop)]
pub struct Entry {
    /// The clause.
    pub clause: Clause,
    /// The numbers of earlier clauses. First the clauses of the formula are counted, from 0, then those of the entries.
    pub hints: Numbers,
}

/// A list of entries, of which the last one is to have the empty clause.
pub type Refutation = List<Entry>;
