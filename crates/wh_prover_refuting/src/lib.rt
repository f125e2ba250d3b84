//! Refutations of projections: where the search for a proof is stuck on a set of pairs, a list of clauses that shows
//! that no projection lets a pair of it go, and that the checker of such lists accepts.
#![tactic(auto)]

mod refuting;

pub use refuting::{Verdict, refute};
