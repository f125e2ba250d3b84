//! The search for interpretations that let pairs go: a climb, then ranges of coefficients, and then guesses by a
//! solver.
#![tactic(auto)]

mod find;

pub use find::find_interpretation;
