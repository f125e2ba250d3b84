//! The search for interpretations that let a pair of a set go, by all its means in turn: a climb, formulas for flat
//! sets, and the wider search.
#![tactic(auto)]

mod interpretations;

pub use interpretations::interpretation_of;
