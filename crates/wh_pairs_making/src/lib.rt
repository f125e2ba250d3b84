//! The dependency pairs of a system, found: the calls that its rules lead to, without those that others make needless.
//!
//! `calls_of` of wh_pairs_calls finds the calls in the right side of a rule, `candidate` makes a pair of each but for
//! its left side, and `pairs` keeps those that no other candidate of the rule subsumes.
#![tactic(auto)]

mod candidate;
mod conditions;
mod freed;
mod subsumption;
mod survivors;

pub use subsumption::subsumed;
pub use survivors::{TooManyPairs, pairs};
