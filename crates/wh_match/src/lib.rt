//! Patterns, the left sides of rules, and matching a term with one: `is_pattern` and `match_pattern`.
#![tactic(auto)]

mod matching;
mod pattern;
mod seat;

pub use matching::match_pattern;
pub use pattern::is_pattern;
