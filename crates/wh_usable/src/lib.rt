//! Usable rules: the lists of rules that a node of interpretations may cover in place of all rules (after Arts and
//! Giesl 2000; the condition is this project's own).
#![tactic(auto)]

mod calls;
mod closed;
mod laws;
mod listed;
mod sides;

pub use closed::{NotClosed, check_closed};
pub use laws::lists_are_closed_or_first_open;
pub use listed::are_rules_in_order;
