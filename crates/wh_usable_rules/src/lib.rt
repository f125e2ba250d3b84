//! The usable rules of a set of dependency pairs: the least list of rules that a node of interpretations may cover in
//! place of all rules (Arts and Giesl 2000; Hirokawa and Middeldorp 2007; the condition is this project's own).
#![tactic(auto)]

mod calls;
mod taking;
mod usable;

pub use usable::usable_rules;
