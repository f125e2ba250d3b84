//! The reduction pair processor, whatever orders the terms: what is to be shown of a set of dependency pairs, when
//! lines show it, and what is wrong with them first.
#![tactic(auto)]

mod task;

pub use task::{Task, all_rules};
