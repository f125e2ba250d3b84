//! The search for loops: from the left side of each rule level by level, until a term holds an instance of the one that
//! it came from.
#![tactic(auto)]

mod answer;
mod joining;
mod search;
mod starts;

pub use answer::LoopSearch;
pub use search::find_loop;
pub use wh_loop_reached::{Visit, Visits};
