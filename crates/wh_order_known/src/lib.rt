//! What is known of goals of the path order while inferences for them are looked for: the least number of entries that
//! shows each goal that was asked for, and choices by such numbers; and the goals that lines are for. The crate is
//! small, so that its edits that must fail, each of which costs a proof of it, are cheap.
#![tactic(auto)]

mod choice;
mod copies;
mod entry;
mod key;
mod known;
mod lines;

pub use choice::{Choice, count_of, lesser};
pub use known::Known;
pub use lines::{strict_goal, weak_goal};
