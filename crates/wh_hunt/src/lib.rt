//! The hunt for loops: `run` is what the program `wanda-hunt` calls. What is found is checked before it is told.
#![tactic(auto)]

mod hunting;
mod program;
mod telling;

pub use program::{report_no_memory, run};
