//! The replies to the commands of the program: a status and a text for each.
#![tactic(auto)]

mod generating;
mod proving;
mod reducing;
mod refuting;
mod replying;

pub use proving::found_text;
pub use replying::{Reply, reply_to};
