//! The words of the command line, and the commands that they ask for. The crate stands on next to nothing, so that its
//! clause is proved at little cost, and nothing is proved anew here where a command changes.
#![tactic(auto)]

mod items;
mod kept;
mod laws;
mod options;
mod words;

pub use laws::words_ask_for_one_request;
pub use words::{Command, Limits, read_words};
