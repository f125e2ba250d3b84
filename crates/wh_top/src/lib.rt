//! The program's one call: `run` takes words, files and a sink, and answers with a status. The crate has `run` and its
//! laws alone: for its edits it is proved once more, and the replies are not.
#![tactic(auto)]

mod laws;
mod program;

pub use laws::{
    checks_have_one_answer, each_check_has_an_answer, loops_are_accepted, loops_mean_unbounded,
    proofs_are_accepted, proofs_mean_bounded,
};
pub use program::{report_no_memory, run};
pub use wh_top_naming::Status;
pub use wh_top_words::{Command, read_words};
