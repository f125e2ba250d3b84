//! Why a system terminates, why it runs for ever, or where a search gave up, in words. Clauses say what the text begins
//! with, which is what the check answers; the rest of it is pinned by none.
#![tactic(auto)]

mod causes;
mod explain;
mod guessed;

pub use explain::{explain_file, graph_file, lint_file};
