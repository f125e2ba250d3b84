//! A solver of formulas in clauses that learns what resolution gives, drops what has not helped, and keeps a list with
//! hints of all that it learnt. Nothing is claimed of its answers: callers check them.
#![tactic(auto)]

mod attempt;
mod cut;
mod engine;
mod models;
mod notes;
mod order;
mod shelf;

pub use attempt::{Attempt, run_engine};
pub use models::is_model;
