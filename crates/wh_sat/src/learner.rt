//! A solver that can go on: between its answers further clauses can be given to it.

mod conflicts;
mod models;
mod search;

use crate::guide::Guide;
use std::alloc::Global;
use wh_sat_trail::Trail;

/// The clauses that were given and those that were learnt, and how many more may be learnt.
#[derive(Drop)]
pub struct Learner {
    alloc: Global,
    trail: Trail,
    learnt: Vec<bool>,
    left: u64,
    guide: Guide,
}

/// The answer of a search.
pub enum Next {
    /// A truth value for each variable, under which all clauses are true.
    Model(Vec<bool>),
    /// No values make all clauses true.
    Exhausted,
    /// As many clauses were learnt as may be.
    Spent,
}
