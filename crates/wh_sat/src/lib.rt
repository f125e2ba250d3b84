//! A solver of formulas in clauses that learns from conflicts. Each clause that it learns is refuted by
//! propagation, none of its literals can be left out for that, and it contains no earlier clause.
#![tactic(auto)]

mod copying;
mod guide;
mod halving;
mod learner;
mod solving;

pub use copying::{copy_clause, copy_clauses};
pub use learner::{Learner, Next};
pub use solving::{Outcome, Search, solve, solve_owned};
