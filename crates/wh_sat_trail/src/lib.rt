//! Formulas in clauses, and an assignment that grows by decisions and by what the clauses force.
#![tactic(auto)]

mod assignment;
mod clause;
mod entry;
mod formula;
mod literal;
mod look;
mod trail;
mod watch;

pub use clause::{Clause, Clauses};
pub use entry::{Entry, Refutation};
pub use formula::Formula;
pub use literal::Literal;
pub use trail::Trail;
