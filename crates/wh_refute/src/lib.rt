//! A checker of lists of clauses that show that a formula has no model. It stands on the data of formulas alone, and on
//! nothing of the solver.
#![tactic(auto)]

mod check;
mod fault;
mod laws;
mod look;
mod truth;

pub use check::check_refutation;
pub use fault::{RefuteFault, Refuted};
pub use laws::{refutations_have_no_fault, refutations_refute};
pub use look::{Look, look_at, negation};
pub use truth::Truth;
