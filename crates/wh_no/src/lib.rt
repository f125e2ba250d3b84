//! NO certificates: a check that accepts one only where a term has reductions of every length.
#![tactic(auto)]

mod check;
mod fault;
mod instance;
mod laws;
mod puts;
mod search;
mod steps;
mod unused;

pub use check::{AcceptedNo, check_no, check_term};
pub use fault::NoFault;
pub use instance::check_instance;
pub use laws::{
    accepted_or_refused, claims_are_valid_or_have_a_first_fault, one_first_fault,
    valid_claims_are_unbounded,
};
pub use puts::add_put;
