//! The list of the terms that a search reaches, each with the step to it, and a table by which a term is looked up.
#![tactic(auto)]

mod listing;
mod marks;
mod visit;

pub use listing::{Entry, Listing, Origin, add, is_listed, new_listing, steps_to, visits_of};
pub use visit::{Visit, Visits};
