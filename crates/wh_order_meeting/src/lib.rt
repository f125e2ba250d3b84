//! Whether bits can meet a demand: the demand becomes a circuit, which a solver is asked about.
#![tactic(auto)]

mod meeting;
mod numbering;

pub use meeting::{Meeting, meet};
