//! The search for a projection that lets pairs go: a formula in clauses whose models are these projections, and the
//! solver.
#![tactic(auto)]

mod cases;
mod clauses;
mod find;
mod formula;
mod laws;
mod reading;
mod rows;
mod sight;

pub use find::{ProjectionFound, find_projection, find_projection_by, projection_formula};
pub use laws::{formula_is_one, models_are_projections, projections_are_models};
