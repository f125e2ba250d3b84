//! Projections of marked symbols to arguments: the conditions of the subterm criterion.
#![tactic(auto)]

mod check;
mod decrease;
mod laws;
mod marked;
mod parts;
mod projection;
mod relation;

pub use check::check_projection;
pub use decrease::is_below;
pub use laws::choices_are_a_projection_or_have_a_first_fault;
pub use projection::{Choice, Projection, SubtermFault};
pub use relation::{Relation, relation_at};
