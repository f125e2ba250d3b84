//! The node of interpretations: whether polynomials for all symbols, and moves between their monomials, show that no
//! rule and no pair of a set grows, and that the dropped ones shrink.
#![tactic(auto)]

mod check;
mod evidence;
mod fault;
mod laws;
mod lines;
mod normality;
mod pairs;
mod rules;

pub use check::check_covering;
pub use evidence::Evidence;
pub use fault::{CoveringFault, LineFault};
pub use laws::interpretations_cover_or_have_a_first_fault;
