//! Expressions over interpretations of symbols by higher-order polynomials: their values, and moves that show that one
//! polynomial is at least another.
#![tactic(auto)]

mod covers;
mod evaluating;
mod expression;
mod fault;
mod laws;
mod moves;
mod normalising;
mod normality;
mod renumbering;
mod replacing;
mod scope;
mod table;
mod valued;

pub use covers::at_least;
pub use expression::{Expr, Move, Symbol};
pub use fault::PolyFault;
pub use laws::{faults_are_of_values, values_are_normal, values_are_those_of_the_parts};
pub use moves::{Covers, Moves};
pub use normalising::{normal, normal_call};
pub use normality::is_normal;
pub use renumbering::{raise, raise_arguments, raise_factors};
