//! Rows of the calls of the method over systems that are read from texts, of generated systems, of the solver, of lists
//! that refute formulas, of circuits, and of the search for projections, which goes through the solver.
//!
//! This crate has tests alone: a library with tests of its own would be proved a second time with them.
#![tactic(auto)]

#[cfg(test)]
mod circuit_rows;
#[cfg(test)]
mod family_rows;
#[cfg(test)]
mod formulas;
#[cfg(test)]
mod list_rows;
#[cfg(test)]
mod method_rows;
#[cfg(test)]
mod projection_rows;
#[cfg(test)]
mod solver_rows;
